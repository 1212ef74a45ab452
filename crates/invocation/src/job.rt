//! What answers of an address are judged by: the routes of its job and its cells.
ghost use Rattle.std.specs.Prelude.{◌≡◌};
ghost use Rattle.invocation.specs.Judging.{setting_of};

use address_routing::Routes;
use proto_wire::Text;
use request_reply::Known;
use state_cells::Cells;
use typed_values::TypeName;

/// The routes of a job and the cells of an address: what `request_reply::judge` looks at.
#[derive(Drop)]
pub struct Job<'a> {
    pub routes: &'a Routes,
    pub cells: &'a Cells,
}

impl<'a> Known for Job<'a> {
    ghost setting = { λ job. setting_of job.routes.now job.cells.now };

    fn has_endpoint(&self, kind: &TypeName) -> bool {
        self.routes.endpoint_of(kind).is_some()
    }

    fn has_egress(&self, namespace: &Text, name: &Text) -> bool {
        self.routes.knows_egress(namespace, name)
    }

    fn type_of(&self, name: &Text) -> Option<&Text> {
        match self.cells.find(name) {
            Some(cell) => Some(&cell.spec.typename),
            None => None,
        }
    }

    fn cell_count(&self) -> usize {
        self.cells.len()
    }
}
