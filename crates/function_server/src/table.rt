//! Functions by their names.
ghost use Rattle.std.specs.Prelude.{◌≡◌, map, IfOk};
ghost use Rattle.function_server.specs.Tables.{service_of};
ghost use Rattle.function_server.specs.Answering.{answer_of, answer_by, Gives};

use crate::answering::missing_of;
use crate::{Function, ServeFault};
use proto_wire::Mem;
use request_reply::{FromFunction, IncompleteInvocationContext, InvocationBatchRequest};
use std::alloc::Global;
use typed_values::TypeName;

/// A function of a table, owned.
pub type OwnedFunction = Box<dyn Function + Send + Sync + Drop>;

/// A function under its name.
pub type Entry = (TypeName, OwnedFunction);

/// What is known of a function under its name.
pub trait Served {
    ghost use Rattle.function_server.specs.Tables.{Service};

    /// Its name, the cells that it declares, and what it answers.
    ghost service: { Self → Service };
}

impl Served for Entry {
    ghost service = { λ entry. record {
      name = entry.0;
      declares = (Function-box entry.1).declared entry.1.value;
      answers = (Function-box entry.1).served entry.1.value;
    } };
}

/// What is known of functions under their names.
pub trait Services {
    ghost use Rattle.std.specs.Prelude.{List};
    ghost use Rattle.function_server.specs.Tables.{Service};

    /// The functions, each under its name.
    ghost services: { Self → List Service };
}

/// Functions by their names. Of two with one name the first counts.
#[derive(Drop)]
pub struct FunctionTable {
    entries: Vec<Entry>,
}

impl Services for FunctionTable {
    ghost services = { λ table. map (λ entry. record {
      name = entry.0;
      declares = (Function-box entry.1).declared entry.1.value;
      answers = (Function-box entry.1).served entry.1.value;
    }) table.entries.items };
}

impl FunctionTable {
    /// A table of these functions.
    pub fn new(entries: Vec<Entry>) -> FunctionTable
        ensures { ⟦<FunctionTable as Services>⟧.services result ≡ map ⟦<Entry as Served>⟧.service entries.items }
    {
        FunctionTable { entries }
    }

    /// The answer of the function of a type to a batch: `NotServed` exactly where there is none.
    pub(crate) fn answer(
        &self,
        alloc: Global,
        kind: &TypeName,
        batch: &InvocationBatchRequest,
    ) -> Result<FromFunction, ServeFault>
        ensures { Gives result (answer_by (service_of (⟦<FunctionTable as Services>⟧.services self.now) kind.now) batch.now) }
    {
        answer_in(alloc, self.entries.as_slice(), kind, batch)
    }
}

/// The same by the functions and their names.
fn answer_in(
    alloc: Global,
    entries: &[Entry],
    kind: &TypeName,
    batch: &InvocationBatchRequest,
) -> Result<FromFunction, ServeFault>
    ensures { Gives result (answer_by (service_of (map ⟦<Entry as Served>⟧.service entries.now) kind.now) batch.now) }
{
    for entry in entries {
        if entry.0 == *kind {
            return Ok(answer_of_one(alloc, entry, batch)?);
        }
    }
    Err(ServeFault::NotServed)
}

/// The answer of one function.
fn answer_of_one(alloc: Global, entry: &Entry, batch: &InvocationBatchRequest) -> Mem<FromFunction>
    ensures { IfOk result (λ answer. answer ≡ answer_of (⟦<Entry as Served>⟧.service entry.now).declares ((⟦<Entry as Served>⟧.service entry.now).answers batch.now) batch.now) }
{
    let states = entry.1.states(alloc)?;
    let missing = missing_of(alloc, states.as_slice(), batch.state.as_slice())?;
    if missing.is_empty() {
        return Ok(FromFunction::Result(entry.1.answer(alloc, batch)?));
    }
    Ok(FromFunction::Incomplete(IncompleteInvocationContext {
        missing_values: missing,
    }))
}
