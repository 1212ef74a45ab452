//! What an answer is judged by.
ghost use Rattle.std.specs.Prelude.{◌≡◌, length};
ghost use Rattle.std.specs.Option.{option_copied};
ghost use Rattle.request_reply.specs.Flaws.{Setting, has_endpoint, has_egress, type_of};

use proto_wire::Text;
use typed_values::TypeName;

/// What a job and an address have, as far as answers of the address are judged by it. An answer is judged in the time of its
/// own length where each call takes a look-up's time.
pub trait Known {
    /// The job's endpoints and egresses, and the cells of the address.
    ghost setting: { Self → Setting };

    /// Whether an endpoint serves the functions of a type.
    fn has_endpoint(&self, kind: &TypeName) -> bool
        ensures { result ≡ has_endpoint (setting self.now).endpoints kind.now };

    /// Whether there is an egress of that name in that namespace.
    fn has_egress(&self, namespace: &Text, name: &Text) -> bool
        ensures { result ≡ has_egress (setting self.now).egresses namespace.now name.now };

    /// The type of the values of the cell of a name; `None` exactly where no cell has it.
    fn type_of(&self, name: &Text) -> Option<&Text>
        ensures { option_copied result ≡ type_of name.now (setting self.now).cells };

    /// How many cells there are.
    fn cell_count(&self) -> usize
        ensures { result ≡ length (setting self.now).cells };
}
