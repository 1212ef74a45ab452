//! What a checkpoint says of itself.
ghost use Rattle.std.specs.Prelude.{◌≡◌, ◌<◌, ◌^◌};
ghost use Rattle.std.specs.List.{list_all};
ghost use Rattle.folder_form.specs.Folders.{is_next, takes};

use crate::Shape;
use folder_messages::Complete;
use run_record::{Entry, Step};

/// Whether an entry takes a record of a split.
fn takes(entry: &Entry) -> bool
    ensures { result ≡ takes entry.now }
{
    match &entry.step {
        Step::Take(_split) => true,
        Step::Batch(_reply) => false,
        Step::Register(_reply) => false,
        Step::Due { .. } => false,
    }
}

/// Whether all entries take records.
fn are_takes(entries: &[Entry]) -> bool
    ensures { result ≡ list_all takes entries.now }
{
    entries.iter().all(|entry| takes(entry))
}

/// Whether a checkpoint may come next behind so many: its number is the next and not above its leg, it has a count for each
/// split and a place for each partition, and the entries beside them are takes.
#[tactic(auto, unfolding(crate::specs::Folders::is_next))]
pub fn is_next(shape: Shape, newest: u64, complete: &Complete) -> bool
    requires { newest < 2 ^ 62 }
    ensures { result ≡ is_next shape newest complete.now }
{
    complete.number == newest + 1
        && complete.number <= complete.leg
        && complete.taken.len() as u64 == shape.splits
        && complete.places.len() as u64 == shape.partitions as u64
        && are_takes(complete.takes.as_slice())
}
