//! One partition.
ghost use Rattle.std.specs.Prelude.{◌≡◌, []};

use crate::actors::Actors;
use batch_queue::Mail;
use delayed_messages::Delays;
use state_cells::Cells;
use std::alloc::Global;

/// What a partition has to do: letters by arrival, the cells of each address with the moment of its last batch, and delayed
/// letters. Of a call that answers `OutOfMemory` a part may be done: then the partition is of no use any more.
#[derive(Drop)]
pub struct Partition {
    pub(crate) alloc: Global,
    pub(crate) mail: Mail,
    pub(crate) actors: Actors,
    pub(crate) delays: Delays,
    /// The cells of an address that has none.
    pub(crate) none: Cells,
    ghost none_is: { none ≡ [] },
}
