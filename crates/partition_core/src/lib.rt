//! One partition: the letters that wait for its addresses, what each address has, and its delayed letters.
#![tactic(auto)]

mod actor;
mod actors;
mod bounds;
mod calls;
mod keeping;
mod kept_work;
mod laws;
mod opened;
mod partition;
mod restoring;

pub use bounds::Bounds;
pub use kept_work::KeptWork;
pub use laws::{
    a_due_letter_is_made, a_partition_is_the_machine, answers_in_turn_are_asked, kept_letters_wait,
    kept_work_is_the_state,
};
pub use opened::Opened;
pub use partition::Partition;
pub use restoring::restored_cells;
