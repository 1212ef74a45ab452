//! What the checkpoints of a folder mean, as states of the sequential machine.
#![tactic(auto)]

mod laws;
mod matching;

pub use laws::{
    a_checkpoint_behind_a_good_record_is_good, a_later_leg_keeps_what_is_good,
    a_partition_is_stored_as_its_state, a_record_grows_at_its_end, backed_records_go_on,
    egress_backs_no_step, egress_changes_no_step, entries_lead_to_the_next_checkpoint,
    longer_lists_keep_what_is_good, no_checkpoint_is_good, the_last_checkpoint_is_loaded,
    the_next_record_is_backed, what_is_stored_is_a_partition, work_leads_on_behind_egress,
};
pub use matching::{machine_of, matches};

#[cfg(test)]
mod tests;
