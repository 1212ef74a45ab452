//! What follows from what checkpoints mean. The functions do nothing: their contracts are laws.
ghost use Rattle.checkpoint_state.specs.Laws.{RecordsGrow, TheLastIsLoaded, NextKeepsGood, NoneIsGood, LegsKeepGood, ListsKeepGood};
ghost use Rattle.checkpoint_state.specs.Laws.{EgressChangesNoStep, WorkLeadsOn, EgressBacksNoStep, BackingGrows, NextIsBacked};
ghost use Rattle.checkpoint_state.specs.Laws.{CheckpointsAreWork, WorkIsStored, EntriesLeadToTheNext};

/// Entries in order of their keys, all of later legs than those of a record, stand behind it once a checkpoint has them, the takes
/// in its mark and all others in its piece.
pub fn a_record_grows_at_its_end()
    ensures { RecordsGrow }
{}

/// The checkpoint that was completed last is the one that is loaded.
pub fn the_last_checkpoint_is_loaded()
    ensures { TheLastIsLoaded }
{}

/// Behind good contents, a checkpoint whose entries lead from what they stand for to what it stands for is good, its record is
/// theirs with these entries behind it, and none of its calls is of a later leg.
pub fn a_checkpoint_behind_a_good_record_is_good()
    ensures { NextKeepsGood }
{}

/// A folder without checkpoints is good.
pub fn no_checkpoint_is_good()
    ensures { NoneIsGood }
{}

/// Good contents stay so when a later leg is stored.
pub fn a_later_leg_keeps_what_is_good()
    ensures { LegsKeepGood }
{}

/// Good contents stay so over the lists of an ingress that have grown.
pub fn longer_lists_keep_what_is_good()
    ensures { ListsKeepGood }
{}

/// No step looks at what was given to egresses: a record replays as well behind it, and leaves it in front of what it gives.
pub fn egress_changes_no_step()
    ensures { EgressChangesNoStep }
{}

/// A record that leads from work to work does so whatever was given to egresses before.
pub fn work_leads_on_behind_egress()
    ensures { WorkLeadsOn }
{}

/// A record that is backed from a work on is so whatever was given to egresses before.
pub fn egress_backs_no_step()
    ensures { EgressBacksNoStep }
{}

/// A record that exchanges back, with another behind it that more exchanges back from where the first one ends, over lists that
/// have grown, is backed as a whole.
pub fn backed_records_go_on()
    ensures { BackingGrows }
{}

/// The record of good contents that exchanges back, with entries behind it that are backed from the work on that they stand for, is
/// backed as a whole.
pub fn the_next_record_is_backed()
    ensures { NextIsBacked }
{}

/// What a checkpoint stands for is the work that its pieces keep, with the letters that were on the way last.
pub fn what_is_stored_is_a_partition()
    ensures { CheckpointsAreWork }
{}

/// A checkpoint of one partition that keeps its work stands for it, beside what was given to egresses up to it.
pub fn a_partition_is_stored_as_its_state()
    ensures { WorkIsStored }
{}

/// Entries that lead on from the work that contents stand for lead to the checkpoint that keeps what they leave.
pub fn entries_lead_to_the_next_checkpoint()
    ensures { EntriesLeadToTheNext }
{}
