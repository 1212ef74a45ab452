//! What legs and runs come to. The functions do nothing but call such laws of lower crates: their contracts are laws.
ghost use Rattle.checkpoint_drive.specs.Laws.{LegsCompleteWhatIsGood};
ghost use Rattle.checkpoint_drive.specs.Good.{CommittedIsOfMachine, EmptyIsGood, RunsKeepGood};
ghost use Rattle.checkpoint_drive.specs.Lives.{LivesEndDone, LivesKeepGood, LivesMakeGood};

use checkpoint_state::{
    a_checkpoint_behind_a_good_record_is_good, a_later_leg_keeps_what_is_good,
    backed_records_go_on, egress_backs_no_step, entries_lead_to_the_next_checkpoint,
    longer_lists_keep_what_is_good, no_checkpoint_is_good, what_is_stored_is_a_partition,
};
use statefun_driver::what_turns_come_to;

/// Behind legs that begin where good contents of a folder stand, the contents with the checkpoints that the legs completed are good:
/// their record is the old one with more behind it, and what was backed stays so.
pub fn what_legs_complete_is_good()
    ensures { LegsCompleteWhatIsGood }
{
    what_turns_come_to();
    a_checkpoint_behind_a_good_record_is_good();
    longer_lists_keep_what_is_good();
    backed_records_go_on();
    entries_lead_to_the_next_checkpoint();
    egress_backs_no_step();
}

/// A run over a good folder keeps it good: whatever a crash leaves at any moment of it is good, and has all checkpoints, entries and
/// committed egress that stood there when the run began. Where the run is over, nothing is left to do.
pub fn what_a_run_leaves_is_good()
    ensures { RunsKeepGood }
{
    what_turns_come_to();
    a_checkpoint_behind_a_good_record_is_good();
    longer_lists_keep_what_is_good();
    backed_records_go_on();
    entries_lead_to_the_next_checkpoint();
    egress_backs_no_step();
    a_later_leg_keeps_what_is_good();
    what_is_stored_is_a_partition();
}

/// A good folder stays good over many runs, each of which begins with what a crash at some moment left of the one before: it has all
/// that stood in the first one, and its record is backed by all that the links of all runs exchanged.
pub fn what_many_runs_leave_is_good()
    ensures { LivesKeepGood }
{
    what_a_run_leaves_is_good();
    longer_lists_keep_what_is_good();
    backed_records_go_on();
}

/// A folder without a byte is good, for each job.
pub fn an_empty_folder_is_good()
    ensures { EmptyIsGood }
{
    no_checkpoint_is_good();
}

/// Many runs over a folder that was empty at first, each over what a crash left of the one before, leave it good, and each answer in its
/// record is one that an endpoint gave in one of the runs.
pub fn what_runs_make_of_nothing_is_good()
    ensures { LivesMakeGood }
{
    what_many_runs_leave_is_good();
    an_empty_folder_is_good();
}

/// Where the last of such runs is done, all egress is committed, and nothing is left to do of what stood in the lists when it began.
pub fn what_many_runs_have_done()
    ensures { LivesEndDone }
{
    what_runs_make_of_nothing_is_good();
    an_empty_folder_is_good();
    what_a_run_leaves_is_good();
    longer_lists_keep_what_is_good();
    backed_records_go_on();
}

/// What is committed in a good folder is what the sequential machine gave to egresses on the record of the checkpoints up to one of
/// them: nothing twice, nothing left out, and nothing else.
pub fn what_is_committed_is_of_the_machine()
    ensures { CommittedIsOfMachine }
{}
