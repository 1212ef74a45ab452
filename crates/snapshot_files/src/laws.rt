//! What follows from the form of a folder.
//!
//! Each function does nothing: its contract is a law over any folders, stores and moments.
ghost use Rattle.snapshot_files.specs.Laws.{StandsForOneThing, BreaksOrStands, IsRefusedOrStands, StandsForItsContents, HasWhatWasPut};

/// A folder stands for one thing at most. One that has a form breaks it nowhere: so where the disk tells, opening it
/// for any job, or for the job that it has, is never refused by `NotAStore`.
pub fn a_folder_stands_for_one_thing()
    ensures one { StandsForOneThing }
    ensures either { BreaksOrStands }
    ensures refused { IsRefusedOrStands }
{}

/// Whatever a crash leaves of the folder of an open store stands for what that store stands for.
pub fn an_open_store_stands_for_its_contents()
    ensures { StandsForItsContents }
{}

/// Where a store says that all was put, what was put is a part for each partition.
pub fn what_was_put_is_there()
    ensures { HasWhatWasPut }
{}
