//! What follows from how blocks are kept.
//!
//! Each function does nothing: its contract is a law over any files, logs and crashes.
ghost use Rattle.block_log.specs.Laws.{StandsForOne, IsRefusedOrStands, IsRefusedByOnePlace, BehindMeansNothing, HoldsWhatWasAnswered};

/// A file stands for one list of blocks, or is no log by one place.
pub fn a_file_has_one_meaning()
    ensures one { StandsForOne }
    ensures either { IsRefusedOrStands }
    ensures place { IsRefusedByOnePlace }
{}

/// Bytes behind the closed gate mean nothing.
pub fn what_is_behind_means_nothing()
    ensures { BehindMeansNothing }
{}

/// Over any list of openings, appends and crashes at any moment: what the file stands for is, of each life from an
/// opening to a crash, all that was answered Ok, in order, and of the call that was not answered so its body or
/// nothing. So what one life adds is a prefix of what was appended in it, with all that was answered Ok.
pub fn what_was_answered_is_found()
    ensures { HoldsWhatWasAnswered }
{}
