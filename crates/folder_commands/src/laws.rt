//! What follows for a log that was appended to. The function does nothing: its contract is a law.
ghost use Rattle.folder_commands.specs.Laws.{AppendedBehind, ReadsAll};

/// What is read of a log that was appended to is the records that it had, and then those that were appended.
pub fn appended_records_are_read()
    ensures behind { AppendedBehind }
    ensures reads { ReadsAll }
{}
