//! What a partition's work means. The functions do nothing: their contracts are laws.
ghost use Rattle.partition_core.specs.Laws.{AnswersAreAsked, DueIsMade, IsTheMachine, KeptIsTheState, KeptLettersWait};

/// What a partition does at a step of the sequential machine is that step.
pub fn a_partition_is_the_machine()
    ensures { IsTheMachine }
{}

/// An answer to the letters in flight is one that the machine takes.
pub fn answers_in_turn_are_asked()
    ensures { AnswersAreAsked }
{}

/// The delayed letter that is due first of all is the one that the machine sends.
pub fn a_due_letter_is_made()
    ensures { DueIsMade }
{}

/// What a checkpoint keeps of a partition's work stands for the same state of the machine.
pub fn kept_work_is_the_state()
    ensures { KeptIsTheState }
{}

/// Of kept work no letter is in flight: each waits with its target, and each address with letters stands once in line.
pub fn kept_letters_wait()
    ensures { KeptLettersWait }
{}
