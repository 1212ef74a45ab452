//! What the turns mean. The functions do nothing but call such laws of lower crates: their contracts are laws.
ghost use Rattle.statefun_driver.specs.Laws.{EndsAreRuns, TracesAreStretches};

use invocation::a_request_is_its_head_and_its_letters;
use partition_core::{a_due_letter_is_made, a_partition_is_the_machine, answers_in_turn_are_asked};

/// Turns that begin behind others, whatever the outside answered, are a stretch.
pub fn what_turns_come_to()
    ensures { TracesAreStretches }
{
    a_partition_is_the_machine();
    answers_in_turn_are_asked();
    a_due_letter_is_made();
    a_request_is_its_head_and_its_letters();
}

/// What turns came to, whatever the outside answered, is a run.
pub fn what_turns_come_to_is_a_run()
    ensures { EndsAreRuns }
{
    what_turns_come_to();
}
