//! What follows from the definitions of the machine, over every record that replays.
//!
//! Each function does nothing, or calls such a law of a lower crate: its contract is a law.
ghost use Rattle.run_record.specs.Actors.{ReplaysAreRuns, StepsGoToTheirKeys, MergesReplay};
ghost use Rattle.run_record.specs.Deliveries.{EachTakenOnce, TakenInOrder, RecordsBecomeLetters, DeliveredInOrder};
ghost use Rattle.run_record.specs.Egress.{EgressIsOfAnswers};
ghost use Rattle.run_record.specs.Histories.{CellsAreMade, LastWrittenIsCarried, DelaysAreMade, DueAreSent, SentOnce, SentInTime, NotSentOnceCancelled};
ghost use Rattle.run_record.specs.Histories.{MomentsNeverFall, OnlyValidAnswersCount};
ghost use Rattle.run_record.specs.Spelled.{AnswersTakeEffect};

use delayed_messages::{none_is_sent_early, the_least_is_due};

/// A record of a split is taken at most once.
pub fn each_record_is_taken_once()
    ensures { EachTakenOnce }
{}

/// The records that are taken of a split are the first of its list, in order, as many as the state at the end says.
pub fn records_are_taken_in_order()
    ensures { TakenInOrder }
{}

/// What a split puts into the mail of a target are the letters that the records taken of it become: those of the first records
/// of its list, in order, each once.
pub fn records_become_letters_in_order()
    ensures { RecordsBecomeLetters }
{}

/// What is put into the mail of a sender and a target, by takes, answers and delays that come due, is in order what requests
/// deliver of it and then what still waits there. So a letter is delivered at most once, and those of a pair in the order of
/// their sending.
pub fn letters_are_delivered_in_order()
    ensures { DeliveredInOrder }
{}

/// What an address gave to an egress is what the results that its answers spell give to it, in order.
pub fn egress_is_that_of_the_answers()
    ensures { EgressIsOfAnswers }
{}

/// The cells of an address are what its registrations, invocations and mutations make of none, in the order of the record.
pub fn cells_are_those_of_accepted_answers()
    ensures { CellsAreMade }
{}

/// Each value that a request carries is the last one that an accepted answer wrote into that cell, not deleted since, and it
/// is not expired.
pub fn the_value_written_last_is_carried()
    ensures { LastWrittenIsCarried }
{}

/// The delayed letters of an address that wait are what its answers and its steps Due make of none, in the order of the record.
pub fn delays_are_those_of_accepted_answers()
    ensures { DelaysAreMade }
{}

/// The letters that the steps Due of an address send are those that come due of its delays, each at the moment of its step.
pub fn delayed_letters_are_sent_as_they_come_due()
    ensures { DueAreSent }
{}

/// A delayed letter is sent at most once.
pub fn a_delayed_letter_is_sent_once()
    ensures { SentOnce }
{
    the_least_is_due();
}

/// A delayed letter is never sent before its time.
pub fn a_delayed_letter_is_sent_in_time()
    ensures { SentInTime }
{
    none_is_sent_early();
}

/// A delayed letter is never sent after its cancellation.
pub fn a_delayed_letter_is_not_sent_once_cancelled()
    ensures { NotSentOnceCancelled }
{
    the_least_is_due();
}

/// The moments of the batches and registrations of an address never fall, and the state keeps the last.
pub fn moments_never_fall()
    ensures { MomentsNeverFall }
{}

/// A batch that is made has an answer whose bytes spell a valid result, and does what this result says; a registration has one
/// that spells a valid list of missing values, and declares those that are new.
pub fn answers_take_effect_as_spelled()
    ensures { AnswersTakeEffect }
{}

/// An answer that is not valid changes nothing: neither a batch nor a registration of it is allowed.
pub fn only_valid_answers_count()
    ensures { OnlyValidAnswersCount }
{}

/// The machine is one of actors: a split or an address has something of its own, and each of the four steps looks at its
/// actor's own and at the first letters to it, changes its own, and sends. A record replays exactly where it is a run of these.
pub fn replays_are_runs_of_actors()
    ensures { ReplaysAreRuns }
{}

/// A step that may be made at the end of a record, later than its actor's own steps there, and whose letters were sent by
/// earlier keys, may stand at its key's place: the record still replays, and ends behind the step but for egress.
pub fn a_step_goes_to_its_key()
    ensures { StepsGoToTheirKeys }
{}

/// Steps that each actor made by itself, and that fit, replay when they are merged by their keys, also behind a record of
/// earlier keys; the end is what each actor's own steps make.
pub fn a_merge_replays()
    ensures { MergesReplay }
{}
