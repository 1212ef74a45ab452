//! The run record, and what it means: the plain sequential machine.
#![tactic(auto)]

mod applying;
mod effects;
mod egress;
mod entry;
mod filling;
mod laws;
mod letters;
mod machine;
mod matching;
mod merging;
mod part;
mod parts;
mod picking;
mod placing;
mod replaying;
mod requesting;

pub use egress::{put_answer_text, put_egress_line, put_egress_text};
pub use entry::{Entry, Reply, Step};
pub use laws::{
    a_delayed_letter_is_not_sent_once_cancelled, a_delayed_letter_is_sent_in_time,
    a_delayed_letter_is_sent_once, a_merge_replays, a_step_goes_to_its_key,
    answers_take_effect_as_spelled, cells_are_those_of_accepted_answers,
    delayed_letters_are_sent_as_they_come_due, delays_are_those_of_accepted_answers,
    each_record_is_taken_once, egress_is_that_of_the_answers, letters_are_delivered_in_order,
    moments_never_fall, only_valid_answers_count, records_are_taken_in_order,
    records_become_letters_in_order, replays_are_runs_of_actors, the_value_written_last_is_carried,
};
pub use letters::{caller_of, letters_of};
pub use machine::Machine;
pub use merging::merge;
pub use part::{change_cells, change_delays, register_all};
pub use replaying::{ReplayFault, Replayed, replay};
