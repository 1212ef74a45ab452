//! The kinds of rows.
use crate::lines::{line, url};
use crate::merging::merged;
use crate::replaying::replayed;
use crate::stepping::stepped;
use row_text::Failure;
use run_record::{
    a_delayed_letter_is_not_sent_once_cancelled, a_delayed_letter_is_sent_in_time,
    a_delayed_letter_is_sent_once, a_merge_replays, a_step_goes_to_its_key,
    answers_take_effect_as_spelled, cells_are_those_of_accepted_answers,
    delayed_letters_are_sent_as_they_come_due, delays_are_those_of_accepted_answers,
    each_record_is_taken_once, egress_is_that_of_the_answers, letters_are_delivered_in_order,
    moments_never_fall, only_valid_answers_count, records_are_taken_in_order,
    records_become_letters_in_order, replays_are_runs_of_actors, the_value_written_last_is_carried,
};
use std::alloc::Global;

/// What came of a row, which is its kind and, behind a blank, its words.
pub(crate) fn shown(alloc: Global, row: &str) -> Result<String, Failure> {
    let (kind, words) = row.split_once(' ').unwrap_or((row, ""));
    match kind {
        "steps" => stepped(alloc, words),
        "replay" => replayed(alloc, words),
        "merge" => merged(alloc, words),
        "line" => line(alloc, words),
        "url" => url(alloc, words),
        "laws" => laws(alloc),
        _ => Err(Failure::Row),
    }
}

/// Calls the laws of a replay, which do nothing.
fn laws(alloc: Global) -> Result<String, Failure> {
    each_record_is_taken_once();
    records_are_taken_in_order();
    records_become_letters_in_order();
    letters_are_delivered_in_order();
    egress_is_that_of_the_answers();
    cells_are_those_of_accepted_answers();
    the_value_written_last_is_carried();
    delays_are_those_of_accepted_answers();
    delayed_letters_are_sent_as_they_come_due();
    a_delayed_letter_is_sent_once();
    a_delayed_letter_is_sent_in_time();
    a_delayed_letter_is_not_sent_once_cancelled();
    moments_never_fall();
    answers_take_effect_as_spelled();
    only_valid_answers_count();
    replays_are_runs_of_actors();
    a_step_goes_to_its_key();
    a_merge_replays();
    Ok(String::from_str(alloc, "  called\n")?)
}
