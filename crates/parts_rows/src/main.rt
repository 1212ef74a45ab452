//! The program `parts_rows`: makes the calls on one value that rows on standard input ask for, and prints their answers.
#![tactic(auto)]

mod cells_rows;
mod delays_rows;
mod mail_rows;
mod pieces;

use batch_queue::{
    a_batch_keeps_the_limit, letters_leave_in_order_of_arrival, size_is_that_of_the_request,
};
use delayed_messages::{
    a_cancellation_takes_its_own, none_is_due_before_its_moment, none_is_lost, none_is_sent_early,
    the_least_is_due,
};
use row_text::{Failure, Rows, show_rows};
use state_cells::{
    a_value_lives_from_its_use, a_value_lives_from_its_write, a_value_stays_for_good,
};
use std::alloc::Global;
use std::process::ExitCode;

#[derive(Drop)]
struct PartsRows;

impl Rows for PartsRows {
    fn shown(&self, alloc: Global, row: &str) -> Result<String, Failure> {
        let (kind, words) = row.split_once(' ').unwrap_or((row, ""));
        match kind {
            "cells" => cells_rows::show(alloc, words),
            "delays" => delays_rows::show(alloc, words),
            "mail" => mail_rows::show(alloc, words),
            "laws" => laws(alloc),
            _ => Err(Failure::Row),
        }
    }
}

/// Calls the laws of the parts, which do nothing.
fn laws(alloc: Global) -> Result<String, Failure> {
    a_value_stays_for_good();
    a_value_lives_from_its_write();
    a_value_lives_from_its_use();
    a_cancellation_takes_its_own();
    the_least_is_due();
    none_is_due_before_its_moment();
    none_is_sent_early();
    none_is_lost();
    size_is_that_of_the_request();
    a_batch_keeps_the_limit();
    letters_leave_in_order_of_arrival();
    Ok(String::from_str(alloc, "  called\n")?)
}

fn main(rt: HostRuntime) -> ExitCode {
    show_rows(&rt, "parts_rows", &PartsRows)
}
