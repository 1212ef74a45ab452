//! The function that adds.
ghost use Rattle.std.specs.Prelude.{◌≡◌, IfOk};
ghost use Rattle.function_server.specs.Adding.{total_cells, int_in, ints_in, sum_in, sum_after, sum_set, total_answer, next_sum};

use crate::Function;
use crate::messages::{one_cell, set_to, shipped};
use proto_wire::{List, Mem};
use request_reply::{
    BatchInvocation, InvocationBatchRequest, InvocationResponse, PersistedValueMutation,
};
use std::alloc::Global;
use typed_values::{CellSpec, int_of, long_of, long_value};

/// Adds the ints that it is sent into its cell `sum`, a long that stays within 64 bits: `com.example/total`. Letters that
/// are no ints are passed over, and nothing is sent.
#[derive(Clone, Copy)]
pub struct Total;

impl Function for Total {
    ghost declared = { λ _. total_cells };

    ghost served = { λ _ batch. total_answer batch };

    fn states(&self, alloc: Global) -> Mem<List<CellSpec>> {
        one_cell(alloc, "sum", "io.statefun.types/long")
    }

    fn answer(&self, alloc: Global, batch: &InvocationBatchRequest) -> Mem<InvocationResponse> {
        let numbers = ints_in(alloc, batch.invocations.as_slice())?;
        let state_mutations = sum_set(alloc, sum_in(batch), numbers.as_slice())?;
        Ok(InvocationResponse {
            state_mutations,
            outgoing_messages: List::new(alloc),
            delayed_invocations: List::new(alloc),
            outgoing_egresses: List::new(alloc),
        })
    }
}

/// The sum that is shipped, or 0.
fn sum_in(batch: &InvocationBatchRequest) -> i64
    ensures { result ≡ sum_in batch.now }
{
    match shipped(batch.state.as_slice(), "sum") {
        Some(value) => long_of(value).unwrap_or(0),
        None => 0,
    }
}

/// The ints among letters, in order.
fn ints_in(alloc: Global, letters: &[BatchInvocation]) -> Mem<Vec<i32>>
    ensures { IfOk result (λ numbers. numbers.items ≡ ints_in letters.now) }
{
    let mut numbers = Vec::new(alloc);
    for letter in letters {
        if let Some(number) = int_in(letter) {
            numbers.push(number)?;
        }
    }
    Ok(numbers)
}

/// The int of a letter, where it is one.
fn int_in(letter: &BatchInvocation) -> Option<i32>
    ensures { result ≡ int_in letter.now }
{
    match &letter.argument {
        Some(argument) => int_of(argument),
        None => None,
    }
}

/// The cell with the new sum, where an int came.
fn sum_set(alloc: Global, sum: i64, numbers: &[i32]) -> Mem<List<PersistedValueMutation>>
    ensures { IfOk result (λ mutations. mutations ≡ sum_set sum numbers.now) }
{
    let mut mutations = List::new(alloc);
    if !numbers.is_empty() {
        let value = long_value(alloc, sum_after(sum, numbers))?;
        mutations.push(set_to(alloc, "sum", value)?)?;
    }
    Ok(mutations)
}

/// The sum with these numbers.
fn sum_after(sum: i64, numbers: &[i32]) -> i64
    ensures { result ≡ sum_after sum numbers.now }
{
    let mut now = sum;
    for number in numbers {
        now = next_sum(now, *number);
    }
    now
}

/// The sum with one more number, within a long.
fn next_sum(sum: i64, number: i32) -> i64
    ensures { result ≡ next_sum sum number }
{
    sum.saturating_add(i64::from(number))
}
