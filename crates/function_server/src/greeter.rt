//! The function of greetings.
ghost use Rattle.std.specs.Prelude.{◌≡◌, length, map, IfOk};
ghost use Rattle.function_server.specs.Greeting.{greeter_cells, text_in, names_in, count_in, count_with, greeting, greeting_to, greetings, one_more, seen_set, greeted, greeter_answer};

use crate::Function;
use crate::messages::{address_of, egress_to, message_to, one_cell, set_to, shipped};
use proto_wire::{List, Mem, Text};
use request_reply::{
    BatchInvocation, EgressMessage, InvocationBatchRequest, InvocationResponse, OutgoingInvocation,
    PersistedValueMutation,
};
use std::alloc::Global;
use typed_values::{CellSpec, int_of, int_value, text_of, text_value};

/// Greets each text that it is sent, and counts them: `com.example/greeter`.
///
/// Its cell `seen` holds how many came so far, at most 2,147,483,647. For each text T, in order, it gives `hello T N` to the
/// egress `com.example/greetings`, where N is the count with it, and sends the int 1 to `com.example/total/all`. Letters that
/// are no texts are passed over.
#[derive(Clone, Copy)]
pub struct Greeter;

impl Function for Greeter {
    ghost declared = { λ _. greeter_cells };

    ghost served = { λ _ batch. greeter_answer batch };

    fn states(&self, alloc: Global) -> Mem<List<CellSpec>> {
        one_cell(alloc, "seen", "io.statefun.types/int")
    }

    fn answer(&self, alloc: Global, batch: &InvocationBatchRequest) -> Mem<InvocationResponse> {
        let names = names_in(alloc, batch.invocations.as_slice())?;
        let response = greeted(alloc, count_in(batch), names.as_slice())?;
        Ok(response)
    }
}

/// The count that is shipped, or 0.
fn count_in(batch: &InvocationBatchRequest) -> i32
    ensures { result ≡ count_in batch.now }
{
    match shipped(batch.state.as_slice(), "seen") {
        Some(value) => int_of(value).unwrap_or(0),
        None => 0,
    }
}

/// The texts among letters, in order.
fn names_in(alloc: Global, letters: &[BatchInvocation]) -> Mem<List<Text>>
    ensures { IfOk result (λ names. names ≡ names_in letters.now) }
{
    let mut names = List::new(alloc);
    for letter in letters {
        if let Some(name) = text_in(alloc, letter)? {
            names.push(name)?;
        }
    }
    Ok(names)
}

/// The text of a letter, where it is one.
fn text_in(alloc: Global, letter: &BatchInvocation) -> Mem<Option<Text>>
    ensures { IfOk result (λ name. name ≡ text_in letter.now) }
{
    match &letter.argument {
        Some(argument) => text_of(alloc, argument),
        None => Ok(None),
    }
}

/// What is answered to names, where so many came before.
fn greeted(alloc: Global, count: i32, names: &[Text]) -> Mem<InvocationResponse>
    ensures { IfOk result (λ response. response ≡ greeted count names.now) }
{
    Ok(InvocationResponse {
        state_mutations: seen_set(alloc, count, names)?,
        outgoing_messages: one_more_each(alloc, names)?,
        delayed_invocations: List::new(alloc),
        outgoing_egresses: greetings(alloc, count, names)?,
    })
}

/// The cell with the new count, where a name came.
fn seen_set(alloc: Global, count: i32, names: &[Text]) -> Mem<List<PersistedValueMutation>>
    ensures { IfOk result (λ mutations. mutations ≡ seen_set count names.now) }
{
    let mut mutations = List::new(alloc);
    if !names.is_empty() {
        let value = int_value(alloc, count_after(count, names))?;
        mutations.push(set_to(alloc, "seen", value)?)?;
    }
    Ok(mutations)
}

/// How many came with these names.
#[tactic(auto, using(crate::proofs::Counting::count_steps))]
fn count_after(count: i32, names: &[Text]) -> i32
    ensures { result ≡ count_with count (length names.now) }
{
    let mut now = count;
    for _name in names {
        now = next_count(now);
    }
    now
}

/// One more, at most the greatest int.
fn next_count(count: i32) -> i32
    ensures { result ≡ count_with count 1 }
{
    count.saturating_add(1)
}

/// The int 1 for the total, for each name.
fn one_more_each(alloc: Global, names: &[Text]) -> Mem<List<OutgoingInvocation>>
    ensures { IfOk result (λ messages. messages ≡ map (λ _. one_more) names.now) }
{
    let mut messages = List::new(alloc);
    for _name in names {
        messages.push(one_more(alloc)?)?;
    }
    Ok(messages)
}

/// The int 1 for the total.
fn one_more(alloc: Global) -> Mem<OutgoingInvocation>
    ensures { IfOk result (λ message. message ≡ one_more) }
{
    let target = address_of(alloc, "total", "all")?;
    let argument = int_value(alloc, 1)?;
    Ok(message_to(target, argument))
}

/// A greeting for each name, with the count that it makes.
#[tactic(auto, using(crate::proofs::Counting::count_steps))]
fn greetings(alloc: Global, count: i32, names: &[Text]) -> Mem<List<EgressMessage>>
    ensures { IfOk result (λ records. records ≡ greetings count 0 names.now) }
{
    let mut records = List::new(alloc);
    let mut now = count;
    for name in names {
        now = next_count(now);
        records.push(greeting_to(alloc, name, now)?)?;
    }
    Ok(records)
}

/// The greeting of a name for its egress.
fn greeting_to(alloc: Global, name: &Text, count: i32) -> Mem<EgressMessage>
    ensures { IfOk result (λ made. made ≡ greeting_to name.now count) }
{
    let text = greeting(alloc, name, count)?;
    let value = text_value(alloc, &text)?;
    let record = egress_to(alloc, "greetings", value)?;
    Ok(record)
}

/// The greeting of a name.
fn greeting(alloc: Global, name: &Text, count: i32) -> Mem<Text>
    ensures { IfOk result (λ text. text ≡ greeting name.now count) }
{
    let number = format!(in alloc; "{count}")?;
    let mut text = Text::copy_of(alloc, "hello ")?;
    text.append(name.as_str())?;
    text.append(" ")?;
    text.append(number.as_str())?;
    Ok(text)
}
