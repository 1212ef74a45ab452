//! Rows of steps, one after the other, and of what the machine then holds.
use crate::entries::{record, sender_of, step_of};
use crate::job::{function, name, routes};
use address_routing::Routes;
use proto_wire::Mem;
use row_text::{Failure, text_of};
use run_record::{Entry, Machine, Step};
use sf_outside::IngressRecord;
use std::alloc::Global;
use typed_values::{Cell, Delay, TypedValue};

/// What each word comes to, from the first state on, in a line of its own.
///
/// | Word | What is printed |
/// |---|---|
/// | `take:SPLIT:KEY`, `take:SPLIT` | whether a take is allowed where the split has a record of this key next, or none |
/// | `serve:ID:MOMENT:SENDERS:ANSWER`, `register:..`, `due:ID:MOMENT` | whether that step is allowed |
/// | `taken:SPLIT`, `seen:ID` | how many records were taken; the moment of the last batch or registration |
/// | `cells:ID`, `delays:ID` | the cells of `n/f` of ID; its delayed letters that wait |
/// | `mail:SENDER:ID`, `egress:ID` | the values that wait for `n/f` of ID, or that it gave to `n/e`, in hexadecimal |
pub(crate) fn stepped(alloc: Global, words: &str) -> Result<String, Failure> {
    let routes = routes(alloc)?;
    let mut machine = Machine::new(alloc, 2)?;
    let mut text = String::new(alloc);
    for word in words.split_whitespace() {
        let told = told(alloc, &mut machine, &routes, word)?;
        text.push_str(format!(in alloc; "  {word} {told}\n")?.as_str())?;
    }
    Ok(text)
}

fn told(
    alloc: Global,
    machine: &mut Machine,
    routes: &Routes,
    word: &str,
) -> Result<String, Failure> {
    let (kind, fields) = word.split_once(':').ok_or(Failure::Row)?;
    match kind {
        "take" => take(alloc, machine, routes, fields),
        "serve" | "register" | "due" => made(alloc, machine, routes, step_of(alloc, word)?, None),
        "taken" => number_text(alloc, machine.taken(fields.parse::<u32>()?)),
        "seen" => seen(alloc, machine, fields),
        "cells" => cells(alloc, machine, fields),
        "delays" => delays(alloc, machine, fields),
        "mail" => mail(alloc, machine, fields),
        "egress" => egress(alloc, machine, fields),
        _ => Err(Failure::Row),
    }
}

fn take(
    alloc: Global,
    machine: &mut Machine,
    routes: &Routes,
    fields: &str,
) -> Result<String, Failure> {
    match fields.split_once(':') {
        None => made(
            alloc,
            machine,
            routes,
            Step::Take(fields.parse::<u32>()?),
            None,
        ),
        Some((split, key)) => {
            let found = record(alloc, key)?;
            made(
                alloc,
                machine,
                routes,
                Step::Take(split.parse::<u32>()?),
                Some(&found),
            )
        }
    }
}

/// Makes a step.
fn made(
    alloc: Global,
    machine: &mut Machine,
    routes: &Routes,
    step: Step,
    found: Option<&IngressRecord>,
) -> Result<String, Failure> {
    let entry = Entry {
        leg: 1,
        stamp: 0,
        node: 0,
        step,
    };
    let allowed = applied(alloc, machine, routes, &entry, found)?;
    let text = if allowed { "yes" } else { "no" };
    Ok(String::from_str(alloc, text)?)
}

/// The one call of the machine's step; a split of so many records is none of a row.
fn applied(
    alloc: Global,
    machine: &mut Machine,
    routes: &Routes,
    entry: &Entry,
    found: Option<&IngressRecord>,
) -> Result<bool, Failure> {
    if let Step::Take(split) = &entry.step {
        if machine.taken(*split) >= 1000 {
            return Err(Failure::Row);
        }
    }
    Ok(machine.apply(alloc, entry, found, routes)?)
}

fn number_text(alloc: Global, number: u64) -> Result<String, Failure> {
    Ok(format!(in alloc; "{number}")?)
}

fn seen(alloc: Global, machine: &Machine, id: &str) -> Result<String, Failure> {
    let address = function(alloc, text_of(alloc, id)?)?;
    number_text(alloc, machine.seen(&address))
}

fn cells(alloc: Global, machine: &Machine, id: &str) -> Result<String, Failure> {
    let address = function(alloc, text_of(alloc, id)?)?;
    let mut text = String::new(alloc);
    for place in 0..64 {
        match machine.cell(&address, place) {
            Some(cell) => put_cell(alloc, &mut text, cell)?,
            None => break,
        }
    }
    Ok(or_none(alloc, text)?)
}

/// Adds a cell's name, type, stamp and value, behind a `,` where something stands before it.
fn put_cell(alloc: Global, into: &mut String, cell: &Cell) -> Result<(), Failure> {
    if !into.is_empty() {
        into.push_str(",")?;
    }
    let name = cell.spec.name.as_str();
    let kind = cell.spec.typename.as_str();
    let stamp = cell.stamp;
    let value = match &cell.value {
        Some(value) => hex::encode(alloc, value.value.as_slice())?,
        None => String::from_str(alloc, "none")?,
    };
    into.push_str(format!(in alloc; "{name}:{kind}:{stamp}:{value}")?.as_str())?;
    Ok(())
}

fn delays(alloc: Global, machine: &Machine, id: &str) -> Result<String, Failure> {
    let address = function(alloc, text_of(alloc, id)?)?;
    let mut text = String::new(alloc);
    for delay in machine.delays(alloc, &address)?.as_slice() {
        put_delay(alloc, &mut text, delay)?;
    }
    Ok(or_none(alloc, text)?)
}

/// Adds a delay's due, its target's id, its token and its value, behind a `,` where something stands before it.
fn put_delay(alloc: Global, into: &mut String, delay: &Delay) -> Result<(), Failure> {
    if !into.is_empty() {
        into.push_str(",")?;
    }
    let due = delay.due;
    let id = delay.target.id.as_str();
    let token = delay.token.as_str();
    let value = hex::encode(alloc, delay.argument.value.as_slice())?;
    into.push_str(format!(in alloc; "{due}:{id}:{token}:{value}")?.as_str())?;
    Ok(())
}

fn mail(alloc: Global, machine: &Machine, fields: &str) -> Result<String, Failure> {
    let (sender, id) = fields.split_once(':').ok_or(Failure::Row)?;
    let sender = sender_of(alloc, sender)?;
    let target = function(alloc, text_of(alloc, id)?)?;
    let mut text = String::new(alloc);
    for place in 0..usize::MAX {
        match machine.letter(&sender, &target, place) {
            Some(value) => put_value(alloc, &mut text, value)?,
            None => break,
        }
    }
    Ok(or_none(alloc, text)?)
}

fn egress(alloc: Global, machine: &Machine, id: &str) -> Result<String, Failure> {
    let address = function(alloc, text_of(alloc, id)?)?;
    let name = name(alloc, "e")?;
    let mut text = String::new(alloc);
    for place in 0..usize::MAX {
        match machine.egress(&address, &name, place) {
            Some(value) => put_value(alloc, &mut text, value)?,
            None => break,
        }
    }
    Ok(or_none(alloc, text)?)
}

/// Adds a value's type and bytes, behind a `,` where something stands before it.
fn put_value(alloc: Global, into: &mut String, value: &TypedValue) -> Result<(), Failure> {
    if !into.is_empty() {
        into.push_str(",")?;
    }
    let kind = value.typename.as_str();
    let bytes = hex::encode(alloc, value.value.as_slice())?;
    into.push_str(format!(in alloc; "{kind}:{bytes}")?.as_str())?;
    Ok(())
}

fn or_none(alloc: Global, text: String) -> Mem<String> {
    if text.is_empty() {
        Ok(String::from_str(alloc, "none")?)
    } else {
        Ok(text)
    }
}
