//! Rows on which answers are valid, and what they do.
use crate::answer_job::{cells, greeter, routes};
use crate::told::{fault_text, owned};
use invocation::{Change, DelayChange, Effects, Flaw, Judged, judge};
use proto_wire::List;
use row_text::{Failure, bytes_of};
use std::alloc::Global;
use typed_values::{Address, CellSpec, Expiry, TypeName, TypedValue};

/// What an answer of `com.example/greeter/a` to a batch of moment 50 does: `BYTES`, or `CELLS | BYTES` for an address that has
/// such cells.
pub(crate) fn judged(alloc: Global, words: &str) -> Result<String, Failure> {
    let (named, bytes) = words.split_once(" | ").unwrap_or(("", words));
    let cells = cells(alloc, named)?;
    let answer = bytes_of(alloc, bytes)?;
    let routes = routes(alloc)?;
    let address = greeter(alloc)?;
    match judge(alloc, answer.as_slice(), &cells, &routes, &address, 50)? {
        Judged::Accept(effects) => effects_text(alloc, &effects),
        Judged::Register(specs) => specs_text(alloc, specs.as_slice()),
        Judged::Flaw(flaw) => flaw_text(alloc, &flaw),
    }
}

fn flaw_text(alloc: Global, flaw: &Flaw) -> Result<String, Failure> {
    let kind = flaw.kind;
    let index = flaw.index;
    match flaw.wire {
        None => Ok(format!(in alloc; "flaw {kind:?} index {index}")?),
        Some(fault) => {
            let fault = fault_text(alloc, fault)?;
            Ok(format!(in alloc; "flaw {kind:?} index {index} {fault}")?)
        }
    }
}

fn specs_text(alloc: Global, specs: &[CellSpec]) -> Result<String, Failure> {
    let mut text = owned(alloc, "register")?;
    for spec in specs {
        let name = spec.name.as_str();
        let typename = spec.typename.as_str();
        let mode = match spec.mode {
            Expiry::Never => 0,
            Expiry::AfterWrite => 1,
            Expiry::AfterInvoke => 2,
        };
        let millis = spec.millis;
        text.push_str(&format!(in alloc; ", {name} {typename} {mode} {millis}")?)?;
    }
    Ok(text)
}

fn effects_text(alloc: Global, effects: &Effects) -> Result<String, Failure> {
    let mut text = owned(alloc, "accept")?;
    for change in effects.mutations.as_slice() {
        text.push_str(&change_text(alloc, change)?)?;
    }
    for letter in effects.letters.as_slice() {
        let target = address_text(alloc, &letter.target)?;
        let argument = value_text(alloc, &letter.argument)?;
        text.push_str(&format!(in alloc; ", letter {target} {argument}")?)?;
    }
    for change in effects.delays.as_slice() {
        text.push_str(&delay_text(alloc, change)?)?;
    }
    for record in effects.egress.as_slice() {
        let sender = address_text(alloc, &record.sender)?;
        let name = name_text(alloc, &record.egress)?;
        let argument = value_text(alloc, &record.argument)?;
        text.push_str(&format!(in alloc; ", egress {sender} {name} {argument}")?)?;
    }
    Ok(text)
}

fn change_text(alloc: Global, change: &Change) -> Result<String, Failure> {
    match change {
        Change::Set { name, value } => {
            let name = name.as_str();
            let value = value_text(alloc, value)?;
            Ok(format!(in alloc; ", set {name} {value}")?)
        }
        Change::Clear { name } => {
            let name = name.as_str();
            Ok(format!(in alloc; ", clear {name}")?)
        }
    }
}

fn delay_text(alloc: Global, change: &DelayChange) -> Result<String, Failure> {
    match change {
        DelayChange::Add(delay) => {
            let due = delay.due;
            let sender = address_text(alloc, &delay.sender)?;
            let target = address_text(alloc, &delay.target)?;
            let token = delay.token.as_str();
            let argument = value_text(alloc, &delay.argument)?;
            Ok(format!(in alloc; ", add {due} {sender} {target} {token}| {argument}")?)
        }
        DelayChange::Cancel(token) => {
            let token = token.as_str();
            Ok(format!(in alloc; ", cancel {token}")?)
        }
    }
}

fn name_text(alloc: Global, name: &TypeName) -> Result<String, Failure> {
    let namespace = name.namespace.as_str();
    let name = name.name.as_str();
    Ok(format!(in alloc; "{namespace}/{name}")?)
}

fn address_text(alloc: Global, address: &Address) -> Result<String, Failure> {
    let kind = name_text(alloc, &address.kind)?;
    let id = address.id.as_str();
    Ok(format!(in alloc; "{kind}/{id}")?)
}

fn value_text(alloc: Global, value: &TypedValue) -> Result<String, Failure> {
    let typename = value.typename.as_str();
    let has_value = value.has_value;
    let bytes = hex::encode(alloc, value.value.as_slice())?;
    Ok(format!(in alloc; "{typename}:{has_value}:{bytes}")?)
}
