//! Rows of calls on the delays that wait.
use crate::pieces::{address, number, piece, shown_bytes, text, value};
use delayed_messages::Delays;
use proto_wire::List;
use row_text::Failure;
use std::alloc::Global;
use std::str::Split;
use typed_values::Delay;

/// What each call of a row answers, on one line.
pub fn show(alloc: Global, words: &str) -> Result<String, Failure> {
    let mut delays = Delays::new(alloc)?;
    let mut text = String::from_str(alloc, " ")?;
    for word in words.split_whitespace() {
        let mut pieces = word.split(',');
        let call = piece(&mut pieces)?;
        let answer = made(alloc, &mut delays, call, &mut pieces)?;
        text.push_str(" ")?;
        text.push_str(answer.as_str())?;
    }
    text.push_str("\n")?;
    Ok(text)
}

fn made(
    alloc: Global,
    delays: &mut Delays,
    call: &str,
    pieces: &mut Split<'_, char>,
) -> Result<String, Failure> {
    match call {
        "room" => yes_or_no(alloc, delays.has_room()),
        "reserve" => {
            delays.reserve(number(pieces)? as usize)?;
            Ok(String::from_str(alloc, "reserved")?)
        }
        "put" => put(alloc, delays, pieces),
        "cancel" => cancelled(alloc, delays, pieces),
        "due" => match delays.next_due(number(pieces)?) {
            Some(delay) => shown_delay(alloc, &delay),
            None => Ok(String::from_str(alloc, "none")?),
        },
        "waiting" => shown_list(alloc, &delays.waiting()?),
        _ => Err(Failure::Row),
    }
}

fn yes_or_no(alloc: Global, answer: bool) -> Result<String, Failure> {
    Ok(String::from_str(alloc, if answer { "yes" } else { "no" })?)
}

fn cancelled(
    alloc: Global,
    delays: &mut Delays,
    pieces: &mut Split<'_, char>,
) -> Result<String, Failure> {
    let sender = address(alloc, pieces)?;
    let token = text(alloc, pieces)?;
    let count = delays.cancel(&sender, &token);
    Ok(format!(in alloc; "{count}")?)
}

fn put(
    alloc: Global,
    delays: &mut Delays,
    pieces: &mut Split<'_, char>,
) -> Result<String, Failure> {
    let delay = Delay {
        sender: address(alloc, pieces)?,
        due: number(pieces)?,
        target: address(alloc, pieces)?,
        token: text(alloc, pieces)?,
        argument: value(alloc, pieces)?,
    };
    if !delays.has_room() {
        return yes_or_no(alloc, false);
    }
    delays.put(delay);
    Ok(String::from_str(alloc, "put")?)
}

fn shown_delay(alloc: Global, delay: &Delay) -> Result<String, Failure> {
    let sender = delay.sender.id.as_str();
    let target = delay.target.id.as_str();
    let due = delay.due;
    let token = delay.token.as_str();
    let bytes = shown_bytes(alloc, delay.argument.value.as_slice())?;
    Ok(format!(in alloc; "{sender}>{target}@{due}/{token}={bytes}")?)
}

fn shown_list(alloc: Global, list: &List<Delay>) -> Result<String, Failure> {
    let mut text = String::from_str(alloc, "[")?;
    for delay in list.as_slice() {
        text.push_str(shown_delay(alloc, delay)?.as_str())?;
        text.push_str(";")?;
    }
    text.push_str("]")?;
    Ok(text)
}
