//! Delays that are put, cancelled and sent.
use crate::failure::Failure;
use crate::parts::{address, value};
use crate::tally::Tally;
use delayed_messages::Delays;
use proto_wire::{Mem, Text};
use std::alloc::Global;
use typed_values::Delay;

/// The functions that put delays, one after the other.
const SENDERS: u32 = 97;

/// Puts so many delays, cancels each third and sends the others, in each round.
pub(crate) fn work(alloc: Global, count: u32, rounds: u32) -> Result<Tally, Failure> {
    let mut tally = Tally {
        bytes: 0,
        same: true,
    };
    for _ in 0..rounds {
        let mut delays = Delays::new(alloc)?;
        put_all(alloc, &mut delays, count)?;
        let cancelled = cancel_thirds(alloc, &mut delays, count)?;
        let sent = send_all(&mut delays, count);
        tally.bytes = sent.bytes;
        tally.same = tally.same && sent.same && cancelled == u64::from(count.div_ceil(3));
    }
    Ok(tally)
}

fn put_all(alloc: Global, delays: &mut Delays, count: u32) -> Result<(), Failure> {
    delays.reserve(count as usize)?;
    for number in 0..count {
        let delay = delay(alloc, number)?;
        if !delays.has_room() {
            return Err(Failure::OutOfMemory);
        }
        delays.put(delay);
    }
    Ok(())
}

/// Dues rise from put to put but for the order of a few neighbours, as where most wait equally long.
fn delay(alloc: Global, number: u32) -> Mem<Delay> {
    Ok(Delay {
        sender: address(alloc, "sender", number % SENDERS)?,
        due: u64::from(number).wrapping_add(u64::from(number % 16)),
        target: address(alloc, "greeter", number % SENDERS)?,
        token: token(alloc, number)?,
        argument: value(alloc)?,
    })
}

fn token(alloc: Global, number: u32) -> Mem<Text> {
    let token = format!(in alloc; "token-{number}")?;
    Text::copy_of(alloc, token.as_str())
}

/// How many were cancelled.
fn cancel_thirds(alloc: Global, delays: &mut Delays, count: u32) -> Result<u64, Failure> {
    let mut cancelled = 0u64;
    for number in 0..count {
        if number % 3 == 0 {
            let sender = address(alloc, "sender", number % SENDERS)?;
            let gone = delays.cancel(&sender, &token(alloc, number)?);
            cancelled = cancelled.saturating_add(gone);
        }
    }
    Ok(cancelled)
}

/// How many bytes were sent, and whether they came in the order of their dues.
fn send_all(delays: &mut Delays, count: u32) -> Tally {
    let mut tally = Tally {
        bytes: 0,
        same: true,
    };
    let mut last = 0u64;
    for _ in 0..count {
        if let Some(delay) = delays.next_due(u64::MAX) {
            tally.bytes = tally.bytes.saturating_add(delay.argument.value.len());
            tally.same = tally.same && last <= delay.due;
            last = delay.due;
        }
    }
    tally
}
