//! Letters that are put, opened in batches and taken.
use crate::failure::Failure;
use crate::parts::{address, value};
use crate::tally::Tally;
use batch_queue::{BatchFault, Limits, Mail};
use proto_wire::{Mem, TryClone};
use request_reply::Batch;
use std::alloc::Global;
use typed_values::{Address, Letter, Sender};

/// The letters of a batch, at most.
const LETTERS: u32 = 10;

/// Puts so many letters for so many addresses, and opens and takes batches until none is left, in each round.
pub(crate) fn work(
    alloc: Global,
    addresses: u32,
    count: u32,
    rounds: u32,
) -> Result<Tally, Failure> {
    let mut tally = Tally {
        bytes: 0,
        same: true,
    };
    for _ in 0..rounds {
        let mut mail = Mail::new(alloc)?;
        put_all(alloc, &mut mail, addresses, count)?;
        tally.bytes = take_all(alloc, &mut mail, count)?;
        tally.same = tally.same && mail.ready().is_none();
    }
    Ok(tally)
}

fn put_all(alloc: Global, mail: &mut Mail, addresses: u32, count: u32) -> Result<(), Failure> {
    for number in 0..count {
        if mail.put(letter(alloc, number, addresses)?).is_err() {
            return Err(Failure::OutOfMemory);
        }
    }
    Ok(())
}

fn letter(alloc: Global, number: u32, addresses: u32) -> Mem<Letter> {
    Ok(Letter {
        sender: Sender::Split(0),
        target: address(alloc, "greeter", number.checked_rem(addresses).unwrap_or(0))?,
        argument: value(alloc)?,
    })
}

/// How many bytes the taken letters hold.
fn take_all(alloc: Global, mail: &mut Mail, count: u32) -> Result<usize, Failure> {
    let mut bytes = 0usize;
    for _ in 0..count {
        let next = match mail.ready() {
            Some(address) => address.try_clone(alloc)?,
            None => return Ok(bytes),
        };
        if let Some(batch) = opened(mail, &next)? {
            bytes = bytes.saturating_add(held(&batch));
        }
        if mail.is_in_flight(&next) {
            mail.take_batch(&next);
        }
    }
    Ok(bytes)
}

fn opened(mail: &mut Mail, address: &Address) -> Result<Option<Batch>, Failure> {
    let limits = Limits {
        max_letters: LETTERS,
        max_bytes: 4_194_304,
        head_bytes: 100,
    };
    match mail.open_batch(address, &limits) {
        Ok(batch) => Ok(batch),
        Err(BatchFault::TooLarge { .. }) => Err(Failure::Fault),
        Err(BatchFault::OutOfMemory) => Err(Failure::OutOfMemory),
    }
}

fn held(batch: &Batch) -> usize {
    let mut bytes = 0usize;
    for letter in batch.letters.as_slice() {
        bytes = bytes.saturating_add(letter.argument.value.len());
    }
    bytes
}
