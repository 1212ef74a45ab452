//! Ingress logs: what stands at the front of one.
ghost use Rattle.std.specs.Prelude.{◌≡◌, ℕ, List, Ok, length, IfOk};
ghost use Rattle.sf_outside.specs.Log.{empty_record, record_rows, front_of, framed};

use crate::IngressRecord;
use proto_wire::{
    Bytes, Decode, DecodeFault, Mem, OutOfMemory, Record, Text, WireFault, WireKind, decoded,
    varint_in,
};
use std::alloc::Global;

/// The message of a log: the key is field 1, a string, and the value is field 2, bytes.
impl Decode for IngressRecord {
    ghost rows = { record_rows };

    ghost empty = { empty_record };

    #[tactic(auto, unfolding(crate::specs::Log::empty_record))]
    fn blank(alloc: Global) -> IngressRecord {
        IngressRecord {
            key: Text::new(alloc),
            value: Bytes::new(alloc),
        }
    }

    #[tactic(auto, unfolding(crate::specs::Log::record_rows))]
    fn accept(&mut self, alloc: Global, item: &Record<'_>) -> Result<(), DecodeFault> {
        if item.is(1, 2) {
            self.key = item.text(alloc)?;
        } else if item.is(2, 2) {
            self.value = item.bytes(alloc)?;
        }
        Ok(())
    }
}

/// What stands at the front of a log.
#[derive(Drop)]
pub enum Front {
    /// Nothing, or a record whose end is not there yet.
    Cut,
    /// Bytes that are no record, whatever follows.
    Bad,
    /// A record, and how many bytes it takes with its length.
    Whole(IngressRecord, usize),
}

/// What stands at the front of the bytes of a log. A record that is cut costs the reading of its length alone.
#[tactic(auto, unfolding(crate::specs::Log::front_of))]
pub(crate) fn front_of(alloc: Global, log: &[u8]) -> Mem<Front>
    ensures { IfOk result (λ front. front ≡ front_of log.now) }
{
    match varint_in(log.len(), log) {
        Ok((len, rest)) => framed(alloc, log.len(), len, rest),
        Err(
            WireFault {
                kind: WireKind::Truncated,
                ..
            },
        ) => Ok(Front::Cut),
        Err(_) => Ok(Front::Bad),
    }
}

fn framed(alloc: Global, total: usize, len: u64, rest: &[u8]) -> Mem<Front>
    ensures { (log : List ℕ) → length log ≡ total → IfOk result (λ front. front ≡ framed log (Ok (len, rest.now))) }
{
    if (rest.len() as u64) < len {
        return Ok(Front::Cut);
    }
    let (payload, after) = rest.split_at(len as usize);
    match decoded(alloc, payload) {
        Ok(record) => Ok(Front::Whole(record, total.saturating_sub(after.len()))),
        Err(DecodeFault::Wire(_)) => Ok(Front::Bad),
        Err(DecodeFault::OutOfMemory) => Err(OutOfMemory),
    }
}
