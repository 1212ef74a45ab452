//! Messages while they are read: what they need may still be absent.
ghost use Rattle.std.specs.Prelude.{◌≡◌, ◌++◌, List, Option, IfOk};
ghost use Rattle.proto_wire.specs.Reads.{Gives};
ghost use Rattle.folder_messages.specs.Parts.{all_of, whole_value};

use proto_wire::{Decode, DecodeFault, List, Mem, decoded, no_member};
use std::alloc::Global;

/// A message that was read, some parts of which may be absent.
pub trait Parts: Decode {
    /// The message with all that it needs.
    type Whole: Drop;

    /// The message, where nothing is absent that it needs.
    ghost whole: { Self → Option Self.Whole };

    /// The message, where nothing is absent that it needs.
    fn whole(self, alloc: Global) -> Mem<Option<Self::Whole>>
        ensures { IfOk result (λ found. found ≡ whole self) };
}

/// The messages of a list, where none of them lacks anything.
pub fn all_whole<P: Parts>(alloc: Global, parts: List<P>) -> Mem<Option<List<P::Whole>>>
    ensures { IfOk result (λ found. found ≡ all_of P.whole parts) }
{
    let mut all = List::new(alloc);
    for one in parts.into_vec() {
        match one.whole(alloc)? {
            Some(whole) => all.push(whole)?,
            None => return Ok(None),
        }
    }
    Ok(Some(all))
}

/// The message that the bytes spell: `Ok` exactly where they spell one, else their first fault. Where no item is at fault and a part that the message
/// needs is absent, the fault is NoMember, at the input's length.
pub fn decoded_whole<P: Parts>(alloc: Global, bytes: &[u8]) -> Result<P::Whole, DecodeFault>
    ensures { Gives (λ message. message) result (whole_value P.rows P.empty P.whole bytes.now) }
{
    let read: P = decoded(alloc, bytes)?;
    match read.whole(alloc)? {
        Some(message) => Ok(message),
        None => Err(no_member(bytes)),
    }
}
