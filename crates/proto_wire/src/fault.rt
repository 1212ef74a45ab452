//! What can be wrong with bytes in the wire format.
ghost use Rattle.std.specs.Prelude.{◌≡◌, length};
ghost use Rattle.proto_wire.specs.declared.fault.DecodeFault.TheVariants.{OutOfMemory as WantsMemory, Wire};
ghost use Rattle.proto_wire.specs.declared.fault.WireKind.TheVariants.{NoMember};

use crate::OutOfMemory;
use std::alloc::{AllocError, AllocFailed};

/// What is wrong with an item: a tag, a number, a length or a payload.
#[derive(Clone, Copy, Debug, PartialEq, Eq)]
pub enum WireKind {
    /// 1: its container ends inside it, or its length passes the container's end.
    Truncated,
    /// 2: ten bytes of a varint that all have the high bit.
    LongVarint,
    /// 3: a tag with field 0.
    FieldZero,
    /// 4: a tag of 2^32 or more.
    TagTooLarge,
    /// 5: a tag with wire type 3, 4, 6 or 7.
    WireType,
    /// 7: a string that is not UTF-8.
    NotUtf8,
    /// 8: a member that the message needs is absent.
    NoMember,
    /// 9: a limit is passed.
    OverLimit,
}

/// The first fault of some bytes.
#[derive(Clone, Copy, Debug, PartialEq, Eq)]
pub struct WireFault {
    pub kind: WireKind,
    /// The offset, in the whole input, of the first byte of the item at fault.
    pub at: usize,
}

/// Why bytes were not decoded.
#[derive(Clone, Copy, Debug, PartialEq, Eq)]
pub enum DecodeFault {
    /// They spell nothing, and this is their first fault.
    Wire(WireFault),
    /// The call could not get the memory that it asked for.
    OutOfMemory,
}

impl From<OutOfMemory> for DecodeFault {
    ghost from_gives = { λ _ e. e ≡ WantsMemory };

    fn from(_: OutOfMemory) -> DecodeFault {
        DecodeFault::OutOfMemory
    }
}

impl From<AllocError> for DecodeFault {
    ghost from_gives = { λ _ e. e ≡ WantsMemory };

    fn from(_: AllocError) -> DecodeFault {
        DecodeFault::OutOfMemory
    }
}

impl<T: Drop> From<AllocFailed<T>> for DecodeFault {
    ghost from_gives = { λ _ e. e ≡ WantsMemory };

    fn from(_: AllocFailed<T>) -> DecodeFault {
        DecodeFault::OutOfMemory
    }
}

/// That something which a message needs is absent. The place is the length of the input.
pub fn no_member(input: &[u8]) -> DecodeFault
    ensures { result ≡ Wire (record { kind = NoMember; at = length input.now }) }
{
    DecodeFault::Wire(WireFault {
        kind: WireKind::NoMember,
        at: input.len(),
    })
}
