//! Fields that are numbers of 32 bits.
ghost use Rattle.std.specs.Prelude.{◌≡◌, ◌++◌, ◌^◌, IfOk, OnOk, nat_lt, true};
ghost use Rattle.proto_wire.specs.Record.{IsField};
ghost use Rattle.proto_wire.specs.Message.{spelled_number};

use proto_wire::{Bytes, Mem, with_number};

/// Adds a number of 32 bits, where it is not 0.
pub fn with_short(into: Bytes, field: u32, number: u32) -> Mem<Bytes>
    requires { IsField field }
    ensures spelled { IfOk result (λ bytes. bytes ≡ into ++ spelled_number field number) }
    ensures fits { OnOk result (nat_lt number (2 ^ 32) ≡ true) }
{
    with_number(into, field, u64::from(number))
}
