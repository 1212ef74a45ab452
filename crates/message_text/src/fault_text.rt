//! The line of a fault.
ghost use Rattle.std.specs.Prelude.{◌≡◌, ◌++◌, OnOk, OnErr};
ghost use Rattle.typed_values.specs.Escape.{StartsAs};
ghost use Rattle.message_text.specs.Lines.{kind_name, fault_line};

use crate::put_decimal;
use proto_wire::{Bytes, Mem, WireFault, WireKind};

/// Adds the line of a fault: the name of its kind, and its place. An `Err` leaves what stood there with a part of the
/// line behind it.
#[tactic(auto, unfolding(crate::specs::Lines::fault_line))]
pub fn put_fault_line(into: &mut Bytes, fault: &WireFault) -> Mem<()>
    ensures ok { OnOk result (into.new ≡ into.old ++ fault_line fault.now) }
    ensures err { OnErr result (StartsAs into.old into.new) }
{
    into.append(b"fault ")?;
    into.append(kind_name(fault.kind).as_bytes())?;
    into.append(b" at ")?;
    put_decimal(into, fault.at as u64)?;
    into.push(b'\n')?;
    Ok(())
}

/// The name of a kind of faults.
fn kind_name(kind: WireKind) -> &'static str
    ensures { result.now ≡ kind_name kind }
{
    match kind {
        WireKind::Truncated => "Truncated",
        WireKind::LongVarint => "LongVarint",
        WireKind::FieldZero => "FieldZero",
        WireKind::TagTooLarge => "TagTooLarge",
        WireKind::WireType => "WireType",
        WireKind::NotUtf8 => "NotUtf8",
        WireKind::NoMember => "NoMember",
        WireKind::OverLimit => "OverLimit",
    }
}
