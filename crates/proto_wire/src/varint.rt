//! Varints (Protocol Buffers encoding guide, "Base 128 Varints").
ghost use Rattle.std.specs.Prelude.{◌≡◌, ◌+◌, ◌*◌, ◌-◌, ◌%◌, ◌^◌, ◌<◌, ◌≤◌, ◌++◌, length, take, IfOk, OnOk, OnErr};
ghost use Rattle.proto_wire.specs.Varint.{groups, varint_in, varint, groups_of};
ghost use Rattle.proto_wire.specs.Reads.{fault_before, Reads, Keeps};

use crate::{Bytes, Mem, WireFault, WireKind};

/// The place of the first of the bytes, which end at the place `end` of the whole input.
pub fn place(end: usize, bytes: &[u8]) -> usize
    requires inside { length bytes.now ≤ end }
    ensures at { result ≡ end - length bytes.now }
    ensures left { end - result ≡ length bytes.now }
    ensures within { result ≤ end }
{
    end - bytes.len()
}

/// A fault of the item that begins with the first of the bytes, which end at the place `end`.
pub fn fault_at(kind: WireKind, end: usize, bytes: &[u8]) -> WireFault
    requires inside { length bytes.now ≤ end }
    ensures is { fault_before end result ≡ record { kind = kind; left = length bytes.now } }
    ensures within { result.at ≤ end }
{
    WireFault {
        kind,
        at: place(end, bytes),
    }
}

/// Reads the varint at the front of bytes that end at the place `end`: its number, modulo 2^64, and the bytes behind it.
#[tactic(auto, unfolding(crate::specs::Varint::varint_in, crate::specs::Varint::groups))]
pub fn varint_in(end: usize, bytes: &[u8]) -> Result<(u64, &[u8]), WireFault>
    requires inside { length bytes.now ≤ end }
    ensures reads { Reads end (λ x. (x.0, x.1.now)) result (varint_in bytes.now) }
    ensures shorter { IfOk result (λ x. length x.1.now < length bytes.now) }
{
    match bytes {
        [byte, rest @ ..] if *byte < 128 => Ok((u64::from(*byte), rest)),
        _ => groups_in(end, place(end, bytes), 10, bytes),
    }
}

#[tactic(auto, unfolding(crate::specs::Varint::groups))]
fn groups_in(end: usize, at: usize, most: u32, bytes: &[u8]) -> Result<(u64, &[u8]), WireFault>
    requires inside { at ≤ end }
    ensures reads { Reads end (λ x. (x.0, x.1.now)) result (groups (end - at) most bytes.now) }
    ensures shorter { IfOk result (λ x. length x.1.now < length bytes.now) }
{
    if most == 0 {
        return Err(WireFault {
            kind: WireKind::LongVarint,
            at,
        });
    }
    match bytes {
        [] => Err(WireFault {
            kind: WireKind::Truncated,
            at,
        }),
        [byte, rest @ ..] => {
            if *byte < 128 {
                return Ok((u64::from(*byte), rest));
            }
            let (high, rest) = groups_in(end, at, most - 1, rest)?;
            Ok((with_group(*byte, high), rest))
        }
    }
}

/// The number of a group with its high bit, and of the groups behind it.
fn with_group(byte: u8, high: u64) -> u64
    requires { 128 ≤ byte }
    ensures { result ≡ (byte - 128 + 128 * high) % 2 ^ 64 }
{
    u64::from(byte - 128).wrapping_add(high.wrapping_mul(128))
}

/// How many bytes the shortest varint of a number takes: 1 to 10.
#[tactic(auto, unfolding(crate::specs::Varint::varint))]
pub fn varint_size(value: u64) -> u64
    ensures size { result ≡ length (varint value) }
    ensures least { 1 ≤ result }
    ensures most { result ≤ 10 }
{
    groups_size(9, value)
}

#[tactic(auto, unfolding(crate::specs::Varint::groups_of))]
fn groups_size(more: u32, value: u64) -> u64
    requires { more < 10 }
    ensures size { result ≡ length (groups_of more value) }
    ensures least { 1 ≤ result }
    ensures most { result ≤ more + 1 }
{
    if more == 0 || value < 128 {
        return 1;
    }
    1 + groups_size(more - 1, value / 128)
}

/// Adds the shortest varint of a number at the end. An `Err` changes nothing.
#[tactic(auto, unfolding(crate::specs::Varint::varint, crate::specs::Varint::groups_of))]
pub fn put_varint(into: &mut Bytes, value: u64) -> Mem<()>
    ensures ok { OnOk result (into.new ≡ into.old ++ varint value) }
    ensures err { OnErr result (into.new ≡ into.old) }
{
    if value < 128 {
        return into.push(value as u8);
    }
    let len = into.len();
    let put = put_groups(into, 9, value);
    if put.is_err() {
        into.truncate(len);
    }
    put
}

#[tactic(auto, unfolding(crate::specs::Varint::groups_of))]
fn put_groups(into: &mut Bytes, more: u32, value: u64) -> Mem<()>
    ensures ok { OnOk result (into.new ≡ into.old ++ groups_of more value) }
    ensures err { OnErr result (Keeps into.old into.new) }
{
    let low = (value % 128) as u8;
    if more == 0 || value < 128 {
        return into.push(low);
    }
    into.push(low + 128)?;
    put_groups(into, more - 1, value / 128)
}
