//! The text of the bytes of a message.
ghost use Rattle.std.specs.Prelude.{◌≡◌, ◌++◌, IfOk, OnOk};
ghost use Rattle.proto_wire.specs.declared.fault.WireKind.TheVariants.{OverLimit};
ghost use Rattle.message_text.specs.Lines.{fault_line};
ghost use Rattle.statefun_cli.specs.declared.decode.DecodeEnd.TheVariants.{Faulty};
ghost use Rattle.statefun_cli.specs.declared.decode_words.MessageKind.TheVariants.{Request, Answer};
ghost use Rattle.statefun_cli.specs.Decode.{decode_end, decode_text, end_by, limit, spelled_lines, text_by};

use crate::{DecodeEnd, MessageKind};
use message_text::{put_answer_lines, put_fault_line, put_request_lines};
use proto_wire::{Bytes, DecodeFault, Mem, OutOfMemory, WireFault, WireKind};
use request_reply::{decode_from, decode_to};
use std::alloc::Global;

/// The most bytes of a message.
pub(crate) const LIMIT: usize = 8_388_608;

/// Adds the lines of the message that the bytes spell, or the line of their first fault.
pub(crate) fn put_message(
    alloc: Global,
    into: &mut Bytes,
    kind: MessageKind,
    bytes: &[u8],
) -> Mem<DecodeEnd>
    ensures told { IfOk result (λ told. told ≡ decode_end kind bytes.now) }
    ensures text { OnOk result (into.new ≡ into.old ++ decode_text kind bytes.now) }
{
    if bytes.len() > LIMIT {
        return put_fault(into, &over_limit());
    }
    match kind {
        MessageKind::Request => put_request(alloc, into, bytes),
        MessageKind::Answer => put_answer(alloc, into, bytes),
    }
}

/// More bytes than the limit.
fn over_limit() -> WireFault
    ensures { result ≡ record { kind = OverLimit; at = limit } }
{
    WireFault {
        kind: WireKind::OverLimit,
        at: LIMIT,
    }
}

#[tactic(auto, unfolding(crate::specs::Decode::spelled_lines))]
fn put_request(alloc: Global, into: &mut Bytes, bytes: &[u8]) -> Mem<DecodeEnd>
    ensures told { IfOk result (λ told. told ≡ end_by (spelled_lines Request bytes.now)) }
    ensures text { OnOk result (into.new ≡ into.old ++ text_by (spelled_lines Request bytes.now)) }
{
    match decode_to(alloc, bytes) {
        Ok(request) => {
            put_request_lines(into, &request)?;
            Ok(DecodeEnd::Decoded)
        }
        Err(DecodeFault::Wire(fault)) => put_fault(into, &fault),
        Err(DecodeFault::OutOfMemory) => Err(OutOfMemory),
    }
}

#[tactic(auto, unfolding(crate::specs::Decode::spelled_lines))]
fn put_answer(alloc: Global, into: &mut Bytes, bytes: &[u8]) -> Mem<DecodeEnd>
    ensures told { IfOk result (λ told. told ≡ end_by (spelled_lines Answer bytes.now)) }
    ensures text { OnOk result (into.new ≡ into.old ++ text_by (spelled_lines Answer bytes.now)) }
{
    match decode_from(alloc, bytes) {
        Ok(answer) => {
            put_answer_lines(into, &answer)?;
            Ok(DecodeEnd::Decoded)
        }
        Err(DecodeFault::Wire(fault)) => put_fault(into, &fault),
        Err(DecodeFault::OutOfMemory) => Err(OutOfMemory),
    }
}

fn put_fault(into: &mut Bytes, fault: &WireFault) -> Mem<DecodeEnd>
    ensures told { IfOk result (λ told. told ≡ Faulty) }
    ensures text { OnOk result (into.new ≡ into.old ++ fault_line fault.now) }
{
    put_fault_line(into, fault)?;
    Ok(DecodeEnd::Faulty)
}
