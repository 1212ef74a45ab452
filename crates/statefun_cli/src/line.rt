//! The statuses and lines of ends.
ghost use Rattle.std.specs.Prelude.{◌≡◌, [], ◌∷◌, ◌++◌, codes, OnOk, OnErr};
ghost use Rattle.std.specs.Fmt.{decimal};
ghost use Rattle.typed_values.specs.Escape.{StartsAs, address_text};
ghost use Rattle.statefun_cli.specs.Ends.{batch_line, end_line, flaw_name, reason_text, reasons_text, record_line, status_of};

use crate::PlainEnd;
use crate::check::put_refused;
use message_text::put_decimal;
use proto_wire::{Bytes, Mem};
use request_reply::{FlawKind, Reason};
use typed_values::{Address, put_address_text};

impl PlainEnd {
    /// The status with which the program ends.
    pub fn status(&self) -> u8
        ensures { result ≡ status_of self.now }
    {
        match self {
            PlainEnd::Done { .. } => 0,
            PlainEnd::Usage { .. } => 2,
            PlainEnd::ModuleFault => 3,
            PlainEnd::ModuleRefused { .. } => 4,
            PlainEnd::TurnsSpent { .. } => 5,
            PlainEnd::EndpointFailed { .. } => 6,
            PlainEnd::BatchTooLarge { .. } => 7,
            PlainEnd::RecordTooLarge { .. } => 8,
            PlainEnd::IngressFault => 9,
            PlainEnd::SinkFault => 11,
            PlainEnd::LinkFault => 12,
            PlainEnd::OutOfMemory => 15,
        }
    }

    /// Adds the line of this end, with its line feed, of a run with at most so many turns; a sink that failed and want of
    /// memory have none. An `Err` leaves what stood there with a part of the line behind it.
    pub fn put_line(&self, into: &mut Bytes, turns: u64) -> Mem<()>
        ensures ok { OnOk result (into.new ≡ into.old ++ end_line self.now turns) }
        ensures err { OnErr result (StartsAs into.old into.new) }
    {
        match self {
            PlainEnd::Done { taken } => put_count(into, b"done taken ", *taken),
            PlainEnd::Usage { word } => put_count(into, b"usage word ", u64::from(*word)),
            PlainEnd::TurnsSpent { taken } => {
                into.append(b"turns ")?;
                put_decimal(into, turns)?;
                put_count(into, b" taken ", *taken)
            }
            PlainEnd::EndpointFailed { address, reasons } => put_failed(
                into,
                address,
                reasons.as_slice(),
            ),
            PlainEnd::ModuleFault => into.append(b"module fault\n"),
            PlainEnd::ModuleRefused {
                document,
                line,
                kind,
            } => { put_refused(into, *document, *line, *kind) }
            PlainEnd::BatchTooLarge {
                address,
                size,
                limit,
            } => put_batch_too_large(into, address, *size, *limit),
            PlainEnd::RecordTooLarge {
                split,
                offset,
                size,
            } => put_record_too_large(into, *split, *offset, *size),
            PlainEnd::IngressFault => into.append(b"ingress fault\n"),
            PlainEnd::LinkFault => into.append(b"link fault\n"),
            PlainEnd::SinkFault => Ok(()),
            PlainEnd::OutOfMemory => Ok(()),
        }
    }
}

/// Adds words, a number and a line feed.
fn put_count(into: &mut Bytes, words: &[u8], number: u64) -> Mem<()>
    ensures ok { OnOk result (into.new ≡ into.old ++ (words.now ++ (decimal number ++ 10 ∷ []))) }
    ensures err { OnErr result (StartsAs into.old into.new) }
{
    into.append(words)?;
    put_decimal(into, number)?;
    into.push(b'\n')?;
    Ok(())
}

fn put_failed(into: &mut Bytes, address: &Address, reasons: &[Reason]) -> Mem<()>
    ensures ok { OnOk result (into.new ≡ into.old ++ (codes "endpoint failed " ++ (address_text address.now ++ (reasons_text reasons.now ++ 10 ∷ [])))) }
    ensures err { OnErr result (StartsAs into.old into.new) }
{
    into.append(b"endpoint failed ")?;
    put_address_text(into, address)?;
    put_reasons(into, reasons)?;
    into.push(b'\n')?;
    Ok(())
}

fn put_batch_too_large(into: &mut Bytes, address: &Address, size: u64, limit: u64) -> Mem<()>
    ensures ok { OnOk result (into.new ≡ into.old ++ batch_line address.now size limit) }
    ensures err { OnErr result (StartsAs into.old into.new) }
{
    into.append(b"batch too large ")?;
    put_address_text(into, address)?;
    into.push(b' ')?;
    put_decimal(into, size)?;
    put_count(into, b" ", limit)?;
    Ok(())
}

fn put_record_too_large(into: &mut Bytes, split: u32, offset: u64, size: u64) -> Mem<()>
    ensures ok { OnOk result (into.new ≡ into.old ++ record_line split offset size) }
    ensures err { OnErr result (StartsAs into.old into.new) }
{
    into.append(b"record too large split ")?;
    put_decimal(into, u64::from(split))?;
    put_count_on(into, b" offset ", offset)?;
    put_count(into, b" size ", size)
}

/// Adds words and a number.
fn put_count_on(into: &mut Bytes, words: &[u8], number: u64) -> Mem<()>
    ensures ok { OnOk result (into.new ≡ into.old ++ (words.now ++ decimal number)) }
    ensures err { OnErr result (StartsAs into.old into.new) }
{
    into.append(words)?;
    put_decimal(into, number)
}

fn put_reasons(into: &mut Bytes, reasons: &[Reason]) -> Mem<()>
    ensures ok { OnOk result (into.new ≡ into.old ++ reasons_text reasons.now) }
    ensures err { OnErr result (StartsAs into.old into.new) }
{
    for reason in reasons {
        put_reason(into, reason)?;
    }
    Ok(())
}

fn put_reason(into: &mut Bytes, reason: &Reason) -> Mem<()>
    ensures ok { OnOk result (into.new ≡ into.old ++ reason_text reason.now) }
    ensures err { OnErr result (StartsAs into.old into.new) }
{
    match reason {
        Reason::Lost(code) => {
            into.append(b" lost:")?;
            put_decimal(into, u64::from(*code))
        }
        Reason::Late => into.append(b" late"),
        Reason::Refused { flaw, .. } => {
            into.append(b" refused:")?;
            into.append(flaw_name(flaw.kind).as_bytes())?;
            into.push(b':')?;
            put_decimal(into, u64::from(flaw.index))
        }
    }
}

/// The name of a flaw.
fn flaw_name(kind: FlawKind) -> &'static str
    ensures { result.now ≡ flaw_name kind }
{
    match kind {
        FlawKind::Wire => "Wire",
        FlawKind::BadMutation => "BadMutation",
        FlawKind::UnknownName => "UnknownName",
        FlawKind::TypeDiffers => "TypeDiffers",
        FlawKind::TooLarge => "TooLarge",
        FlawKind::NoEndpoint => "NoEndpoint",
        FlawKind::NegativeDelay => "NegativeDelay",
        FlawKind::EmptyToken => "EmptyToken",
        FlawKind::UnknownEgress => "UnknownEgress",
        FlawKind::BadExpiry => "BadExpiry",
        FlawKind::TooMany => "TooMany",
        FlawKind::NoNewName => "NoNewName",
    }
}
