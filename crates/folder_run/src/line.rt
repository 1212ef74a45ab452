//! The statuses and lines of ends.
ghost use Rattle.std.specs.Prelude.{◌≡◌, [], ◌∷◌, ◌++◌, codes, OnOk, OnErr};
ghost use Rattle.std.specs.Fmt.{decimal};
ghost use Rattle.typed_values.specs.Escape.{StartsAs, address_text};
ghost use Rattle.command_io.specs.Telling.{not_a_store_line};
ghost use Rattle.folder_run.specs.Ends.{batch_line, end_line, flaw_name, kind_text, reason_text, reasons_text, record_line, refused_line, spent_line, status_of};

use crate::RunEnd;
use message_text::put_decimal;
use proto_wire::{Bytes, Mem, ModuleKind};
use request_reply::{FlawKind, Reason};
use typed_values::{Address, put_address_text};

impl RunEnd {
    /// The status with which the program ends.
    pub fn status(&self) -> u8
        ensures { result ≡ status_of self.now }
    {
        match self {
            RunEnd::Done { .. } => 0,
            RunEnd::Usage { .. } => 2,
            RunEnd::ModuleFault => 3,
            RunEnd::ModuleRefused { .. } => 4,
            RunEnd::TurnsSpent { .. } => 5,
            RunEnd::EndpointFailed { .. } => 6,
            RunEnd::BatchTooLarge { .. } => 7,
            RunEnd::RecordTooLarge { .. } => 8,
            RunEnd::IngressFault => 9,
            RunEnd::DiskFault => 10,
            RunEnd::SinkFault => 11,
            RunEnd::LinkFault => 12,
            RunEnd::NotAStore { .. } => 13,
            RunEnd::StoreOfOther { .. } => 14,
            RunEnd::OutOfMemory => 15,
        }
    }

    /// Adds the line of this end, with its line feed; a sink that failed and want of memory have none. An `Err` leaves what stood
    /// there with a part of the line behind it.
    pub fn put_line(&self, into: &mut Bytes) -> Mem<()>
        ensures ok { OnOk result (into.new ≡ into.old ++ end_line self.now) }
        ensures err { OnErr result (StartsAs into.old into.new) }
    {
        match self {
            RunEnd::Done { checkpoint } => put_count(into, b"done checkpoint ", *checkpoint),
            RunEnd::Usage { word } => put_count(into, b"usage word ", u64::from(*word)),
            RunEnd::ModuleFault => into.append(b"module fault\n"),
            RunEnd::ModuleRefused {
                document,
                line,
                kind,
            } => put_refused(into, *document, *line, *kind),
            RunEnd::TurnsSpent { checkpoint, legs } => put_spent(into, *checkpoint, *legs),
            RunEnd::EndpointFailed { address, reasons } => put_failed(
                into,
                address,
                reasons.as_slice(),
            ),
            RunEnd::BatchTooLarge {
                address,
                size,
                limit,
            } => put_batch_too_large(into, address, *size, *limit),
            RunEnd::RecordTooLarge {
                split,
                offset,
                size,
            } => put_record_too_large(into, *split, *offset, *size),
            RunEnd::IngressFault => into.append(b"ingress fault\n"),
            RunEnd::DiskFault => into.append(b"disk fault\n"),
            RunEnd::LinkFault => into.append(b"link fault\n"),
            RunEnd::NotAStore { file, place } => put_not_a_store(into, *file, *place),
            RunEnd::StoreOfOther { .. } => into.append(b"store of other module\n"),
            RunEnd::SinkFault => Ok(()),
            RunEnd::OutOfMemory => Ok(()),
        }
    }
}

fn put_spent(into: &mut Bytes, checkpoint: u64, legs: u64) -> Mem<()>
    ensures ok { OnOk result (into.new ≡ into.old ++ spent_line checkpoint legs) }
    ensures err { OnErr result (StartsAs into.old into.new) }
{
    put_count_on(into, b"turns ", legs)?;
    put_count(into, b" checkpoint ", checkpoint)
}

fn put_not_a_store(into: &mut Bytes, file: u32, place: u64) -> Mem<()>
    ensures ok { OnOk result (into.new ≡ into.old ++ not_a_store_line file place) }
    ensures err { OnErr result (StartsAs into.old into.new) }
{
    into.append(b"not a store file ")?;
    put_decimal(into, u64::from(file))?;
    put_count(into, b" place ", place)?;
    Ok(())
}

/// Adds the line of a module file's refusal.
fn put_refused(into: &mut Bytes, document: u32, line: u32, kind: ModuleKind) -> Mem<()>
    ensures ok { OnOk result (into.new ≡ into.old ++ refused_line document line kind) }
    ensures err { OnErr result (StartsAs into.old into.new) }
{
    put_count_on(into, b"module refused document ", u64::from(document))?;
    put_count_on(into, b" line ", u64::from(line))?;
    put_kind(into, kind)
}

/// Adds the end of that line.
fn put_kind(into: &mut Bytes, kind: ModuleKind) -> Mem<()>
    ensures ok { OnOk result (into.new ≡ into.old ++ kind_text kind) }
    ensures err { OnErr result (StartsAs into.old into.new) }
{
    into.append(b" kind ")?;
    into.append(kind.name().as_bytes())?;
    into.push(b'\n')?;
    Ok(())
}

/// Adds words, a number and a line feed.
fn put_count(into: &mut Bytes, words: &[u8], number: u64) -> Mem<()>
    ensures ok { OnOk result (into.new ≡ into.old ++ (words.now ++ (decimal number ++ 10 ∷ []))) }
    ensures err { OnErr result (StartsAs into.old into.new) }
{
    into.append(words)?;
    put_decimal(into, number)?;
    into.push(b'\n')?;
    Ok(())
}

fn put_failed(into: &mut Bytes, address: &Address, reasons: &[Reason]) -> Mem<()>
    ensures ok { OnOk result (into.new ≡ into.old ++ (codes "endpoint failed " ++ (address_text address.now ++ (reasons_text reasons.now ++ 10 ∷ [])))) }
    ensures err { OnErr result (StartsAs into.old into.new) }
{
    into.append(b"endpoint failed ")?;
    put_address_text(into, address)?;
    put_reasons(into, reasons)?;
    into.push(b'\n')?;
    Ok(())
}

fn put_batch_too_large(into: &mut Bytes, address: &Address, size: u64, limit: u64) -> Mem<()>
    ensures ok { OnOk result (into.new ≡ into.old ++ batch_line address.now size limit) }
    ensures err { OnErr result (StartsAs into.old into.new) }
{
    into.append(b"batch too large ")?;
    put_address_text(into, address)?;
    into.push(b' ')?;
    put_decimal(into, size)?;
    put_count(into, b" ", limit)?;
    Ok(())
}

fn put_record_too_large(into: &mut Bytes, split: u32, offset: u64, size: u64) -> Mem<()>
    ensures ok { OnOk result (into.new ≡ into.old ++ record_line split offset size) }
    ensures err { OnErr result (StartsAs into.old into.new) }
{
    into.append(b"record too large split ")?;
    put_decimal(into, u64::from(split))?;
    put_count_on(into, b" offset ", offset)?;
    put_count(into, b" size ", size)
}

/// Adds words and a number.
fn put_count_on(into: &mut Bytes, words: &[u8], number: u64) -> Mem<()>
    ensures ok { OnOk result (into.new ≡ into.old ++ (words.now ++ decimal number)) }
    ensures err { OnErr result (StartsAs into.old into.new) }
{
    into.append(words)?;
    put_decimal(into, number)
}

fn put_reasons(into: &mut Bytes, reasons: &[Reason]) -> Mem<()>
    ensures ok { OnOk result (into.new ≡ into.old ++ reasons_text reasons.now) }
    ensures err { OnErr result (StartsAs into.old into.new) }
{
    for reason in reasons {
        put_reason(into, reason)?;
    }
    Ok(())
}

fn put_reason(into: &mut Bytes, reason: &Reason) -> Mem<()>
    ensures ok { OnOk result (into.new ≡ into.old ++ reason_text reason.now) }
    ensures err { OnErr result (StartsAs into.old into.new) }
{
    match reason {
        Reason::Lost(code) => {
            into.append(b" lost:")?;
            put_decimal(into, u64::from(*code))
        }
        Reason::Late => into.append(b" late"),
        Reason::Refused { flaw, .. } => {
            into.append(b" refused:")?;
            into.append(flaw_name(flaw.kind).as_bytes())?;
            into.push(b':')?;
            put_decimal(into, u64::from(flaw.index))
        }
    }
}

/// The name of a flaw.
fn flaw_name(kind: FlawKind) -> &'static str
    ensures { result.now ≡ flaw_name kind }
{
    match kind {
        FlawKind::Wire => "Wire",
        FlawKind::BadMutation => "BadMutation",
        FlawKind::UnknownName => "UnknownName",
        FlawKind::TypeDiffers => "TypeDiffers",
        FlawKind::TooLarge => "TooLarge",
        FlawKind::NoEndpoint => "NoEndpoint",
        FlawKind::NegativeDelay => "NegativeDelay",
        FlawKind::EmptyToken => "EmptyToken",
        FlawKind::UnknownEgress => "UnknownEgress",
        FlawKind::BadExpiry => "BadExpiry",
        FlawKind::TooMany => "TooMany",
        FlawKind::NoNewName => "NoNewName",
    }
}
