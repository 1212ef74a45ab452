//! The lines that `append` reads, and the records that they make.
ghost use Rattle.std.specs.Prelude.{◌≡◌, ◌++◌, ◌≤◌, ◌<◌, ◌^◌, ℕ, List, length, is_some, IfOk};
ghost use Rattle.std.specs.List.{position_or_len};
ghost use Rattle.std.specs.Option.{option_to_list};
ghost use Rattle.folder_commands.specs.Lines.{IsReadTo, GoesOn, is_bad, is_feed, keyed, last_line, record_in, records_in};
ghost use Rattle.folder_commands.specs.LogText.{log_text};

use crate::log_record::put_record;
use proto_wire::{Bytes, Mem, Text};
use sf_outside::IngressRecord;
use std::alloc::Global;
use typed_values::text_value;

/// What lines come to.
#[derive(Drop)]
pub(crate) struct Appended {
    /// The bytes of the records, down to the first line that is bad.
    pub log: Bytes,
    /// How many records these are.
    pub records: u64,
    /// A line is bad.
    pub bad: bool,
}

/// The most bytes of input.
pub(crate) const LIMIT: usize = 67_108_864;

/// The records of the lines of an input, of which at most one byte past the limit was read.
pub(crate) fn append_text(alloc: Global, heard: &[u8]) -> Mem<Appended>
    ensures log { IfOk result (λ made. made.log ≡ log_text (records_in heard.now)) }
    ensures records { IfOk result (λ made. made.records ≡ length (records_in heard.now)) }
    ensures bad { IfOk result (λ made. made.bad ≡ is_bad heard.now) }
    ensures few { IfOk result (λ made. made.records ≤ 2 ^ 63) }
{
    if heard.len() <= LIMIT {
        lines_appended(alloc, heard, true)
    } else {
        let (front, _) = heard.split_at(LIMIT);
        lines_appended(alloc, front, false)
    }
}

/// The records of the lines of a text, which is a whole one or goes on.
fn lines_appended(alloc: Global, text: &[u8], whole: bool) -> Mem<Appended>
    ensures read { IfOk result (IsReadTo whole text.now) }
    ensures few { IfOk result (λ made. made.records ≤ 2 ^ 63) }
{
    let mut log = Bytes::new(alloc);
    let mut records = 0;
    let mut rest = text;
    let mut len = line_len(rest);
    while len < rest.len() {
        let (line, behind) = rest.split_at(len);
        if !put_line(alloc, &mut log, line)? {
            return Ok(Appended {
                log,
                records,
                bad: true,
            });
        }
        records += 1;
        let (_, others) = behind.split_at(1);
        rest = others;
        len = line_len(rest);
    }
    last_appended(alloc, log, records, rest, whole)
}

/// The same, with what stands behind the last line feed.
fn last_appended(alloc: Global, log: Bytes, records: u64, last: &[u8], whole: bool) -> Mem<Appended>
    requires { records < 2 ^ 63 }
    ensures read { (text : List ℕ) → GoesOn whole text log records (last_line whole last.now) → IfOk result (IsReadTo whole text) }
    ensures few { IfOk result (λ made. made.records ≤ 2 ^ 63) }
{
    let mut log = log;
    if !whole {
        return Ok(Appended {
            log,
            records,
            bad: true,
        });
    }
    if last.is_empty() {
        return Ok(Appended {
            log,
            records,
            bad: false,
        });
    }
    if put_line(alloc, &mut log, last)? {
        Ok(Appended {
            log,
            records: records + 1,
            bad: false,
        })
    } else {
        Ok(Appended {
            log,
            records,
            bad: true,
        })
    }
}

/// Adds the record of a line, where it makes one. Nothing is added where it makes none.
fn put_line(alloc: Global, log: &mut Bytes, line: &[u8]) -> Mem<bool>
    ensures made { IfOk result (λ made. log.new ≡ log.old ++ log_text (option_to_list (record_in line.now))) }
    ensures is_made { IfOk result (λ made. made ≡ is_some (record_in line.now)) }
{
    match record_of(alloc, line)? {
        Some(record) => {
            put_record(alloc, log, &record)?;
            Ok(true)
        }
        None => Ok(false),
    }
}

/// The record that a line makes: KEY up to the first tab, and TEXT as a string value. None where there is no tab, or the line is not
/// UTF-8.
fn record_of(alloc: Global, line: &[u8]) -> Mem<Option<IngressRecord>>
    ensures { IfOk result (λ made. made ≡ record_in line.now) }
{
    let Ok(line) = str::from_utf8(line) else {
        return Ok(None);
    };
    match line.split_once('\t') {
        Some((key, text)) => Ok(Some(record_with(alloc, key, text)?)),
        None => Ok(None),
    }
}

/// The record of a key and a string.
fn record_with(alloc: Global, key: &str, text: &str) -> Mem<IngressRecord>
    ensures { IfOk result (λ made. made ≡ keyed key.now text.now) }
{
    let value = text_value(alloc, &Text::copy_of(alloc, text)?)?;
    Ok(IngressRecord {
        key: Text::copy_of(alloc, key)?,
        value: value.value,
    })
}

/// How many bytes stand before the first line feed; all where there is none.
fn line_len(bytes: &[u8]) -> usize
    ensures len { result ≡ position_or_len is_feed bytes.now }
    ensures most { result ≤ length bytes.now }
{
    let mut len = 0;
    while len < bytes.len() && bytes[len] != b'\n' {
        len += 1;
    }
    len
}
