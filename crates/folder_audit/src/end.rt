//! How an audit ends: its status and its line.
ghost use Rattle.std.specs.Prelude.{◌≡◌, ◌∷◌, ◌++◌, [], ℕ, List, IfOk, OnOk};
ghost use Rattle.std.specs.Fmt.{decimal};
ghost use Rattle.folder_audit.specs.Ends.{end_status, end_text, entry_line, kind_text, refused_line, yes_line};

use crate::help::audit_help;
use command_io::not_a_store_line;
use message_text::put_decimal;
use proto_wire::{Bytes, Mem, ModuleKind};
use std::alloc::Global;

/// How an audit ends.
#[derive(Clone, Copy, Debug)]
pub enum AuditEnd {
    /// The record replays to the newest checkpoint, which has this number, and has so many entries.
    Yes {
        checkpoint: u64,
        entries: u64,
    },
    /// This entry is the first that is not allowed, counted from 0.
    NoEntry {
        entry: u64,
    },
    /// Each entry is allowed, and the record leads to another state than the newest checkpoint's.
    NoState,
    /// The text of help.
    Help,
    /// The line `usage`, since the words are wrong.
    Usage,
    /// The module file could not be read.
    ModuleFault,
    /// The module file is refused, by the first thing that is wrong with it.
    ModuleRefused {
        /// From 1.
        document: u32,
        /// From 1.
        line: u32,
        kind: ModuleKind,
    },
    /// The ingress failed.
    IngressFault,
    /// The disk failed.
    DiskFault,
    /// The bytes of a file break its form at that place.
    NotAStore {
        file: u32,
        place: u64,
    },
    /// The folder is of another job.
    StoreOfOther,
    /// Nothing, since memory ran out.
    OutOfMemory,
}

impl AuditEnd {
    /// The status of the command.
    pub(crate) fn status(&self) -> u8
        ensures { result ≡ end_status self.now }
    {
        match self {
            AuditEnd::Yes { .. } => 0,
            AuditEnd::NoEntry { .. } => 1,
            AuditEnd::NoState => 1,
            AuditEnd::Help => 0,
            AuditEnd::Usage => 2,
            AuditEnd::ModuleFault => 3,
            AuditEnd::ModuleRefused { .. } => 4,
            AuditEnd::IngressFault => 9,
            AuditEnd::DiskFault => 10,
            AuditEnd::NotAStore { .. } => 13,
            AuditEnd::StoreOfOther => 14,
            AuditEnd::OutOfMemory => 15,
        }
    }

    /// What is written of it.
    pub(crate) fn text(&self, alloc: Global) -> Mem<Bytes>
        ensures { IfOk result (λ text. text ≡ end_text self.now) }
    {
        match self {
            AuditEnd::Yes {
                checkpoint,
                entries,
            } => yes_line(alloc, *checkpoint, *entries),
            AuditEnd::NoEntry { entry } => entry_line(alloc, *entry),
            AuditEnd::NoState => Bytes::copy_of(alloc, b"audit no state\n"),
            AuditEnd::Help => Bytes::copy_of(alloc, audit_help().as_bytes()),
            AuditEnd::Usage => Bytes::copy_of(alloc, b"usage\n"),
            AuditEnd::ModuleFault => Bytes::copy_of(alloc, b"module fault\n"),
            AuditEnd::ModuleRefused {
                document,
                line,
                kind,
            } => refused_line(alloc, *document, *line, *kind),
            AuditEnd::IngressFault => Bytes::copy_of(alloc, b"ingress fault\n"),
            AuditEnd::DiskFault => Bytes::copy_of(alloc, b"disk fault\n"),
            AuditEnd::NotAStore { file, place } => not_a_store_line(alloc, *file, *place),
            AuditEnd::StoreOfOther => Bytes::copy_of(alloc, b"store of other module\n"),
            AuditEnd::OutOfMemory => Ok(Bytes::new(alloc)),
        }
    }
}

/// `audit yes checkpoint CHECKPOINT entries ENTRIES`.
fn yes_line(alloc: Global, checkpoint: u64, entries: u64) -> Mem<Bytes>
    ensures { IfOk result (λ line. line ≡ yes_line checkpoint entries) }
{
    let mut line = Bytes::new(alloc);
    line.append(b"audit yes checkpoint ")?;
    put_decimal(&mut line, checkpoint)?;
    line.append(b" entries ")?;
    put_decimal(&mut line, entries)?;
    line.push(b'\n')?;
    Ok(line)
}

/// `audit no entry ENTRY`.
fn entry_line(alloc: Global, entry: u64) -> Mem<Bytes>
    ensures { IfOk result (λ line. line ≡ entry_line entry) }
{
    let mut line = Bytes::new(alloc);
    line.append(b"audit no entry ")?;
    put_decimal(&mut line, entry)?;
    line.push(b'\n')?;
    Ok(line)
}

/// The line of a module file's refusal.
fn refused_line(alloc: Global, document: u32, line: u32, kind: ModuleKind) -> Mem<Bytes>
    ensures { IfOk result (λ text. text ≡ refused_line document line kind) }
{
    let mut text = Bytes::new(alloc);
    text.append(b"module refused document ")?;
    put_decimal(&mut text, u64::from(document))?;
    text.append(b" line ")?;
    put_decimal(&mut text, u64::from(line))?;
    put_kind(&mut text, kind)?;
    Ok(text)
}

/// The end of that line.
fn put_kind(into: &mut Bytes, kind: ModuleKind) -> Mem<()>
    ensures { OnOk result (into.new ≡ into.old ++ kind_text kind) }
{
    into.append(b" kind ")?;
    into.append(kind.name().as_bytes())?;
    into.push(b'\n')?;
    Ok(())
}
