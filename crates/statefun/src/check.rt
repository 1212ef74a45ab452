//! The command `check`: opens the module file, and shows a person where and why it is refused.
use crate::missing::missing_key;
use module_yaml::{ModuleFault, read_module};
use proto_wire::{Bytes, List, Mem, ModuleKind};
use sf_outside::{MemorySource, ReaderSource, WriterSink};
use statefun_cli::statefun_check;
use std::alloc::{AllocError, Global};
use std::fs;
use std::io::Read;

/// The status of a module file that cannot be read.
const MODULE_FAULT: u8 = 3;
/// The status of a module file that is refused.
const REFUSED: u8 = 4;

/// Checks the module file that the words name.
pub(crate) fn check(rt: &HostRuntime, words: &[String]) -> Mem<u8> {
    let mut out = WriterSink::new(rt.stdout());
    let path = path_in(words);
    let Ok(file) = fs::open(rt, path) else {
        let mut file = unreadable(rt.alloc())?;
        let status = statefun_check(rt.alloc(), words, &mut file, &mut out);
        show_end(rt, path, status);
        return Ok(status);
    };
    let mut file = ReaderSource::new(file);
    let status = statefun_check(rt.alloc(), words, &mut file, &mut out);
    show_end(rt, path, status);
    Ok(status)
}

/// A file that cannot be opened is one whose reads fail.
pub(crate) fn unreadable(alloc: Global) -> Mem<MemorySource> {
    let mut calls = List::new(alloc);
    calls.push(0)?;
    MemorySource::new(alloc, Bytes::new(alloc), calls)
}

/// Writes to standard error why a module file was not taken.
fn show_end(rt: &HostRuntime, path: &str, status: u8) {
    if status == MODULE_FAULT {
        let _ = eprintln!(rt; "{path}: cannot be opened or read");
    } else if status == REFUSED {
        show_refusal(rt, path);
    }
}

/// The word MODULE of right words: it stands behind the first one, or behind `--`.
fn path_in(words: &[String]) -> &str {
    match words.get(1) {
        Some(word) if word.as_str() == "--" => text_at(words, 2),
        _ => text_at(words, 1),
    }
}

/// The word at a place, or an empty text.
pub(crate) fn text_at(words: &[String], place: usize) -> &str {
    match words.get(place) {
        Some(word) => word.as_str(),
        None => "",
    }
}

/// Writes to standard error where a module file is refused, with a sentence and the line. That this fails changes nothing.
fn show_refusal(rt: &HostRuntime, path: &str) {
    let Ok(text) = text_of(rt, path) else {
        return;
    };
    let text = text.as_slice();
    let Err(
        ModuleFault::Refused {
            document,
            line,
            kind,
        },
    ) = read_module(rt.alloc(), text)
    else {
        return;
    };
    let Ok(place) = place_of(rt.alloc(), path, line) else {
        return;
    };
    match missing_in(rt.alloc(), text, document, kind) {
        Some(key) => {
            let _ = eprintln!(rt; "{place}: missing key '{key}'");
        }
        None => {
            let sentence = sentence_of(kind);
            let _ = eprintln!(rt; "{place}: {sentence}");
        }
    }
    if line > 0 {
        show_line(rt, text, line);
    }
}

/// The place of a refusal: the file, and its line where one is at fault.
fn place_of(alloc: Global, path: &str, line: u32) -> Result<String, AllocError> {
    if line == 0 {
        String::from_str(alloc, path)
    } else {
        format!(in alloc; "{path}:{line}")
    }
}

/// The key that is missing, where that is the refusal.
fn missing_in(alloc: Global, text: &[u8], document: u32, kind: ModuleKind) -> Option<&'static str> {
    if kind == ModuleKind::MissingKey {
        missing_key(alloc, text, document)
    } else {
        None
    }
}

/// The bytes of a file, as many as a module file may have and one more.
fn text_of(rt: &HostRuntime, path: &str) -> Result<Vec<u8>, std::io::Error> {
    let mut text = Vec::new(rt.alloc());
    let _count = fs::open(rt, path)?.take(1_048_577).read_to_end(&mut text)?;
    Ok(text)
}

/// A line of a text, with a caret below its first character that is no white space.
fn show_line(rt: &HostRuntime, text: &[u8], line: u32) {
    let Ok(text) = std::str::from_utf8(text) else {
        return;
    };
    let Some(content) = text.lines().nth((line as usize).saturating_sub(1)) else {
        return;
    };
    let Ok(caret) = caret_below(rt.alloc(), content) else {
        return;
    };
    let _ = rt.eprintln(content);
    let _ = rt.eprintln(caret.as_str());
}

/// A caret, and in front of it the white space that a line begins with.
fn caret_below(alloc: Global, content: &str) -> Result<String, AllocError> {
    let mut caret = String::new(alloc);
    for byte in content.bytes() {
        if byte != b' ' && byte != b'\t' {
            break;
        }
        caret.push(char::from(byte))?;
    }
    caret.push('^')?;
    Ok(caret)
}

/// What is wanted where a module file is refused.
fn sentence_of(kind: ModuleKind) -> &'static str {
    match kind {
        ModuleKind::NotUtf8 => "a byte here is not UTF-8",
        ModuleKind::Tab => "indentation is spaces; this line has a tab",
        ModuleKind::Directive => "directives are not read",
        ModuleKind::Anchor => "anchors and aliases are not read; quote the text if it begins so",
        ModuleKind::Tag => "tags are not read; quote the text if it begins so",
        ModuleKind::Flow => "flow collections are not read; use lines of their own",
        ModuleKind::BlockScalar => "block scalars are not read; a text stands on one line",
        ModuleKind::Quote =>
            "a quoted text ends on its line, and only white space or a comment follows",
        ModuleKind::DuplicateKey => "this key stands already",
        ModuleKind::Indent => "this line fits no block above it; look at its indentation",
        ModuleKind::Reserved => "a plain text does not begin so; quote it",
        ModuleKind::Colon => "a plain text has no colon and space inside; quote it",
        ModuleKind::Depth => "more than 16 levels of blocks",
        ModuleKind::TooLong => "a module file has at most 1048576 bytes",
        ModuleKind::MissingKey => "a key that has to stand here is missing",
        ModuleKind::UnknownKey => "there is no such key here",
        ModuleKind::BadValue => "the key does not take this value",
        ModuleKind::UnsupportedKind => "there is no such kind of document",
        ModuleKind::DuplicateId => "another document has this already",
        ModuleKind::NoEndpoint => "no endpoint is for this target",
        ModuleKind::NoIngress => "there has to be an ingress",
        ModuleKind::TooMany => "there are too many of these",
    }
}
