//! Numbered files in memory, of which those past the list are empty.
ghost use Rattle.std.specs.Prelude.{◌≡◌, ◌+◌, ◌<◌, ◌≤◌, ℕ, length, take, drop, OnOk, OnErr, IfOk};
ghost use Rattle.sf_disk.specs.Images.{patched};
ghost use Rattle.sf_disk.specs.Memory.{file_of, seen_after, written, shortened, placed};

use crate::change::Change;
use proto_wire::{Bytes, Mem};
use std::alloc::Global;
use std::mem;

/// The bytes of a file.
pub(crate) fn file_in(files: &[Bytes], file: u32) -> &[u8]
    ensures { result.now ≡ file_of files.now file }
{
    match files.get(file as usize) {
        Some(bytes) => bytes.as_slice(),
        None => &[],
    }
}

/// Makes a change in what reads see. An `Err` changes nothing.
pub(crate) fn change_in(alloc: Global, files: &mut Vec<Bytes>, change: &Change) -> Mem<()>
    ensures ok { OnOk result ((file : ℕ) → file_of files.new.items file ≡ seen_after change.now file (file_of files.old.items file)) }
    ensures err { OnErr result ((file : ℕ) → file_of files.new.items file ≡ file_of files.old.items file) }
{
    match change {
        Change::Write { file, at, bytes } => {
            write_in(alloc, files, *file, *at as usize, bytes.as_slice())
        }
        Change::Cut { file, len } => {
            cut_in(files, *file, *len as usize);
            Ok(())
        }
        Change::Sync { file: _ } => Ok(()),
    }
}

/// Writes bytes into a file at an offset, or at its end where it is shorter. An `Err` changes nothing.
pub(crate) fn write_in(
    alloc: Global,
    files: &mut Vec<Bytes>,
    file: u32,
    at: usize,
    bytes: &[u8],
) -> Mem<()>
    ensures ok { OnOk result ((other : ℕ) → file_of files.new.items other ≡ written file at bytes.now other (file_of files.old.items other)) }
    ensures err { OnErr result ((other : ℕ) → file_of files.new.items other ≡ file_of files.old.items other) }
{
    let place = file as usize;
    reach(alloc, files, place)?;
    let mut content = mem::replace(&mut files[place], Bytes::new(alloc)).into_vec();
    let made = patch(&mut content, at, bytes);
    files[place] = Bytes::of(content);
    made
}

/// Puts a file in place of another.
pub(crate) fn put_in(alloc: Global, files: &mut Vec<Bytes>, file: u32, content: Bytes) -> Mem<()>
    ensures ok { OnOk result ((other : ℕ) → file_of files.new.items other ≡ placed file content other (file_of files.old.items other)) }
{
    let place = file as usize;
    reach(alloc, files, place)?;
    files[place] = content;
    Ok(())
}

/// Cuts a file to a length, where it is longer.
pub(crate) fn cut_in(files: &mut Vec<Bytes>, file: u32, len: usize)
    ensures { (other : ℕ) → file_of files.new.items other ≡ shortened file len other (file_of files.old.items other) }
{
    let place = file as usize;
    if place < files.len() {
        files[place].truncate(len);
    }
}

// Makes the list reach to a file.
fn reach(alloc: Global, files: &mut Vec<Bytes>, place: usize) -> Mem<()>
    ensures reached { OnOk result (place < length files.new.items) }
    ensures same { (other : ℕ) → file_of files.new.items other ≡ file_of files.old.items other }
{
    while files.len() <= place {
        files.push(Bytes::new(alloc))?;
    }
    Ok(())
}

// Writes bytes at an offset, or at the end where the content is shorter.
fn patch(content: &mut Vec<u8>, at: usize, bytes: &[u8]) -> Mem<()>
    ensures ok { OnOk result (content.new.items ≡ patched content.old.items at bytes.now) }
    ensures err { OnErr result (content.new.items ≡ content.old.items) }
{
    let at = at.min(content.len());
    let inside = bytes.len().min(content.len() - at);
    let (over, behind) = bytes.split_at(inside);
    content.extend_from_slice(behind)?;
    content[at..at + inside].copy_from_slice(over);
    Ok(())
}

/// Copies the bytes of a content from an offset on.
pub(crate) fn copy_from(content: &[u8], at: u64, into: &mut [u8])
    requires { at + length into.old ≤ length content.now }
    ensures { into.new ≡ take (length into.old) (drop at content.now) }
{
    let (_, behind) = content.split_at(at as usize);
    let (front, _) = behind.split_at(into.len());
    into.copy_from_slice(front);
}
