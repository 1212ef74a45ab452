//! What a crash leaves of the files of a disk in memory.
ghost use Rattle.std.specs.Prelude.{◌≡◌, ◌≢◌, ℕ, OnOk, IfOk};
ghost use Rattle.sf_disk.specs.Memory.{file_of, now_of, crashed, image_after, filled_at};

use crate::change::Change;
use crate::files::{change_in, cut_in, file_in, put_in, write_in};
use proto_wire::{Bytes, List, Mem, TryClone};
use std::alloc::Global;

const FILLER: u8 = 0xa5;

/// The pick that keeps every write.
const EVERY_WRITE: u8 = 1;

/// The files after a crash, by its pick.
pub(crate) fn image_of(
    alloc: Global,
    first: &List<Bytes>,
    changes: &[Change],
    pick: u8,
) -> Mem<Vec<Bytes>>
    ensures { IfOk result (λ image. (file : ℕ) → file_of image.items file ≡ crashed pick (now_of first.now changes.now file)) }
{
    let mut seen = first.try_clone(alloc)?.into_vec();
    let mut image = first.try_clone(alloc)?.into_vec();
    for change in changes {
        tear(alloc, &mut image, seen.as_slice(), change, pick)?;
        change_in(alloc, &mut seen, change)?;
    }
    if pick == EVERY_WRITE {
        return Ok(seen);
    }
    Ok(image)
}

// What one more change makes of the image.
fn tear(alloc: Global, image: &mut Vec<Bytes>, seen: &[Bytes], change: &Change, pick: u8) -> Mem<()>
    ensures { OnOk result ((file : ℕ) → file_of image.new.items file ≡ image_after pick change.now (file_of seen.now file) file (file_of image.old.items file)) }
{
    match change {
        Change::Write { file, at, bytes } => {
            if pick == 0 {
                return Ok(());
            }
            fill_in(alloc, image, *file, *at, bytes.len())
        }
        Change::Cut { file, len } => {
            if pick > 0 {
                cut_in(image, *file, *len as usize);
            }
            Ok(())
        }
        Change::Sync { file } => {
            let content = Bytes::copy_of(alloc, file_in(seen, *file))?;
            put_in(alloc, image, *file, content)
        }
    }
}

// Fills a range, where it begins within the file.
fn fill_in(alloc: Global, image: &mut Vec<Bytes>, file: u32, at: u64, len: usize) -> Mem<()>
    ensures { OnOk result ((other : ℕ) → file_of image.new.items other ≡ filled_at file at len other (file_of image.old.items other)) }
{
    if at > file_in(image.as_slice(), file).len() as u64 {
        return Ok(());
    }
    let fill = vec![in alloc; FILLER; len]?;
    write_in(alloc, image, file, at as usize, fill.as_slice())
}
