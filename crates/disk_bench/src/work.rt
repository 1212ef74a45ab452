//! What the program does.
ghost use Rattle.std.specs.Prelude.{IsFalse};

use crate::failure::Failure;
use crate::timed_disk::TimedDisk;
use block_log::{BlockLog, open_log};
use proto_wire::Text;
use sf_disk::FolderDisk;

/// The file that the log is in.
const FILE: u32 = 0;

/// Appends blocks of one size.
pub(crate) fn append(
    rt: &HostRuntime,
    folder: &str,
    count: u64,
    size: usize,
) -> Result<(), Failure> {
    let alloc = rt.alloc();
    let disk = FolderDisk::new(alloc, rt, Text::copy_of(alloc, folder)?);
    let mut disk = TimedDisk::new(disk, rt);
    let mut log = open_log(alloc, &mut disk, FILE)?;
    let body = vec![in alloc; 0x61u8; size]?;
    for _ in 0..count {
        log.append(&mut disk, body.as_slice())?;
    }
    let syncs = disk.syncs;
    let nanoseconds = disk.nanoseconds;
    println!(rt; "append {count} {size} syncs {syncs} nanoseconds {nanoseconds}")?;
    Ok(())
}

/// Appends blocks whose bodies are their numbers, and prints each.
pub(crate) fn number(rt: &HostRuntime, folder: &str, count: u64) -> Result<(), Failure> {
    let alloc = rt.alloc();
    let mut disk = FolderDisk::new(alloc, rt, Text::copy_of(alloc, folder)?);
    let mut log = open_log(alloc, &mut disk, FILE)?;
    let first = log.blocks().len() as u64;
    for more in 0..count {
        let number = first.saturating_add(more);
        log.append(&mut disk, &number.to_be_bytes())?;
        println!(rt; "{number}")?;
    }
    Ok(())
}

/// Opens the log, and prints how many blocks it has, each of which is to be its number.
pub(crate) fn check(rt: &HostRuntime, folder: &str) -> Result<(), Failure> {
    let alloc = rt.alloc();
    let mut disk = FolderDisk::new(alloc, rt, Text::copy_of(alloc, folder)?);
    let log = open_log(alloc, &mut disk, FILE)?;
    let count = numbered(&log, &mut disk)?;
    println!(rt; "blocks {count}")?;
    Ok(())
}

fn numbered(log: &BlockLog, disk: &mut FolderDisk<&HostRuntime>) -> Result<u64, Failure>
    requires { IsFalse log.now.spent }
{
    let blocks = log.blocks().as_slice();
    for place in 0..blocks.len() {
        let body = log.read_block(disk, blocks[place])?;
        if body.as_slice() != (place as u64).to_be_bytes().as_slice() {
            return Err(Failure::Number);
        }
    }
    Ok(blocks.len() as u64)
}
