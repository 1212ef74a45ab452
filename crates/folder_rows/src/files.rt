//! The files of a folder.
use crate::quiet::Quiet;
use block_log::{LogFault, open_log};
use proto_wire::{Bytes, List};
use row_text::{Failure, bytes_of};
use sf_disk::Disk;
use std::alloc::Global;

/// The rows look at no file behind these.
const FILES: u32 = 19;

/// All bytes of a file.
pub(crate) fn content_of(alloc: Global, disk: &mut Quiet, file: u32) -> Result<Bytes, Failure> {
    match read_all(alloc, disk, file) {
        Ok(content) => Ok(content),
        Err(fault) => Err(failure_of(fault)),
    }
}

fn read_all(alloc: Global, disk: &mut Quiet, file: u32) -> Result<Bytes, LogFault> {
    let len = disk.len(file)?;
    let mut bytes = vec![in alloc; 0; len as usize]?;
    disk.read(file, 0, &mut bytes)?;
    Ok(Bytes::of(bytes))
}

/// A disk with the same files, of which one keeps its first `front` bytes, with these behind them.
pub(crate) fn changed(
    alloc: Global,
    disk: &mut Quiet,
    file: u32,
    front: usize,
    behind: &[u8],
) -> Result<Quiet, Failure> {
    let mut files = List::new(alloc);
    for number in 0..FILES {
        let mut content = content_of(alloc, disk, number)?;
        if number == file {
            content.truncate(front);
            content.append(behind)?;
        }
        files.push(content)?;
    }
    Ok(Quiet::new(alloc, files)?)
}

/// Adds blocks to a file.
pub(crate) fn add(
    alloc: Global,
    disk: &mut Quiet,
    file: u32,
    bodies: &[Bytes],
) -> Result<(), Failure> {
    match open_and_append(alloc, disk, file, bodies) {
        Ok(()) => Ok(()),
        Err(fault) => Err(failure_of(fault)),
    }
}

fn open_and_append(
    alloc: Global,
    disk: &mut Quiet,
    file: u32,
    bodies: &[Bytes],
) -> Result<(), LogFault> {
    let mut log = open_log(alloc, disk, file)?;
    for body in bodies {
        let _position = log.append(disk, body.as_slice())?;
    }
    Ok(())
}

fn failure_of(fault: LogFault) -> Failure {
    match fault {
        LogFault::OutOfMemory => Failure::OutOfMemory,
        LogFault::DiskFault => Failure::System,
        LogFault::NotALog { .. } => Failure::Row,
    }
}

/// The bytes of a word whose parts have a comma between them.
pub(crate) fn parts_of(alloc: Global, word: &str) -> Result<Bytes, Failure> {
    let mut bytes = Bytes::new(alloc);
    for part in word.split(',') {
        bytes.append(bytes_of(alloc, part)?.as_slice())?;
    }
    Ok(bytes)
}

/// The bytes of each word.
pub(crate) fn bodies_of(alloc: Global, words: &str) -> Result<List<Bytes>, Failure> {
    let mut bodies = List::new(alloc);
    for word in words.split(' ') {
        bodies.push(parts_of(alloc, word)?)?;
    }
    Ok(bodies)
}
