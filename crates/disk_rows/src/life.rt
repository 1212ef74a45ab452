//! One life of a log: it is opened, its blocks are read, and more are added.
ghost use Rattle.std.specs.Prelude.{◌≡◌, List, ℕ, IsFalse};
ghost use Rattle.sf_disk.specs.Moments.{WhereTold};
ghost use Rattle.block_log.specs.Blocks.{Body};
ghost use Rattle.block_log.specs.Logs.{IsOpen};

use block_log::{BlockLog, LogFault, open_log};
use proto_wire::{Bytes, List};
use sf_disk::Disk;
use std::alloc::Global;

/// The file that the log is in.
pub(crate) const FILE: u32 = 0;

/// What came of a life.
#[derive(Drop)]
pub struct Life {
    /// The blocks that were found, each with its position.
    pub(crate) found: List<Found>,
    /// The positions that calls of `append` answered.
    pub(crate) answered: List<u64>,
    /// The fault that ended it.
    pub(crate) fault: Option<LogFault>,
}

/// A block that was found.
#[derive(Drop)]
pub struct Found {
    pub(crate) position: u64,
    pub(crate) body: Bytes,
}

/// Opens the log, reads its blocks, and appends these bodies up to the first fault.
pub(crate) fn live<D: Disk>(alloc: Global, disk: &mut D, bodies: &[Bytes]) -> Life {
    let mut life = Life {
        found: List::new(alloc),
        answered: List::new(alloc),
        fault: None,
    };
    if let Err(fault) = go(alloc, disk, bodies, &mut life) {
        life.fault = Some(fault);
    }
    life
}

fn go<D: Disk>(
    alloc: Global,
    disk: &mut D,
    bodies: &[Bytes],
    life: &mut Life,
) -> Result<(), LogFault> {
    let log = open_log(alloc, disk, FILE)?;
    read_all(disk, &log, &mut life.found)?;
    append_all(disk, log, bodies, &mut life.answered)
}

fn read_all<D: Disk>(disk: &mut D, log: &BlockLog, found: &mut List<Found>) -> Result<(), LogFault>
    requires usable { IsFalse log.now.spent }
    requires is_open { WhereTold (D.moments disk.old) (λ now. (bodies : List Body) × IsOpen log.now bodies (now log.now.file)) }
    ensures same { D.moments disk.new ≡ D.moments disk.old }
{
    let blocks = log.blocks().as_slice();
    for place in 0..blocks.len() {
        let position = blocks[place];
        let body = log.read_block(disk, position)?;
        found.push(Found { position, body })?;
    }
    Ok(())
}

fn append_all<D: Disk>(
    disk: &mut D,
    log: BlockLog,
    bodies: &[Bytes],
    answered: &mut List<u64>,
) -> Result<(), LogFault>
    requires usable { IsFalse log.spent }
    requires is_open { WhereTold (D.moments disk.old) (λ now. (bodies : List Body) × IsOpen log bodies (now log.file)) }
{
    let mut log = log;
    for body in bodies {
        let position = log.append(disk, body.as_slice())?;
        answered.push(position)?;
    }
    Ok(())
}
