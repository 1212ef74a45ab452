//! A log that is open.
ghost use Rattle.std.specs.Prelude.{◌≡◌, ◌↔◌, ◌∷◌, ◌++◌, [], ◌^◌, ◌<◌, List, ℕ, IsTrue, IsErr, IfOk, IfErr, OnOk, OnErr, IsFalse};
ghost use Rattle.sf_disk.specs.Moments.{Since, Becomes, WhereTold, InFile};

use crate::LogFault;
use crate::frame::{OPEN, closed_block};
use proto_wire::{Bytes, List, Mem};
use sf_disk::Disk;
use std::alloc::Global;

/// A log that is open, in one file of a disk. It is for that disk alone, and nobody else writes the file.
#[derive(Drop)]
pub struct BlockLog {
    pub(crate) file: u32,
    /// Where the blocks begin, in bytes from the file's start.
    pub(crate) blocks: List<u64>,
    /// Where the closed gate behind them stands.
    pub(crate) end: u64,
    /// A call that writes has answered a fault.
    pub(crate) spent: bool,
    pub(crate) alloc: Global,
    ghost bound: { end < 2 ^ 62 },
}

impl BlockLog {
    ghost use Rattle.block_log.specs.Blocks.{Body};
    ghost use Rattle.block_log.specs.Logs.{IsOpen, Adds, Added};
    ghost use Rattle.block_log.specs.Faults.{HasLogCause, IsNoRefusal};

    /// A log of these blocks, with its closed gate at `end`.
    pub(crate) fn at(alloc: Global, file: u32, blocks: List<u64>, end: u64) -> BlockLog
        requires { end < 2 ^ 62 }
        ensures file { result.file ≡ file }
        ensures blocks { result.blocks ≡ blocks }
        ensures end { result.end ≡ end }
        ensures spent { IsFalse result.spent }
    {
        BlockLog {
            file,
            blocks,
            end,
            spent: false,
            alloc,
        }
    }

    /// The number of its file.
    pub fn file(&self) -> u32
        ensures { result ≡ self.now.file }
    {
        self.file
    }

    /// The positions of its blocks, in their order.
    pub fn blocks(&self) -> &List<u64>
        ensures { result.now ≡ self.now.blocks }
    {
        &self.blocks
    }

    /// Whether an `append` has answered a fault. Then the log is opened again.
    pub fn spent(&self) -> bool
        ensures { result ≡ self.now.spent }
    {
        self.spent
    }

    /// Adds a block with this body, and answers its position. A crash at any moment of the call leaves the blocks
    /// before, with this one or without. After a fault the log is spent.
    pub fn append<D: Disk>(&mut self, disk: &mut D, body: &[u8]) -> Result<u64, LogFault>
        requires usable { IsFalse self.old.spent }
        requires is_open { WhereTold (D.moments disk.old) (λ now. (bodies : List Body) × IsOpen self.old bodies (now self.old.file)) }
        ensures meanwhile { Since (D.moments disk.old) (D.moments disk.new) (InFile self.old.file (Adds self.old body.now)) }
        ensures appended { OnOk result (Becomes (D.moments disk.old) (D.moments disk.new) (InFile self.old.file (Added self.old self.new body.now))) }
        ensures position { IfOk result (λ position. position ≡ self.old.end) }
        ensures blocks { IfOk result (λ position. self.new.blocks ≡ self.old.blocks ++ position ∷ []) }
        ensures file { self.new.file ≡ self.old.file }
        ensures spent { IsErr result ↔ IsTrue self.new.spent }
        ensures form { IfErr result IsNoRefusal }
        ensures cause { HasLogCause (D.faults disk.old) (D.faults disk.new) result }
    {
        self.spent = true;
        let block = closed_block(self.alloc, body)?;
        let gate = self.end;
        self.blocks.push(gate)?;
        disk.write_at(self.file, gate + 1, block.as_slice())?;
        disk.sync(self.file)?; // the block stands before its gate opens
        disk.write_at(self.file, gate, &[OPEN])?;
        disk.sync(self.file)?; // and so does the gate before the answer
        self.end = gate + block.len() as u64;
        self.spent = false;
        Ok(gate)
    }
}
