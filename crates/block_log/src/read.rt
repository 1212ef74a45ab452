//! Reading a block.
ghost use Rattle.std.specs.Prelude.{◌≡◌, ◌+◌, ◌≤◌, ℕ, List, Contains, length, take, drop, IfOk, IfErr, IsFalse};
ghost use Rattle.sf_outside.specs.Told.{HasCause};
ghost use Rattle.sf_disk.specs.Moments.{WhereTold};

use crate::frame::{CLOSED, HEAD, head_in};
use crate::{BlockLog, LogFault};
use proto_wire::Bytes;
use sf_disk::Disk;
use sf_outside::Fault;
use std::alloc::Global;

impl BlockLog {
    ghost use Rattle.block_log.specs.Blocks.{Body};
    ghost use Rattle.block_log.specs.Logs.{IsOpen, HasBlockAt};
    ghost use Rattle.block_log.specs.Faults.{HasLogCause, RefusesUntold};

    /// The body of the block at a position, which is one of `blocks`.
    pub fn read_block<D: Disk>(&self, disk: &mut D, position: u64) -> Result<Bytes, LogFault>
        requires usable { IsFalse self.now.spent }
        requires block { Contains self.now.blocks position }
        requires is_open { WhereTold (D.moments disk.old) (λ now. (bodies : List Body) × IsOpen self.now bodies (now self.now.file)) }
        ensures body { IfOk result (λ body. WhereTold (D.moments disk.old) (λ now. (bodies : List Body) (stands : Body) → IsOpen self.now bodies (now self.now.file) → HasBlockAt bodies position stands → body ≡ stands)) }
        ensures refuses { IfErr result (λ fault. RefusesUntold fault (D.moments disk.old)) }
        ensures same { D.moments disk.new ≡ D.moments disk.old }
        ensures cause { HasLogCause (D.faults disk.old) (D.faults disk.new) result }
    {
        let mut bytes = [0; HEAD];
        disk.read(self.file, position, &mut bytes)?;
        let head = head_in(bytes);
        let room = self
            .end
            .saturating_sub(position)
            .saturating_sub(HEAD as u64);
        if head.gate == CLOSED || head.len > room {
            return Err(LogFault::NotALog { place: position });
        }
        let place = position.saturating_add(HEAD as u64);
        let body = bytes_at(self.alloc, disk, self.file, place, head.len)?;
        Ok(body)
    }
}

// So many bytes of a file.
fn bytes_at<D: Disk>(
    alloc: Global,
    disk: &mut D,
    file: u32,
    at: u64,
    len: u64,
) -> Result<Bytes, Fault>
    requires { WhereTold (D.moments disk.old) (λ now. at + len ≤ length (now file).seen) }
    ensures bytes { IfOk result (λ bytes. WhereTold (D.moments disk.old) (λ now. bytes ≡ take len (drop at (now file).seen))) }
    ensures same { D.moments disk.new ≡ D.moments disk.old }
    ensures cause { HasCause (D.faults disk.old) (D.faults disk.new) result }
{
    let mut bytes = vec![in alloc; 0; len as usize]?;
    disk.read(file, at, &mut bytes)?;
    Ok(Bytes::of(bytes))
}
