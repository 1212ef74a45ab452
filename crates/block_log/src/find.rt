//! Where the blocks of a file stand.
ghost use Rattle.std.specs.Prelude.{◌≡◌, ◌^◌, ◌≤◌, length, IfOk, IfErr, IsFalse};
ghost use Rattle.sf_disk.specs.Moments.{WhereTold};
ghost use Rattle.block_log.specs.Logs.{EndsAt};
ghost use Rattle.block_log.specs.Faults.{HasLogCause, Refuses};

use crate::frame::HEAD;
use crate::gate::{Gate, gate_at};
use crate::{BlockLog, LogFault};
use proto_wire::List;
use sf_disk::Disk;
use std::alloc::Global;

/// Goes from gate to gate up to the closed one.
pub(crate) fn find_blocks<D: Disk>(
    alloc: Global,
    disk: &mut D,
    file: u32,
    len: u64,
) -> Result<BlockLog, LogFault>
    requires length { WhereTold (D.moments disk.old) (λ now. len ≡ length (now file).seen) }
    requires long { 10 ≤ len }
    requires bound { len ≤ 2 ^ 62 }
    ensures ends { IfOk result (λ log. WhereTold (D.moments disk.old) (λ now. EndsAt log (now file).seen)) }
    ensures file { IfOk result (λ log. log.file ≡ file) }
    ensures spent { IfOk result (λ log. IsFalse log.spent) }
    ensures refuses { IfErr result (λ fault. Refuses fault (D.moments disk.old) file) }
    ensures same { D.moments disk.new ≡ D.moments disk.old }
    ensures cause { HasLogCause (D.faults disk.old) (D.faults disk.new) result }
{
    let mut blocks = List::new(alloc);
    let mut at = 0;
    loop {
        match gate_at(disk, file, at, len - at)? {
            Gate::Closed => return Ok(BlockLog::at(alloc, file, blocks, at)),
            Gate::Cut => return Err(LogFault::NotALog { place: at }),
            Gate::Block { len: body } => {
                blocks.push(at)?;
                at += HEAD as u64 + body;
            }
        }
    }
}
