//! What stands at a gate.
ghost use Rattle.std.specs.Prelude.{◌≡◌, ◌≢◌, ◌+◌, ◌^◌, ◌<◌, ◌≤◌, ◌∷◌, ◌++◌, List, ℕ, length, drop, take, IfOk};
ghost use Rattle.std.specs.Int.{to_be_bytes, w64};
ghost use Rattle.sf_outside.specs.Told.{HasCause};
ghost use Rattle.sf_disk.specs.Moments.{WhereTold};
ghost use Rattle.block_log.specs.Finding.{Begins, FitsInto};

use crate::frame::{CLOSED, HEAD, Head, SHORTEST, head_in};
use sf_disk::Disk;
use sf_outside::Fault;

/// What stands at a gate.
#[derive(Clone, Copy)]
pub enum Gate {
    /// It is closed, and ends the blocks.
    Closed,
    /// It is open, and a body of that many bytes stands behind it, with the next gate.
    Block { len: u64 },
    /// It is open, and what stands behind it does not fit.
    Cut,
}

/// What stands at the gate at `at`, behind which the file ends after `left` bytes, the gate's among them.
pub(crate) fn gate_at<D: Disk>(disk: &mut D, file: u32, at: u64, left: u64) -> Result<Gate, Fault>
    requires some { 0 < left }
    requires told { WhereTold (D.moments disk.old) (λ now. at + left ≡ length (now file).seen) }
    ensures begins { IfOk result (λ gate. WhereTold (D.moments disk.old) (λ now. Begins gate (drop at (now file).seen))) }
    ensures fits { IfOk result (FitsInto left) }
    ensures same { D.moments disk.new ≡ D.moments disk.old }
    ensures cause { HasCause (D.faults disk.old) (D.faults disk.new) result }
{
    if left < SHORTEST {
        let mut gate = [0; 1];
        disk.read(file, at, &mut gate)?;
        return Ok(if gate[0] == CLOSED {
            Gate::Closed
        } else {
            Gate::Cut
        });
    }
    let mut bytes = [0; HEAD];
    disk.read(file, at, &mut bytes)?;
    Ok(gate_of(head_in(bytes), left))
}

// What these bytes before a body are, so many bytes before the file's end.
fn gate_of(head: Head, left: u64) -> Gate
    requires { 10 ≤ left }
    ensures begins { (rest : List ℕ) → length rest + 9 ≡ left → Begins result (head.gate ∷ to_be_bytes w64 head.len ++ rest) }
    ensures fits { FitsInto left result }
{
    if head.gate == CLOSED {
        return Gate::Closed;
    }
    if head.len > left - SHORTEST {
        return Gate::Cut;
    }
    Gate::Block { len: head.len }
}
