//! Writing to a sink.
ghost use Rattle.std.specs.Prelude.{◌≡◌, ◌≤◌, ℕ, List, length, take, IfOk, OnOk, OnErr};
ghost use Rattle.sf_outside.specs.Told.{HasCause, more};
ghost use Rattle.command_io.specs.Telling.{IsTold, output};

use proto_wire::{Bytes, Mem};
use sf_outside::{Fault, Sink};

/// The status of a write that failed.
const WRITE_FAULT: u8 = 11;

/// The status of want of memory.
const OUT_OF_MEMORY: u8 = 15;

/// Writes bytes whole. An `Err` leaves a part of them written, from the front.
pub fn write_whole<O: Sink>(out: &mut O, bytes: &[u8]) -> Result<(), Fault>
    ensures whole { OnOk result (O.written out.new ≡ more (O.written out.old) bytes.now) }
    ensures part { OnErr result ((k : ℕ) × (k ≤ length bytes.now) × (O.written out.new ≡ more (O.written out.old) (take k bytes.now))) }
    ensures cause { HasCause (O.faults out.old) (O.faults out.new) result }
{
    let mut done = 0;
    while done < bytes.len() {
        let (_, rest) = bytes.split_at(done);
        let n = out.write(rest)?;
        done += n;
    }
    Ok(())
}

/// Tells how a command ended: writes its text and answers its status. Where a write fails the status is 11, and where memory
/// runs out 15; a part of the text is written then, from the front.
pub fn tell<O: Sink>(out: &mut O, text: &[u8], status: u8) -> u8
    ensures { IsTold (output (O.written out.old) (O.faults out.old)) (output (O.written out.new) (O.faults out.new)) text.now status result }
{
    match write_whole(out, text) {
        Ok(()) => status,
        Err(Fault::Failed) => WRITE_FAULT,
        Err(Fault::OutOfMemory) => OUT_OF_MEMORY,
    }
}

/// Tells an end whose text was made in memory; nothing is written where that ran out.
pub fn tell_made<O: Sink>(out: &mut O, made: Mem<Bytes>, status: u8) -> u8
    ensures { (text : List ℕ) → IfOk made (λ bytes. bytes ≡ text)
        → IsTold (output (O.written out.old) (O.faults out.old)) (output (O.written out.new) (O.faults out.new)) text status result }
{
    match made {
        Ok(text) => tell(out, text.as_slice(), status),
        Err(_) => OUT_OF_MEMORY,
    }
}
