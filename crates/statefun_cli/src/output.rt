//! Writing to a sink.
ghost use Rattle.std.specs.Prelude.{◌≡◌, ◌≤◌, ℕ, length, take, OnOk, OnErr};
ghost use Rattle.sf_outside.specs.Told.{HasCause, more};
ghost use Rattle.statefun_cli.specs.Outside.{Tells};

use sf_outside::{Fault, Sink};

/// Writes bytes whole. An `Err` leaves a part of them written, from the front.
pub fn write_whole<O: Sink>(out: &mut O, bytes: &[u8]) -> Result<(), Fault>
    ensures whole { OnOk result (O.written out.new ≡ more (O.written out.old) bytes.now) }
    ensures part { OnErr result ((k : ℕ) × (k ≤ length bytes.now) × (O.written out.new ≡ more (O.written out.old) (take k bytes.now))) }
    ensures cause { HasCause (O.faults out.old) (O.faults out.new) result }
{
    let mut done = 0;
    while done < bytes.len() {
        let (_, rest) = bytes.split_at(done);
        let n = out.write(rest)?;
        done += n;
    }
    Ok(())
}

/// Tells an end: writes its text, and gives it back.
pub(crate) fn tell<O: Sink, E: Copy>(out: &mut O, told: E, text: &[u8]) -> Result<E, Fault>
    ensures told { Tells (O.written out.old) (O.written out.new) text.now told result }
    ensures cause { HasCause (O.faults out.old) (O.faults out.new) result }
{
    write_whole(out, text)?;
    Ok(told)
}
