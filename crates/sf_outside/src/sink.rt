//! Sinks: where bytes are written to.
ghost use Rattle.std.specs.Prelude.{◌≡◌, ◌≢◌, ◌≤◌, ◌<◌, ℕ, List, [], Option, OnErr, IfOk, length, take};
ghost use Rattle.sf_outside.specs.Told.{HasCause, more};

use crate::Fault;

/// A sink of bytes.
pub trait Sink {
    /// The bytes written so far, where the sink tells them.
    ghost written: { Self → Option (List ℕ) };

    /// How often a write has failed.
    ghost faults: { Self → ℕ };

    /// Writes the first bytes of these, at least one where there are any, and answers how many.
    fn write(&mut self, bytes: &[u8]) -> Result<usize, Fault>
        ensures written { IfOk result (λ n. written self.new ≡ more (written self.old) (take n bytes.now)) }
        ensures bound { IfOk result (λ n. n ≤ length bytes.now) }
        ensures progress { IfOk result (λ n. 0 < length bytes.now → 0 < n) }
        ensures err { OnErr result (written self.new ≡ written self.old) }
        ensures cause { HasCause (faults self.old) (faults self.new) result };
}
