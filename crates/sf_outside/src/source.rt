//! Sources: where bytes are read from.
ghost use Rattle.std.specs.Prelude.{◌≡◌, ◌≤◌, ◌<◌, ℕ, List, Option, OnErr, IfOk, length, take, drop};
ghost use Rattle.sf_outside.specs.Told.{HasCause};
ghost use Rattle.sf_outside.specs.Left.{ahead, AtEnd};

use crate::Fault;

/// A source of bytes.
pub trait Source {
    /// The bytes left to read, where the source tells them.
    ghost left: { Self → Option (List ℕ) };

    /// How often a read has failed.
    ghost faults: { Self → ℕ };

    /// Reads the next bytes to the front of `into`, and answers how many: none only at the end, or where `into` has no
    /// room. What is behind them stays.
    fn read(&mut self, into: &mut [u8]) -> Result<usize, Fault>
        ensures read { IfOk result (λ n. left self.old ≡ ahead (take n into.new) (left self.new)) }
        ensures bound { IfOk result (λ n. n ≤ length into.new) }
        ensures behind { IfOk result (λ n. drop n into.new ≡ drop n into.old) }
        ensures end { IfOk result (λ n. n ≡ 0 → 0 < length into.new → AtEnd (left self.new)) }
        ensures err { OnErr result (left self.new ≡ left self.old) }
        ensures room { OnErr result (into.new ≡ into.old) }
        ensures cause { HasCause (faults self.old) (faults self.new) result };
}
