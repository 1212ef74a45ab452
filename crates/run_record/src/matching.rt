//! Whether two machines stand at the same.
ghost use Rattle.std.specs.Prelude.{◌≡◌, ◌↔◌, ℕ, IsTrue, IfOk, get_or};
ghost use Rattle.run_record.specs.StateOf.{state_of};

use crate::machine::Machine;
use proto_wire::Mem;

impl Machine {
    /// Whether another machine has the same: of each split as many records taken, of each address the same cells, moment and
    /// delayed letters, and for each pair of sender and target the same letters in the same order. What was given to
    /// egresses is not compared.
    #[tactic(auto, unfolding(crate::specs::StateOf::state_of))]
    pub fn matches(&self, other: &Machine) -> Mem<bool>
        ensures { IfOk result (λ same. IsTrue same ↔
            (((state_of self.now).own ≡ (state_of other.now).own) × ((state_of self.now).mail ≡ (state_of other.now).mail))) }
    {
        if !same_counts(self.taken.as_slice(), other.taken.as_slice()) {
            return Ok(false);
        }
        if !self.mail.same(&other.mail) {
            return Ok(false);
        }
        self.parts.same(&other.parts)
    }
}

/// Whether two lists have the same count for each split; one that is not there is 0.
fn same_counts(one: &[u64], other: &[u64]) -> bool
    ensures { IsTrue result ↔ ((split : ℕ) → get_or one.now split 0 ≡ get_or other.now split 0) }
{
    for split in 0..one.len().max(other.len()) {
        if count_at(one, split) != count_at(other, split) {
            return false;
        }
    }
    true
}

/// The count of a split.
fn count_at(counts: &[u64], split: usize) -> u64
    ensures { result ≡ get_or counts.now split 0 }
{
    match counts.get(split) {
        Some(count) => *count,
        None => 0,
    }
}
