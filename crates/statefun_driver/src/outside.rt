//! What lies outside of a run, as one object.
ghost use Rattle.std.specs.Prelude.{◌≡◌, MatchResult};
ghost use Rattle.statefun_driver.specs.Seen.{Hears, Breaks, Read, Now, Start, Poll};
ghost use Rattle.statefun_driver.specs.declared.end.Broken.TheVariants.{Ingress as IngressBreaks, Link as LinkBreaks};

use crate::Broken;
use proto_wire::Text;
use sf_outside::{Call, IngressRecord, Outcome};

/// What lies outside of a run: its ingress, its clock and its link.
pub trait Outside {
    ghost use Rattle.statefun_driver.specs.Seen.{Seen};

    /// What they tell of themselves, and their counts.
    ghost seen: { Self → Seen };

    /// Record `offset` of a split.
    fn read(&mut self, split: u32, offset: u64) -> Result<Option<IngressRecord>, Broken>
        ensures { MatchResult result
            (λ found. Hears (Read split offset found) (seen self.old) (seen self.new))
            (λ by. Breaks IngressBreaks by (seen self.old) (seen self.new)) };

    /// The moment now, in milliseconds.
    fn now(&mut self) -> u64
        ensures { Hears (Now result) (seen self.old) (seen self.new) };

    /// Starts a call.
    fn start(&mut self, call: Call, url: &Text, request: &[u8]) -> Result<(), Broken>
        ensures { MatchResult result
            (λ _. Hears (Start call url.now request.now) (seen self.old) (seen self.new))
            (λ by. Breaks LinkBreaks by (seen self.old) (seen self.new)) };

    /// What became of some call that was started. May wait for a moment.
    fn poll(&mut self) -> Result<Option<Outcome>, Broken>
        ensures { MatchResult result
            (λ outcome. Hears (Poll outcome) (seen self.old) (seen self.new))
            (λ by. Breaks LinkBreaks by (seen self.old) (seen self.new)) };
}
