//! Links: the way of a request to its function and of the answer back.
ghost use Rattle.std.specs.Prelude.{◌≡◌, ℕ, List, [], ◌∷◌, Option, OnErr, IfOk, OnOk};
ghost use Rattle.sf_outside.specs.declared.call.LinkEvent.TheVariants.{Started, Polled};
ghost use Rattle.sf_outside.specs.Told.{HasCause, more};
ghost use Rattle.sf_outside.specs.Answers.{Extends, IsAnswered, LostRose};

use crate::{Call, Exchange, Fault, LinkEvent, Outcome};
use proto_wire::Text;

/// A link to the endpoints. It never makes two answers of one: what it tells was answered.
pub trait Link {
    ghost use Rattle.sf_outside.specs.declared.call.LinkEvent.{LinkEvent};
    ghost use Rattle.sf_outside.specs.declared.call.Exchange.{Exchange};

    /// What it did, oldest first, where it tells that. A call that answered a fault is not in it.
    ghost journal: { Self → Option (List LinkEvent) };

    /// What endpoints answered, where the link tells.
    ghost exchanges: { Self → List Exchange };

    /// How often a call on the link has failed.
    ghost faults: { Self → ℕ };

    /// How often it told that a call was lost.
    ghost losses: { Self → ℕ };

    /// Starts a call: sends the request to the URL.
    fn start(&mut self, call: Call, url: &Text, request: &[u8]) -> Result<(), Fault>
        ensures started { OnOk result (journal self.new ≡ more (journal self.old) (Started call url.now request.now ∷ [])) }
        ensures err { OnErr result (journal self.new ≡ journal self.old) }
        ensures exchanges { Extends (exchanges self.old) (exchanges self.new) }
        ensures losses { losses self.new ≡ losses self.old }
        ensures cause { HasCause (faults self.old) (faults self.new) result };

    /// What became of some call that was started, or `None`. May wait up to `wait` milliseconds.
    fn poll(&mut self, wait: u32) -> Result<Option<Outcome>, Fault>
        ensures polled { IfOk result (λ outcome. journal self.new ≡ more (journal self.old) (Polled outcome ∷ [])) }
        ensures err { OnErr result (journal self.new ≡ journal self.old) }
        ensures exchanges { Extends (exchanges self.old) (exchanges self.new) }
        // An answer is that of an exchange which was started before.
        ensures answered { IfOk result (λ outcome. IsAnswered (journal self.old) (exchanges self.new) outcome) }
        ensures lost { LostRose (losses self.old) (losses self.new) result }
        ensures cause { HasCause (faults self.old) (faults self.new) result };
}
