//! A clock that follows a list.
ghost use Rattle.std.specs.Prelude.{◌≡◌, ◌<◌, drop, length, Some, IsOkAnd, IfSome};
ghost use Rattle.std.specs.Option.{option_map};
ghost use Rattle.sf_clock.specs.Moments.{next_of, behind};

use crate::Clock;
use proto_wire::{List, Mem};
use std::alloc::Global;

/// A clock that gives the moments of a list one by one. The last one comes again and again, and of an empty list 0.
#[derive(Drop)]
pub struct ScriptClock {
    moments: List<u64>,
    /// The place of the next moment.
    next: usize,
}

impl ScriptClock {
    /// A clock that gives these moments, in milliseconds. It always succeeds.
    pub fn steady(_alloc: Global, moments: List<u64>) -> Mem<ScriptClock>
        ensures { IsOkAnd result (λ clock. drop clock.next clock.moments ≡ moments) }
    {
        Ok(ScriptClock { moments, next: 0 })
    }
}

impl Clock for ScriptClock {
    ghost ahead = { λ clock. Some (drop clock.next clock.moments) };

    /// The next moment of its list.
    fn now(&mut self) -> u64 {
        let Some(moment) = self.moments.as_slice().get(self.next) else {
            return 0;
        };
        let moment = *moment;
        if self.next + 1 < self.moments.len() {
            self.next += 1;
        }
        moment
    }
}
