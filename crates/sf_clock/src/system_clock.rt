//! The system's clock.
ghost use Rattle.std.specs.Prelude.{◌≡◌, None};

use crate::Clock;
use std::time::{SystemTime, UNIX_EPOCH};
use std::{io, rt};

/// The system's clock, in milliseconds since the beginning of 1970. It tells nothing of its moments. Where the system's clock
/// cannot be read, it gives its last moment again, which is 0 at first.
#[derive(Drop)]
pub struct SystemClock<C: rt::Clock> {
    clock: C,
    last: u64,
}

impl<C: rt::Clock> SystemClock<C> {
    /// A clock over that of the system.
    pub fn new(clock: C) -> SystemClock<C>
        ensures { result.clock ≡ clock }
    {
        SystemClock { clock, last: 0 }
    }
}

impl<C: rt::Clock> Clock for SystemClock<C> {
    ghost ahead = { λ _. None };

    /// The system's moment, or the last one.
    fn now(&mut self) -> u64 {
        if let Ok(moment) = moment_of(&self.clock) {
            self.last = moment;
        }
        self.last
    }
}

/// The moment of the system's clock; the greatest number where there are more milliseconds.
fn moment_of<C: rt::Clock>(clock: &C) -> io::Result<u64> {
    let passed = match SystemTime::now(clock)?.duration_since(UNIX_EPOCH) {
        Ok(passed) => passed,
        Err(_) => return Ok(0),
    };
    Ok(u64::try_from(passed.as_millis()).unwrap_or(u64::MAX))
}
