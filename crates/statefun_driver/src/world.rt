//! The outside of a run by its objects, which are lent for it.
ghost use Rattle.std.specs.Prelude.{◌≡◌};
ghost use Rattle.statefun_driver.specs.Worlds.{broken_by};

use crate::{Broken, Outside};
use proto_wire::Text;
use sf_clock::Clock;
use sf_outside::{Call, Fault, Ingress, IngressRecord, Link, Outcome};

/// How long a poll may wait, in milliseconds.
const WAIT: u32 = 10;

/// The objects of a run.
#[derive(Drop)]
pub struct World<'a, 'b, 'c, I, L, C> {
    pub ingress: &'a mut I,
    pub link: &'b mut L,
    pub clock: &'c mut C,
}

impl<I: Ingress, L: Link, C: Clock> Outside for World<'_, '_, '_, I, L, C> {
    ghost seen = { λ w. record {
      objects = record { ingress = w.ingress.ghost_name; link = w.link.ghost_name; clock = w.clock.ghost_name };
      lists = I.lists w.ingress.now;
      moments = C.ahead w.clock.now;
      journal = L.journal w.link.now;
      exchanges = L.exchanges w.link.now;
      ingress_faults = I.faults w.ingress.now;
      link_faults = L.faults w.link.now;
      losses = L.losses w.link.now;
    } };

    fn read(&mut self, split: u32, offset: u64) -> Result<Option<IngressRecord>, Broken> {
        match self.ingress.read(split, offset) {
            Ok(found) => Ok(found),
            Err(fault) => Err(broken_by(Broken::Ingress, fault)),
        }
    }

    fn now(&mut self) -> u64 {
        self.clock.now()
    }

    fn start(&mut self, call: Call, url: &Text, request: &[u8]) -> Result<(), Broken> {
        match self.link.start(call, url, request) {
            Ok(()) => Ok(()),
            Err(fault) => Err(broken_by(Broken::Link, fault)),
        }
    }

    fn poll(&mut self) -> Result<Option<Outcome>, Broken> {
        match self.link.poll(WAIT) {
            Ok(outcome) => Ok(outcome),
            Err(fault) => Err(broken_by(Broken::Link, fault)),
        }
    }
}

/// What a fault of an object breaks.
fn broken_by(object: Broken, fault: Fault) -> Broken
    ensures { result ≡ broken_by object fault }
{
    match fault {
        Fault::Failed => object,
        Fault::OutOfMemory => Broken::Memory,
    }
}
