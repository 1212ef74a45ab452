//! What is run.
ghost use Rattle.std.specs.Prelude.{◌≡◌, ◌≤◌, true, false};
ghost use Rattle.address_routing.specs.Routing.{splits_in};

use address_routing::{IngressSpec, Routes};

/// What is run.
#[derive(Drop)]
pub struct Job {
    pub routes: Routes,
    /// The most turns, where no other drives it.
    pub turns: u64,
    /// Whether its turns are driven one by one: then none of them ends it.
    pub rests: bool,
    /// How many splits the ingresses have.
    pub splits: u32,
    ghost all: { splits ≡ splits_in routes.ingresses },
}

impl Job {
    /// The job of these routes, for so many turns at most.
    pub(crate) fn new(routes: Routes, turns: u64) -> Job
        ensures routes { result.routes ≡ routes }
        ensures turns { result.turns ≡ turns }
        ensures rests { result.rests ≡ false }
    {
        let splits = splits_in(routes.module().ingresses.as_slice());
        Job {
            routes,
            turns,
            rests: false,
            splits,
        }
    }

    /// The job of these routes, whose turns are driven one by one.
    pub fn driven(routes: Routes) -> Job
        ensures routes { result.routes ≡ routes }
        ensures turns { result.turns ≡ 0 }
        ensures rests { result.rests ≡ true }
    {
        let splits = splits_in(routes.module().ingresses.as_slice());
        Job {
            routes,
            turns: 0,
            rests: true,
            splits,
        }
    }
}

/// How many splits ingresses have, where they are at most 32.
fn splits_in(ingresses: &[IngressSpec]) -> u32
    requires { splits_in ingresses.now ≤ 32 }
    ensures { result ≡ splits_in ingresses.now }
{
    let mut splits = 0;
    for ingress in ingresses {
        splits += ingress.splits;
    }
    splits
}
