//! What an answer does.
ghost use Rattle.std.specs.Prelude.{◌≡◌, IfOk};
ghost use Rattle.invocation.specs.Judging.{judgement};
ghost use Rattle.invocation.specs.Laws.{Fits};

use crate::convert::effects_of;
use crate::job::Job;
use crate::{Effects, Flaw};
use address_routing::Routes;
use proto_wire::{List, Mem};
use request_reply::Judgement;
use state_cells::Cells;
use std::alloc::Global;
use typed_values::{Address, CellSpec};

/// What an answer does to the address that gave it.
#[derive(Drop)]
pub enum Judged {
    /// A result: these are its effects.
    Accept(Effects),
    /// An incomplete answer: the cells that are new, in its order.
    Register(List<CellSpec>),
    /// Not valid, for this first flaw.
    Flaw(Flaw),
}

/// Judges the answer of an address to a batch of a moment, in milliseconds. `Flaw` exactly where it is not valid, with its
/// first flaw: `request_reply::judge` says in which order they count. Nothing of the answer is copied but the address itself,
/// which each letter, delay and egress record names.
pub fn judge(
    alloc: Global,
    answer: &[u8],
    cells: &Cells,
    routes: &Routes,
    address: &Address,
    moment: u64,
) -> Mem<Judged>
    ensures judged { IfOk result (λ judged. judged ≡ judgement routes.now cells.now address.now moment answer.now) }
    ensures fits { IfOk result (Fits cells.now) }
{
    judgement(alloc, answer, cells, routes, address, moment)
}

#[tactic(auto, unfolding(crate::specs::Judging::judgement))]
fn judgement(
    alloc: Global,
    answer: &[u8],
    cells: &Cells,
    routes: &Routes,
    address: &Address,
    moment: u64,
) -> Mem<Judged>
    ensures { IfOk result (λ judged. judged ≡ judgement routes.now cells.now address.now moment answer.now) }
{
    let job = Job { routes, cells };
    match request_reply::judge(alloc, answer, &job)? {
        Judgement::Accept(response) => {
            let effects = effects_of(alloc, address, moment, response)?;
            Ok(Judged::Accept(effects))
        }
        Judgement::Register(specs) => Ok(Judged::Register(specs)),
        Judgement::Flaw(flaw) => Ok(Judged::Flaw(flaw)),
    }
}
