//! Replay of a record.
ghost use Rattle.std.specs.Prelude.{◌≡◌, IfOk};
ghost use Rattle.sf_outside.specs.Splits.{Grows};
ghost use Rattle.run_record.specs.StateOf.{state_of};
ghost use Rattle.run_record.specs.Replays.{Replays, StepsOver, HasIngressCause, fault_of};

use crate::machine::Machine;
use crate::{Entry, Step};
use address_routing::Routes;
use proto_wire::{List, OutOfMemory};
use sf_outside::{Fault, Ingress};
use std::alloc::Global;

/// What a replay comes to.
#[derive(Drop)]
pub enum Replayed {
    /// Each entry was allowed, and this is the state behind the last one.
    State(Machine),
    /// The entry at this place is the first that is not allowed.
    NotAllowed(u64),
}

/// Why a replay was given up.
#[derive(Clone, Copy, Debug, PartialEq, Eq, Drop)]
pub enum ReplayFault {
    /// The ingress failed.
    IngressFault,
    /// Memory was refused.
    OutOfMemory,
}

impl From<OutOfMemory> for ReplayFault {
    ghost use Rattle.run_record.specs.declared.replaying.ReplayFault.TheVariants.{OutOfMemory as Refused};

    ghost from_gives = { λ _ e. e ≡ Refused };

    fn from(_: OutOfMemory) -> ReplayFault {
        ReplayFault::OutOfMemory
    }
}

/// What a fault of the ingress makes of a replay.
fn fault_of(fault: Fault) -> ReplayFault
    ensures { result ≡ fault_of fault }
{
    match fault {
        Fault::Failed => ReplayFault::IngressFault,
        Fault::OutOfMemory => ReplayFault::OutOfMemory,
    }
}

/// Makes the step of one entry, over what the ingress has there.
fn replay_step<I: Ingress>(
    alloc: Global,
    machine: &mut Machine,
    entry: &Entry,
    routes: &Routes,
    ingress: &mut I,
) -> Result<bool, ReplayFault>
    ensures grows { Grows (I.lists ingress.old) (I.lists ingress.new) }
    ensures steps { IfOk result (λ allowed. StepsOver (I.lists ingress.new) routes.now
        (state_of machine.old) entry.now.step allowed (state_of machine.new)) }
    ensures cause { HasIngressCause (I.faults ingress.old) (I.faults ingress.new) result }
{
    let found = match &entry.step {
        Step::Take(split) => match ingress.read(*split, machine.taken(*split)) {
            Ok(found) => found,
            Err(fault) => return Err(fault_of(fault)),
        },
        Step::Batch(_) | Step::Register(_) | Step::Due { .. } => None,
    };
    Ok(machine.apply(alloc, entry, found.as_ref(), routes)?)
}

/// Replays a record from the first state. The records that its Takes take are those of the ingress.
///
/// What is answered is so over the lists that the ingress tells at the end, and where it tells none over some lists that
/// have what was read.
pub fn replay<I: Ingress>(
    alloc: Global,
    entries: &List<Entry>,
    routes: &Routes,
    ingress: &mut I,
) -> Result<Replayed, ReplayFault>
    ensures grows { Grows (I.lists ingress.old) (I.lists ingress.new) }
    ensures replays { IfOk result (λ replay. Replays (I.lists ingress.new) routes.now entries.now replay) }
    ensures cause { HasIngressCause (I.faults ingress.old) (I.faults ingress.new) result }
{
    let mut machine = Machine::new(alloc, 0)?;
    for (place, entry) in entries.as_slice().iter().enumerate() {
        if !replay_step(alloc, &mut machine, entry, routes, ingress)? {
            return Ok(Replayed::NotAllowed(place as u64));
        }
    }
    Ok(Replayed::State(machine))
}
