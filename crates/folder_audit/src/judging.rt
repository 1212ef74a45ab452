//! Whether a record leads to a checkpoint.
ghost use Rattle.std.specs.Prelude.{◌≡◌, ℕ, IfOk, IsTrue};
ghost use Rattle.sf_outside.specs.Splits.{Grows};
ghost use Rattle.address_routing.specs.Routing.{is_routable};
ghost use Rattle.checkpoint_state.specs.Matching.{HaveCells, StandsAt};
ghost use Rattle.checkpoint_state.specs.Stored.{states_in};
ghost use Rattle.run_record.specs.Replays.{HasIngressCause};
ghost use Rattle.folder_audit.specs.Judged.{IsJudged};

use crate::end::AuditEnd;
use address_routing::{Module, Routes};
use checkpoint_state::matches;
use folder_form::Loaded;
use proto_wire::List;
use run_record::{Entry, ReplayFault, Replayed, replay};
use sf_outside::Ingress;
use std::alloc::Global;

/// Replays a record, and compares what it leads to with a checkpoint.
pub(crate) fn judged<I: Ingress>(
    alloc: Global,
    job: Module,
    entries: &List<Entry>,
    loaded: &Loaded,
    ingress: &mut I,
) -> Result<AuditEnd, ReplayFault>
    requires routable { IsTrue (is_routable job) }
    requires cells { HaveCells (states_in loaded.now.pieces) }
    ensures judged { IfOk result (IsJudged job (I.lists ingress.new) entries.now loaded.now) }
    ensures cause { HasIngressCause (I.faults ingress.old) (I.faults ingress.new) result }
    ensures grows { Grows (I.lists ingress.old) (I.lists ingress.new) }
{
    let routes = Routes::new(alloc, job)?;
    match replay(alloc, entries, &routes, ingress)? {
        Replayed::NotAllowed(entry) => Ok(AuditEnd::NoEntry { entry }),
        Replayed::State(machine) => {
            if matches(alloc, &machine, loaded)? {
                Ok(AuditEnd::Yes {
                    checkpoint: loaded.number,
                    entries: entries.len() as u64,
                })
            } else {
                Ok(AuditEnd::NoState)
            }
        }
    }
}
