//! The answers of a machine's addresses.
ghost use Rattle.std.specs.Prelude.{◌≡◌, ◌&&◌, nat_lt, nat_le, is_some, IfOk, IfSome, Some, None, if◌then◌else◌};
ghost use Rattle.typed_values.specs.declared.letter.Sender.TheVariants.{Function};
ghost use Rattle.invocation.specs.Laws.{Fits};
ghost use Rattle.run_record.specs.Machine.{answer_by, nothing, request_of_picks};
ghost use Rattle.run_record.specs.StateOf.{own_of, state_of};

use crate::Reply;
use crate::machine::Machine;
use crate::part::Part;
use crate::picking::with_picked;
use address_routing::Routes;
use invocation::{Judged, RequestSize, a_request_is_its_head_and_its_letters, judge};
use proto_wire::Mem;
use std::alloc::Global;

/// Whether a batch may have so many letters.
fn is_count(letters: usize, most: u32) -> bool
    ensures { result ≡ (nat_lt 0 letters && nat_le letters most) }
{
    letters > 0 && letters <= most as usize
}

/// Whether picks of letters to an address with such a part give a request.
#[tactic(auto, unfolding(crate::specs::Machine::request_of_picks, crate::specs::StateOf::state_of))]
fn has_request(
    alloc: Global,
    machine: &Machine,
    routes: &Routes,
    part: &Part,
    reply: &Reply,
) -> Mem<bool>
    ensures { IfOk result (λ there. there ≡ is_some (request_of_picks routes.now part.now.cells
        (λ sender. (state_of machine.now).mail sender reply.now.address) reply.now.address reply.now.moment reply.now.picks)) }
{
    let Some(endpoint) = routes.endpoint_of(&reply.address.kind) else {
        return Ok(false);
    };
    let is_count = is_count(reply.picks.len(), endpoint.max_letters);
    if !is_count {
        return Ok(false);
    }
    a_request_is_its_head_and_its_letters();
    let head = RequestSize::of(&reply.address, &part.cells, reply.moment);
    match with_picked(
        alloc,
        &machine.mail,
        &reply.address,
        reply.picks.as_slice(),
        head,
    )? {
        Some(size) => Ok(size.is_within(endpoint.max_bytes)),
        None => Ok(false),
    }
}

/// What an answer does, where it is one to a request that its picks give, at a moment that is not before its address' last.
/// `None` exactly where it is not.
#[tactic(auto, unfolding(crate::specs::StateOf::state_of))]
pub(crate) fn judged_reply(
    alloc: Global,
    machine: &Machine,
    routes: &Routes,
    reply: &Reply,
) -> Mem<Option<Judged>>
    ensures judged { let own = (state_of machine.now).own (Function reply.now.address) in IfOk result (λ answer.
        answer ≡ answer_by routes.now own (state_of machine.now).mail reply.now) }
    ensures fits { IfOk result (λ answer. IfSome answer (Fits ((state_of machine.now).own (Function reply.now.address)).cells)) }
{
    let none = Part::new(alloc)?;
    let part = machine.parts.get_or(&reply.address, &none);
    if reply.moment < part.seen {
        return Ok(None);
    }
    let is_there = has_request(alloc, machine, routes, part, reply)?;
    if !is_there {
        return Ok(None);
    }
    let bytes = reply.answer.as_slice();
    let answer = judge(
        alloc,
        bytes,
        &part.cells,
        routes,
        &reply.address,
        reply.moment,
    )?;
    Ok(Some(answer))
}
