//! Steps of the machine.
ghost use Rattle.std.specs.Prelude.{◌≡◌, IfOk, OnOk, OnErr, Option, is_some, unwrap_or, nat_lt};
ghost use Rattle.sf_outside.specs.declared.ingress.IngressRecord.{IngressRecord};
ghost use Rattle.std.specs.Option.{option_copied};
ghost use Rattle.address_routing.specs.Routing.{splits_in};
ghost use Rattle.run_record.specs.declared.entry.Step.TheVariants.{Take, Batch, Register, Due};
ghost use Rattle.run_record.specs.Machine.{actor_of, step_with};
ghost use Rattle.run_record.specs.Record.{HasRoom};
ghost use Rattle.run_record.specs.StateOf.{state_of};

use crate::effects::{register, send_due, serve, take_record};
use crate::machine::Machine;
use crate::requesting::judged_reply;
use crate::{Entry, Reply, Step};
use address_routing::{IngressSpec, Routes};
use invocation::Judged;
use proto_wire::{Mem, TryClone};
use sf_outside::IngressRecord;
use std::alloc::Global;
use typed_values::Address;

/// Whether some ingresses have a split of this number.
fn has_split(ingresses: &[IngressSpec], split: u32) -> bool
    ensures { result ≡ nat_lt split (splits_in ingresses.now) }
{
    let mut left = split;
    for ingress in ingresses {
        if left < ingress.splits {
            return true;
        }
        left -= ingress.splits;
    }
    false
}

/// Takes the next record of a split, where the split is one of the module's and there is such a record.
fn apply_take(
    alloc: Global,
    machine: &mut Machine,
    routes: &Routes,
    split: u32,
    taken: Option<&IngressRecord>,
) -> Mem<bool>
    requires { HasRoom (actor_of (Take split)) (option_copied taken) (state_of machine.old) }
    ensures allowed { IfOk result (λ allowed.
        allowed ≡ is_some (step_with routes.now (option_copied taken.entry) (state_of machine.old) (Take split))) }
    ensures state { OnOk result (state_of machine.new ≡ unwrap_or
        (step_with routes.now (option_copied taken.entry) (state_of machine.old) (Take split)) (state_of machine.old)) }
    ensures err { OnErr result (state_of machine.new ≡ state_of machine.old) }
{
    if !has_split(routes.module().ingresses.as_slice(), split) {
        return Ok(false);
    }
    let Some(found) = taken else {
        return Ok(false);
    };
    take_record(alloc, machine, routes, split, found.try_clone(alloc)?)?;
    Ok(true)
}

/// Serves a batch, where its answer is asked for and is a valid result.
fn apply_batch(alloc: Global, machine: &mut Machine, routes: &Routes, reply: &Reply) -> Mem<bool>
    ensures allowed { (found : Option IngressRecord) → IfOk result (λ allowed.
        allowed ≡ is_some (step_with routes.now found (state_of machine.old) (Batch reply.now))) }
    ensures state { (found : Option IngressRecord) → OnOk result (state_of machine.new ≡ unwrap_or
        (step_with routes.now found (state_of machine.old) (Batch reply.now)) (state_of machine.old)) }
    ensures err { OnErr result (state_of machine.new ≡ state_of machine.old) }
{
    let Some(judged) = judged_reply(alloc, machine, routes, reply)? else {
        return Ok(false);
    };
    match judged {
        Judged::Accept(effects) => {
            serve(alloc, machine, reply, effects)?;
            Ok(true)
        }
        Judged::Register(_specs) => Ok(false),
        Judged::Flaw(_flaw) => Ok(false),
    }
}

/// Registers what an answer misses, where it is asked for and its list is valid.
fn apply_register(alloc: Global, machine: &mut Machine, routes: &Routes, reply: &Reply) -> Mem<bool>
    ensures allowed { (found : Option IngressRecord) → IfOk result (λ allowed.
        allowed ≡ is_some (step_with routes.now found (state_of machine.old) (Register reply.now))) }
    ensures state { (found : Option IngressRecord) → OnOk result (state_of machine.new ≡ unwrap_or
        (step_with routes.now found (state_of machine.old) (Register reply.now)) (state_of machine.old)) }
    ensures err { OnErr result (state_of machine.new ≡ state_of machine.old) }
{
    let Some(judged) = judged_reply(alloc, machine, routes, reply)? else {
        return Ok(false);
    };
    match judged {
        Judged::Accept(_effects) => Ok(false),
        Judged::Register(specs) => {
            register(alloc, machine, reply, specs)?;
            Ok(true)
        }
        Judged::Flaw(_flaw) => Ok(false),
    }
}

/// Sends the delayed letter of an address that is due at a moment, where one is.
fn apply_due(
    alloc: Global,
    machine: &mut Machine,
    routes: &Routes,
    address: &Address,
    moment: u64,
) -> Mem<bool>
    ensures allowed { (found : Option IngressRecord) → IfOk result (λ allowed.
        allowed ≡ is_some (step_with routes.now found (state_of machine.old) (Due address.now moment))) }
    ensures state { (found : Option IngressRecord) → OnOk result (state_of machine.new ≡ unwrap_or
        (step_with routes.now found (state_of machine.old) (Due address.now moment)) (state_of machine.old)) }
    ensures err { OnErr result (state_of machine.new ≡ state_of machine.old) }
{
    send_due(alloc, machine, address, moment)
}

impl Machine {
    /// Makes the step of an entry, where it is allowed: true exactly then, and the state is the step's. For a Take `taken`
    /// is the record that the split's list has next, if it has one; other steps do not look at it. With false, and with an
    /// `Err`, the state stays.
    pub fn apply(
        &mut self,
        alloc: Global,
        entry: &Entry,
        taken: Option<&IngressRecord>,
        routes: &Routes,
    ) -> Mem<bool>
        requires { HasRoom (actor_of entry.now.step) (option_copied taken) (state_of self.old) }
        ensures allowed { IfOk result (λ allowed.
            allowed ≡ is_some (step_with routes.now (option_copied taken.entry) (state_of self.old) entry.now.step)) }
        ensures state { OnOk result (state_of self.new ≡ unwrap_or
            (step_with routes.now (option_copied taken.entry) (state_of self.old) entry.now.step) (state_of self.old)) }
        ensures err { OnErr result (state_of self.new ≡ state_of self.old) }
    {
        match &entry.step {
            Step::Take(split) => apply_take(alloc, self, routes, *split, taken),
            Step::Batch(reply) => apply_batch(alloc, self, routes, reply),
            Step::Register(reply) => apply_register(alloc, self, routes, reply),
            Step::Due { address, moment } => apply_due(alloc, self, routes, address, *moment),
        }
    }
}
