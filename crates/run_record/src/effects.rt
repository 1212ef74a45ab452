//! What steps do to the machine's state.
ghost use Rattle.std.specs.Prelude.{◌≡◌, ◌^◌, ◌<◌, ℕ, IfOk, IsSome, is_some, unwrap_or, option_copied, OnOk, OnErr, get_or, vec_len};
ghost use Rattle.std.specs.Option.{option_map};
ghost use Rattle.typed_values.specs.Delays.{due_at};
ghost use Rattle.typed_values.specs.declared.letter.Sender.TheVariants.{Split, Function};
ghost use Rattle.address_routing.specs.Routing.{splits_in};
ghost use Rattle.invocation.specs.Laws.{TakesAll, AreNew};
ghost use Rattle.run_record.specs.declared.entry.Step.TheVariants.{Take, Batch, Register, Due};
ghost use Rattle.run_record.specs.Machine.{acted, declared, later_letter, picked, sent_later, served, took};
ghost use Rattle.run_record.specs.StateOf.{CountsOne, own_in, state_of};

use crate::Reply;
use crate::letters::letters_of;
use crate::machine::Machine;
use crate::parts::Parts;
use crate::picking::drop_picked;
use crate::placing::{post, send};
use address_routing::Routes;
use invocation::Effects;
use proto_wire::{List, Mem, TryClone};
use sf_outside::IngressRecord;
use std::alloc::Global;
use typed_values::{Address, CellSpec, Letter, Sender};

/// Makes room for a split's count. Changes no count.
fn reach(taken: &mut Vec<u64>, split: u32) -> Mem<()>
    ensures room { OnOk result (split < vec_len taken.new) }
    ensures same { (other : ℕ) → get_or taken.new.items other 0 ≡ get_or taken.old.items other 0 }
{
    while taken.len() <= split as usize {
        taken.push(0)?;
    }
    Ok(())
}

/// Counts one more record of a split for which there is room.
fn count_one(taken: &mut Vec<u64>, split: u32)
    requires room { split < vec_len taken.old }
    requires short { get_or taken.old.items split 0 < 2 ^ 63 }
    ensures { CountsOne split (λ (any : ℕ). get_or taken.old.items any 0) (λ (any : ℕ). get_or taken.new.items any 0) }
{
    taken[split as usize] += 1;
}

/// Takes a record of a split of the module. An `Err` leaves the state.
#[tactic(auto, unfolding(crate::specs::StateOf::state_of))]
pub(crate) fn take_record(
    alloc: Global,
    machine: &mut Machine,
    routes: &Routes,
    split: u32,
    found: IngressRecord,
) -> Mem<()>
    requires inside { split < splits_in routes.now.ingresses }
    requires short { ((state_of machine.old).own (Split split)).taken < 2 ^ 63 }
    ensures ok { OnOk result (state_of machine.new ≡
        acted (Take split) (took routes.now split ((state_of machine.old).own (Split split)) found) (state_of machine.old)) }
    ensures err { OnErr result (state_of machine.new ≡ state_of machine.old) }
{
    let letters = letters_of(alloc, routes, split, found)?;
    reach(&mut machine.taken, split)?;
    post(alloc, &mut machine.mail, letters)?;
    count_one(&mut machine.taken, split);
    Ok(())
}

/// Gives an accepted result its effects. The picked letters are there. An `Err` leaves the state.
#[tactic(auto, unfolding(crate::specs::StateOf::state_of))]
pub(crate) fn serve(
    alloc: Global,
    machine: &mut Machine,
    reply: &Reply,
    effects: Effects,
) -> Mem<()>
    requires picked { IsSome (picked reply.now.address (λ sender. (state_of machine.old).mail sender reply.now.address) reply.now.picks) }
    requires fits { TakesAll ((state_of machine.old).own (Function reply.now.address)).cells effects.mutations }
    ensures ok { OnOk result (state_of machine.new ≡ acted (Batch reply.now)
        (served reply.now effects ((state_of machine.old).own (Function reply.now.address))) (state_of machine.old)) }
    ensures err { OnErr result (state_of machine.new ≡ state_of machine.old) }
{
    let address = &reply.address;
    machine.parts.reserve(alloc, address, effects.delays.len())?;
    if let Err(refused) = send(
        alloc,
        &mut machine.mail,
        &mut machine.egress,
        effects.letters,
        effects.egress,
    ) {
        machine.parts.forget_nothing(address);
        return Err(refused);
    }
    drop_picked(&mut machine.mail, address, reply.picks.as_slice());
    machine
        .parts
        .serve(address, reply.moment, effects.mutations, effects.delays);
    machine.parts.forget_nothing(address);
    Ok(())
}

/// Registers the new cells of an accepted answer. An `Err` leaves the state.
#[tactic(auto, unfolding(crate::specs::StateOf::state_of))]
pub(crate) fn register(
    alloc: Global,
    machine: &mut Machine,
    reply: &Reply,
    specs: List<CellSpec>,
) -> Mem<()>
    requires { AreNew ((state_of machine.old).own (Function reply.now.address)).cells specs }
    ensures ok { OnOk result (state_of machine.new ≡ acted (Register reply.now)
        (declared reply.now specs ((state_of machine.old).own (Function reply.now.address))) (state_of machine.old)) }
    ensures err { OnErr result (state_of machine.new ≡ state_of machine.old) }
{
    let address = &reply.address;
    machine.parts.reserve(alloc, address, 0)?;
    if let Err(refused) = machine.parts.register(address, specs, reply.moment) {
        machine.parts.forget_nothing(address);
        return Err(refused);
    }
    Ok(())
}

/// A copy of the delayed letter of an address that is due at a moment, if one is.
fn due_letter(alloc: Global, parts: &Parts, address: &Address, moment: u64) -> Mem<Option<Letter>>
    ensures { IfOk result (λ letter. letter ≡ option_map (later_letter address.now) (due_at moment (own_in parts.now address.now).delays)) }
{
    let Some(part) = parts.get(address) else {
        return Ok(None);
    };
    let Some(delay) = part.delays.first() else {
        return Ok(None);
    };
    if delay.due > moment {
        return Ok(None);
    }
    Ok(Some(Letter {
        sender: Sender::Function(address.try_clone(alloc)?),
        target: delay.target.try_clone(alloc)?,
        argument: delay.argument.try_clone(alloc)?,
    }))
}

/// Sends the delayed letter of an address that is due at a moment. False exactly where none is. An `Err` leaves the state.
#[tactic(auto, unfolding(crate::specs::StateOf::state_of))]
pub(crate) fn send_due(
    alloc: Global,
    machine: &mut Machine,
    address: &Address,
    moment: u64,
) -> Mem<bool>
    ensures allowed { IfOk result (λ sent. sent ≡ is_some (due_at moment ((state_of machine.old).own (Function address.now)).delays)) }
    ensures state { let own = (state_of machine.old).own (Function address.now) in OnOk result (state_of machine.new ≡ unwrap_or
        (option_map (λ due. acted (Due address.now moment) (sent_later address.now moment own due) (state_of machine.old)) (due_at moment own.delays))
        (state_of machine.old)) }
    ensures err { OnErr result (state_of machine.new ≡ state_of machine.old) }
{
    let Some(letter) = due_letter(alloc, &machine.parts, address, moment)? else {
        return Ok(false);
    };
    post(alloc, &mut machine.mail, List::of(vec![in alloc; letter]?))?;
    machine.parts.drop_due(address, moment);
    machine.parts.forget_nothing(address);
    Ok(true)
}
