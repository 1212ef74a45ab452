//! The letters that a record of an ingress becomes.
ghost use Rattle.std.specs.Prelude.{◌≡◌, ◌<◌, IfOk, map};
ghost use Rattle.address_routing.specs.Routing.{splits_in};
ghost use Rattle.request_reply.specs.Letters.{caller_of};
ghost use Rattle.run_record.specs.Letters.{letter_of, letters_of};

use address_routing::Routes;
use proto_wire::{List, Mem, Text, TryClone};
use sf_outside::IngressRecord;
use std::alloc::Global;
use typed_values::{Address, Letter, Sender, TypeName, TypedValue};

/// A record of a split as letters, one for each target in order. The split is one of the module's.
#[tactic(auto, unfolding(crate::specs::Letters::letters_of))]
pub fn letters_of(
    alloc: Global,
    routes: &Routes,
    split: u32,
    taken: IngressRecord,
) -> Mem<List<Letter>>
    requires { split < splits_in routes.now.ingresses }
    ensures { IfOk result (λ letters. letters ≡ letters_of routes.now split taken) }
{
    let ingress = routes.ingress_of(split);
    letters_to(
        alloc,
        split,
        &ingress.value_type,
        taken,
        ingress.targets.as_slice(),
    )
}

/// A record as the letter to one target. Its key and its value are moved.
fn letter_to(
    alloc: Global,
    split: u32,
    value_type: &Text,
    taken: IngressRecord,
    target: &TypeName,
) -> Mem<Letter>
    ensures { IfOk result (λ letter. letter ≡ letter_of split value_type.now taken target.now) }
{
    let IngressRecord { key, value } = taken;
    let address = Address {
        kind: target.try_clone(alloc)?,
        id: key,
    };
    let argument = TypedValue {
        typename: value_type.try_clone(alloc)?,
        has_value: true,
        value,
    };
    Ok(Letter {
        sender: Sender::Split(split),
        target: address,
        argument,
    })
}

/// A record as the letters to some targets. The last one takes it; the others have copies.
fn letters_to(
    alloc: Global,
    split: u32,
    value_type: &Text,
    taken: IngressRecord,
    targets: &[TypeName],
) -> Mem<List<Letter>>
    ensures { IfOk result (λ letters. letters ≡ map (letter_of split value_type.now taken) targets.now) }
{
    let mut letters = List::new(alloc);
    let Some((last, others)) = targets.split_last() else {
        return Ok(letters);
    };
    for target in others {
        letters.push(letter_to(alloc, split, value_type, taken.try_clone(alloc)?, target)?)?;
    }
    letters.push(letter_to(alloc, split, value_type, taken, last)?)?;
    Ok(letters)
}

/// The caller that a request names of a letter: its sender, where that is a function, and none where it is a split.
pub fn caller_of(alloc: Global, sender: &Sender) -> Mem<Option<Address>>
    ensures { IfOk result (λ caller. caller ≡ caller_of sender.now) }
{
    match sender {
        Sender::Split(_) => Ok(None),
        Sender::Function(caller) => Ok(Some(caller.try_clone(alloc)?)),
    }
}
