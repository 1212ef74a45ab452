ghost use Rattle.std.specs.Prelude.{◌≡◌, IfOk};
ghost use Rattle.checkpoint_state.specs.Stored.{states_in};
ghost use Rattle.checkpoint_state.specs.Matching.{HaveCells};

use super::*;
use folder_form::Loaded;
use piece_messages::{AddressState, Piece};
use proto_wire::{Bytes, List, Mem, Text};
use std::alloc::Global;
use std::test::*;
use typed_values::{Address, Delay, Letter, Sender, TypeName, TypedValue};

fn address(alloc: Global, id: &str) -> Mem<Address> {
    Ok(Address {
        kind: TypeName {
            namespace: Text::copy_of(alloc, "a")?,
            name: Text::copy_of(alloc, "b")?,
        },
        id: Text::copy_of(alloc, id)?,
    })
}

fn value(alloc: Global) -> Mem<TypedValue> {
    Ok(TypedValue {
        typename: Text::copy_of(alloc, "t")?,
        has_value: true,
        value: Bytes::new(alloc),
    })
}

fn letters(alloc: Global) -> Mem<List<Letter>> {
    let mut letters = List::new(alloc);
    letters.push(Letter {
        sender: Sender::Split(1),
        target: address(alloc, "c")?,
        argument: value(alloc)?,
    })?;
    Ok(letters)
}

// Delayed letters of one address, at moments from 0 on.
fn delays(alloc: Global, count: u64) -> Mem<List<Delay>> {
    let mut delays = List::new(alloc);
    for due in 0..count {
        delays.push(Delay {
            sender: address(alloc, "c")?,
            due,
            target: address(alloc, "d")?,
            token: Text::new(alloc),
            argument: value(alloc)?,
        })?;
    }
    Ok(delays)
}

// One address that was served at a moment, and has no cells.
fn states(alloc: Global) -> Mem<List<AddressState>>
    ensures { IfOk result HaveCells }
{
    let mut states = List::new(alloc);
    states.push(AddressState {
        address: address(alloc, "c")?,
        seen: 7,
        cells: List::new(alloc),
    })?;
    Ok(states)
}

// A checkpoint of one partition with so many delayed letters.
fn checkpoint(alloc: Global, count: u64) -> Mem<Loaded>
    ensures { IfOk result (λ loaded. HaveCells (states_in loaded.pieces)) }
{
    let mut taken = List::new(alloc);
    taken.push(3)?;
    let mut pieces = List::new(alloc);
    pieces.push(Piece {
        partition: 0,
        entries: List::new(alloc),
        egress: List::new(alloc),
        letters: letters(alloc)?,
        states: states(alloc)?,
        delays: delays(alloc, count)?,
    })?;
    let mut feedback = List::new(alloc);
    feedback.push(letters(alloc)?)?;
    Ok(Loaded {
        number: 1,
        leg: 1,
        moment: 7,
        taken,
        pieces,
        feedback,
    })
}

#[test]
fn machines_stand_at_checkpoints(rt: HostRuntime) -> Result<(), Fail> {
    let alloc = rt.alloc();
    let one = checkpoint(alloc, 1)?;
    let two = checkpoint(alloc, 2)?;
    let machine = machine_of(alloc, &one)?;
    assert!(rt; matches(alloc, &machine, &one)?);
    assert!(rt; !matches(alloc, &machine, &two)?);
    Ok(())
}
