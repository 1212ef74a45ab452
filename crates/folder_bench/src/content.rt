//! What is put into a folder.
use folder_form::Mark;
use piece_messages::{AddressState, CellState, Piece};
use proto_wire::{Bytes, List, Mem, Text};
use run_record::{Entry, Reply, Step};
use sf_outside::Call;
use std::alloc::Global;
use typed_values::{Address, EgressRecord, Letter, Sender, TypeName, TypedValue};

/// The text of the job: one partition, and one split.
pub(crate) const JOB: &str = "partitions 1\ningress com.example/names 1 com.example/greeter\n";

/// The partition.
const PARTITION: u32 = 0;

/// How many addresses have a state; their ids have three digits.
const ADDRESSES: u32 = 97;

const FIRST_ID: u32 = 100;

/// How many bytes an answer has, a cell and what is given to an egress.
const ANSWER: usize = 100;

/// What a checkpoint says of itself; its leg and its moment are its number.
pub(crate) fn mark(alloc: Global, number: u64) -> Mem<Mark> {
    let mut taken = List::new(alloc);
    taken.push(number)?;
    Ok(Mark {
        number,
        leg: number,
        moment: number,
        taken,
        takes: List::new(alloc),
    })
}

/// The piece of a checkpoint with so many entries, each of which gave to an egress, and the state of each address.
pub(crate) fn piece_of_entries(alloc: Global, number: u64, count: u32) -> Mem<Piece> {
    let mut piece = empty_piece(alloc);
    for turn in 0..count {
        piece.entries.push(entry(alloc, number, turn)?)?;
        piece.egress.push(given(alloc, turn)?)?;
    }
    for place in 0..ADDRESSES {
        piece.states.push(state(alloc, number, place)?)?;
    }
    Ok(piece)
}

/// A piece with so many letters, whose arguments have so many bytes.
pub(crate) fn piece_of_letters(alloc: Global, count: u32, size: usize) -> Mem<Piece> {
    let mut piece = empty_piece(alloc);
    for place in 0..count {
        piece.letters.push(letter(alloc, place, size)?)?;
    }
    Ok(piece)
}

fn empty_piece(alloc: Global) -> Piece {
    Piece {
        partition: PARTITION,
        entries: List::new(alloc),
        egress: List::new(alloc),
        letters: List::new(alloc),
        states: List::new(alloc),
        delays: List::new(alloc),
    }
}

fn entry(alloc: Global, number: u64, turn: u32) -> Mem<Entry> {
    let mut picks = List::new(alloc);
    picks.push(Sender::Split(0))?;
    Ok(Entry {
        leg: number,
        stamp: turn as u64,
        node: 2,
        step: Step::Batch(Reply {
            call: Call {
                leg: number,
                partition: PARTITION,
                turn,
            },
            address: address(alloc, turn)?,
            moment: number,
            picks,
            answer: filled(alloc, ANSWER)?,
        }),
    })
}

fn given(alloc: Global, place: u32) -> Mem<EgressRecord> {
    Ok(EgressRecord {
        sender: address(alloc, place)?,
        egress: type_name(alloc, "greetings")?,
        argument: value(alloc, ANSWER)?,
    })
}

fn letter(alloc: Global, place: u32, size: usize) -> Mem<Letter> {
    Ok(Letter {
        sender: Sender::Function(address(alloc, place)?),
        target: address(alloc, place)?,
        argument: value(alloc, size)?,
    })
}

fn state(alloc: Global, number: u64, place: u32) -> Mem<AddressState> {
    let mut cells = List::new(alloc);
    cells.push(CellState {
        name: Text::copy_of(alloc, "seen")?,
        typename: Text::copy_of(alloc, "io.statefun.types/string")?,
        mode: 0,
        millis: 0,
        has_value: true,
        stamp: number,
        value: filled(alloc, ANSWER)?,
    })?;
    Ok(AddressState {
        address: address(alloc, place)?,
        seen: number,
        cells,
    })
}

fn address(alloc: Global, place: u32) -> Mem<Address> {
    let id = FIRST_ID + place % ADDRESSES;
    let id = format!(in alloc; "{id}")?;
    Ok(Address {
        kind: type_name(alloc, "greeter")?,
        id: Text::copy_of(alloc, id.as_str())?,
    })
}

fn type_name(alloc: Global, name: &str) -> Mem<TypeName> {
    Ok(TypeName {
        namespace: Text::copy_of(alloc, "com.example")?,
        name: Text::copy_of(alloc, name)?,
    })
}

fn value(alloc: Global, size: usize) -> Mem<TypedValue> {
    Ok(TypedValue {
        typename: Text::copy_of(alloc, "io.statefun.types/string")?,
        has_value: true,
        value: filled(alloc, size)?,
    })
}

fn filled(alloc: Global, size: usize) -> Mem<Bytes> {
    Ok(Bytes::of(vec![in alloc; b'a'; size]?))
}
