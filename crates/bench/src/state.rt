//! Cells that are written again and again.
use crate::failure::Failure;
use crate::parts::value;
use crate::tally::Tally;
use proto_wire::{Mem, Text, TryClone};
use state_cells::Cells;
use std::alloc::Global;
use typed_values::{CellSpec, Expiry, TypedValue};

/// The names that are written, one after the other.
const NAMES: u32 = 64;

/// Writes a value so often into the cells of one address, in each round.
pub(crate) fn work(alloc: Global, count: u32, rounds: u32) -> Result<Tally, Failure> {
    let names = names(alloc)?;
    let value = value(alloc)?;
    let mut cells = registered(alloc, names.as_slice(), &value)?;
    let mut same = true;
    for _ in 0..rounds {
        let written = round(alloc, &mut cells, names.as_slice(), &value, count)?;
        same = same && written;
    }
    Ok(Tally {
        bytes: value.value.len().saturating_mul(count as usize),
        same,
    })
}

fn names(alloc: Global) -> Mem<Vec<Text>> {
    let mut names = Vec::new(alloc);
    for number in 0..NAMES {
        let name = format!(in alloc; "cell-{number}")?;
        names.push(Text::copy_of(alloc, name.as_str())?)?;
    }
    Ok(names)
}

fn registered(alloc: Global, names: &[Text], value: &TypedValue) -> Result<Cells, Failure> {
    let mut cells = Cells::new(alloc)?;
    for name in names {
        let spec = CellSpec {
            name: name.try_clone(alloc)?,
            typename: value.typename.try_clone(alloc)?,
            mode: Expiry::AfterWrite,
            millis: 1000,
        };
        if let Err(_) = cells.register(spec) {
            return Err(Failure::OutOfMemory);
        }
    }
    Ok(cells)
}

/// Writes the value into one name after the other. Whether each write was taken.
fn round(
    alloc: Global,
    cells: &mut Cells,
    names: &[Text],
    value: &TypedValue,
    count: u32,
) -> Result<bool, Failure> {
    let mut taken = true;
    for (number, name) in (0..count).zip(names.iter().cycle()) {
        let copy = value.try_clone(alloc)?;
        if !copy.has_value {
            return Err(Failure::Fault);
        }
        taken = taken && cells.modify(name, copy, u64::from(number)).is_ok();
    }
    Ok(taken)
}
