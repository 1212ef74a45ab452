//! Rows of calls on the cells of an address.
use crate::pieces::{number, piece, shown_bytes, text, value};
use proto_wire::{List, TryClone};
use row_text::Failure;
use state_cells::{CellFault, Cells};
use std::alloc::Global;
use std::str::Split;
use typed_values::{Cell, CellSpec, Expiry, Shipped, TypedValue};

/// What each call of a row answers, on one line.
pub fn show(alloc: Global, words: &str) -> Result<String, Failure> {
    let mut cells = Cells::new(alloc)?;
    let mut text = String::from_str(alloc, " ")?;
    for word in words.split_whitespace() {
        let mut pieces = word.split(',');
        let answer = match piece(&mut pieces)? {
            "clone" => {
                cells = cells.try_clone(alloc)?;
                String::from_str(alloc, "cloned")?
            }
            "register" => registered(alloc, &mut cells, &mut pieces)?,
            "modify" => modified(alloc, &mut cells, &mut pieces)?,
            "delete" => deleted(alloc, &mut cells, &mut pieces)?,
            "invoked" => {
                cells.invoked(number(&mut pieces)?);
                String::from_str(alloc, "done")?
            }
            call => seen(alloc, &cells, call, &mut pieces)?,
        };
        text.push_str(" ")?;
        text.push_str(answer.as_str())?;
    }
    text.push_str("\n")?;
    Ok(text)
}

fn seen(
    alloc: Global,
    cells: &Cells,
    call: &str,
    pieces: &mut Split<'_, char>,
) -> Result<String, Failure> {
    match call {
        "len" => {
            let count = cells.len();
            Ok(format!(in alloc; "{count}")?)
        }
        "at" => at(alloc, cells, number(pieces)?),
        "find" => match cells.find(&text(alloc, pieces)?) {
            Some(cell) => shown_cell(alloc, cell),
            None => Ok(String::from_str(alloc, "none")?),
        },
        "shipped" => shown_list(alloc, &cells.shipped(number(pieces)?)?),
        _ => Err(Failure::Row),
    }
}

fn at(alloc: Global, cells: &Cells, place: u64) -> Result<String, Failure> {
    if place < cells.len() as u64 {
        shown_cell(alloc, cells.at(place as usize))
    } else {
        Ok(String::from_str(alloc, "none")?)
    }
}

fn registered(
    alloc: Global,
    cells: &mut Cells,
    pieces: &mut Split<'_, char>,
) -> Result<String, Failure> {
    let name = text(alloc, pieces)?;
    let typename = text(alloc, pieces)?;
    let mode = mode_of(piece(pieces)?)?;
    let millis = number(pieces)?;
    match cells.register(CellSpec {
        name,
        typename,
        mode,
        millis,
    }) {
        Ok(true) => Ok(String::from_str(alloc, "new")?),
        Ok(false) => Ok(String::from_str(alloc, "known")?),
        Err(fault) => told(alloc, fault),
    }
}

fn mode_of(word: &str) -> Result<Expiry, Failure> {
    match word {
        "never" => Ok(Expiry::Never),
        "write" => Ok(Expiry::AfterWrite),
        "invoke" => Ok(Expiry::AfterInvoke),
        _ => Err(Failure::Row),
    }
}

fn modified(
    alloc: Global,
    cells: &mut Cells,
    pieces: &mut Split<'_, char>,
) -> Result<String, Failure> {
    let name = text(alloc, pieces)?;
    let value = value(alloc, pieces)?;
    let moment = number(pieces)?;
    if !value.has_value {
        return Err(Failure::Row);
    }
    match cells.modify(&name, value, moment) {
        Ok(()) => Ok(String::from_str(alloc, "written")?),
        Err(fault) => told(alloc, fault),
    }
}

fn deleted(
    alloc: Global,
    cells: &mut Cells,
    pieces: &mut Split<'_, char>,
) -> Result<String, Failure> {
    match cells.delete(&text(alloc, pieces)?) {
        Ok(()) => Ok(String::from_str(alloc, "deleted")?),
        Err(fault) => told(alloc, fault),
    }
}

fn told(alloc: Global, fault: CellFault) -> Result<String, Failure> {
    let name = match fault {
        CellFault::UnknownName => "UnknownName",
        CellFault::TypeDiffers => "TypeDiffers",
        CellFault::TooMany => "TooMany",
        CellFault::TooLarge => "TooLarge",
        CellFault::OutOfMemory => return Err(Failure::OutOfMemory),
    };
    Ok(String::from_str(alloc, name)?)
}

fn shown_value(alloc: Global, value: &Option<TypedValue>) -> Result<String, Failure> {
    match value {
        Some(value) => shown_bytes(alloc, value.value.as_slice()),
        None => Ok(String::from_str(alloc, "none")?),
    }
}

fn shown_cell(alloc: Global, cell: &Cell) -> Result<String, Failure> {
    let name = cell.spec.name.as_str();
    let value = shown_value(alloc, &cell.value)?;
    let stamp = cell.stamp;
    Ok(format!(in alloc; "{name}:{value}@{stamp}")?)
}

fn shown_list(alloc: Global, list: &List<Shipped>) -> Result<String, Failure> {
    let mut text = String::from_str(alloc, "[")?;
    for shipped in list.as_slice() {
        let name = shipped.name.as_str();
        let value = shown_value(alloc, &shipped.value)?;
        text.push_str(format!(in alloc; "{name}:{value};")?.as_str())?;
    }
    text.push_str("]")?;
    Ok(text)
}
