//! The turns of a script.
use proto_wire::{Bytes, Mem, TryClone};
use std::alloc::Global;

/// What one poll of a link in memory tells.
#[derive(Drop)]
pub enum Turn {
    /// This answer to the call with this number among those started, counted from 0; nothing where it was not started.
    Reply(u64, Bytes),
    /// That this call was lost, with this note; nothing where it was not started.
    Lose(u64, u32),
    /// Nothing.
    Nothing,
}

impl TryClone for Turn {
    fn try_clone(&self, alloc: Global) -> Mem<Turn> {
        match self {
            Turn::Reply(number, answer) => Ok(Turn::Reply(*number, answer.try_clone(alloc)?)),
            Turn::Lose(number, note) => Ok(Turn::Lose(*number, *note)),
            Turn::Nothing => Ok(Turn::Nothing),
        }
    }
}
