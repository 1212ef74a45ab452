//! Bytes of a source that were read ahead.
ghost use Rattle.std.specs.Prelude.{◌≡◌, [], ◌+◌, ◌++◌, ◌≤◌, ◌<◌, min, take, drop, length, IfOk, OnErr};
ghost use Rattle.sf_outside.specs.Told.{HasCause};
ghost use Rattle.sf_outside.specs.Left.{ahead, AtEnd};

use crate::part::LONGEST;
use proto_wire::{Bytes, Mem};
use sf_outside::{Fault, Source};
use std::alloc::Global;
use std::marker::Model;

/// How many bytes are asked for at once.
const PIECE: usize = 4096;

/// Bytes that were read ahead and not taken yet, at most 16,384.
#[derive(Drop)]
pub struct Held {
    bytes: Vec<u8>,
    /// How many of them were taken.
    taken: usize,
}

impl Model for Held {
    ghost use Rattle.std.specs.Prelude.{ℕ, List, drop, length, ◌≤◌};

    ghost Value = { List ℕ };

    ghost view = { λ held. drop held.taken held.bytes.items };

    ghost invariant = { λ held. (held.taken ≤ length held.bytes.items) × (length held.bytes.items ≤ 16384) };
}

impl Held {
    /// No bytes. Takes no memory.
    pub(crate) fn new(alloc: Global) -> Held
        ensures { result ≡ [] }
    {
        Held {
            bytes: Vec::new(alloc),
            taken: 0,
        }
    }

    /// The bytes.
    pub(crate) fn as_slice(&self) -> &[u8]
        ensures bytes { result.now ≡ self.now }
        ensures short { length self.now ≤ 16384 }
    {
        let (_, rest) = self.bytes.as_slice().split_at(self.taken);
        rest
    }

    /// How many there are.
    pub(crate) fn len(&self) -> usize
        ensures count { result ≡ length self.now }
        ensures short { result ≤ 16384 }
    {
        self.bytes.len() - self.taken
    }

    /// Takes the first bytes away, or all where there are not so many.
    pub(crate) fn take(&mut self, count: usize)
        ensures { self.new ≡ drop count self.old }
    {
        self.taken += count.min(self.bytes.len() - self.taken);
    }

    /// Moves the first bytes, at most so many, behind those of `into`, and answers how many.
    pub(crate) fn move_to(&mut self, into: &mut Bytes, most: u64) -> Mem<usize>
        ensures count { IfOk result (λ n. n ≡ min most (length self.old)) }
        ensures moved { IfOk result (λ n. into.new ≡ into.old ++ take n self.old) }
        ensures left { IfOk result (λ n. self.new ≡ drop n self.old) }
        ensures err { OnErr result (self.new ≡ self.old) }
    {
        let count = most.min(self.len() as u64) as usize;
        let (front, _) = self.as_slice().split_at(count);
        into.append(front)?;
        self.take(count);
        Ok(count)
    }

    /// Reads more bytes, and answers how many: none only at the end of input.
    pub(crate) fn fill<S: Source>(&mut self, source: &mut S) -> Result<usize, Fault>
        requires room { length self.old < 16384 }
        ensures known { ahead self.new (S.left source.new) ≡ ahead self.old (S.left source.old) }
        ensures more { IfOk result (λ n. length self.new ≡ length self.old + n) }
        ensures end { IfOk result (λ n. n ≡ 0 → AtEnd (S.left source.new)) }
        ensures short { length self.new ≤ 16384 }
        ensures cause { HasCause (S.faults source.old) (S.faults source.new) result }
    {
        self.taken = make_room(&mut self.bytes, self.taken);
        read_behind(&mut self.bytes, source)
    }

    /// Reads on until a line has ended, no more bytes may be held, or the input ends, and answers how many bytes were read:
    /// none only at the end of input.
    pub(crate) fn fill_line<S: Source>(&mut self, source: &mut S) -> Result<usize, Fault>
        requires room { length self.old < 16384 }
        ensures known { ahead self.new (S.left source.new) ≡ ahead self.old (S.left source.old) }
        ensures more { IfOk result (λ n. length self.new ≡ length self.old + n) }
        ensures end { IfOk result (λ n. n ≡ 0 → AtEnd (S.left source.new)) }
        ensures short { length self.new ≤ 16384 }
        ensures cause { HasCause (S.faults source.old) (S.faults source.new) result }
    {
        let before = self.len();
        loop {
            let count = self.fill(source)?;
            let len = self.len();
            let (_, piece) = self.as_slice().split_at(len - count);
            if count == 0 || len == LONGEST || piece.contains(&b'\n') {
                return Ok(len - before);
            }
        }
    }
}

// Moves the bytes that were not taken to the front, where little room is left behind them, and answers how many were taken
// then.
fn make_room(bytes: &mut Vec<u8>, taken: usize) -> usize
    requires within { taken ≤ length bytes.old.items }
    requires short { length bytes.old.items ≤ 16384 }
    ensures same { drop result bytes.new.items ≡ drop taken bytes.old.items }
    ensures within { result ≤ length bytes.new.items }
    ensures short { length bytes.new.items ≤ 16384 }
    ensures room { length bytes.old.items < taken + 16384 → length bytes.new.items < 16384 }
{
    if taken == 0 || LONGEST - bytes.len() >= PIECE {
        return taken;
    }
    let rest = bytes.len() - taken;
    bytes.copy_within(taken.., 0);
    bytes.truncate(rest);
    0
}

// Reads a piece behind these bytes, and answers how many bytes it has: none only at the end of input.
fn read_behind<S: Source>(bytes: &mut Vec<u8>, source: &mut S) -> Result<usize, Fault>
    requires room { length bytes.old.items < 16384 }
    ensures kept { take (length bytes.old.items) bytes.new.items ≡ bytes.old.items }
    ensures read { S.left source.old ≡ ahead (drop (length bytes.old.items) bytes.new.items) (S.left source.new) }
    ensures grown { length bytes.old.items ≤ length bytes.new.items }
    ensures more { IfOk result (λ n. length bytes.new.items ≡ length bytes.old.items + n) }
    ensures end { IfOk result (λ n. n ≡ 0 → AtEnd (S.left source.new)) }
    ensures short { length bytes.new.items ≤ 16384 }
    ensures cause { HasCause (S.faults source.old) (S.faults source.new) result }
{
    bytes.reserve(PIECE)?;
    let mut piece = [0; PIECE];
    let room = (LONGEST - bytes.len()).min(PIECE);
    let (free, _) = piece.split_at_mut(room);
    let count = source.read(free)?;
    let (front, _) = free.split_at(count);
    match bytes.extend_from_slice(front) {
        Ok(()) => Ok(count),
        Err(_) => unreachable!(),
    }
}
