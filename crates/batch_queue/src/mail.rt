//! The mail of all addresses.
ghost use Rattle.std.specs.Prelude.{◌≡◌, ◌↔◌, ◌++◌, ◌∷◌, [], vec_len, vec_capacity, ◌<◌, ◌≤◌, true, false, map, flat_map, length, slice_get, IsTrue, IsNone, IfOk, IfErr, IfSome, OnOk, OnErr, MatchOption, nat_eq};
ghost use Rattle.std.specs.Option.{option_copied};
ghost use Rattle.std.specs.Ordering.{nat_cmp};
ghost use Rattle.std.specs.Cmp.Lexicographic.{slice_cmp};
ghost use Rattle.std.specs.BTreeMap.{IsOrdered};
ghost use Rattle.typed_values.specs.declared.address.Address.{Address};
ghost use Rattle.typed_values.specs.Spelling.{address_spelling};
ghost use Rattle.batch_queue.specs.Lines.{stands};
ghost use Rattle.batch_queue.specs.Post.{no_post, put, opened, taken, returned, is_ready, waits, lined_up, IsAll};
ghost use Rattle.batch_queue.specs.Batches.{IsBatch, IsFaultOf};
ghost use Rattle.batch_queue.specs.Kept.{Kept, post_of, box_of, address_order};

use crate::line::Line;
use crate::mailbox::MailBox;
use crate::{BatchFault, Limits};
use proto_wire::{Bytes, List, Mem, TryClone};
use request_reply::Batch;
use std::alloc::Global;
use std::cmp::Ordering;
use std::collections::BTreeMap;
use std::marker::Model;
use typed_values::{Address, Letter, encode_address};

/// The letters that wait for each address. At most one batch of an address is in flight; its letters stay, in front of the
/// others, until `take_batch` takes them for good or `return_batch` lets them wait again. An address is ready where it has a
/// letter and no batch in flight.
///
/// Each call takes time for the letters that it touches and, beside them, for one look-up of the address.
#[derive(Drop)]
pub struct Mail {
    alloc: Global,
    boxes: BTreeMap<Address, MailBox>,
    /// The address of each box, by its number.
    names: Vec<Address>,
    /// The numbers of the boxes that are ready.
    line: Line,
}

impl Model for Mail {
    ghost use Rattle.batch_queue.specs.Kept.{Kept, IsKept};

    ghost Value = { Kept };

    ghost view = { λ m. record { boxes = m.boxes.entries; names = m.names.items; line = m.line } };

    ghost invariant = { λ m. IsKept (record { boxes = m.boxes.entries; names = m.names.items; line = m.line }) };
}

impl Mail {
    /// No letters.
    pub fn new(alloc: Global) -> Mem<Mail>
        ensures { IfOk result (λ mail. post_of mail ≡ no_post) }
    {
        Ok(Mail {
            alloc,
            boxes: BTreeMap::new(alloc),
            names: Vec::new(alloc),
            line: Line::new(alloc)?,
        })
    }

    /// A letter goes last among those of its target. An `Err`, for want of memory, hands it back and changes nothing.
    pub fn put(&mut self, letter: Letter) -> Result<(), Letter>
        ensures ok { OnOk result (post_of self.new ≡ put letter (post_of self.old)) }
        ensures err { OnErr result (post_of self.new ≡ post_of self.old) }
        ensures back { IfErr result (λ refused. refused ≡ letter) }
    {
        match self.make_box(&letter.target) {
            Ok(()) => self.add(letter),
            Err(_) => Err(letter),
        }
    }

    /// Makes an empty box where the address has none.
    fn make_box(&mut self, address: &Address) -> Mem<()>
        ensures { post_of self.new ≡ post_of self.old }
    {
        if self.boxes.contains_key(address) {
            return Ok(());
        }
        let name = address.try_clone(self.alloc)?;
        let key = address.try_clone(self.alloc)?;
        make_room(&mut self.names, &mut self.line)?;
        let kept = MailBox::new(self.alloc, self.names.len());
        self.boxes.insert(key, kept)?;
        add_name(&mut self.names, name);
        Ok(())
    }

    /// Puts a letter into the box of its target.
    fn add(&mut self, letter: Letter) -> Result<(), Letter>
        ensures ok { OnOk result (post_of self.new ≡ put letter (post_of self.old)) }
        ensures err { OnErr result (post_of self.new ≡ post_of self.old) }
        ensures back { IfErr result (λ refused. refused ≡ letter) }
    {
        let Some(kept) = self.boxes.get_mut(&letter.target) else {
            return Err(letter);
        };
        let was_ready = kept.is_ready();
        if let Err(refused) = kept.push(letter) {
            return Err(refused);
        }
        line_up(&mut self.line, kept, was_ready);
        Ok(())
    }

    /// Opens a batch: the longest front of the address' letters that has at most `max_letters` letters, and whose request, with
    /// `head_bytes` for its target and its state, has at most `max_bytes` bytes. It is in flight from then on. The batch has
    /// copies of the letters. `None` exactly where the address has no letter or has a batch in flight, and `TooLarge` exactly
    /// where the request with the first letter alone is too long. Only `Some` changes anything.
    pub fn open_batch(
        &mut self,
        address: &Address,
        limits: &Limits,
    ) -> Result<Option<Batch>, BatchFault>
        requires { 1 ≤ limits.now.max_letters }
        ensures none { IfOk result (λ opening. IsNone opening ↔ (is_ready (post_of self.old) address.now ≡ false)) }
        ensures address { IfOk result (λ opening. IfSome opening (λ batch. batch.address ≡ address.now)) }
        ensures letters { IfOk result (λ opening. IfSome opening (λ batch.
            IsBatch limits.now ((post_of self.old).letters address.now) batch.letters)) }
        ensures ok { IfOk result (λ opening. MatchOption opening (post_of self.new ≡ post_of self.old)
            (λ batch. post_of self.new ≡ opened address.now (length batch.letters) (post_of self.old))) }
        ensures fault { IfErr result (IsFaultOf limits.now ((post_of self.old).letters address.now)) }
        ensures err { OnErr result (post_of self.new ≡ post_of self.old) }
    {
        let Some(kept) = self.boxes.get(address) else {
            return Ok(None);
        };
        if !kept.is_ready() {
            return Ok(None);
        }
        let batch = kept.batch(self.alloc, address, limits)?;
        self.open(address, batch.letters.len());
        Ok(Some(batch))
    }

    /// So many letters of an address are in flight.
    fn open(&mut self, address: &Address, count: usize)
        requires some { 0 < length ((post_of self.old).letters address.now) }
        requires most { count ≤ length ((post_of self.old).letters address.now) }
        ensures { post_of self.new ≡ opened address.now count (post_of self.old) }
    {
        if let Some(kept) = self.boxes.get_mut(address) {
            let was_ready = kept.is_ready();
            kept.open(count);
            line_up(&mut self.line, kept, was_ready);
        }
    }

    /// Whether a batch of the address is in flight.
    pub fn is_in_flight(&self, address: &Address) -> bool
        ensures { IsTrue result ↔ (0 < (post_of self.now).in_flight address.now) }
    {
        match self.boxes.get(address) {
            Some(kept) => kept.in_flight() > 0,
            None => false,
        }
    }

    /// The letters of the batch in flight leave for good. Takes no memory.
    pub fn take_batch(&mut self, address: &Address)
        requires { 0 < (post_of self.old).in_flight address.now }
        ensures { post_of self.new ≡ taken address.now (post_of self.old) }
    {
        if let Some(kept) = self.boxes.get_mut(address) {
            let was_ready = kept.is_ready();
            kept.take();
            line_up(&mut self.line, kept, was_ready);
        }
    }

    /// The letters of the batch in flight wait again, in front of the others. Takes no memory.
    pub fn return_batch(&mut self, address: &Address)
        requires { 0 < (post_of self.old).in_flight address.now }
        ensures { post_of self.new ≡ returned address.now (post_of self.old) }
    {
        if let Some(kept) = self.boxes.get_mut(address) {
            let was_ready = kept.is_ready();
            kept.open(0);
            line_up(&mut self.line, kept, was_ready);
        }
    }

    /// The address that has been ready longest. `None` exactly where none is ready.
    pub fn ready(&self) -> Option<&Address>
        ensures first { option_copied result ≡ slice_get (post_of self.now).ready 0 }
        ensures some { IfSome result (λ address. IsTrue (is_ready (post_of self.now) address.now)) }
        ensures none { IsNone result ↔ ((address : Address) → is_ready (post_of self.now) address ≡ false) }
    {
        match self.line.first() {
            Some(number) => name_at(self.names.as_slice(), number),
            None => None,
        }
    }

    /// Copies of all letters: by address in byte order of its canonical spelling, and each address' in order of arrival, those
    /// in flight first.
    pub fn letters(&self) -> Mem<List<Letter>>
        ensures { IfOk result (λ all. IsAll (post_of self.now) all) }
    {
        let mut all = gather(self.alloc, &self.boxes)?;
        all.sort_by(by_key)?;
        joined(self.alloc, all)
    }
}

/// The letters of one address, and its canonical spelling.
#[derive(Drop)]
struct Gathered {
    key: Bytes,
    letters: List<Letter>,
}

/// Copies of the letters of each box, in the order of the boxes.
fn gather(alloc: Global, boxes: &BTreeMap<Address, MailBox>) -> Mem<Vec<Gathered>>
    ensures all { IfOk result (λ all. all.items ≡ map
        (λ entry. record { key = address_spelling entry.0; letters = entry.1.letters })
        boxes.now.entries) }
    ensures ordered { IsOrdered address_order boxes.now }
{
    let mut all = Vec::with_capacity(alloc, boxes.len())?;
    for (address, kept) in boxes {
        all.push(Gathered {
            key: encode_address(alloc, address)?,
            letters: kept.all(alloc)?,
        })?;
    }
    Ok(all)
}

/// The order of the spellings, by bytes.
fn by_key(one: &Gathered, other: &Gathered) -> Ordering
    ensures { result ≡ slice_cmp nat_cmp one.now.key other.now.key }
{
    one.key.cmp(&other.key)
}

/// All of these letters, in order.
fn joined(alloc: Global, gathered: Vec<Gathered>) -> Mem<List<Letter>>
    ensures { IfOk result (λ all. all ≡ flat_map (λ one. one.letters) gathered.items) }
{
    let mut all = Vec::new(alloc);
    for one in gathered {
        let mut part = one.letters.into_vec();
        all.append(&mut part)?;
    }
    Ok(List::of(all))
}

/// Lines a box up, after a change: one that became ready goes last, and one that is so no more leaves.
fn line_up(line: &mut Line, kept: &MailBox, was_ready: bool)
    requires known { kept.now.number < line.old.size }
    requires before { stands kept.now.number line.old.numbers ≡ was_ready }
    ensures { line.new ≡ record line.old {
      numbers =
          lined_up nat_eq kept.now.number (waits kept.now.letters kept.now.in_flight) line.old.numbers;
    } }
{
    let is_ready = kept.is_ready();
    if is_ready == was_ready {
        return;
    }
    if is_ready {
        line.join(kept.number());
    } else {
        line.leave(kept.number());
    }
}

/// Makes room for one name more, and for its number. An `Err` changes no name and no line.
fn make_room(names: &mut Vec<Address>, line: &mut Line) -> Mem<()>
    requires { vec_len names.old ≤ line.old.size }
    ensures names { names.new.items ≡ names.old.items }
    ensures line { line.new.numbers ≡ line.old.numbers }
    ensures size { line.old.size ≤ line.new.size }
    ensures number { OnOk result (vec_len names.new < line.new.size) }
    ensures room { OnOk result (vec_len names.new < vec_capacity names.new) }
{
    if line.size() == names.len() {
        line.grow()?;
    }
    names.reserve(1)?;
    Ok(())
}

/// Adds a name where there is room for it. Takes no memory.
fn add_name(names: &mut Vec<Address>, name: Address)
    requires { vec_len names.old < vec_capacity names.old }
    ensures { names.new.items ≡ names.old.items ++ name ∷ [] }
{
    let _pushed = names.push(name);
}

/// The name of a number.
fn name_at(names: &[Address], number: usize) -> Option<&Address>
    ensures { option_copied result ≡ slice_get names.now number }
{
    names.get(number)
}
