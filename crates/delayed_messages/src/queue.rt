//! Delays in the order in which they come due.
ghost use Rattle.std.specs.Prelude.{◌≡◌, ◌<◌, ◌≤◌, ◌+◌, length, filter, not, insert, IfOk, map};
ghost use Rattle.std.specs.VecDeque.{deque_len, deque_capacity};
ghost use Rattle.typed_values.specs.Delays.{is_meant};
ghost use Rattle.delayed_messages.specs.Queue.{IsQueue, IsPlace, IsPut, by_number, delay_of};

use proto_wire::{List, Mem, Text, TryClone};
use std::alloc::Global;
use std::collections::VecDeque;
use typed_values::{Address, Delay};

/// A delay with the number of its put.
#[derive(Drop)]
pub struct Numbered {
    pub number: u64,
    pub delay: Delay,
}

/// The place of a delay that is put now: behind all that are due no later.
fn place_of(queue: &VecDeque<Numbered>, due: u64) -> usize
    requires { IsQueue queue.now.items }
    ensures within { result ≤ deque_len queue.now }
    ensures place { IsPlace due queue.now.items result }
{
    queue.partition_point(|kept| kept.delay.due <= due)
}

/// Puts one in its place.
pub fn enqueue(queue: &mut VecDeque<Numbered>, kept: Numbered)
    requires sorted { IsQueue queue.old.items }
    requires room { deque_len queue.old < deque_capacity queue.old }
    ensures items { IsPut kept queue.old.items queue.new.items }
    ensures len { deque_len queue.new ≡ deque_len queue.old + 1 }
    ensures capacity { deque_capacity queue.old ≤ deque_capacity queue.new }
{
    let place = place_of(queue, kept.delay.due);
    if let Err(_refused) = queue.insert(place, kept) {}
}

/// Whether a cancellation is for a delay.
#[tactic(auto, unfolding(typed_values::specs::Sameness::same_address, typed_values::specs::Sameness::same_name))]
fn is_meant(delay: &Delay, sender: &Address, token: &Text) -> bool
    ensures { result ≡ is_meant sender.now token.now delay.now }
{
    delay.token == *token && delay.sender == *sender
}

/// Takes out what a cancellation is for.
pub fn remove_meant(queue: &mut VecDeque<Numbered>, sender: &Address, token: &Text)
    ensures kept { queue.new.items ≡ filter (λ kept. not (is_meant sender.now token.now kept.delay)) queue.old.items }
    ensures capacity { deque_capacity queue.new ≡ deque_capacity queue.old }
{
    let mut at = 0;
    while at < queue.len() {
        if is_meant(&queue[at].delay, sender, token) {
            queue.remove(at);
        } else {
            at += 1;
        }
    }
}

/// Copies of the delays, in the same order.
fn copied(alloc: Global, queue: &VecDeque<Numbered>) -> Mem<Vec<Numbered>>
    ensures { IfOk result (λ copy. copy.items ≡ queue.now.items) }
{
    let mut copy = Vec::with_capacity(alloc, queue.len())?;
    for place in 0..queue.len() {
        let kept = &queue[place];
        copy.push(Numbered {
            number: kept.number,
            delay: kept.delay.try_clone(alloc)?,
        })?;
    }
    Ok(copy)
}

/// Copies of the delays in order of their numbers.
pub fn by_put(alloc: Global, queue: &VecDeque<Numbered>) -> Mem<Vec<Numbered>>
    requires { IsQueue queue.now.items }
    ensures { IfOk result (λ copy. copy.items ≡ by_number queue.now.items) }
{
    let mut copy = copied(alloc, queue)?;
    copy.sort_by_key(|kept| kept.number)?;
    Ok(copy)
}

/// The delays without their numbers.
pub fn delays_of(alloc: Global, numbered: Vec<Numbered>) -> Mem<List<Delay>>
    ensures { IfOk result (λ list. list ≡ map delay_of numbered.items) }
{
    let mut list = List::new(alloc);
    for kept in numbered {
        list.push(kept.delay)?;
    }
    Ok(list)
}
