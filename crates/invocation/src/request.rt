//! The request of a batch.
ghost use Rattle.std.specs.Prelude.{◌≡◌, ◌≤◌, ◌<◌, ◌^◌, map, length, List, IfOk};
ghost use Rattle.proto_wire.specs.Message.{capped};
ghost use Rattle.typed_values.specs.declared.letter.Letter.{Letter};
ghost use Rattle.typed_values.specs.declared.cells.Shipped.{Shipped};
ghost use Rattle.request_reply.specs.Letters.{invocation_of};
ghost use Rattle.request_reply.specs.Spelling.{to_spelling};
ghost use Rattle.batch_queue.specs.declared.limits.Limits.{Limits};
ghost use Rattle.batch_queue.specs.Batches.{IsBatch};
ghost use Rattle.invocation.specs.Requests.{shipped, request_of, head_size};

use proto_wire::{List, Mem, TryClone};
use request_reply::{Batch, BatchInvocation, InvocationBatchRequest, PersistedValue, ToFunction};
use state_cells::Cells;
use std::alloc::Global;
use typed_values::{Address, Letter, Sender};

/// The requests to functions.
pub struct Request;

impl Request {
    /// The request of a batch to an address with such cells, at a moment in milliseconds: the address as target, all cells in
    /// order with the values that are there at the moment, and the letters in order. A caller stands only for a function's
    /// letter. Its canonical spelling has at most `max_bytes` bytes where the batch is one of `open_batch`, whose `head_bytes`
    /// were those of this address, these cells and this moment.
    pub fn of(
        alloc: Global,
        address: &Address,
        cells: &Cells,
        batch: &Batch,
        moment: u64,
    ) -> Mem<ToFunction>
        ensures request { IfOk result (λ request. request ≡ request_of address.now cells.now moment batch.now.letters) }
        ensures within { (limits : Limits) (waiting : List Letter) → limits.max_bytes < 2 ^ 64 →
            limits.head_bytes ≡ capped (head_size address.now cells.now moment) → IsBatch limits waiting batch.now.letters →
            IfOk result (λ request. length (to_spelling request) ≤ limits.max_bytes) }
    {
        Request::of_letters(
            alloc,
            address,
            cells,
            batch.letters.try_clone(alloc)?,
            moment,
        )
    }

    /// The same of a batch's letters, which are moved into it.
    #[tactic(auto, unfolding(crate::specs::Requests::request_of))]
    pub fn of_letters(
        alloc: Global,
        address: &Address,
        cells: &Cells,
        letters: List<Letter>,
        moment: u64,
    ) -> Mem<ToFunction>
        ensures request { IfOk result (λ request. request ≡ request_of address.now cells.now moment letters) }
        ensures within { (limits : Limits) (waiting : List Letter) → limits.max_bytes < 2 ^ 64 →
            limits.head_bytes ≡ capped (head_size address.now cells.now moment) → IsBatch limits waiting letters →
            IfOk result (λ request. length (to_spelling request) ≤ limits.max_bytes) }
    {
        Ok(ToFunction::Invocation(InvocationBatchRequest {
            target: Some(address.try_clone(alloc)?),
            state: state_of(alloc, cells, moment)?,
            invocations: invocations_of(alloc, letters)?,
        }))
    }
}

/// The cells as a request carries them.
fn state_of(alloc: Global, cells: &Cells, moment: u64) -> Mem<List<PersistedValue>>
    ensures { IfOk result (λ state. state ≡ map (shipped moment) cells.now) }
{
    let mut state = List::new(alloc);
    for place in 0..cells.len() {
        let cell = cells.at(place).ship(alloc, moment)?;
        state.push(PersistedValue {
            state_name: cell.name,
            state_value: cell.value,
        })?;
    }
    Ok(state)
}

fn invocation_of(letter: Letter) -> BatchInvocation
    ensures { result ≡ invocation_of letter }
{
    let Letter {
        sender,
        argument,
        ..
    } = letter;
    let caller = match sender {
        Sender::Split(_) => None,
        Sender::Function(address) => Some(address),
    };
    BatchInvocation {
        caller,
        argument: Some(argument),
    }
}

fn invocations_of(alloc: Global, letters: List<Letter>) -> Mem<List<BatchInvocation>>
    ensures { IfOk result (λ list. list ≡ map invocation_of letters) }
{
    let mut list = List::new(alloc);
    for letter in letters.into_vec() {
        list.push(invocation_of(letter))?;
    }
    Ok(list)
}
