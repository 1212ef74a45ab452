//! How long a request is, by parts that are lent. No call takes memory.
ghost use Rattle.std.specs.Prelude.{◌≡◌, ◌+◌, ℕ, nat_le, length};
ghost use Rattle.proto_wire.specs.Record.{bytes_record};
ghost use Rattle.proto_wire.specs.Message.{capped, spelling, spelled_message};
ghost use Rattle.typed_values.specs.declared.address.Address.{Address};
ghost use Rattle.typed_values.specs.Tables.{value_rows};
ghost use Rattle.typed_values.specs.Cells.{value_at};
ghost use Rattle.request_reply.specs.Letters.{letter_record};
ghost use Rattle.request_reply.specs.RequestTables.{persisted_value_rows};
ghost use Rattle.batch_queue.specs.Batches.{enclosed};
ghost use Rattle.invocation.specs.Requests.{shipped, head_size};

use proto_wire::{bytes_size, member_size, message_size, record_size, varint_size};
use request_reply::size_letter_from;
use state_cells::Cells;
use std::marker::Model;
use typed_values::{Address, Cell, Sender, TypedValue};

/// The tag of a request in its message: field 100, with bytes.
const REQUEST_TAG: u64 = 8 * 100 + 2;

/// The length of the value of a cell's record.
#[tactic(auto, unfolding(proto_wire::specs::Message::spelled_message))]
fn value_size(cell: &Cell, moment: u64) -> u64
    ensures { result ≡ capped (length (spelled_message (spelling value_rows) 2 (value_at moment cell.now))) }
{
    if cell.is_expired(moment) {
        0
    } else {
        message_size(2, &cell.value)
    }
}

/// The length of a cell's record in a request.
#[tactic(auto, unfolding(request_reply::specs::RequestTables::persisted_value_rows))]
fn cell_size(cell: &Cell, moment: u64) -> u64
    ensures { result ≡ capped (length (bytes_record 2 (spelling persisted_value_rows (shipped moment cell.now)))) }
{
    let name = bytes_size(1, cell.spec.name.as_bytes());
    record_size(2, name.saturating_add(value_size(cell, moment)))
}

/// How many bytes the records of a request's target and of its state have, or `u64::MAX` where they have more: the
/// `head_bytes` of a batch's limits.
pub fn head_bytes(address: &Address, cells: &Cells, moment: u64) -> u64
    ensures { result ≡ capped (head_size address.now cells.now moment) }
{
    let mut size = member_size(1, address);
    for place in 0..cells.len() {
        size = size.saturating_add(cell_size(cells.at(place), moment));
    }
    size
}

/// How many bytes the records of a request have so far, or `u64::MAX` where they have more. Contracts see that number.
#[derive(Drop)]
pub struct RequestSize {
    records: u64,
}

impl Model for RequestSize {
    ghost use Rattle.std.specs.Prelude.{ℕ};

    ghost Value = { ℕ };

    ghost view = { λ s. s.records };
}

impl RequestSize {
    /// Those of the target and of the cells.
    pub fn of(address: &Address, cells: &Cells, moment: u64) -> RequestSize
        ensures { result ≡ capped (head_size address.now cells.now moment) }
    {
        RequestSize {
            records: head_bytes(address, cells, moment),
        }
    }

    /// One letter more, by its sender and its argument.
    pub fn add(&mut self, sender: &Sender, argument: &TypedValue)
        ensures { (target : Address) (records : ℕ) → self.old ≡ capped records →
            self.new ≡ capped (records + length (letter_record (record { sender = sender.now; target = target; argument = argument.now }))) }
    {
        self.records = self
            .records
            .saturating_add(size_letter_from(sender, argument));
    }

    /// How many bytes the request's canonical spelling has, or `u64::MAX` where it has more.
    pub fn bytes(&self) -> u64
        ensures { (records : ℕ) → self.now ≡ capped records → result ≡ capped (enclosed records) }
    {
        self.records
            .saturating_add(varint_size(REQUEST_TAG) + varint_size(self.records))
    }

    /// Whether the request's canonical spelling has at most so many bytes.
    pub fn is_within(&self, limit: u64) -> bool
        ensures { (records : ℕ) → self.now ≡ capped records → result ≡ nat_le (enclosed records) limit }
    {
        match self
            .records
            .checked_add(varint_size(REQUEST_TAG) + varint_size(self.records))
        {
            Some(bytes) => bytes <= limit,
            None => false,
        }
    }
}
