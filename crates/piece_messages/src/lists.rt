//! Lists of messages that are written by themselves, and read with parts that may be absent.
ghost use Rattle.std.specs.Prelude.{◌≡◌, ◌++◌, length, map, IfOk, OnOk, true};
ghost use Rattle.proto_wire.specs.Record.{IsField};
ghost use Rattle.proto_wire.specs.Message.{capped, spelling, fit, spelled_messages, fit_messages};
ghost use Rattle.folder_messages.specs.Entries.{entry_rows, entry_read};
ghost use Rattle.piece_messages.specs.Stored.{letter_rows, letter_read, delay_rows, delay_read, egress_rows, egress_read};
ghost use Rattle.piece_messages.specs.States.{state_rows, state_read};

use crate::address_state::AddressState;
use folder_messages::{entries_size as all_entries_size, with_entries as with_all_entries};
use proto_wire::{Bytes, List, Mem, messages_size, with_messages};
use run_record::Entry;
use typed_values::{Delay, EgressRecord, Letter};

/// The length of what `with_letters` adds, or `u64::MAX` where it is greater.
#[tactic(auto, using(crate::proofs::Listed::letter_steps))]
pub fn letters_size(field: u32, letters: &List<Letter>) -> u64
    requires { IsField field }
    ensures { result ≡ capped (length (spelled_messages (spelling letter_rows) field (map letter_read letters.now))) }
{
    messages_size(field, letters.as_slice())
}

/// Adds each letter of a list, in order.
#[tactic(auto, using(crate::proofs::Listed::letter_steps))]
pub fn with_letters(into: Bytes, field: u32, letters: &List<Letter>) -> Mem<Bytes>
    requires { IsField field }
    ensures spelled { IfOk result (λ bytes. bytes ≡ into ++ spelled_messages (spelling letter_rows) field (map letter_read letters.now)) }
    ensures fits { OnOk result (fit_messages (fit letter_rows) (map letter_read letters.now) ≡ true) }
{
    with_messages(into, field, letters.as_slice())
}

/// The length of what `with_delays` adds, or `u64::MAX` where it is greater.
#[tactic(auto, using(crate::proofs::Listed::delay_steps))]
pub fn delays_size(field: u32, delays: &List<Delay>) -> u64
    requires { IsField field }
    ensures { result ≡ capped (length (spelled_messages (spelling delay_rows) field (map delay_read delays.now))) }
{
    messages_size(field, delays.as_slice())
}

/// Adds each delayed letter of a list, in order.
#[tactic(auto, using(crate::proofs::Listed::delay_steps))]
pub fn with_delays(into: Bytes, field: u32, delays: &List<Delay>) -> Mem<Bytes>
    requires { IsField field }
    ensures spelled { IfOk result (λ bytes. bytes ≡ into ++ spelled_messages (spelling delay_rows) field (map delay_read delays.now)) }
    ensures fits { OnOk result (fit_messages (fit delay_rows) (map delay_read delays.now) ≡ true) }
{
    with_messages(into, field, delays.as_slice())
}

/// The length of what `with_records` adds, or `u64::MAX` where it is greater.
#[tactic(auto, using(crate::proofs::Listed::egress_steps))]
pub fn records_size(field: u32, records: &List<EgressRecord>) -> u64
    requires { IsField field }
    ensures { result ≡ capped (length (spelled_messages (spelling egress_rows) field (map egress_read records.now))) }
{
    messages_size(field, records.as_slice())
}

/// Adds each egress record of a list, in order.
#[tactic(auto, using(crate::proofs::Listed::egress_steps))]
pub fn with_records(into: Bytes, field: u32, records: &List<EgressRecord>) -> Mem<Bytes>
    requires { IsField field }
    ensures spelled { IfOk result (λ bytes. bytes ≡ into ++ spelled_messages (spelling egress_rows) field (map egress_read records.now)) }
    ensures fits { OnOk result (fit_messages (fit egress_rows) (map egress_read records.now) ≡ true) }
{
    with_messages(into, field, records.as_slice())
}

/// The length of what `with_states` adds, or `u64::MAX` where it is greater.
#[tactic(auto, using(crate::proofs::Listed::state_steps))]
pub fn states_size(field: u32, states: &List<AddressState>) -> u64
    requires { IsField field }
    ensures { result ≡ capped (length (spelled_messages (spelling state_rows) field (map state_read states.now))) }
{
    messages_size(field, states.as_slice())
}

/// Adds each state of a list, in order.
#[tactic(auto, using(crate::proofs::Listed::state_steps))]
pub fn with_states(into: Bytes, field: u32, states: &List<AddressState>) -> Mem<Bytes>
    requires { IsField field }
    ensures spelled { IfOk result (λ bytes. bytes ≡ into ++ spelled_messages (spelling state_rows) field (map state_read states.now)) }
    ensures fits { OnOk result (fit_messages (fit state_rows) (map state_read states.now) ≡ true) }
{
    with_messages(into, field, states.as_slice())
}

/// The length of what `with_entries` adds, or `u64::MAX` where it is greater.
#[tactic(auto, using(crate::proofs::Listed::entry_steps))]
pub fn entries_size(field: u32, entries: &List<Entry>) -> u64
    requires { IsField field }
    ensures { result ≡ capped (length (spelled_messages (spelling entry_rows) field (map entry_read entries.now))) }
{
    all_entries_size(field, entries.as_slice())
}

/// Adds each entry of a list, in order.
#[tactic(auto, using(crate::proofs::Listed::entry_steps))]
pub fn with_entries(into: Bytes, field: u32, entries: &List<Entry>) -> Mem<Bytes>
    requires { IsField field }
    ensures spelled { IfOk result (λ bytes. bytes ≡ into ++ spelled_messages (spelling entry_rows) field (map entry_read entries.now)) }
    ensures fits { OnOk result (fit_messages (fit entry_rows) (map entry_read entries.now) ≡ true) }
{
    with_all_entries(into, field, entries.as_slice())
}
