//! Complete checkpoints as messages.
ghost use Rattle.std.specs.Prelude.{◌≡◌, ◌++◌, length, map, IfOk, OnOk, Ok, true};
ghost use Rattle.proto_wire.specs.Reads.{Gives};
ghost use Rattle.proto_wire.specs.Record.{IsField};
ghost use Rattle.proto_wire.specs.Message.{capped, spelling, fit, spelled_messages, fit_messages};
ghost use Rattle.folder_messages.specs.Entries.{entry_rows, entry_read};
ghost use Rattle.folder_messages.specs.Spelling.{entry_spelling};
ghost use Rattle.folder_messages.specs.Manifests.{empty_complete, complete_rows, complete_read, complete_of};
ghost use Rattle.folder_messages.specs.ManifestSpelling.{complete_spelling, complete_value};

use crate::entry::{EntryRead, EntryWritten};
use crate::manifest::{Complete, Place, Taken};
use crate::parts::{Parts, all_whole, decoded_whole};
use proto_wire::{
    Bytes, Decode, DecodeFault, Encode, List, Mem, Record, encoded, member_size, messages_size,
    number_size, with_member, with_messages, with_number,
};
use run_record::Entry;
use std::alloc::Global;

/// The length of what `with_entries` adds, or `u64::MAX` where it is greater.
#[tactic(auto, unfolding(proto_wire::specs::Message::spelled_messages))]
pub fn entries_size(field: u32, entries: &[Entry]) -> u64
    requires { IsField field }
    ensures { result ≡ capped (length (spelled_messages entry_spelling field entries.now)) }
{
    let mut size: u64 = 0;
    for entry in entries {
        size = size.saturating_add(member_size(field, &EntryWritten { entry }));
    }
    size
}

/// Adds each entry of a list, in order.
#[tactic(auto, unfolding(proto_wire::specs::Message::spelled_messages, proto_wire::specs::Message::fit_messages))]
pub fn with_entries(into: Bytes, field: u32, entries: &[Entry]) -> Mem<Bytes>
    requires { IsField field }
    ensures spelled { IfOk result (λ bytes. bytes ≡ into ++ spelled_messages entry_spelling field entries.now) }
    ensures fits { OnOk result (fit_messages (λ entry. fit entry_rows (entry_read entry)) entries.now ≡ true) }
{
    let mut into = into;
    for entry in entries {
        into = with_member(into, field, &EntryWritten { entry })?;
    }
    Ok(into)
}

/// The length of what `with_takes` adds, or `u64::MAX` where it is greater.
#[tactic(auto, using(crate::proofs::Lists::entry_steps))]
fn takes_size(takes: &List<Entry>) -> u64
    ensures { result ≡ capped (length (spelled_messages (spelling entry_rows) 5 (map entry_read takes.now))) }
{
    entries_size(5, takes.as_slice())
}

/// Adds the entries of a complete checkpoint.
#[tactic(auto, using(crate::proofs::Lists::entry_steps))]
fn with_takes(into: Bytes, takes: &List<Entry>) -> Mem<Bytes>
    ensures spelled { IfOk result (λ bytes. bytes ≡ into ++ spelled_messages (spelling entry_rows) 5 (map entry_read takes.now)) }
    ensures fits { OnOk result (fit_messages (fit entry_rows) (map entry_read takes.now) ≡ true) }
{
    with_entries(into, 5, takes.as_slice())
}

/// A complete checkpoint while it is read.
#[derive(Drop)]
pub struct CompleteRead {
    pub number: u64,
    pub leg: u64,
    pub moment: u64,
    pub taken: List<Taken>,
    pub takes: List<EntryRead>,
    pub places: List<Place>,
}

impl Decode for CompleteRead {
    ghost rows = { complete_rows };

    ghost empty = { empty_complete };

    #[tactic(auto, unfolding(crate::specs::Manifests::empty_complete))]
    fn blank(alloc: Global) -> CompleteRead {
        CompleteRead {
            number: 0,
            leg: 0,
            moment: 0,
            taken: List::new(alloc),
            takes: List::new(alloc),
            places: List::new(alloc),
        }
    }

    #[tactic(auto, unfolding(crate::specs::Manifests::complete_rows))]
    fn accept(&mut self, alloc: Global, item: &Record<'_>) -> Result<(), DecodeFault> {
        if item.is(1, 0) {
            self.number = item.number;
        } else if item.is(2, 0) {
            self.leg = item.number;
        } else if item.is(3, 0) {
            self.moment = item.number;
        } else if item.is(4, 2) {
            item.append_to(alloc, &mut self.taken)?;
        } else if item.is(5, 2) {
            item.append_to(alloc, &mut self.takes)?;
        } else if item.is(6, 2) {
            item.append_to(alloc, &mut self.places)?;
        }
        Ok(())
    }
}

impl Parts for CompleteRead {
    type Whole = Complete;

    ghost whole = { complete_of };

    #[tactic(auto, unfolding(crate::specs::Manifests::complete_of))]
    fn whole(self, alloc: Global) -> Mem<Option<Complete>> {
        let CompleteRead {
            number,
            leg,
            moment,
            taken,
            takes,
            places,
        } = self;
        match all_whole(alloc, takes)? {
            Some(takes) => Ok(Some(Complete {
                number,
                leg,
                moment,
                taken,
                takes,
                places,
            })),
            None => Ok(None),
        }
    }
}

impl Encode for Complete {
    ghost spells = { complete_spelling };

    ghost fits = { λ it. fit complete_rows (complete_read it) };

    #[tactic(auto, unfolding(crate::specs::ManifestSpelling::complete_spelling, crate::specs::Manifests::complete_rows))]
    fn size(&self) -> u64 {
        number_size(1, self.number)
            .saturating_add(number_size(2, self.leg))
            .saturating_add(number_size(3, self.moment))
            .saturating_add(messages_size(4, self.taken.as_slice()))
            .saturating_add(takes_size(&self.takes))
            .saturating_add(messages_size(6, self.places.as_slice()))
    }

    #[tactic(auto, unfolding(crate::specs::ManifestSpelling::complete_spelling, crate::specs::Manifests::complete_rows))]
    fn put(&self, into: Bytes) -> Mem<Bytes> {
        let into = with_number(into, 1, self.number)?;
        let into = with_number(into, 2, self.leg)?;
        let into = with_number(into, 3, self.moment)?;
        let into = with_messages(into, 4, self.taken.as_slice())?;
        let into = with_takes(into, &self.takes)?;
        with_messages(into, 6, self.places.as_slice())
    }
}

/// The canonical spelling of a complete checkpoint. Decoding it gives the checkpoint again.
#[tactic(auto, unfolding(crate::specs::ManifestSpelling::complete_spelling))]
pub fn encode_complete(alloc: Global, complete: &Complete) -> Mem<Bytes>
    ensures spelled { IfOk result (λ b. b ≡ complete_spelling complete.now) }
    ensures again { IfOk result (λ b. complete_value b ≡ Ok complete.now) }
{
    let bytes = encoded(alloc, complete)?;
    Ok(bytes)
}

/// The complete checkpoint that the bytes spell. It needs what each of its entries needs.
#[tactic(auto, unfolding(crate::specs::ManifestSpelling::complete_value))]
pub fn decode_complete(alloc: Global, bytes: &[u8]) -> Result<Complete, DecodeFault>
    ensures { Gives (λ complete. complete) result (complete_value bytes.now) }
{
    decoded_whole::<CompleteRead>(alloc, bytes)
}
