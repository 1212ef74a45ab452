//! Commits of egress as messages.
ghost use Rattle.std.specs.Prelude.{◌≡◌, ◌++◌, length, IfOk, Ok};
ghost use Rattle.proto_wire.specs.Reads.{Gives};
ghost use Rattle.proto_wire.specs.Message.{fit};
ghost use Rattle.piece_messages.specs.States.{empty_commit, commit_rows, commit_read, commit_of};
ghost use Rattle.piece_messages.specs.Spelling.{commit_spelling, commit_value};

use crate::lists::{records_size, with_records};
use crate::stored::EgressRead;
use folder_messages::{Parts, all_whole, decoded_whole};
use proto_wire::{
    Bytes, Decode, DecodeFault, Encode, List, Mem, Record, encoded, number_size, with_number,
};
use std::alloc::Global;
use typed_values::EgressRecord;

/// The egress of one checkpoint, committed.
#[derive(Drop)]
pub struct Commit {
    /// Field 1: the checkpoint's number.
    pub epoch: u64,
    /// Field 2.
    pub records: List<EgressRecord>,
}

/// The same while it is read.
#[derive(Drop)]
pub struct CommitRead {
    pub epoch: u64,
    pub records: List<EgressRead>,
}

impl Decode for CommitRead {
    ghost rows = { commit_rows };

    ghost empty = { empty_commit };

    #[tactic(auto, unfolding(crate::specs::States::empty_commit))]
    fn blank(alloc: Global) -> CommitRead {
        CommitRead {
            epoch: 0,
            records: List::new(alloc),
        }
    }

    #[tactic(auto, unfolding(crate::specs::States::commit_rows))]
    fn accept(&mut self, alloc: Global, item: &Record<'_>) -> Result<(), DecodeFault> {
        if item.is(1, 0) {
            self.epoch = item.number;
        } else if item.is(2, 2) {
            item.append_to(alloc, &mut self.records)?;
        }
        Ok(())
    }
}

impl Parts for CommitRead {
    type Whole = Commit;

    ghost whole = { commit_of };

    #[tactic(auto, unfolding(crate::specs::States::commit_of))]
    fn whole(self, alloc: Global) -> Mem<Option<Commit>> {
        let CommitRead { epoch, records } = self;
        match all_whole(alloc, records)? {
            Some(records) => Ok(Some(Commit { epoch, records })),
            None => Ok(None),
        }
    }
}

impl Encode for Commit {
    ghost spells = { commit_spelling };

    ghost fits = { λ it. fit commit_rows (commit_read it) };

    #[tactic(auto, unfolding(crate::specs::Spelling::commit_spelling, crate::specs::States::commit_rows))]
    fn size(&self) -> u64 {
        number_size(1, self.epoch).saturating_add(records_size(2, &self.records))
    }

    #[tactic(auto, unfolding(crate::specs::Spelling::commit_spelling, crate::specs::States::commit_rows))]
    fn put(&self, into: Bytes) -> Mem<Bytes> {
        let into = with_number(into, 1, self.epoch)?;
        with_records(into, 2, &self.records)
    }
}

/// The canonical spelling of a commit. Decoding it gives the commit again.
pub fn encode_commit(alloc: Global, commit: &Commit) -> Mem<Bytes>
    ensures spelled { IfOk result (λ b. b ≡ commit_spelling commit.now) }
    ensures again { IfOk result (λ b. commit_value b ≡ Ok commit.now) }
{
    let bytes = encoded(alloc, commit)?;
    Ok(bytes)
}

/// The commit that the bytes spell. It needs what each of its records needs.
#[tactic(auto, unfolding(crate::specs::Spelling::commit_value))]
pub fn decode_commit(alloc: Global, bytes: &[u8]) -> Result<Commit, DecodeFault>
    ensures { Gives (λ commit. commit) result (commit_value bytes.now) }
{
    decoded_whole::<CommitRead>(alloc, bytes)
}
