//! Whole messages of a manifest.
ghost use Rattle.std.specs.Prelude.{◌≡◌, ◌++◌, length, IfOk, Ok};
ghost use Rattle.proto_wire.specs.Reads.{Gives};
ghost use Rattle.proto_wire.specs.Message.{fit};
ghost use Rattle.folder_messages.specs.Manifests.{job_held, opening_held, complete_held, member_of, empty_manifest, manifest_rows, manifest_read, manifest_of};
ghost use Rattle.folder_messages.specs.ManifestSpelling.{manifest_spelling, manifest_value};

use crate::complete::CompleteRead;
use crate::manifest::{Job, Manifest, Opening};
use crate::parts::{Parts, decoded_whole};
use proto_wire::{
    Bytes, Decode, DecodeFault, Encode, Mem, Record, encoded, member_size, with_member,
};
use std::alloc::Global;

/// What stands of a message while it is read.
#[derive(Drop)]
pub enum MemberRead {
    Job(Job),
    Opening(Opening),
    Complete(CompleteRead),
}

/// A message of a manifest while it is read.
#[derive(Drop)]
pub struct ManifestRead {
    pub member: Option<MemberRead>,
}

/// The job that stands.
#[tactic(auto, unfolding(crate::specs::Manifests::job_held))]
fn job_held(member: Option<MemberRead>) -> Option<Job>
    ensures { result ≡ job_held member }
{
    match member {
        Some(MemberRead::Job(job)) => Some(job),
        Some(MemberRead::Opening(_opening)) => None,
        Some(MemberRead::Complete(_complete)) => None,
        None => None,
    }
}

/// The opening that stands.
#[tactic(auto, unfolding(crate::specs::Manifests::opening_held))]
fn opening_held(member: Option<MemberRead>) -> Option<Opening>
    ensures { result ≡ opening_held member }
{
    match member {
        Some(MemberRead::Opening(opening)) => Some(opening),
        Some(MemberRead::Job(_job)) => None,
        Some(MemberRead::Complete(_complete)) => None,
        None => None,
    }
}

/// The complete checkpoint that stands.
#[tactic(auto, unfolding(crate::specs::Manifests::complete_held))]
fn complete_held(member: Option<MemberRead>) -> Option<CompleteRead>
    ensures { result ≡ complete_held member }
{
    match member {
        Some(MemberRead::Complete(complete)) => Some(complete),
        Some(MemberRead::Job(_job)) => None,
        Some(MemberRead::Opening(_opening)) => None,
        None => None,
    }
}

impl Decode for ManifestRead {
    ghost rows = { manifest_rows };

    ghost empty = { empty_manifest };

    #[tactic(auto, unfolding(crate::specs::Manifests::empty_manifest))]
    fn blank(_alloc: Global) -> ManifestRead {
        ManifestRead { member: None }
    }

    #[tactic(auto, unfolding(crate::specs::Manifests::manifest_rows))]
    fn accept(&mut self, alloc: Global, item: &Record<'_>) -> Result<(), DecodeFault> {
        if item.is(1, 2) {
            let held = job_held(self.member.take());
            self.member = Some(MemberRead::Job(item.message(alloc, held)?));
        } else if item.is(2, 2) {
            let held = opening_held(self.member.take());
            self.member = Some(MemberRead::Opening(item.message(alloc, held)?));
        } else if item.is(3, 2) {
            let held = complete_held(self.member.take());
            self.member = Some(MemberRead::Complete(item.message(alloc, held)?));
        }
        Ok(())
    }
}

/// The message that was read. `None` exactly where something is absent that it needs.
#[tactic(auto, unfolding(crate::specs::Manifests::member_of))]
fn member_of(alloc: Global, member: MemberRead) -> Mem<Option<Manifest>>
    ensures { IfOk result (λ found. found ≡ member_of member) }
{
    match member {
        MemberRead::Job(job) => Ok(Some(Manifest::Job(job))),
        MemberRead::Opening(opening) => Ok(Some(Manifest::Opening(opening))),
        MemberRead::Complete(complete) => match complete.whole(alloc)? {
            Some(complete) => Ok(Some(Manifest::Complete(complete))),
            None => Ok(None),
        },
    }
}

impl Parts for ManifestRead {
    type Whole = Manifest;

    ghost whole = { manifest_of };

    #[tactic(auto, unfolding(crate::specs::Manifests::manifest_of))]
    fn whole(self, alloc: Global) -> Mem<Option<Manifest>> {
        match self.member {
            Some(member) => member_of(alloc, member),
            None => Ok(None),
        }
    }
}

impl Encode for Manifest {
    ghost spells = { manifest_spelling };

    ghost fits = { λ it. fit manifest_rows (manifest_read it) };

    #[tactic(auto, unfolding(crate::specs::ManifestSpelling::manifest_spelling, crate::specs::ManifestSpelling::complete_spelling, crate::specs::Manifests::manifest_rows, crate::specs::Manifests::member_read, crate::specs::Manifests::job_held, crate::specs::Manifests::opening_held, crate::specs::Manifests::complete_held, proto_wire::specs::Message::spelled_message))]
    fn size(&self) -> u64 {
        match self {
            Manifest::Job(job) => member_size(1, job),
            Manifest::Opening(opening) => member_size(2, opening),
            Manifest::Complete(complete) => member_size(3, complete),
        }
    }

    #[tactic(auto, unfolding(crate::specs::ManifestSpelling::manifest_spelling, crate::specs::ManifestSpelling::complete_spelling, crate::specs::Manifests::manifest_rows, crate::specs::Manifests::member_read, crate::specs::Manifests::job_held, crate::specs::Manifests::opening_held, crate::specs::Manifests::complete_held, proto_wire::specs::Message::spelled_message, proto_wire::specs::Message::fit_message))]
    fn put(&self, into: Bytes) -> Mem<Bytes> {
        match self {
            Manifest::Job(job) => with_member(into, 1, job),
            Manifest::Opening(opening) => with_member(into, 2, opening),
            Manifest::Complete(complete) => with_member(into, 3, complete),
        }
    }
}

/// The canonical spelling of a manifest's message. Decoding it gives the message again.
pub fn encode_manifest(alloc: Global, manifest: &Manifest) -> Mem<Bytes>
    ensures spelled { IfOk result (λ b. b ≡ manifest_spelling manifest.now) }
    ensures again { IfOk result (λ b. manifest_value b ≡ Ok manifest.now) }
{
    let bytes = encoded(alloc, manifest)?;
    Ok(bytes)
}

/// The message of a manifest that the bytes spell. It needs its member, with what that needs.
#[tactic(auto, unfolding(crate::specs::ManifestSpelling::manifest_value))]
pub fn decode_manifest(alloc: Global, bytes: &[u8]) -> Result<Manifest, DecodeFault>
    ensures { Gives (λ manifest. manifest) result (manifest_value bytes.now) }
{
    decoded_whole::<ManifestRead>(alloc, bytes)
}
