//! The parts of a manifest's messages that need nothing.
ghost use Rattle.std.specs.Prelude.{◌≡◌, ◌++◌, length, IfOk, Ok};
ghost use Rattle.proto_wire.specs.Reads.{Gives};
ghost use Rattle.proto_wire.specs.Message.{spelling, fit};
ghost use Rattle.folder_messages.specs.Manifests.{empty_taken, taken_rows, empty_place, place_rows, empty_opening, opening_rows, empty_job, job_rows};
ghost use Rattle.folder_messages.specs.ManifestSpelling.{taken_spelling, taken_value, place_spelling, place_value, opening_spelling, opening_value, job_spelling, job_value};

use crate::manifest::{Job, Opening, Place, Taken};
use crate::shorts::with_short;
use proto_wire::{
    Bytes, Decode, DecodeFault, Encode, Mem, Record, Text, bytes_size, decoded, encoded,
    number_size, with_number, with_text,
};
use std::alloc::Global;

impl Decode for Taken {
    ghost rows = { taken_rows };

    ghost empty = { empty_taken };

    #[tactic(auto, unfolding(crate::specs::Manifests::empty_taken))]
    fn blank(_alloc: Global) -> Taken {
        Taken { count: 0 }
    }

    #[tactic(auto, unfolding(crate::specs::Manifests::taken_rows))]
    fn accept(&mut self, _alloc: Global, item: &Record<'_>) -> Result<(), DecodeFault> {
        if item.is(1, 0) {
            self.count = item.number;
        }
        Ok(())
    }
}

impl Encode for Taken {
    ghost spells = { spelling taken_rows };

    ghost fits = { fit taken_rows };

    #[tactic(auto, unfolding(crate::specs::Manifests::taken_rows))]
    fn size(&self) -> u64 {
        number_size(1, self.count)
    }

    #[tactic(auto, unfolding(crate::specs::Manifests::taken_rows))]
    fn put(&self, into: Bytes) -> Mem<Bytes> {
        with_number(into, 1, self.count)
    }
}

impl Decode for Place {
    ghost rows = { place_rows };

    ghost empty = { empty_place };

    #[tactic(auto, unfolding(crate::specs::Manifests::empty_place))]
    fn blank(_alloc: Global) -> Place {
        Place {
            piece: 0,
            feedback: 0,
        }
    }

    #[tactic(auto, unfolding(crate::specs::Manifests::place_rows))]
    fn accept(&mut self, _alloc: Global, item: &Record<'_>) -> Result<(), DecodeFault> {
        if item.is(1, 0) {
            self.piece = item.number;
        } else if item.is(2, 0) {
            self.feedback = item.number;
        }
        Ok(())
    }
}

impl Encode for Place {
    ghost spells = { spelling place_rows };

    ghost fits = { fit place_rows };

    #[tactic(auto, unfolding(crate::specs::Manifests::place_rows))]
    fn size(&self) -> u64 {
        number_size(1, self.piece).saturating_add(number_size(2, self.feedback))
    }

    #[tactic(auto, unfolding(crate::specs::Manifests::place_rows))]
    fn put(&self, into: Bytes) -> Mem<Bytes> {
        let into = with_number(into, 1, self.piece)?;
        with_number(into, 2, self.feedback)
    }
}

impl Decode for Opening {
    ghost rows = { opening_rows };

    ghost empty = { empty_opening };

    #[tactic(auto, unfolding(crate::specs::Manifests::empty_opening))]
    fn blank(_alloc: Global) -> Opening {
        Opening { leg: 0 }
    }

    #[tactic(auto, unfolding(crate::specs::Manifests::opening_rows))]
    fn accept(&mut self, _alloc: Global, item: &Record<'_>) -> Result<(), DecodeFault> {
        if item.is(1, 0) {
            self.leg = item.number;
        }
        Ok(())
    }
}

impl Encode for Opening {
    ghost spells = { spelling opening_rows };

    ghost fits = { fit opening_rows };

    #[tactic(auto, unfolding(crate::specs::Manifests::opening_rows))]
    fn size(&self) -> u64 {
        number_size(1, self.leg)
    }

    #[tactic(auto, unfolding(crate::specs::Manifests::opening_rows))]
    fn put(&self, into: Bytes) -> Mem<Bytes> {
        with_number(into, 1, self.leg)
    }
}

impl Decode for Job {
    ghost rows = { job_rows };

    ghost empty = { empty_job };

    #[tactic(auto, unfolding(crate::specs::Manifests::empty_job))]
    fn blank(alloc: Global) -> Job {
        Job {
            version: 0,
            text: Text::new(alloc),
        }
    }

    #[tactic(auto, unfolding(crate::specs::Manifests::job_rows))]
    fn accept(&mut self, alloc: Global, item: &Record<'_>) -> Result<(), DecodeFault> {
        if item.is(1, 0) {
            self.version = item.short()?;
        } else if item.is(2, 2) {
            self.text = item.text(alloc)?;
        }
        Ok(())
    }
}

impl Encode for Job {
    ghost spells = { spelling job_rows };

    ghost fits = { fit job_rows };

    #[tactic(auto, unfolding(crate::specs::Manifests::job_rows))]
    fn size(&self) -> u64 {
        number_size(1, u64::from(self.version)).saturating_add(bytes_size(2, self.text.as_bytes()))
    }

    #[tactic(auto, unfolding(crate::specs::Manifests::job_rows))]
    fn put(&self, into: Bytes) -> Mem<Bytes> {
        let into = with_short(into, 1, self.version)?;
        with_text(into, 2, &self.text)
    }
}

/// The canonical spelling of a count. Decoding it gives the count again.
#[tactic(auto, unfolding(crate::specs::ManifestSpelling::taken_spelling))]
pub fn encode_taken(alloc: Global, taken: &Taken) -> Mem<Bytes>
    ensures spelled { IfOk result (λ b. b ≡ taken_spelling taken.now) }
    ensures again { IfOk result (λ b. taken_value b ≡ Ok taken.now) }
{
    let bytes = encoded(alloc, taken)?;
    Ok(bytes)
}

/// The count that the bytes spell.
#[tactic(auto, unfolding(crate::specs::ManifestSpelling::taken_value))]
pub fn decode_taken(alloc: Global, bytes: &[u8]) -> Result<Taken, DecodeFault>
    ensures { Gives (λ taken. taken) result (taken_value bytes.now) }
{
    decoded(alloc, bytes)
}

/// The canonical spelling of a place. Decoding it gives the place again.
#[tactic(auto, unfolding(crate::specs::ManifestSpelling::place_spelling))]
pub fn encode_place(alloc: Global, place: &Place) -> Mem<Bytes>
    ensures spelled { IfOk result (λ b. b ≡ place_spelling place.now) }
    ensures again { IfOk result (λ b. place_value b ≡ Ok place.now) }
{
    let bytes = encoded(alloc, place)?;
    Ok(bytes)
}

/// The place that the bytes spell.
#[tactic(auto, unfolding(crate::specs::ManifestSpelling::place_value))]
pub fn decode_place(alloc: Global, bytes: &[u8]) -> Result<Place, DecodeFault>
    ensures { Gives (λ place. place) result (place_value bytes.now) }
{
    decoded(alloc, bytes)
}

/// The canonical spelling of an opening. Decoding it gives the opening again.
#[tactic(auto, unfolding(crate::specs::ManifestSpelling::opening_spelling))]
pub fn encode_opening(alloc: Global, opening: &Opening) -> Mem<Bytes>
    ensures spelled { IfOk result (λ b. b ≡ opening_spelling opening.now) }
    ensures again { IfOk result (λ b. opening_value b ≡ Ok opening.now) }
{
    let bytes = encoded(alloc, opening)?;
    Ok(bytes)
}

/// The opening that the bytes spell.
#[tactic(auto, unfolding(crate::specs::ManifestSpelling::opening_value))]
pub fn decode_opening(alloc: Global, bytes: &[u8]) -> Result<Opening, DecodeFault>
    ensures { Gives (λ opening. opening) result (opening_value bytes.now) }
{
    decoded(alloc, bytes)
}

/// The canonical spelling of a job. Decoding it gives the job again.
#[tactic(auto, unfolding(crate::specs::ManifestSpelling::job_spelling))]
pub fn encode_job(alloc: Global, job: &Job) -> Mem<Bytes>
    ensures spelled { IfOk result (λ b. b ≡ job_spelling job.now) }
    ensures again { IfOk result (λ b. job_value b ≡ Ok job.now) }
{
    let bytes = encoded(alloc, job)?;
    Ok(bytes)
}

/// The job that the bytes spell. A version of 2^32 or more is OverLimit, at the first byte of its number.
#[tactic(auto, unfolding(crate::specs::ManifestSpelling::job_value))]
pub fn decode_job(alloc: Global, bytes: &[u8]) -> Result<Job, DecodeFault>
    ensures { Gives (λ job. job) result (job_value bytes.now) }
{
    decoded(alloc, bytes)
}
