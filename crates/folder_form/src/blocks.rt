//! What the blocks of a folder's files say.
ghost use Rattle.std.specs.Prelude.{◌≡◌, ◌≤◌, IfOk, Result};
ghost use Rattle.proto_wire.specs.declared.fault.WireFault.{WireFault};
ghost use Rattle.proto_wire.specs.Reads.{Gives};
ghost use Rattle.folder_messages.specs.ManifestSpelling.{manifest_value};
ghost use Rattle.folder_form.specs.Folders.{job_in, letters_in, piece_in, valued};

use crate::pieces::{Home, latest_in, owns_letters, owns_piece};
use folder_messages::{Manifest, decode_manifest};
use piece_messages::{Piece, decode_feedback, decode_piece};
use proto_wire::{DecodeFault, List, Mem, OutOfMemory, Text};
use std::alloc::Global;
use typed_values::Letter;

/// The version of a folder's form.
const VERSION: u32 = 1;

/// What was decoded; None where the bytes spell nothing.
fn if_spelled<T: Drop>(decoded: Result<T, DecodeFault>) -> Mem<Option<T>>
    ensures { (read : Result T WireFault) → Gives (λ value. value) decoded read → IfOk result (λ found. found ≡ valued read) }
{
    match decoded {
        Ok(value) => Ok(Some(value)),
        Err(DecodeFault::Wire(_fault)) => Ok(None),
        Err(DecodeFault::OutOfMemory) => Err(OutOfMemory),
    }
}

/// What a block of the manifest says; None where it spells no message of one.
pub fn manifest_in(alloc: Global, body: &[u8]) -> Mem<Option<Manifest>>
    ensures { IfOk result (λ found. found ≡ valued (manifest_value body.now)) }
{
    if_spelled(decode_manifest(alloc, body))
}

/// The text of the job that a block spells; None where it spells no job of version 1.
#[tactic(auto, unfolding(crate::specs::Folders::job_in))]
pub fn job_in(alloc: Global, body: &[u8]) -> Mem<Option<Text>>
    ensures { IfOk result (λ found. found ≡ job_in body.now) }
{
    match manifest_in(alloc, body)? {
        Some(Manifest::Job(job)) => {
            if job.version == VERSION {
                Ok(Some(job.text))
            } else {
                Ok(None)
            }
        }
        Some(Manifest::Opening(_opening)) => Ok(None),
        Some(Manifest::Complete(_complete)) => Ok(None),
        None => Ok(None),
    }
}

/// The piece that a block spells, where it belongs to the partition and has no moment above that of its checkpoint.
#[tactic(auto, unfolding(crate::specs::Folders::piece_in))]
pub fn piece_in(alloc: Global, home: Home, moment: u64, body: &[u8]) -> Mem<Option<Piece>>
    requires some { 1 ≤ home.partitions }
    requires most { home.partitions ≤ 16 }
    ensures { IfOk result (λ found. found ≡ piece_in home moment body.now) }
{
    let Some(piece) = if_spelled(decode_piece(alloc, body))? else {
        return Ok(None);
    };
    if owns_piece(alloc, home, &piece)? && latest_in(&piece) <= moment {
        Ok(Some(piece))
    } else {
        Ok(None)
    }
}

/// The letters that a block spells, where they go to addresses of the partition.
#[tactic(auto, unfolding(crate::specs::Folders::letters_in))]
pub fn letters_in(alloc: Global, home: Home, body: &[u8]) -> Mem<Option<List<Letter>>>
    requires some { 1 ≤ home.partitions }
    requires most { home.partitions ≤ 16 }
    ensures { IfOk result (λ found. found ≡ letters_in home body.now) }
{
    let Some(feedback) = if_spelled(decode_feedback(alloc, body))? else {
        return Ok(None);
    };
    if owns_letters(home, feedback.letters.as_slice()) {
        Ok(Some(feedback.letters))
    } else {
        Ok(None)
    }
}
