//! The first block of a manifest.
ghost use Rattle.std.specs.Prelude.{◌≡◌, IfOk, Ok, Some};
ghost use Rattle.folder_messages.specs.ManifestSpelling.{manifest_value};
ghost use Rattle.folder_form.specs.Folders.{job_in};

use folder_messages::{Job, Manifest, encode_manifest};
use proto_wire::{Bytes, Mem, Text, TryClone};
use std::alloc::Global;

/// The version of a folder's form.
const VERSION: u32 = 1;

/// The block of a job.
#[tactic(auto, unfolding(folder_form::specs::Folders::job_in))]
pub(crate) fn job_block(alloc: Global, text: &Text) -> Mem<Bytes>
    ensures { IfOk result (λ body. job_in body ≡ Some text.now) }
{
    let job = Manifest::Job(Job {
        version: VERSION,
        text: text.try_clone(alloc)?,
    });
    encode_manifest(alloc, &job)
}
