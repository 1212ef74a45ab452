//! The text of a folder's job.
ghost use Rattle.std.specs.Prelude.{◌≡◌, ◌≤◌, IfOk, Some};
ghost use Rattle.address_routing.specs.Routing.{splits_in};
ghost use Rattle.folder_form.specs.Shapes.{partitions_in, shape_in};
ghost use Rattle.checkpoint_drive.specs.Jobs.{folder_text};

use address_routing::{Module, job_text};
use proto_wire::{Mem, Text};
use std::alloc::Global;

/// The text of the job of a folder whose addresses are all in one partition: what a module says, behind the line that says so.
pub fn folder_text(alloc: Global, module: &Module) -> Mem<Text>
    requires splits { splits_in «module».now.ingresses ≤ 32 }
    ensures text { IfOk result (λ text. text ≡ folder_text «module».now) }
    ensures names { IfOk result (λ text. partitions_in text ≡ Some 1) }
    ensures shape { IfOk result (λ text. shape_in text ≡ Some (record { partitions = 1; splits = splits_in «module».now.ingresses })) }
{
    let mut text = Text::copy_of(alloc, "partitions 1\n")?;
    let job = job_text(alloc, module)?;
    text.append(job.as_str())?;
    Ok(text)
}
