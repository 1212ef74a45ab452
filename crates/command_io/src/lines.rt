//! Lines that several commands write.
ghost use Rattle.std.specs.Prelude.{◌≡◌, ◌++◌, IfOk};
ghost use Rattle.command_io.specs.Telling.{not_a_store_line};

use message_text::put_decimal;
use proto_wire::{Bytes, Mem};
use std::alloc::Global;

/// The line of a folder whose bytes break its form at that place of that file.
pub fn not_a_store_line(alloc: Global, file: u32, place: u64) -> Mem<Bytes>
    ensures { IfOk result (λ line. line ≡ not_a_store_line file place) }
{
    let mut line = Bytes::new(alloc);
    line.append(b"not a store file ")?;
    put_decimal(&mut line, u64::from(file))?;
    line.append(b" place ")?;
    put_decimal(&mut line, place)?;
    line.push(b'\n')?;
    Ok(line)
}
