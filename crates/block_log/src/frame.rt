//! How a block is spelled.
ghost use Rattle.std.specs.Prelude.{◌≡◌, ◌++◌, ◌∷◌, [], ℕ, List, IfOk};
ghost use Rattle.std.specs.Int.{to_be_bytes, from_be_bytes, w64};
ghost use Rattle.block_log.specs.Blocks.{framed};

use proto_wire::{Bytes, Mem};
use std::alloc::Global;

/// The byte of a gate that ends the blocks.
pub(crate) const CLOSED: u8 = 0;

/// The byte with which a gate is opened.
pub(crate) const OPEN: u8 = 1;

/// How many bytes stand before a body: its gate and its length.
pub(crate) const HEAD: usize = 9;

/// The bytes of the shortest block with the gate behind it.
pub(crate) const SHORTEST: u64 = 10;

/// Length, body and a closed gate.
pub(crate) fn closed_block(alloc: Global, body: &[u8]) -> Mem<Bytes>
    ensures { IfOk result (λ block. block ≡ framed body.now ++ 0 ∷ []) }
{
    let mut block = Bytes::with_capacity(alloc, HEAD + body.len())?;
    block.append(&(body.len() as u64).to_be_bytes())?;
    block.append(body)?;
    block.push(CLOSED)?;
    Ok(block)
}

/// The gate and the length that stand before a body.
#[derive(Clone, Copy)]
pub struct Head {
    pub gate: u8,
    pub len: u64,
}

/// What these bytes say.
pub(crate) fn head_in(bytes: [u8; HEAD]) -> Head
    ensures { bytes ≡ result.gate ∷ to_be_bytes w64 result.len }
{
    let [gate, a, b, c, d, e, f, g, h] = bytes;
    Head {
        gate,
        len: u64::from_be_bytes([a, b, c, d, e, f, g, h]),
    }
}
