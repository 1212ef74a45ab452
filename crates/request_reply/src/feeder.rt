//! Requests and answers that come in pieces.
ghost use Rattle.std.specs.Prelude.{◌≡◌, ◌++◌, [], length, OnErr};
ghost use Rattle.proto_wire.specs.Reads.{Gives, Changes};
ghost use Rattle.request_reply.specs.Spelling.{to_value, from_value};
ghost use Rattle.request_reply.specs.Feeding.{fed, pieces_joined, nothing_fed, limited_to, limited_from};

use crate::{FromFunction, ToFunction, decode_from, decode_to};
use proto_wire::{Bytes, DecodeFault, WireFault, WireKind};
use std::alloc::Global;
use std::marker::Model;

/// Takes bytes in pieces, up to a limit. Contracts see the bytes that were fed, and the limit.
#[derive(Drop)]
pub struct Feeder {
    held: Bytes,
    most: u64,
}

impl Model for Feeder {
    ghost use Rattle.std.specs.Prelude.{◌≤◌, length};
    ghost use Rattle.request_reply.specs.Feeding.{Fed};

    ghost Value = { Fed };

    ghost view = { λ f. record { bytes = f.held; limit = f.most } };

    ghost invariant = { λ f. length f.held ≤ f.most };
}

impl Feeder {
    /// Nothing fed yet, and at most `limit` bytes in all. Takes no memory yet.
    pub fn new(alloc: Global, limit: u64) -> Feeder
        ensures { result ≡ nothing_fed limit }
    {
        Feeder {
            held: Bytes::new(alloc),
            most: limit,
        }
    }

    /// Takes a piece. OverLimit, at the limit, exactly where all that was fed and the piece are more than the limit together. A refused piece is not taken.
    #[tactic(auto, unfolding(crate::specs::Feeding::fed))]
    pub fn feed(&mut self, piece: &[u8]) -> Result<(), DecodeFault>
        ensures changes { Changes result self.new (fed self.old piece.now) }
        ensures stands { OnErr result (self.new ≡ self.old) }
    {
        let total = (self.held.len() as u64).checked_add(piece.len() as u64);
        if total.is_none_or(|total| total > self.most) {
            return Err(DecodeFault::Wire(WireFault {
                kind: WireKind::OverLimit,
                at: self.most as usize,
            }));
        }
        self.held.append(piece)?;
        Ok(())
    }

    /// The request that all bytes fed spell, or their first fault.
    pub fn finish_to(self) -> Result<ToFunction, DecodeFault>
        ensures { Gives (λ request. request) result (to_value self.bytes) }
    {
        decode_to(self.held.allocator(), self.held.as_slice())
    }

    /// The answer that all bytes fed spell, or their first fault.
    pub fn finish_from(self) -> Result<FromFunction, DecodeFault>
        ensures { Gives (λ answer. answer) result (from_value self.bytes) }
    {
        decode_from(self.held.allocator(), self.held.as_slice())
    }

    /// Takes pieces in order: OverLimit exactly where all that was fed and the pieces are more than the limit together, else as if the pieces had come as one.
    /// After an `Err` the pieces before the refused one are taken.
    pub fn feed_all(&mut self, pieces: &[Bytes]) -> Result<(), DecodeFault>
        ensures { Changes result self.new (fed self.old (pieces_joined pieces.now)) }
    {
        let _most = self.most;
        for piece in pieces {
            self.feed(piece.as_slice())?;
        }
        Ok(())
    }
}

/// The request that pieces spell together, of at most `limit` bytes: the same however the bytes are cut.
#[tactic(auto, unfolding(crate::specs::Feeding::limited_to))]
pub fn decode_pieces_to(
    alloc: Global,
    limit: u64,
    pieces: &[Bytes],
) -> Result<ToFunction, DecodeFault>
    ensures { Gives (λ request. request) result (limited_to limit (pieces_joined pieces.now)) }
{
    let mut feeder = Feeder::new(alloc, limit);
    feeder.feed_all(pieces)?;
    feeder.finish_to()
}

/// The answer that pieces spell together, of at most `limit` bytes: the same however the bytes are cut.
#[tactic(auto, unfolding(crate::specs::Feeding::limited_from))]
pub fn decode_pieces_from(
    alloc: Global,
    limit: u64,
    pieces: &[Bytes],
) -> Result<FromFunction, DecodeFault>
    ensures { Gives (λ answer. answer) result (limited_from limit (pieces_joined pieces.now)) }
{
    let mut feeder = Feeder::new(alloc, limit);
    feeder.feed_all(pieces)?;
    feeder.finish_from()
}
