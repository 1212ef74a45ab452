//! Requests and answers, decoded in each way that there is.
use crate::told::fault_text;
use proto_wire::{Bytes, DecodeFault};
use request_reply::{
    Feeder, FromFunction, ToFunction, decode_from, decode_pieces_from, decode_pieces_to, decode_to,
    encode_from, encode_to, size_from, size_to,
};
use row_text::Failure;
use std::alloc::Global;

/// Which message bytes are read as.
#[derive(Clone, Copy, Debug, PartialEq, Eq)]
pub(crate) enum Whole {
    /// A request.
    To,
    /// An answer.
    From,
}

/// A message in its canonical spelling.
#[derive(Drop)]
pub(crate) struct Spelled {
    bytes: Bytes,
    /// The length that the message tells of its spelling.
    size: u64,
}

fn request(alloc: Global, request: &ToFunction) -> Result<Spelled, DecodeFault> {
    Ok(Spelled {
        bytes: encode_to(alloc, request)?,
        size: size_to(request),
    })
}

fn answer(alloc: Global, answer: &FromFunction) -> Result<Spelled, DecodeFault> {
    Ok(Spelled {
        bytes: encode_from(alloc, answer)?,
        size: size_from(answer),
    })
}

impl Whole {
    /// The message of a word, `to` or `from`.
    pub(crate) fn of(word: &str) -> Result<Whole, Failure> {
        match word {
            "to" => Ok(Whole::To),
            "from" => Ok(Whole::From),
            _ => Err(Failure::Row),
        }
    }

    /// What bytes spell.
    pub(crate) fn whole(self, alloc: Global, bytes: &[u8]) -> Result<Spelled, DecodeFault> {
        match self {
            Whole::To => request(alloc, &decode_to(alloc, bytes)?),
            Whole::From => answer(alloc, &decode_from(alloc, bytes)?),
        }
    }

    /// What the bytes that were fed spell.
    pub(crate) fn fed(self, alloc: Global, feeder: Feeder) -> Result<Spelled, DecodeFault> {
        match self {
            Whole::To => request(alloc, &feeder.finish_to()?),
            Whole::From => answer(alloc, &feeder.finish_from()?),
        }
    }

    /// What pieces spell together, of at most so many bytes.
    pub(crate) fn pieced(
        self,
        alloc: Global,
        limit: u64,
        pieces: &[Bytes],
    ) -> Result<Spelled, DecodeFault> {
        match self {
            Whole::To => request(alloc, &decode_pieces_to(alloc, limit, pieces)?),
            Whole::From => answer(alloc, &decode_pieces_from(alloc, limit, pieces)?),
        }
    }
}

/// The spelling in hexadecimal and its size, or the fault.
pub(crate) fn whole_text(
    alloc: Global,
    read: Result<Spelled, DecodeFault>,
) -> Result<String, Failure> {
    match read {
        Ok(spelled) => spelled_text(alloc, &spelled),
        Err(DecodeFault::Wire(fault)) => fault_text(alloc, fault),
        Err(DecodeFault::OutOfMemory) => Err(Failure::OutOfMemory),
    }
}

fn spelled_text(alloc: Global, spelled: &Spelled) -> Result<String, Failure> {
    let digits = hex::encode(alloc, spelled.bytes.as_slice())?;
    let size = spelled.size;
    Ok(format!(in alloc; "{digits} size {size}")?)
}
