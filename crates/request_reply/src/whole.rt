//! Whole requests and answers: reading, writing and their sizes.
ghost use Rattle.std.specs.Prelude.{◌≡◌, ◌++◌, length, IfOk, Ok, Some};
ghost use Rattle.proto_wire.specs.Reads.{Gives};
ghost use Rattle.proto_wire.specs.Message.{capped, fit};
ghost use Rattle.request_reply.specs.Oneofs.{no_request, to_rows, no_answer, from_rows};
ghost use Rattle.typed_values.specs.declared.address.Address.{Address};
ghost use Rattle.request_reply.specs.Letters.{letter_record};
ghost use Rattle.request_reply.specs.Spelling.{to_spelling, from_spelling, to_value, from_value};

use crate::{FromFunction, ToFunction};
use proto_wire::{
    Bytes, Decode, DecodeFault, Encode, Mem, Record, decoded, encoded, member_size, no_member,
    record_size, with_member,
};
use std::alloc::Global;
use typed_values::{Letter, Sender, TypedValue};

/// A request while it is read: the member that stands.
#[derive(Drop)]
pub struct ToRead {
    pub member: Option<ToFunction>,
}

impl Decode for ToRead {
    ghost rows = { to_rows };

    ghost empty = { no_request };

    #[tactic(auto, unfolding(crate::specs::Oneofs::no_request))]
    fn blank(_alloc: Global) -> ToRead {
        ToRead { member: None }
    }

    #[tactic(auto, unfolding(crate::specs::Oneofs::to_rows, crate::specs::Oneofs::batch_of))]
    fn accept(&mut self, alloc: Global, item: &Record<'_>) -> Result<(), DecodeFault> {
        if item.is(100, 2) {
            let held = match self.member.take() {
                Some(ToFunction::Invocation(batch)) => Some(batch),
                None => None,
            };
            self.member = Some(ToFunction::Invocation(item.message(alloc, held)?));
        }
        Ok(())
    }
}

/// An answer while it is read: the member that stands.
#[derive(Drop)]
pub struct FromRead {
    pub member: Option<FromFunction>,
}

impl Decode for FromRead {
    ghost rows = { from_rows };

    ghost empty = { no_answer };

    #[tactic(auto, unfolding(crate::specs::Oneofs::no_answer))]
    fn blank(_alloc: Global) -> FromRead {
        FromRead { member: None }
    }

    #[tactic(auto, unfolding(crate::specs::Oneofs::from_rows, crate::specs::Oneofs::response_of, crate::specs::Oneofs::context_of))]
    fn accept(&mut self, alloc: Global, item: &Record<'_>) -> Result<(), DecodeFault> {
        if item.is(100, 2) {
            let held = match self.member.take() {
                Some(FromFunction::Result(response)) => Some(response),
                Some(FromFunction::Incomplete(_context)) => None,
                None => None,
            };
            self.member = Some(FromFunction::Result(item.message(alloc, held)?));
        } else if item.is(101, 2) {
            let held = match self.member.take() {
                Some(FromFunction::Incomplete(context)) => Some(context),
                Some(FromFunction::Result(_response)) => None,
                None => None,
            };
            self.member = Some(FromFunction::Incomplete(item.message(alloc, held)?));
        }
        Ok(())
    }
}

impl Encode for ToFunction {
    ghost spells = { to_spelling };

    ghost fits = { λ request. fit to_rows (record { member = Some request }) };

    #[tactic(auto, unfolding(crate::specs::Spelling::to_spelling, crate::specs::Oneofs::to_rows, crate::specs::Oneofs::batch_of, proto_wire::specs::Message::spelled_message))]
    fn size(&self) -> u64 {
        let ToFunction::Invocation(batch) = self;
        member_size(100, batch)
    }

    #[tactic(auto, unfolding(crate::specs::Spelling::to_spelling, crate::specs::Oneofs::to_rows, crate::specs::Oneofs::batch_of, proto_wire::specs::Message::spelled_message, proto_wire::specs::Message::fit_message))]
    fn put(&self, into: Bytes) -> Mem<Bytes> {
        let ToFunction::Invocation(batch) = self;
        with_member(into, 100, batch)
    }
}

impl Encode for FromFunction {
    ghost spells = { from_spelling };

    ghost fits = { λ answer. fit from_rows (record { member = Some answer }) };

    #[tactic(auto, unfolding(crate::specs::Spelling::from_spelling, crate::specs::Oneofs::from_rows, crate::specs::Oneofs::response_of, crate::specs::Oneofs::context_of, proto_wire::specs::Message::spelled_message))]
    fn size(&self) -> u64 {
        match self {
            FromFunction::Result(response) => member_size(100, response),
            FromFunction::Incomplete(context) => member_size(101, context),
        }
    }

    #[tactic(auto, unfolding(crate::specs::Spelling::from_spelling, crate::specs::Oneofs::from_rows, crate::specs::Oneofs::response_of, crate::specs::Oneofs::context_of, proto_wire::specs::Message::spelled_message, proto_wire::specs::Message::fit_message))]
    fn put(&self, into: Bytes) -> Mem<Bytes> {
        match self {
            FromFunction::Result(response) => with_member(into, 100, response),
            FromFunction::Incomplete(context) => with_member(into, 101, context),
        }
    }
}

/// The canonical spelling of a request. Decoding it gives the request again.
pub fn encode_to(alloc: Global, value: &ToFunction) -> Mem<Bytes>
    ensures spelled { IfOk result (λ b. b ≡ to_spelling value.now) }
    ensures again { IfOk result (λ b. to_value b ≡ Ok value.now) }
{
    let bytes = encoded(alloc, value)?;
    Ok(bytes)
}

/// The canonical spelling of an answer. Decoding it gives the answer again.
pub fn encode_from(alloc: Global, value: &FromFunction) -> Mem<Bytes>
    ensures spelled { IfOk result (λ b. b ≡ from_spelling value.now) }
    ensures again { IfOk result (λ b. from_value b ≡ Ok value.now) }
{
    let bytes = encoded(alloc, value)?;
    Ok(bytes)
}

/// The length of the canonical spelling of a request, or `u64::MAX` where it is greater. Takes no memory.
pub fn size_to(value: &ToFunction) -> u64
    ensures { result ≡ capped (length (to_spelling value.now)) }
{
    value.size()
}

/// The length of the canonical spelling of an answer, or `u64::MAX` where it is greater. Takes no memory.
pub fn size_from(value: &FromFunction) -> u64
    ensures { result ≡ capped (length (from_spelling value.now)) }
{
    value.size()
}

/// The request that the bytes spell: `Ok` exactly where they spell one, else their first fault.
#[tactic(auto, unfolding(crate::specs::Spelling::to_value))]
pub fn decode_to(alloc: Global, bytes: &[u8]) -> Result<ToFunction, DecodeFault>
    ensures { Gives (λ request. request) result (to_value bytes.now) }
{
    let read: ToRead = decoded(alloc, bytes)?;
    match read.member {
        Some(request) => Ok(request),
        None => Err(no_member(bytes)),
    }
}

/// The answer that the bytes spell: `Ok` exactly where they spell one, else their first fault.
#[tactic(auto, unfolding(crate::specs::Spelling::from_value))]
pub fn decode_from(alloc: Global, bytes: &[u8]) -> Result<FromFunction, DecodeFault>
    ensures { Gives (λ answer. answer) result (from_value bytes.now) }
{
    let read: FromRead = decoded(alloc, bytes)?;
    match read.member {
        Some(answer) => Ok(answer),
        None => Err(no_member(bytes)),
    }
}

/// The length of a letter's record in a batch, or `u64::MAX` where it is greater. Takes no memory.
pub fn size_letter(letter: &Letter) -> u64
    ensures { result ≡ capped (length (letter_record letter.now)) }
{
    size_letter_from(&letter.sender, &letter.argument)
}

/// The same by the letter's sender and argument: its target does not stand in the record. Takes no memory.
#[tactic(auto, unfolding(crate::specs::Letters::letter_record, crate::specs::RequestTables::batch_invocation_rows, proto_wire::specs::Message::spelled_message))]
pub fn size_letter_from(sender: &Sender, argument: &TypedValue) -> u64
    ensures { (target : Address) → result ≡ capped (length (letter_record (record { sender = sender.now; target = target; argument = argument.now }))) }
{
    let caller = match sender {
        Sender::Function(address) => member_size(1, address),
        Sender::Split(_) => 0,
    };
    record_size(3, caller.saturating_add(member_size(2, argument)))
}
