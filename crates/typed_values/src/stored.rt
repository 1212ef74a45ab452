//! Addresses, values, senders, letters, delayed letters and egress records as bytes.
//!
//! Each decoder answers `Ok` exactly where the bytes spell a value, else their first fault. Where a part is absent that the value needs, and no other fault
//! came, the fault is NoMember, at the input's length.
ghost use Rattle.std.specs.Prelude.{◌≡◌, length, IfOk, Ok};
ghost use Rattle.proto_wire.specs.Reads.{Gives};
ghost use Rattle.typed_values.specs.Spelling.{address_spelling, address_value, value_spelling, value_value, sender_spelling, sender_value, letter_spelling, letter_value, delay_spelling, delay_value, egress_spelling, egress_value};

use crate::reading::{
    DelayRead, EgressRead, LetterRead, SenderRead, delay_of, egress_of, letter_of,
};
use crate::{Address, Delay, EgressRecord, Letter, Sender, TypedValue};
use proto_wire::{Bytes, DecodeFault, Mem, decoded, encoded, no_member};
use std::alloc::Global;

/// The canonical spelling of an address. Decoding it gives the address again.
#[tactic(auto, unfolding(crate::specs::Spelling::address_spelling))]
pub fn encode_address(alloc: Global, address: &Address) -> Mem<Bytes>
    ensures spelled { IfOk result (λ b. b ≡ address_spelling address.now) }
    ensures again { IfOk result (λ b. address_value b ≡ Ok address.now) }
{
    let bytes = encoded(alloc, address)?;
    Ok(bytes)
}

/// The address that the bytes spell.
#[tactic(auto, unfolding(crate::specs::Spelling::address_value))]
pub fn decode_address(alloc: Global, bytes: &[u8]) -> Result<Address, DecodeFault>
    ensures { Gives (λ address. address) result (address_value bytes.now) }
{
    decoded(alloc, bytes)
}

/// The canonical spelling of a value. Decoding it gives the value again.
#[tactic(auto, unfolding(crate::specs::Spelling::value_spelling))]
pub fn encode_value(alloc: Global, value: &TypedValue) -> Mem<Bytes>
    ensures spelled { IfOk result (λ b. b ≡ value_spelling value.now) }
    ensures again { IfOk result (λ b. value_value b ≡ Ok value.now) }
{
    let bytes = encoded(alloc, value)?;
    Ok(bytes)
}

/// The value that the bytes spell.
#[tactic(auto, unfolding(crate::specs::Spelling::value_value))]
pub fn decode_value(alloc: Global, bytes: &[u8]) -> Result<TypedValue, DecodeFault>
    ensures { Gives (λ value. value) result (value_value bytes.now) }
{
    decoded(alloc, bytes)
}

/// The canonical spelling of a sender. Decoding it gives the sender again.
#[tactic(auto, unfolding(crate::specs::Spelling::sender_spelling))]
pub fn encode_sender(alloc: Global, sender: &Sender) -> Mem<Bytes>
    ensures spelled { IfOk result (λ b. b ≡ sender_spelling sender.now) }
    ensures again { IfOk result (λ b. sender_value b ≡ Ok sender.now) }
{
    let bytes = encoded(alloc, sender)?;
    Ok(bytes)
}

/// The sender that the bytes spell. It needs its member. A split of 2^32 or more is OverLimit, at the first byte of its number.
#[tactic(auto, unfolding(crate::specs::Spelling::sender_value))]
pub fn decode_sender(alloc: Global, bytes: &[u8]) -> Result<Sender, DecodeFault>
    ensures { Gives (λ sender. sender) result (sender_value bytes.now) }
{
    let read: SenderRead = decoded(alloc, bytes)?;
    match read.member {
        Some(sender) => Ok(sender),
        None => Err(no_member(bytes)),
    }
}

/// The canonical spelling of a letter. Decoding it gives the letter again.
#[tactic(auto, unfolding(crate::specs::Spelling::letter_spelling))]
pub fn encode_letter(alloc: Global, letter: &Letter) -> Mem<Bytes>
    ensures spelled { IfOk result (λ b. b ≡ letter_spelling letter.now) }
    ensures again { IfOk result (λ b. letter_value b ≡ Ok letter.now) }
{
    let bytes = encoded(alloc, letter)?;
    Ok(bytes)
}

/// The letter that the bytes spell. It needs a sender, a target and an argument.
#[tactic(auto, unfolding(crate::specs::Spelling::letter_value))]
pub fn decode_letter(alloc: Global, bytes: &[u8]) -> Result<Letter, DecodeFault>
    ensures { Gives (λ letter. letter) result (letter_value bytes.now) }
{
    let read: LetterRead = decoded(alloc, bytes)?;
    match letter_of(read) {
        Some(letter) => Ok(letter),
        None => Err(no_member(bytes)),
    }
}

/// The canonical spelling of a delayed letter. Decoding it gives the delayed letter again.
#[tactic(auto, unfolding(crate::specs::Spelling::delay_spelling))]
pub fn encode_delay(alloc: Global, delay: &Delay) -> Mem<Bytes>
    ensures spelled { IfOk result (λ b. b ≡ delay_spelling delay.now) }
    ensures again { IfOk result (λ b. delay_value b ≡ Ok delay.now) }
{
    let bytes = encoded(alloc, delay)?;
    Ok(bytes)
}

/// The delayed letter that the bytes spell. It needs a sender, a target and an argument.
#[tactic(auto, unfolding(crate::specs::Spelling::delay_value))]
pub fn decode_delay(alloc: Global, bytes: &[u8]) -> Result<Delay, DecodeFault>
    ensures { Gives (λ delay. delay) result (delay_value bytes.now) }
{
    let read: DelayRead = decoded(alloc, bytes)?;
    match delay_of(read) {
        Some(delay) => Ok(delay),
        None => Err(no_member(bytes)),
    }
}

/// The canonical spelling of an egress record. Decoding it gives the egress record again.
#[tactic(auto, unfolding(crate::specs::Spelling::egress_spelling))]
pub fn encode_egress(alloc: Global, egress: &EgressRecord) -> Mem<Bytes>
    ensures spelled { IfOk result (λ b. b ≡ egress_spelling egress.now) }
    ensures again { IfOk result (λ b. egress_value b ≡ Ok egress.now) }
{
    let bytes = encoded(alloc, egress)?;
    Ok(bytes)
}

/// The egress record that the bytes spell. It needs a sender and an argument.
#[tactic(auto, unfolding(crate::specs::Spelling::egress_value))]
pub fn decode_egress(alloc: Global, bytes: &[u8]) -> Result<EgressRecord, DecodeFault>
    ensures { Gives (λ egress. egress) result (egress_value bytes.now) }
{
    let read: EgressRead = decoded(alloc, bytes)?;
    let Some(egress) = egress_of(read) else {
        return Err(no_member(bytes));
    };
    Ok(egress)
}
