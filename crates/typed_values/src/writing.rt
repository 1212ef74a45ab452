//! Senders, letters, delayed letters and egress records while they are written.
ghost use Rattle.std.specs.Prelude.{◌≡◌, ◌++◌, length, IfOk, OnOk, Some, true};
ghost use Rattle.proto_wire.specs.Message.{fit};
ghost use Rattle.typed_values.specs.Stored.{sender_rows, letter_rows, letter_read, delay_rows, delay_read, egress_rows, egress_read};
ghost use Rattle.typed_values.specs.Spelling.{sender_spelling, letter_spelling, delay_spelling, egress_spelling};

use crate::{Delay, EgressRecord, Letter, Sender};
use proto_wire::{
    Bytes, Encode, Mem, bytes_size, choice_size, member_size, number_size, with_choice,
    with_member, with_number, with_text,
};

impl Encode for Sender {
    ghost spells = { sender_spelling };

    ghost fits = { λ sender. fit sender_rows (record { member = Some sender }) };

    #[tactic(auto, unfolding(crate::specs::Spelling::sender_spelling, crate::specs::Stored::sender_rows, crate::specs::Stored::split_of, crate::specs::Stored::function_of, proto_wire::specs::Message::spelled_message, proto_wire::specs::Message::spelled_choice))]
    fn size(&self) -> u64 {
        match self {
            Sender::Split(split) => choice_size(1, Some(*split)),
            Sender::Function(address) => member_size(2, address),
        }
    }

    #[tactic(auto, unfolding(crate::specs::Spelling::sender_spelling, crate::specs::Stored::sender_rows, crate::specs::Stored::split_of, crate::specs::Stored::function_of, proto_wire::specs::Message::spelled_message, proto_wire::specs::Message::spelled_choice, proto_wire::specs::Message::fit_message, proto_wire::specs::Message::fit_choice))]
    fn put(&self, into: Bytes) -> Mem<Bytes> {
        match self {
            Sender::Split(split) => with_choice(into, 1, Some(*split)),
            Sender::Function(address) => with_member(into, 2, address),
        }
    }
}

impl Encode for Letter {
    ghost spells = { letter_spelling };

    ghost fits = { λ letter. fit letter_rows (letter_read letter) };

    #[tactic(auto, unfolding(crate::specs::Spelling::letter_spelling, crate::specs::Spelling::sender_spelling, crate::specs::Stored::letter_rows, proto_wire::specs::Message::spelled_message))]
    fn size(&self) -> u64 {
        member_size(1, &self.sender)
            .saturating_add(member_size(2, &self.target))
            .saturating_add(member_size(3, &self.argument))
    }

    #[tactic(auto, unfolding(crate::specs::Spelling::letter_spelling, crate::specs::Spelling::sender_spelling, crate::specs::Stored::letter_rows, proto_wire::specs::Message::spelled_message, proto_wire::specs::Message::fit_message))]
    fn put(&self, into: Bytes) -> Mem<Bytes> {
        let into = with_member(into, 1, &self.sender)?;
        let into = with_member(into, 2, &self.target)?;
        with_member(into, 3, &self.argument)
    }
}

impl Encode for Delay {
    ghost spells = { delay_spelling };

    ghost fits = { λ delay. fit delay_rows (delay_read delay) };

    #[tactic(auto, unfolding(crate::specs::Spelling::delay_spelling, crate::specs::Stored::delay_rows, proto_wire::specs::Message::spelled_message))]
    fn size(&self) -> u64 {
        member_size(1, &self.sender)
            .saturating_add(number_size(2, self.due))
            .saturating_add(member_size(3, &self.target))
            .saturating_add(bytes_size(4, self.token.as_bytes()))
            .saturating_add(member_size(5, &self.argument))
    }

    #[tactic(auto, unfolding(crate::specs::Spelling::delay_spelling, crate::specs::Stored::delay_rows, proto_wire::specs::Message::spelled_message, proto_wire::specs::Message::fit_message))]
    fn put(&self, into: Bytes) -> Mem<Bytes> {
        let into = with_member(into, 1, &self.sender)?;
        let into = with_number(into, 2, self.due)?;
        let into = with_member(into, 3, &self.target)?;
        let into = with_text(into, 4, &self.token)?;
        with_member(into, 5, &self.argument)
    }
}

impl Encode for EgressRecord {
    ghost spells = { egress_spelling };

    ghost fits = { λ egress. fit egress_rows (egress_read egress) };

    #[tactic(auto, unfolding(crate::specs::Spelling::egress_spelling, crate::specs::Stored::egress_rows, proto_wire::specs::Message::spelled_message))]
    fn size(&self) -> u64 {
        member_size(1, &self.sender)
            .saturating_add(bytes_size(2, self.egress.namespace.as_bytes()))
            .saturating_add(bytes_size(3, self.egress.name.as_bytes()))
            .saturating_add(member_size(4, &self.argument))
    }

    #[tactic(auto, unfolding(crate::specs::Spelling::egress_spelling, crate::specs::Stored::egress_rows, proto_wire::specs::Message::spelled_message, proto_wire::specs::Message::fit_message))]
    fn put(&self, into: Bytes) -> Mem<Bytes> {
        let into = with_member(into, 1, &self.sender)?;
        let into = with_text(into, 2, &self.egress.namespace)?;
        let into = with_text(into, 3, &self.egress.name)?;
        with_member(into, 4, &self.argument)
    }
}
