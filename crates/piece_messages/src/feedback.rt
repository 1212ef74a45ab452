//! Letters on the way as a message.
ghost use Rattle.std.specs.Prelude.{◌≡◌, ◌++◌, length, IfOk, Ok};
ghost use Rattle.proto_wire.specs.Reads.{Gives};
ghost use Rattle.proto_wire.specs.Message.{fit};
ghost use Rattle.piece_messages.specs.States.{empty_feedback, feedback_rows, feedback_read, feedback_of};
ghost use Rattle.piece_messages.specs.Spelling.{feedback_spelling, feedback_value};

use crate::lists::{letters_size, with_letters};
use crate::stored::LetterRead;
use folder_messages::{Parts, all_whole, decoded_whole};
use proto_wire::{Bytes, Decode, DecodeFault, Encode, List, Mem, Record, encoded};
use std::alloc::Global;
use typed_values::Letter;

/// The letters that were on the way to a partition at a checkpoint.
#[derive(Drop)]
pub struct Feedback {
    /// Field 1: they stand behind those of the piece.
    pub letters: List<Letter>,
}

/// The same while they are read.
#[derive(Drop)]
pub struct FeedbackRead {
    pub letters: List<LetterRead>,
}

impl Decode for FeedbackRead {
    ghost rows = { feedback_rows };

    ghost empty = { empty_feedback };

    #[tactic(auto, unfolding(crate::specs::States::empty_feedback))]
    fn blank(alloc: Global) -> FeedbackRead {
        FeedbackRead {
            letters: List::new(alloc),
        }
    }

    #[tactic(auto, unfolding(crate::specs::States::feedback_rows))]
    fn accept(&mut self, alloc: Global, item: &Record<'_>) -> Result<(), DecodeFault> {
        if item.is(1, 2) {
            item.append_to(alloc, &mut self.letters)?;
        }
        Ok(())
    }
}

impl Parts for FeedbackRead {
    type Whole = Feedback;

    ghost whole = { feedback_of };

    #[tactic(auto, unfolding(crate::specs::States::feedback_of))]
    fn whole(self, alloc: Global) -> Mem<Option<Feedback>> {
        match all_whole(alloc, self.letters)? {
            Some(letters) => Ok(Some(Feedback { letters })),
            None => Ok(None),
        }
    }
}

impl Encode for Feedback {
    ghost spells = { feedback_spelling };

    ghost fits = { λ it. fit feedback_rows (feedback_read it) };

    #[tactic(auto, unfolding(crate::specs::Spelling::feedback_spelling, crate::specs::States::feedback_rows))]
    fn size(&self) -> u64 {
        letters_size(1, &self.letters)
    }

    #[tactic(auto, unfolding(crate::specs::Spelling::feedback_spelling, crate::specs::States::feedback_rows))]
    fn put(&self, into: Bytes) -> Mem<Bytes> {
        with_letters(into, 1, &self.letters)
    }
}

/// The canonical spelling of letters on the way. Decoding it gives the letters again.
pub fn encode_feedback(alloc: Global, feedback: &Feedback) -> Mem<Bytes>
    ensures spelled { IfOk result (λ b. b ≡ feedback_spelling feedback.now) }
    ensures again { IfOk result (λ b. feedback_value b ≡ Ok feedback.now) }
{
    let bytes = encoded(alloc, feedback)?;
    Ok(bytes)
}

/// The letters on the way that the bytes spell. They need what each letter needs.
#[tactic(auto, unfolding(crate::specs::Spelling::feedback_value))]
pub fn decode_feedback(alloc: Global, bytes: &[u8]) -> Result<Feedback, DecodeFault>
    ensures { Gives (λ feedback. feedback) result (feedback_value bytes.now) }
{
    decoded_whole::<FeedbackRead>(alloc, bytes)
}
