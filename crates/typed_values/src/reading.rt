//! Senders, letters, delayed letters and egress records while they are read: what they need may still be absent.
ghost use Rattle.std.specs.Prelude.{◌≡◌};
ghost use Rattle.typed_values.specs.Stored.{empty_sender, sender_rows, empty_letter, letter_rows, letter_of, empty_delay, delay_rows, delay_of, empty_egress, egress_rows, egress_of};

use crate::{Address, Delay, EgressRecord, Letter, Sender, TypeName, TypedValue};
use proto_wire::{Decode, DecodeFault, Record, Text};
use std::alloc::Global;

/// A sender while it is read.
#[derive(Drop)]
pub struct SenderRead {
    pub member: Option<Sender>,
}

impl Decode for SenderRead {
    ghost rows = { sender_rows };

    ghost empty = { empty_sender };

    #[tactic(auto, unfolding(crate::specs::Stored::empty_sender))]
    fn blank(_alloc: Global) -> SenderRead {
        SenderRead { member: None }
    }

    #[tactic(auto, unfolding(crate::specs::Stored::sender_rows, crate::specs::Stored::function_of))]
    fn accept(&mut self, alloc: Global, item: &Record<'_>) -> Result<(), DecodeFault> {
        if item.is(1, 0) {
            self.member = Some(Sender::Split(item.short()?));
        } else if item.is(2, 2) {
            let held = match self.member.take() {
                Some(Sender::Function(address)) => Some(address),
                Some(Sender::Split(_split)) => None,
                None => None,
            };
            self.member = Some(Sender::Function(item.message(alloc, held)?));
        }
        Ok(())
    }
}

/// A letter while it is read.
#[derive(Drop)]
pub struct LetterRead {
    pub sender: Option<SenderRead>,
    pub target: Option<Address>,
    pub argument: Option<TypedValue>,
}

impl Decode for LetterRead {
    ghost rows = { letter_rows };

    ghost empty = { empty_letter };

    #[tactic(auto, unfolding(crate::specs::Stored::empty_letter))]
    fn blank(_alloc: Global) -> LetterRead {
        LetterRead {
            sender: None,
            target: None,
            argument: None,
        }
    }

    #[tactic(auto, unfolding(crate::specs::Stored::letter_rows))]
    fn accept(&mut self, alloc: Global, item: &Record<'_>) -> Result<(), DecodeFault> {
        if item.is(1, 2) {
            item.enter(alloc, &mut self.sender)?;
        } else if item.is(2, 2) {
            item.enter(alloc, &mut self.target)?;
        } else if item.is(3, 2) {
            item.enter(alloc, &mut self.argument)?;
        }
        Ok(())
    }
}

/// A delayed letter while it is read.
#[derive(Drop)]
pub struct DelayRead {
    pub sender: Option<Address>,
    pub due: u64,
    pub target: Option<Address>,
    pub token: Text,
    pub argument: Option<TypedValue>,
}

impl Decode for DelayRead {
    ghost rows = { delay_rows };

    ghost empty = { empty_delay };

    #[tactic(auto, unfolding(crate::specs::Stored::empty_delay))]
    fn blank(alloc: Global) -> DelayRead {
        DelayRead {
            sender: None,
            due: 0,
            target: None,
            token: Text::new(alloc),
            argument: None,
        }
    }

    #[tactic(auto, unfolding(crate::specs::Stored::delay_rows))]
    fn accept(&mut self, alloc: Global, item: &Record<'_>) -> Result<(), DecodeFault> {
        if item.is(1, 2) {
            item.enter(alloc, &mut self.sender)?;
        } else if item.is(2, 0) {
            self.due = item.number;
        } else if item.is(3, 2) {
            item.enter(alloc, &mut self.target)?;
        } else if item.is(4, 2) {
            self.token = item.text(alloc)?;
        } else if item.is(5, 2) {
            item.enter(alloc, &mut self.argument)?;
        }
        Ok(())
    }
}

/// An egress record while it is read.
#[derive(Drop)]
pub struct EgressRead {
    pub sender: Option<Address>,
    pub namespace: Text,
    pub name: Text,
    pub argument: Option<TypedValue>,
}

impl Decode for EgressRead {
    ghost rows = { egress_rows };

    ghost empty = { empty_egress };

    #[tactic(auto, unfolding(crate::specs::Stored::empty_egress))]
    fn blank(alloc: Global) -> EgressRead {
        EgressRead {
            sender: None,
            namespace: Text::new(alloc),
            name: Text::new(alloc),
            argument: None,
        }
    }

    #[tactic(auto, unfolding(crate::specs::Stored::egress_rows))]
    fn accept(&mut self, alloc: Global, item: &Record<'_>) -> Result<(), DecodeFault> {
        if item.is(1, 2) {
            item.enter(alloc, &mut self.sender)?;
        } else if item.is(2, 2) {
            self.namespace = item.text(alloc)?;
        } else if item.is(3, 2) {
            self.name = item.text(alloc)?;
        } else if item.is(4, 2) {
            item.enter(alloc, &mut self.argument)?;
        }
        Ok(())
    }
}

/// The letter that was read. `None` exactly where a part that it needs is absent.
#[tactic(auto, unfolding(crate::specs::Stored::letter_of))]
pub fn letter_of(read: LetterRead) -> Option<Letter>
    ensures { result ≡ letter_of read }
{
    let LetterRead {
        sender,
        target,
        argument,
    } = read;
    let SenderRead { member } = sender?;
    Some(Letter {
        sender: member?,
        target: target?,
        argument: argument?,
    })
}

/// The delayed letter that was read. `None` exactly where a part that it needs is absent.
#[tactic(auto, unfolding(crate::specs::Stored::delay_of))]
pub fn delay_of(read: DelayRead) -> Option<Delay>
    ensures { result ≡ delay_of read }
{
    let DelayRead {
        sender,
        due,
        target,
        token,
        argument,
    } = read;
    Some(Delay {
        sender: sender?,
        due,
        target: target?,
        token,
        argument: argument?,
    })
}

/// The egress record that was read. `None` exactly where a part that it needs is absent.
#[tactic(auto, unfolding(crate::specs::Stored::egress_of))]
pub fn egress_of(read: EgressRead) -> Option<EgressRecord>
    ensures { result ≡ egress_of read }
{
    let EgressRead {
        sender,
        namespace,
        name,
        argument,
    } = read;
    Some(EgressRecord {
        sender: sender?,
        egress: TypeName { namespace, name },
        argument: argument?,
    })
}
