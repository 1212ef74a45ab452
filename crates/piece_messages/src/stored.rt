//! Letters, delayed letters and egress records while they are read: what they need may still be absent.
ghost use Rattle.std.specs.Prelude.{◌≡◌, IfOk};
ghost use Rattle.piece_messages.specs.Stored.{empty_letter, letter_rows, letter_of, empty_delay, delay_rows, delay_of, empty_egress, egress_rows, egress_of};

use folder_messages::{Parts, PickRead};
use proto_wire::{Decode, DecodeFault, Mem, Record, Text};
use std::alloc::Global;
use typed_values::{Address, Delay, EgressRecord, Letter, TypeName, TypedValue};

/// A letter while it is read.
#[derive(Drop)]
pub struct LetterRead {
    pub sender: Option<PickRead>,
    pub target: Option<Address>,
    pub argument: Option<TypedValue>,
}

impl Decode for LetterRead {
    ghost rows = { letter_rows };

    ghost empty = { empty_letter };

    #[tactic(auto, unfolding(crate::specs::Stored::empty_letter))]
    fn blank(_alloc: Global) -> LetterRead {
        LetterRead {
            sender: None,
            target: None,
            argument: None,
        }
    }

    #[tactic(auto, unfolding(crate::specs::Stored::letter_rows))]
    fn accept(&mut self, alloc: Global, item: &Record<'_>) -> Result<(), DecodeFault> {
        if item.is(1, 2) {
            item.enter(alloc, &mut self.sender)?;
        } else if item.is(2, 2) {
            item.enter(alloc, &mut self.target)?;
        } else if item.is(3, 2) {
            item.enter(alloc, &mut self.argument)?;
        }
        Ok(())
    }
}

/// The letter that was read. `None` exactly where a part that it needs is absent.
#[tactic(auto, unfolding(crate::specs::Stored::letter_of))]
fn letter_of(read: LetterRead) -> Option<Letter>
    ensures { result ≡ letter_of read }
{
    let LetterRead {
        sender,
        target,
        argument,
    } = read;
    let PickRead { member } = sender?;
    Some(Letter {
        sender: member?,
        target: target?,
        argument: argument?,
    })
}

impl Parts for LetterRead {
    type Whole = Letter;

    ghost whole = { letter_of };

    fn whole(self, _alloc: Global) -> Mem<Option<Letter>> {
        Ok(letter_of(self))
    }
}

/// A delayed letter while it is read.
#[derive(Drop)]
pub struct DelayRead {
    pub sender: Option<Address>,
    pub due: u64,
    pub target: Option<Address>,
    pub token: Text,
    pub argument: Option<TypedValue>,
}

impl Decode for DelayRead {
    ghost rows = { delay_rows };

    ghost empty = { empty_delay };

    #[tactic(auto, unfolding(crate::specs::Stored::empty_delay))]
    fn blank(alloc: Global) -> DelayRead {
        DelayRead {
            sender: None,
            due: 0,
            target: None,
            token: Text::new(alloc),
            argument: None,
        }
    }

    #[tactic(auto, unfolding(crate::specs::Stored::delay_rows))]
    fn accept(&mut self, alloc: Global, item: &Record<'_>) -> Result<(), DecodeFault> {
        if item.is(1, 2) {
            item.enter(alloc, &mut self.sender)?;
        } else if item.is(2, 0) {
            self.due = item.number;
        } else if item.is(3, 2) {
            item.enter(alloc, &mut self.target)?;
        } else if item.is(4, 2) {
            self.token = item.text(alloc)?;
        } else if item.is(5, 2) {
            item.enter(alloc, &mut self.argument)?;
        }
        Ok(())
    }
}

/// The delayed letter that was read. `None` exactly where a part that it needs is absent.
#[tactic(auto, unfolding(crate::specs::Stored::delay_of))]
fn delay_of(read: DelayRead) -> Option<Delay>
    ensures { result ≡ delay_of read }
{
    let DelayRead {
        sender,
        due,
        target,
        token,
        argument,
    } = read;
    Some(Delay {
        sender: sender?,
        due,
        target: target?,
        token,
        argument: argument?,
    })
}

impl Parts for DelayRead {
    type Whole = Delay;

    ghost whole = { delay_of };

    fn whole(self, _alloc: Global) -> Mem<Option<Delay>> {
        Ok(delay_of(self))
    }
}

/// An egress record while it is read.
#[derive(Drop)]
pub struct EgressRead {
    pub sender: Option<Address>,
    pub namespace: Text,
    pub name: Text,
    pub argument: Option<TypedValue>,
}

impl Decode for EgressRead {
    ghost rows = { egress_rows };

    ghost empty = { empty_egress };

    #[tactic(auto, unfolding(crate::specs::Stored::empty_egress))]
    fn blank(alloc: Global) -> EgressRead {
        EgressRead {
            sender: None,
            namespace: Text::new(alloc),
            name: Text::new(alloc),
            argument: None,
        }
    }

    #[tactic(auto, unfolding(crate::specs::Stored::egress_rows))]
    fn accept(&mut self, alloc: Global, item: &Record<'_>) -> Result<(), DecodeFault> {
        if item.is(1, 2) {
            item.enter(alloc, &mut self.sender)?;
        } else if item.is(2, 2) {
            self.namespace = item.text(alloc)?;
        } else if item.is(3, 2) {
            self.name = item.text(alloc)?;
        } else if item.is(4, 2) {
            item.enter(alloc, &mut self.argument)?;
        }
        Ok(())
    }
}

/// The egress record that was read. `None` exactly where a part that it needs is absent.
#[tactic(auto, unfolding(crate::specs::Stored::egress_of))]
fn egress_of(read: EgressRead) -> Option<EgressRecord>
    ensures { result ≡ egress_of read }
{
    let EgressRead {
        sender,
        namespace,
        name,
        argument,
    } = read;
    Some(EgressRecord {
        sender: sender?,
        egress: TypeName { namespace, name },
        argument: argument?,
    })
}

impl Parts for EgressRead {
    type Whole = EgressRecord;

    ghost whole = { egress_of };

    fn whole(self, _alloc: Global) -> Mem<Option<EgressRecord>> {
        Ok(egress_of(self))
    }
}
