//! What was asked of a link, and what it told.
ghost use Rattle.std.specs.Prelude.{◌≡◌, [], ◌∷◌, ◌++◌, Some, None, OnOk, OnErr, option_copied, option_and_then, slice_get};
ghost use Rattle.sf_outside.specs.declared.call.LinkEvent.TheVariants.{Started as WasStarted, Polled as WasPolled};
ghost use Rattle.function_server.specs.Asking.{next_start};

use proto_wire::{Bytes, List, Mem, OutOfMemory, Text};
use sf_outside::{Call, LinkEvent, Outcome};
use std::alloc::Global;
use std::marker::Model;

/// What was started and told, oldest first.
#[derive(Drop)]
pub struct Asked {
    events: List<LinkEvent>,
    /// Where the starts stand among them.
    places: Vec<usize>,
    /// How many outcomes were told.
    told: usize,
}

impl Model for Asked {
    ghost use Rattle.std.specs.Prelude.{◌≡◌, List};
    ghost use Rattle.sf_outside.specs.declared.call.LinkEvent.{LinkEvent};
    ghost use Rattle.sf_outside.specs.Script.{places_from};
    ghost use Rattle.function_server.specs.Asking.{outcomes_in};

    ghost Value = { List LinkEvent };

    ghost view = { λ asked. asked.events };

    ghost invariant = { λ asked. (asked.places.items ≡ places_from 0 asked.events) × (asked.told ≡ outcomes_in asked.events) };
}

impl Asked {
    /// Nothing was started or told. Takes no memory.
    pub(crate) fn new(alloc: Global) -> Asked
        ensures { result ≡ [] }
    {
        Asked {
            events: List::new(alloc),
            places: Vec::new(alloc),
            told: 0,
        }
    }

    /// What was done.
    pub(crate) fn events(&self) -> &List<LinkEvent>
        ensures { result.now ≡ self.now }
    {
        &self.events
    }

    /// The earliest start whose outcome was not told. Looks at no other event.
    pub(crate) fn next(&self) -> Option<&LinkEvent>
        ensures { option_copied result ≡ next_start self.now }
    {
        event_at(self.events.as_slice(), self.places.as_slice(), self.told)
    }

    /// Adds a start. An `Err` changes nothing.
    #[tactic(auto, using(crate::proofs::Outcomes::start_steps))]
    pub(crate) fn add_start(&mut self, call: Call, url: Text, request: Bytes) -> Mem<()>
        ensures ok { OnOk result (self.new ≡ self.old ++ WasStarted call url request ∷ []) }
        ensures err { OnErr result (self.new ≡ self.old) }
    {
        self.places.push(self.events.len())?;
        let event = LinkEvent::Started { call, url, request };
        if self.events.push(event).is_err() {
            let _ = self.places.pop();
            return Err(OutOfMemory);
        }
        Ok(())
    }

    /// Adds that a poll told nothing. An `Err` changes nothing.
    #[tactic(auto, using(crate::proofs::Outcomes::nothing_steps))]
    pub(crate) fn add_nothing(&mut self) -> Mem<()>
        ensures ok { OnOk result (self.new ≡ self.old ++ WasPolled None ∷ []) }
        ensures err { OnErr result (self.new ≡ self.old) }
    {
        self.events.push(LinkEvent::Polled(None))
    }

    /// Adds that a poll told an outcome. An `Err` changes nothing.
    #[tactic(auto, using(crate::proofs::Outcomes::outcome_steps))]
    pub(crate) fn add_outcome(&mut self, outcome: Outcome) -> Mem<()>
        ensures ok { OnOk result (self.new ≡ self.old ++ WasPolled (Some outcome) ∷ []) }
        ensures err { OnErr result (self.new ≡ self.old) }
    {
        self.events.push(LinkEvent::Polled(Some(outcome)))?;
        let _count = self.events.len();
        self.told += 1;
        Ok(())
    }
}

fn event_at<'a>(events: &'a [LinkEvent], places: &[usize], number: usize) -> Option<&'a LinkEvent>
    ensures { option_copied result ≡ option_and_then (λ place. slice_get events.now place) (slice_get places.now number) }
{
    let place = *places.get(number)?;
    events.get(place)
}
