//! A link whose calls are answered by a table of functions.
ghost use Rattle.std.specs.Prelude.{◌≡◌, ◌++◌, ◌+◌, ◌-◌, ◌^◌, min, [], ◌∷◌, Some, length, take, option_copied, option_to_list, IfOk, IsOkAnd, OnOk, OnErr};
ghost use Rattle.sf_outside.specs.declared.call.LinkEvent.TheVariants.{Started as WasStarted, Polled as WasPolled};
ghost use Rattle.sf_outside.specs.Told.{HasCause, more};
ghost use Rattle.sf_outside.specs.Answers.{Extends, IsAnswered, LostRose};
ghost use Rattle.sf_outside.specs.Script.{losses_behind as losses_after};
ghost use Rattle.function_server.specs.Answering.{bytes_for};
ghost use Rattle.function_server.specs.Asking.{next_start};
ghost use Rattle.function_server.specs.Linking.{what_of, outcome_of, exchange_with, exchange_of};

use crate::asked::Asked;
use crate::table::Services;
use crate::{FunctionTable, ServeFault, answer_request};
use proto_wire::{Bytes, List, Mem, OutOfMemory, Text, TryClone};
use sf_outside::{Answered, Call, Exchange, Fault, Link, LinkEvent, Outcome};
use std::alloc::Global;
use std::mem;

/// The note on a call whose request is misspelled.
const MISSPELLED: u32 = 31;

/// The note on a call whose target is not served.
const NOT_SERVED: u32 = 32;

/// A link that answers each call that was started once, in their order, as a table answers its request. It keeps all that it
/// did. It never fails but for want of memory: then the call waits on.
#[derive(Drop)]
pub struct ServerLink {
    alloc: Global,
    table: FunctionTable,
    done: Asked,
    answered: List<Exchange>,
    /// How many calls it told to be lost. It stays at its last value.
    lost: u64,
}

impl ServerLink {
    /// A link to these functions. It always succeeds.
    pub fn new(alloc: Global, table: FunctionTable) -> Mem<ServerLink>
        ensures { IsOkAnd result (λ link. (⟦<FunctionTable as Services>⟧.services link.table ≡ ⟦<FunctionTable as Services>⟧.services table) × (link.done ≡ []) × (link.answered ≡ []) × (link.lost ≡ 0)) }
    {
        Ok(ServerLink {
            alloc,
            table,
            done: Asked::new(alloc),
            answered: List::new(alloc),
            lost: 0,
        })
    }

    /// What it did, oldest first.
    pub fn journal(&self) -> &List<LinkEvent>
        ensures { result.now ≡ self.now.done }
    {
        self.done.events()
    }

    /// What was answered, oldest first.
    pub fn exchanges(&self) -> &List<Exchange>
        ensures { result.now ≡ self.now.answered }
    {
        &self.answered
    }
}

impl Link for ServerLink {
    ghost journal = { λ link. Some link.done };

    ghost exchanges = { λ link. link.answered };

    ghost faults = { λ _. 0 };

    ghost losses = { λ link. link.lost };

    /// Notes the start in the journal.
    fn start(&mut self, call: Call, url: &Text, request: &[u8]) -> Result<(), Fault>
        ensures started { OnOk result (Some self.new.done ≡ more (Some self.old.done) (WasStarted call url.now request.now ∷ [])) }
        ensures err { OnErr result (Some self.new.done ≡ Some self.old.done) }
        ensures exchanges { Extends self.old.answered self.new.answered }
        ensures losses { self.new.lost ≡ self.old.lost }
        ensures cause { HasCause 0 0 result }
        // The exchanges and the functions stand.
        ensures answered { self.new.answered ≡ self.old.answered }
        ensures functions { ⟦<FunctionTable as Services>⟧.services self.new.table ≡ ⟦<FunctionTable as Services>⟧.services self.old.table }
    {
        let url = url.try_clone(self.alloc)?;
        let request = Bytes::copy_of(self.alloc, request)?;
        self.done.add_start(call, url, request)?;
        Ok(())
    }

    /// What the table answers to the earliest call without an outcome. Waits for nothing.
    fn poll(&mut self, _wait: u32) -> Result<Option<Outcome>, Fault>
        ensures polled { IfOk result (λ outcome. Some self.new.done ≡ more (Some self.old.done) (WasPolled outcome ∷ [])) }
        ensures err { OnErr result (Some self.new.done ≡ Some self.old.done) }
        ensures exchanges { Extends self.old.answered self.new.answered }
        ensures answered { IfOk result (λ outcome. IsAnswered (Some self.old.done) self.new.answered outcome) }
        ensures lost { LostRose self.old.lost self.new.lost result }
        ensures cause { HasCause 0 0 result }
        // It tells what the functions answer to the next call.
        ensures tells { IfOk result (λ outcome. outcome ≡ outcome_of (⟦<FunctionTable as Services>⟧.services self.old.table) (next_start self.old.done)) }
        ensures exchanged { OnOk result (self.new.answered
            ≡ self.old.answered ++ option_to_list (exchange_of (⟦<FunctionTable as Services>⟧.services self.old.table) (next_start self.old.done))) }
        ensures losses { IfOk result (λ outcome. self.new.lost ≡ losses_after self.old.lost outcome) }
        // Without an answer the call waits on.
        ensures stays { OnErr result ((self.new.answered ≡ self.old.answered) × (self.new.lost ≡ self.old.lost)) }
        ensures functions { ⟦<FunctionTable as Services>⟧.services self.new.table ≡ ⟦<FunctionTable as Services>⟧.services self.old.table }
    {
        let Planned {
            outcome,
            copy,
            exchange,
        } = plan_of(self.alloc, &self.table, self.done.next())?;
        add(
            self.alloc,
            &mut self.done,
            &mut self.answered,
            copy,
            exchange,
        )?;
        self.lost = losses_behind(self.lost, &outcome);
        Ok(outcome)
    }
}

/// What is told of a call, a copy of it for the journal, and the exchange behind it.
#[derive(Drop)]
struct Planned {
    outcome: Option<Outcome>,
    copy: Option<Outcome>,
    exchange: Option<Exchange>,
}

/// What a table makes of the call that was started so.
fn plan_of(alloc: Global, table: &FunctionTable, start: Option<&LinkEvent>) -> Mem<Planned>
    ensures outcome { IfOk result (λ plan. plan.outcome ≡ outcome_of (⟦<FunctionTable as Services>⟧.services table.now) (option_copied start.entry)) }
    ensures copy { IfOk result (λ plan. plan.copy ≡ outcome_of (⟦<FunctionTable as Services>⟧.services table.now) (option_copied start.entry)) }
    ensures exchange { IfOk result (λ plan. plan.exchange ≡ exchange_of (⟦<FunctionTable as Services>⟧.services table.now) (option_copied start.entry)) }
{
    match start {
        Some(LinkEvent::Started { call, url, request }) => {
            let what = what_of(alloc, table, request.as_slice())?;
            Ok(Planned {
                copy: Some(Outcome {
                    call: *call,
                    what: what.try_clone(alloc)?,
                }),
                exchange: exchange_with(alloc, *call, url, request, &what)?,
                outcome: Some(Outcome { call: *call, what }),
            })
        }
        Some(LinkEvent::Polled(_)) | None => Ok(Planned {
            outcome: None,
            copy: None,
            exchange: None,
        }),
    }
}

/// What becomes of a call with this request.
fn what_of(alloc: Global, table: &FunctionTable, request: &[u8]) -> Mem<Answered>
    ensures { IfOk result (λ what. what ≡ what_of (bytes_for (⟦<FunctionTable as Services>⟧.services table.now) request.now)) }
{
    match answer_request(alloc, table, request) {
        Ok(answer) => Ok(Answered::Answer(answer)),
        Err(ServeFault::Wire(_)) => Ok(Answered::Lost(MISSPELLED)),
        Err(ServeFault::NotServed) => Ok(Answered::Lost(NOT_SERVED)),
        Err(ServeFault::OutOfMemory) => Err(OutOfMemory),
    }
}

/// The exchange of a call that was answered.
fn exchange_with(
    alloc: Global,
    call: Call,
    url: &Text,
    request: &Bytes,
    what: &Answered,
) -> Mem<Option<Exchange>>
    ensures { IfOk result (λ exchange. exchange ≡ exchange_with call url.now request.now what.now) }
{
    match what {
        Answered::Answer(answer) => Ok(Some(Exchange {
            call,
            url: url.try_clone(alloc)?,
            request: request.try_clone(alloc)?,
            answer: answer.try_clone(alloc)?,
        })),
        Answered::Lost(_) => Ok(None),
    }
}

/// Notes the answer of a poll and the exchange behind it. An `Err` changes nothing.
fn add(
    alloc: Global,
    done: &mut Asked,
    exchanges: &mut List<Exchange>,
    outcome: Option<Outcome>,
    exchange: Option<Exchange>,
) -> Mem<()>
    ensures polled { OnOk result (done.new ≡ done.old ++ WasPolled outcome ∷ []) }
    ensures exchanged { OnOk result (exchanges.new ≡ exchanges.old ++ option_to_list exchange) }
    ensures err { OnErr result (done.new ≡ done.old) }
    ensures err_exchanges { OnErr result (exchanges.new ≡ exchanges.old) }
{
    let Some(exchange) = exchange else {
        return add_poll(done, outcome);
    };
    exchanges.push(exchange)?;
    let added = add_poll(done, outcome);
    if added.is_err() {
        remove_last(alloc, exchanges);
    }
    added
}

/// Notes the answer of a poll. An `Err` changes nothing.
fn add_poll(done: &mut Asked, outcome: Option<Outcome>) -> Mem<()>
    ensures ok { OnOk result (done.new ≡ done.old ++ WasPolled outcome ∷ []) }
    ensures err { OnErr result (done.new ≡ done.old) }
{
    match outcome {
        Some(outcome) => done.add_outcome(outcome),
        None => done.add_nothing(),
    }
}

fn remove_last(alloc: Global, exchanges: &mut List<Exchange>)
    ensures { exchanges.new ≡ take (length exchanges.old - 1) exchanges.old }
{
    let mut items = mem::replace(exchanges, List::new(alloc)).into_vec();
    let _ = items.pop();
    *exchanges = List::of(items);
}

/// The count of losses behind a poll. It stays at its last value.
fn losses_behind(losses: u64, outcome: &Option<Outcome>) -> u64
    ensures { result ≡ losses_after losses outcome.now }
{
    match outcome {
        Some(
            Outcome {
                what: Answered::Lost(_),
                ..
            },
        ) => losses.saturating_add(1),
        Some(
            Outcome {
                what: Answered::Answer(_),
                ..
            },
        )
        | None => losses,
    }
}
