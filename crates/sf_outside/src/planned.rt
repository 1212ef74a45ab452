//! What a turn of a script tells, made before anything is noted.
ghost use Rattle.std.specs.Prelude.{◌≡◌, ◌-◌, ◌++◌, [], ◌∷◌, length, take, option_to_list, option_copied, IfOk, OnOk, OnErr};
ghost use Rattle.sf_outside.specs.declared.call.LinkEvent.TheVariants.{Polled as WasPolled};
ghost use Rattle.sf_outside.specs.Script.{told, about, exchange_with, exchange_of, losses_behind as losses_after};

use crate::journal::Journal;
use crate::{Answered, Exchange, LinkEvent, Outcome, Turn};
use proto_wire::{Bytes, List, Mem, TryClone};
use std::alloc::Global;
use std::mem;

/// What a turn tells, a copy of it for the journal, and the exchange behind it.
#[derive(Drop)]
pub struct Planned {
    pub(crate) outcome: Option<Outcome>,
    pub(crate) copy: Option<Outcome>,
    pub(crate) exchange: Option<Exchange>,
}

/// What a turn tells of the calls that were started.
pub(crate) fn plan_of(alloc: Global, journal: &Journal, turn: Option<&Turn>) -> Mem<Planned>
    ensures outcome { IfOk result (λ plan. plan.outcome ≡ told journal.now (option_copied turn.entry)) }
    ensures copy { IfOk result (λ plan. plan.copy ≡ told journal.now (option_copied turn.entry)) }
    ensures exchange { IfOk result (λ plan. plan.exchange ≡ exchange_of journal.now (option_copied turn.entry)) }
{
    match turn {
        Some(Turn::Reply(number, answer)) => {
            let start = journal.start(*number);
            Ok(Planned {
                outcome: about(start, Answered::Answer(answer.try_clone(alloc)?)),
                copy: about(start, Answered::Answer(answer.try_clone(alloc)?)),
                exchange: exchange_with(alloc, start, answer)?,
            })
        }
        Some(Turn::Lose(number, note)) => {
            let start = journal.start(*number);
            Ok(Planned {
                outcome: about(start, Answered::Lost(*note)),
                copy: about(start, Answered::Lost(*note)),
                exchange: None,
            })
        }
        Some(Turn::Nothing) | None => Ok(Planned {
            outcome: None,
            copy: None,
            exchange: None,
        }),
    }
}

fn about(start: Option<&LinkEvent>, what: Answered) -> Option<Outcome>
    ensures { result ≡ about (option_copied start.entry) what }
{
    match start {
        Some(LinkEvent::Started { call, .. }) => Some(Outcome { call: *call, what }),
        Some(LinkEvent::Polled(_)) | None => None,
    }
}

fn exchange_with(alloc: Global, start: Option<&LinkEvent>, answer: &Bytes) -> Mem<Option<Exchange>>
    ensures { IfOk result (λ exchange. exchange ≡ exchange_with (option_copied start.entry) answer.now) }
{
    match start {
        Some(LinkEvent::Started { call, url, request }) => Ok(Some(Exchange {
            call: *call,
            url: url.try_clone(alloc)?,
            request: request.try_clone(alloc)?,
            answer: answer.try_clone(alloc)?,
        })),
        Some(LinkEvent::Polled(_)) | None => Ok(None),
    }
}

/// Notes the answer of a poll and the exchange behind it. An `Err` changes nothing.
pub(crate) fn add(
    alloc: Global,
    journal: &mut Journal,
    exchanges: &mut List<Exchange>,
    outcome: Option<Outcome>,
    exchange: Option<Exchange>,
) -> Mem<()>
    ensures polled { OnOk result (journal.new ≡ journal.old ++ WasPolled outcome ∷ []) }
    ensures exchanged { OnOk result (exchanges.new ≡ exchanges.old ++ option_to_list exchange) }
    ensures err { OnErr result (journal.new ≡ journal.old) }
    ensures err_exchanges { OnErr result (exchanges.new ≡ exchanges.old) }
{
    let Some(exchange) = exchange else {
        return journal.add_poll(outcome);
    };
    exchanges.push(exchange)?;
    let added = journal.add_poll(outcome);
    if added.is_err() {
        remove_last(alloc, exchanges);
    }
    added
}

fn remove_last(alloc: Global, exchanges: &mut List<Exchange>)
    ensures { exchanges.new ≡ take (length exchanges.old - 1) exchanges.old }
{
    let mut items = mem::replace(exchanges, List::new(alloc)).into_vec();
    let _ = items.pop();
    *exchanges = List::of(items);
}

/// The count of losses behind a poll. It stays at its last value.
pub(crate) fn losses_behind(losses: u64, outcome: &Option<Outcome>) -> u64
    ensures { result ≡ losses_after losses outcome.now }
{
    match outcome {
        Some(
            Outcome {
                what: Answered::Lost(_),
                ..
            },
        ) => losses.saturating_add(1),
        Some(
            Outcome {
                what: Answered::Answer(_),
                ..
            },
        )
        | None => losses,
    }
}
