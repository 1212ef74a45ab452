//! Which answers are valid.
ghost use Rattle.std.specs.Prelude.{◌≡◌, ◌<◌, ◌≤◌, ◌^◌, length, IfOk, Ok};
ghost use Rattle.request_reply.specs.Spelling.{from_value};
ghost use Rattle.request_reply.specs.Flaws.{wire_flaw};
ghost use Rattle.request_reply.specs.Valid.{read_verdict, verdict};

use crate::elements::result_flaw;
use crate::missing::declared_by;
use crate::{Flaw, FlawKind, FromFunction, InvocationResponse, Known, decode_from};
use proto_wire::{DecodeFault, List, Mem, OutOfMemory, WireFault, WireKind};
use std::alloc::Global;
use typed_values::CellSpec;

/// The most bytes of an answer.
pub const ANSWER_LIMIT: usize = 4_194_304;

/// What an answer is.
#[derive(Drop)]
pub enum Judgement {
    /// A valid result.
    Accept(InvocationResponse),
    /// A valid list of missing values: the cells that are new, in its order.
    Register(List<CellSpec>),
    /// Not valid, for this first flaw.
    Flaw(Flaw),
}

/// Judges an answer: what it asks for where it is valid, else its first flaw.
///
/// Bytes come first: the flaw is Wire, with the fault, where the answer is longer than 4,194,304 bytes (OverLimit there) or
/// spells none. Then the lists count in the order of their field numbers, each from place 0 on, and NoNewName last. A list of
/// missing values asks for the cells of those names that are new: a name that stands there again is skipped, and its first
/// expiry counts. Takes memory only for what the answer holds.
#[tactic(auto, unfolding(crate::specs::Valid::verdict, crate::specs::Valid::read_verdict))]
pub fn judge<K: Known>(alloc: Global, answer: &[u8], known: &K) -> Mem<Judgement>
    ensures { IfOk result (λ judgement. judgement ≡ verdict (K.setting known.now) answer.now) }
{
    if answer.len() > ANSWER_LIMIT {
        return Ok(flaw_of_wire(WireFault {
            kind: WireKind::OverLimit,
            at: ANSWER_LIMIT,
        }));
    }
    match decode_from(alloc, answer) {
        Ok(read) => judged_read(alloc, answer, read, known),
        Err(DecodeFault::Wire(fault)) => Ok(flaw_of_wire(fault)),
        Err(DecodeFault::OutOfMemory) => Err(OutOfMemory),
    }
}

fn flaw_of_wire(fault: WireFault) -> Judgement
    ensures { result ≡ Judgement.Flaw (wire_flaw fault) }
{
    Judgement::Flaw(Flaw {
        kind: FlawKind::Wire,
        index: 0,
        wire: Some(fault),
    })
}

/// What the answer is that bytes spell.
#[tactic(auto, unfolding(crate::specs::Valid::read_verdict))]
fn judged_read<K: Known>(
    alloc: Global,
    answer: &[u8],
    read: FromFunction,
    known: &K,
) -> Mem<Judgement>
    requires short { length answer.now ≤ 4194304 }
    requires spelled { from_value answer.now ≡ Ok read }
    ensures { IfOk result (λ judgement. judgement ≡ read_verdict (K.setting known.now) (Ok read)) }
{
    let _length = answer.len();
    match read {
        FromFunction::Result(response) => match result_flaw(&response, known) {
            Some(flaw) => Ok(Judgement::Flaw(flaw)),
            None => Ok(Judgement::Accept(response)),
        },
        FromFunction::Incomplete(context) => match declared_by(
            alloc,
            context.missing_values,
            known,
        )? {
            Ok(specs) => Ok(Judgement::Register(specs)),
            Err(flaw) => Ok(Judgement::Flaw(flaw)),
        },
    }
}
