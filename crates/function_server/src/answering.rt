//! Answers to requests.
ghost use Rattle.std.specs.Prelude.{◌≡◌, ◌-◌, ◌^◌, pos, min, IfOk};
ghost use Rattle.function_server.specs.Answering.{answer_to, bytes_for, Gives, is_named, missing_of, missing_value, expiration_of};

use crate::table::Services;
use crate::{FunctionTable, ServeFault};
use proto_wire::{Bytes, List, Mem, TryClone};
use request_reply::{
    ExpirationSpec, FromFunction, InvocationBatchRequest, PersistedValue, PersistedValueSpec,
    ToFunction, decode_to, encode_from,
};
use std::alloc::Global;
use typed_values::{CellSpec, Expiry};

/// The answer of a table to the bytes of a request, in canonical spelling: which declared cells the request does not name, in
/// the order of their declaration, where there are any; else what the function answers. `Wire` exactly where the bytes spell no
/// request, and `NotServed` exactly where the target is absent or no function of its type is in the table.
#[tactic(auto, unfolding(crate::specs::Answering::bytes_for))]
pub fn answer_request(
    alloc: Global,
    table: &FunctionTable,
    body: &[u8],
) -> Result<Bytes, ServeFault>
    ensures { Gives result (bytes_for (⟦<FunctionTable as Services>⟧.services table.now) body.now) }
{
    let ToFunction::Invocation(batch) = decode_to(alloc, body)?;
    let answer = answer_batch(alloc, table, &batch)?;
    let bytes = encode_from(alloc, &answer)?;
    Ok(bytes)
}

/// The answer to a batch.
fn answer_batch(
    alloc: Global,
    table: &FunctionTable,
    batch: &InvocationBatchRequest,
) -> Result<FromFunction, ServeFault>
    ensures { Gives result (answer_to (⟦<FunctionTable as Services>⟧.services table.now) batch.now) }
{
    match &batch.target {
        Some(target) => table.answer(alloc, &target.kind, batch),
        None => Err(ServeFault::NotServed),
    }
}

/// The declared cells that a state does not name, in their order.
pub(crate) fn missing_of(
    alloc: Global,
    declares: &[CellSpec],
    state: &[PersistedValue],
) -> Mem<List<PersistedValueSpec>>
    ensures { IfOk result (λ missing. missing ≡ missing_of declares.now state.now) }
{
    let mut missing = List::new(alloc);
    for cell in declares {
        if !is_named(state, cell) {
            missing.push(missing_value(alloc, cell)?)?;
        }
    }
    Ok(missing)
}

/// Whether a state names a declared cell.
fn is_named(state: &[PersistedValue], cell: &CellSpec) -> bool
    ensures { result ≡ is_named state.now cell.now }
{
    for value in state {
        if value.state_name == cell.name {
            return true;
        }
    }
    false
}

/// A declared cell as a missing value.
fn missing_value(alloc: Global, cell: &CellSpec) -> Mem<PersistedValueSpec>
    ensures { IfOk result (λ value. value ≡ missing_value cell.now) }
{
    Ok(PersistedValueSpec {
        state_name: cell.name.try_clone(alloc)?,
        expiration_spec: expiration_of(cell.mode, cell.millis),
        type_typename: cell.typename.try_clone(alloc)?,
    })
}

/// When a declared cell expires: nothing where it never does, and at most 2^63 - 1 milliseconds.
fn expiration_of(mode: Expiry, millis: u64) -> Option<ExpirationSpec>
    ensures { result ≡ expiration_of mode millis }
{
    match mode {
        Expiry::Never => None,
        Expiry::AfterWrite => Some(ExpirationSpec {
            mode: 1,
            expire_after_millis: at_most_long(millis),
        }),
        Expiry::AfterInvoke => Some(ExpirationSpec {
            mode: 2,
            expire_after_millis: at_most_long(millis),
        }),
    }
}

/// The number, or the greatest of its type.
fn at_most_long(number: u64) -> i64
    ensures { result ≡ pos (min number (2 ^ 63 - 1)) }
{
    number.min(0x7fff_ffff_ffff_ffff) as i64
}
