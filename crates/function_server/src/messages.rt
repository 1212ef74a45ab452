//! Parts of requests and answers, as the demonstration functions need them.
ghost use Rattle.std.specs.Prelude.{◌≡◌, IfOk, option_copied};
ghost use Rattle.function_server.specs.Demonstration.{name_of, address_of, one_cell, shipped, set_to, message_to, egress_to};

use proto_wire::{List, Mem, Text};
use request_reply::{EgressMessage, OutgoingInvocation, PersistedValue, PersistedValueMutation};
use std::alloc::Global;
use typed_values::{Address, CellSpec, Expiry, TypeName, TypedValue};

/// The namespace of the demonstration functions.
const NAMESPACE: &str = "com.example";

/// The name of a demonstration function.
pub(crate) fn name_of(alloc: Global, name: &str) -> Mem<TypeName>
    ensures { IfOk result (λ made. made ≡ name_of name.now) }
{
    Ok(TypeName {
        namespace: Text::copy_of(alloc, NAMESPACE)?,
        name: Text::copy_of(alloc, name)?,
    })
}

/// An address of a demonstration function.
pub(crate) fn address_of(alloc: Global, name: &str, id: &str) -> Mem<Address>
    ensures { IfOk result (λ made. made ≡ address_of name.now id.now) }
{
    Ok(Address {
        kind: name_of(alloc, name)?,
        id: Text::copy_of(alloc, id)?,
    })
}

/// One cell of a name and a type that never expires.
pub(crate) fn one_cell(alloc: Global, name: &str, typename: &str) -> Mem<List<CellSpec>>
    ensures { IfOk result (λ cells. cells ≡ one_cell name.now typename.now) }
{
    let mut cells = List::new(alloc);
    cells.push(CellSpec {
        name: Text::copy_of(alloc, name)?,
        typename: Text::copy_of(alloc, typename)?,
        mode: Expiry::Never,
        millis: 0,
    })?;
    Ok(cells)
}

/// The value that a request ships of a cell.
pub(crate) fn shipped<'a>(state: &'a [PersistedValue], name: &str) -> Option<&'a TypedValue>
    ensures { option_copied result ≡ shipped state.now name.now }
{
    for cell in state {
        if cell.state_name.as_str() == name {
            return cell.state_value.as_ref();
        }
    }
    None
}

/// A cell is set to a value.
pub(crate) fn set_to(alloc: Global, name: &str, value: TypedValue) -> Mem<PersistedValueMutation>
    ensures { IfOk result (λ made. made ≡ set_to name.now value) }
{
    Ok(PersistedValueMutation {
        mutation_type: 1,
        state_name: Text::copy_of(alloc, name)?,
        state_value: Some(value),
    })
}

/// A message with an argument.
pub(crate) fn message_to(target: Address, argument: TypedValue) -> OutgoingInvocation
    ensures { result ≡ message_to target argument }
{
    OutgoingInvocation {
        target: Some(target),
        argument: Some(argument),
    }
}

/// A record for an egress of the demonstration.
pub(crate) fn egress_to(alloc: Global, name: &str, argument: TypedValue) -> Mem<EgressMessage>
    ensures { IfOk result (λ made. made ≡ egress_to name.now argument) }
{
    Ok(EgressMessage {
        egress_namespace: Text::copy_of(alloc, NAMESPACE)?,
        egress_type: Text::copy_of(alloc, name)?,
        argument: Some(argument),
    })
}
