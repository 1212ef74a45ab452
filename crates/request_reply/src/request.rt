//! What a function is asked.
use proto_wire::{List, Text};
use typed_values::{Address, TypedValue};

/// A request to a function.
#[derive(Drop)]
pub enum ToFunction {
    /// Field 100.
    Invocation(InvocationBatchRequest),
}

/// A batch of letters for one address, with the address' state.
#[derive(Drop)]
pub struct InvocationBatchRequest {
    /// Field 1.
    pub target: Option<Address>,
    /// Field 2.
    pub state: List<PersistedValue>,
    /// Field 3.
    pub invocations: List<BatchInvocation>,
}

/// One cell of the state. No value where it has none, or an expired one.
#[derive(Drop)]
pub struct PersistedValue {
    /// Field 1.
    pub state_name: Text,
    /// Field 2.
    pub state_value: Option<TypedValue>,
}

/// One letter. A caller stands only for a function's letter.
#[derive(Drop)]
pub struct BatchInvocation {
    /// Field 1.
    pub caller: Option<Address>,
    /// Field 2.
    pub argument: Option<TypedValue>,
}
