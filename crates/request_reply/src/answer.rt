//! What a function answers.
use proto_wire::{List, Text};
use typed_values::{Address, TypedValue};

/// An answer of a function.
#[derive(Drop)]
pub enum FromFunction {
    /// Field 100: the batch was served.
    Result(InvocationResponse),
    /// Field 101: values are missing that the function declares.
    Incomplete(IncompleteInvocationContext),
}

/// What a served batch does.
#[derive(Drop)]
pub struct InvocationResponse {
    /// Field 1.
    pub state_mutations: List<PersistedValueMutation>,
    /// Field 2.
    pub outgoing_messages: List<OutgoingInvocation>,
    /// Field 3.
    pub delayed_invocations: List<DelayedInvocation>,
    /// Field 4.
    pub outgoing_egresses: List<EgressMessage>,
}

/// A change of one cell: `mutation_type` 0 deletes, 1 sets.
#[derive(Drop)]
pub struct PersistedValueMutation {
    /// Field 1, an enum.
    pub mutation_type: i32,
    /// Field 2.
    pub state_name: Text,
    /// Field 3.
    pub state_value: Option<TypedValue>,
}

/// A message to another function.
#[derive(Drop)]
pub struct OutgoingInvocation {
    /// Field 1.
    pub target: Option<Address>,
    /// Field 2.
    pub argument: Option<TypedValue>,
}

/// A message to be sent later, or the cancellation of one.
#[derive(Drop)]
pub struct DelayedInvocation {
    /// Field 1, in milliseconds.
    pub delay_in_ms: i64,
    /// Field 2.
    pub target: Option<Address>,
    /// Field 3.
    pub argument: Option<TypedValue>,
    /// Field 10.
    pub is_cancellation_request: bool,
    /// Field 11; empty is none.
    pub cancellation_token: Text,
}

/// A record for an egress.
#[derive(Drop)]
pub struct EgressMessage {
    /// Field 1.
    pub egress_namespace: Text,
    /// Field 2.
    pub egress_type: Text,
    /// Field 3.
    pub argument: Option<TypedValue>,
}

/// The declared values that the request lacked.
#[derive(Drop)]
pub struct IncompleteInvocationContext {
    /// Field 1.
    pub missing_values: List<PersistedValueSpec>,
}

/// A declared value.
#[derive(Drop)]
pub struct PersistedValueSpec {
    /// Field 1.
    pub state_name: Text,
    /// Field 2.
    pub expiration_spec: Option<ExpirationSpec>,
    /// Field 3.
    pub type_typename: Text,
}

/// When a value expires: `mode` 0 never, 1 after its last write, 2 after its last write or invocation.
#[derive(Clone, Copy, Debug, PartialEq, Eq)]
pub struct ExpirationSpec {
    /// Field 1, an enum.
    pub mode: i32,
    /// Field 2, in milliseconds.
    pub expire_after_millis: i64,
}
