//! Copies of messages.
use crate::{
    Batch, BatchInvocation, DelayedInvocation, EgressMessage, ExpirationSpec, FromFunction,
    IncompleteInvocationContext, InvocationBatchRequest, InvocationResponse, OutgoingInvocation,
    PersistedValue, PersistedValueMutation, PersistedValueSpec, Reason, Stop, ToFunction,
};
use proto_wire::{Mem, TryClone};
use std::alloc::Global;

impl TryClone for ToFunction {
    fn try_clone(&self, alloc: Global) -> Mem<ToFunction> {
        let ToFunction::Invocation(batch) = self;
        Ok(ToFunction::Invocation(batch.try_clone(alloc)?))
    }
}

impl TryClone for FromFunction {
    fn try_clone(&self, alloc: Global) -> Mem<FromFunction> {
        match self {
            FromFunction::Result(response) => Ok(FromFunction::Result(response.try_clone(alloc)?)),
            FromFunction::Incomplete(context) => {
                Ok(FromFunction::Incomplete(context.try_clone(alloc)?))
            }
        }
    }
}

impl TryClone for ExpirationSpec {
    fn try_clone(&self, _alloc: Global) -> Mem<ExpirationSpec> {
        Ok(*self)
    }
}

impl TryClone for Reason {
    fn try_clone(&self, alloc: Global) -> Mem<Reason> {
        match self {
            Reason::Lost(note) => Ok(Reason::Lost(*note)),
            Reason::Late => Ok(Reason::Late),
            Reason::Refused { answer, flaw } => Ok(Reason::Refused {
                answer: answer.try_clone(alloc)?,
                flaw: *flaw,
            }),
        }
    }
}

impl TryClone for Stop {
    fn try_clone(&self, alloc: Global) -> Mem<Stop> {
        match self {
            Stop::EndpointFailed { address, reasons } => Ok(Stop::EndpointFailed {
                address: address.try_clone(alloc)?,
                reasons: reasons.try_clone(alloc)?,
            }),
            Stop::BatchTooLarge {
                address,
                size,
                limit,
            } => Ok(Stop::BatchTooLarge {
                address: address.try_clone(alloc)?,
                size: *size,
                limit: *limit,
            }),
        }
    }
}

impl TryClone for InvocationResponse {
    fn try_clone(&self, alloc: Global) -> Mem<InvocationResponse> {
        Ok(InvocationResponse {
            state_mutations: self.state_mutations.try_clone(alloc)?,
            outgoing_messages: self.outgoing_messages.try_clone(alloc)?,
            delayed_invocations: self.delayed_invocations.try_clone(alloc)?,
            outgoing_egresses: self.outgoing_egresses.try_clone(alloc)?,
        })
    }
}

impl TryClone for PersistedValueMutation {
    fn try_clone(&self, alloc: Global) -> Mem<PersistedValueMutation> {
        Ok(PersistedValueMutation {
            mutation_type: self.mutation_type,
            state_name: self.state_name.try_clone(alloc)?,
            state_value: self.state_value.try_clone(alloc)?,
        })
    }
}

impl TryClone for OutgoingInvocation {
    fn try_clone(&self, alloc: Global) -> Mem<OutgoingInvocation> {
        Ok(OutgoingInvocation {
            target: self.target.try_clone(alloc)?,
            argument: self.argument.try_clone(alloc)?,
        })
    }
}

impl TryClone for DelayedInvocation {
    fn try_clone(&self, alloc: Global) -> Mem<DelayedInvocation> {
        Ok(DelayedInvocation {
            delay_in_ms: self.delay_in_ms,
            target: self.target.try_clone(alloc)?,
            argument: self.argument.try_clone(alloc)?,
            is_cancellation_request: self.is_cancellation_request,
            cancellation_token: self.cancellation_token.try_clone(alloc)?,
        })
    }
}

impl TryClone for EgressMessage {
    fn try_clone(&self, alloc: Global) -> Mem<EgressMessage> {
        Ok(EgressMessage {
            egress_namespace: self.egress_namespace.try_clone(alloc)?,
            egress_type: self.egress_type.try_clone(alloc)?,
            argument: self.argument.try_clone(alloc)?,
        })
    }
}

impl TryClone for IncompleteInvocationContext {
    fn try_clone(&self, alloc: Global) -> Mem<IncompleteInvocationContext> {
        Ok(IncompleteInvocationContext {
            missing_values: self.missing_values.try_clone(alloc)?,
        })
    }
}

impl TryClone for PersistedValueSpec {
    fn try_clone(&self, alloc: Global) -> Mem<PersistedValueSpec> {
        Ok(PersistedValueSpec {
            state_name: self.state_name.try_clone(alloc)?,
            expiration_spec: self.expiration_spec.try_clone(alloc)?,
            type_typename: self.type_typename.try_clone(alloc)?,
        })
    }
}

impl TryClone for InvocationBatchRequest {
    fn try_clone(&self, alloc: Global) -> Mem<InvocationBatchRequest> {
        Ok(InvocationBatchRequest {
            target: self.target.try_clone(alloc)?,
            state: self.state.try_clone(alloc)?,
            invocations: self.invocations.try_clone(alloc)?,
        })
    }
}

impl TryClone for PersistedValue {
    fn try_clone(&self, alloc: Global) -> Mem<PersistedValue> {
        Ok(PersistedValue {
            state_name: self.state_name.try_clone(alloc)?,
            state_value: self.state_value.try_clone(alloc)?,
        })
    }
}

impl TryClone for BatchInvocation {
    fn try_clone(&self, alloc: Global) -> Mem<BatchInvocation> {
        Ok(BatchInvocation {
            caller: self.caller.try_clone(alloc)?,
            argument: self.argument.try_clone(alloc)?,
        })
    }
}

impl TryClone for Batch {
    fn try_clone(&self, alloc: Global) -> Mem<Batch> {
        Ok(Batch {
            address: self.address.try_clone(alloc)?,
            letters: self.letters.try_clone(alloc)?,
        })
    }
}
