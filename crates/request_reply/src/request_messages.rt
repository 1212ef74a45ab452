//! A request's messages, read and written by their tables.
ghost use Rattle.std.specs.Prelude.{◌≡◌, ◌++◌, length, IfOk};
ghost use Rattle.proto_wire.specs.Message.{spelling, fit};
ghost use Rattle.request_reply.specs.RequestTables.{empty_persisted_value, persisted_value_rows, empty_batch_invocation, batch_invocation_rows, empty_batch, batch_rows};

use crate::{BatchInvocation, InvocationBatchRequest, PersistedValue};
use proto_wire::{
    Bytes, Decode, DecodeFault, Encode, List, Mem, Record, Text, bytes_size, message_size,
    messages_size, with_message, with_messages, with_text,
};
use std::alloc::Global;

impl Decode for PersistedValue {
    ghost rows = { persisted_value_rows };

    ghost empty = { empty_persisted_value };

    #[tactic(auto, unfolding(crate::specs::RequestTables::empty_persisted_value))]
    fn blank(alloc: Global) -> PersistedValue {
        PersistedValue {
            state_name: Text::new(alloc),
            state_value: None,
        }
    }

    #[tactic(auto, unfolding(crate::specs::RequestTables::persisted_value_rows))]
    fn accept(&mut self, alloc: Global, item: &Record<'_>) -> Result<(), DecodeFault> {
        if item.is(1, 2) {
            self.state_name = item.text(alloc)?;
        } else if item.is(2, 2) {
            item.enter(alloc, &mut self.state_value)?;
        }
        Ok(())
    }
}

impl Encode for PersistedValue {
    ghost spells = { spelling persisted_value_rows };

    ghost fits = { fit persisted_value_rows };

    #[tactic(auto, unfolding(crate::specs::RequestTables::persisted_value_rows))]
    fn size(&self) -> u64 {
        bytes_size(1, self.state_name.as_bytes()).saturating_add(message_size(2, &self.state_value))
    }

    #[tactic(auto, using(crate::proofs::Puts::put_steps), unfolding(crate::specs::RequestTables::persisted_value_rows))]
    fn put(&self, into: Bytes) -> Mem<Bytes> {
        let into = with_text(into, 1, &self.state_name)?;
        with_message(into, 2, &self.state_value)
    }
}

impl Decode for BatchInvocation {
    ghost rows = { batch_invocation_rows };

    ghost empty = { empty_batch_invocation };

    #[tactic(auto, unfolding(crate::specs::RequestTables::empty_batch_invocation))]
    fn blank(_alloc: Global) -> BatchInvocation {
        BatchInvocation {
            caller: None,
            argument: None,
        }
    }

    #[tactic(auto, unfolding(crate::specs::RequestTables::batch_invocation_rows))]
    fn accept(&mut self, alloc: Global, item: &Record<'_>) -> Result<(), DecodeFault> {
        if item.is(1, 2) {
            item.enter(alloc, &mut self.caller)?;
        } else if item.is(2, 2) {
            item.enter(alloc, &mut self.argument)?;
        }
        Ok(())
    }
}

impl Encode for BatchInvocation {
    ghost spells = { spelling batch_invocation_rows };

    ghost fits = { fit batch_invocation_rows };

    #[tactic(auto, unfolding(crate::specs::RequestTables::batch_invocation_rows))]
    fn size(&self) -> u64 {
        message_size(1, &self.caller).saturating_add(message_size(2, &self.argument))
    }

    #[tactic(auto, using(crate::proofs::Puts::put_steps), unfolding(crate::specs::RequestTables::batch_invocation_rows))]
    fn put(&self, into: Bytes) -> Mem<Bytes> {
        let into = with_message(into, 1, &self.caller)?;
        with_message(into, 2, &self.argument)
    }
}

impl Decode for InvocationBatchRequest {
    ghost rows = { batch_rows };

    ghost empty = { empty_batch };

    #[tactic(auto, unfolding(crate::specs::RequestTables::empty_batch))]
    fn blank(alloc: Global) -> InvocationBatchRequest {
        InvocationBatchRequest {
            target: None,
            state: List::new(alloc),
            invocations: List::new(alloc),
        }
    }

    #[tactic(auto, unfolding(crate::specs::RequestTables::batch_rows))]
    fn accept(&mut self, alloc: Global, item: &Record<'_>) -> Result<(), DecodeFault> {
        if item.is(1, 2) {
            item.enter(alloc, &mut self.target)?;
        } else if item.is(2, 2) {
            item.append_to(alloc, &mut self.state)?;
        } else if item.is(3, 2) {
            item.append_to(alloc, &mut self.invocations)?;
        }
        Ok(())
    }
}

impl Encode for InvocationBatchRequest {
    ghost spells = { spelling batch_rows };

    ghost fits = { fit batch_rows };

    #[tactic(auto, unfolding(crate::specs::RequestTables::batch_rows))]
    fn size(&self) -> u64 {
        message_size(1, &self.target)
            .saturating_add(messages_size(2, self.state.as_slice()))
            .saturating_add(messages_size(3, self.invocations.as_slice()))
    }

    #[tactic(auto, using(crate::proofs::Puts::put_steps), unfolding(crate::specs::RequestTables::batch_rows))]
    fn put(&self, into: Bytes) -> Mem<Bytes> {
        let into = with_message(into, 1, &self.target)?;
        let into = with_messages(into, 2, self.state.as_slice())?;
        with_messages(into, 3, self.invocations.as_slice())
    }
}
