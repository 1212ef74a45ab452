//! An answer's messages, read and written by their tables.
ghost use Rattle.std.specs.Prelude.{◌≡◌, ◌++◌, length, IfOk};
ghost use Rattle.proto_wire.specs.Message.{spelling, fit};
ghost use Rattle.request_reply.specs.AnswerTables.{empty_mutation, mutation_rows, empty_outgoing, outgoing_rows, empty_delayed, delayed_rows, empty_egress_message, egress_message_rows, empty_response, response_rows, empty_expiration, expiration_rows, empty_value_spec, value_spec_rows, empty_context, context_rows};

use crate::{
    DelayedInvocation, EgressMessage, ExpirationSpec, IncompleteInvocationContext,
    InvocationResponse, OutgoingInvocation, PersistedValueMutation, PersistedValueSpec,
};
use proto_wire::{
    Bytes, Decode, DecodeFault, Encode, List, Mem, Record, Text, bool_size, bytes_size,
    message_size, messages_size, signed_size, with_bool, with_enum, with_long, with_message,
    with_messages, with_text,
};
use std::alloc::Global;

impl Decode for PersistedValueMutation {
    ghost rows = { mutation_rows };

    ghost empty = { empty_mutation };

    #[tactic(auto, unfolding(crate::specs::AnswerTables::empty_mutation))]
    fn blank(alloc: Global) -> PersistedValueMutation {
        PersistedValueMutation {
            mutation_type: 0,
            state_name: Text::new(alloc),
            state_value: None,
        }
    }

    #[tactic(auto, unfolding(crate::specs::AnswerTables::mutation_rows))]
    fn accept(&mut self, alloc: Global, item: &Record<'_>) -> Result<(), DecodeFault> {
        if item.is(1, 0) {
            self.mutation_type = item.int();
        } else if item.is(2, 2) {
            self.state_name = item.text(alloc)?;
        } else if item.is(3, 2) {
            item.enter(alloc, &mut self.state_value)?;
        }
        Ok(())
    }
}

impl Encode for PersistedValueMutation {
    ghost spells = { spelling mutation_rows };

    ghost fits = { fit mutation_rows };

    #[tactic(auto, unfolding(crate::specs::AnswerTables::mutation_rows))]
    fn size(&self) -> u64 {
        signed_size(1, i64::from(self.mutation_type))
            .saturating_add(bytes_size(2, self.state_name.as_bytes()))
            .saturating_add(message_size(3, &self.state_value))
    }

    #[tactic(auto, using(crate::proofs::Puts::put_steps), unfolding(crate::specs::AnswerTables::mutation_rows))]
    fn put(&self, into: Bytes) -> Mem<Bytes> {
        let into = with_enum(into, 1, self.mutation_type)?;
        let into = with_text(into, 2, &self.state_name)?;
        with_message(into, 3, &self.state_value)
    }
}

impl Decode for OutgoingInvocation {
    ghost rows = { outgoing_rows };

    ghost empty = { empty_outgoing };

    #[tactic(auto, unfolding(crate::specs::AnswerTables::empty_outgoing))]
    fn blank(_alloc: Global) -> OutgoingInvocation {
        OutgoingInvocation {
            target: None,
            argument: None,
        }
    }

    #[tactic(auto, unfolding(crate::specs::AnswerTables::outgoing_rows))]
    fn accept(&mut self, alloc: Global, item: &Record<'_>) -> Result<(), DecodeFault> {
        if item.is(1, 2) {
            item.enter(alloc, &mut self.target)?;
        } else if item.is(2, 2) {
            item.enter(alloc, &mut self.argument)?;
        }
        Ok(())
    }
}

impl Encode for OutgoingInvocation {
    ghost spells = { spelling outgoing_rows };

    ghost fits = { fit outgoing_rows };

    #[tactic(auto, unfolding(crate::specs::AnswerTables::outgoing_rows))]
    fn size(&self) -> u64 {
        message_size(1, &self.target).saturating_add(message_size(2, &self.argument))
    }

    #[tactic(auto, using(crate::proofs::Puts::put_steps), unfolding(crate::specs::AnswerTables::outgoing_rows))]
    fn put(&self, into: Bytes) -> Mem<Bytes> {
        let into = with_message(into, 1, &self.target)?;
        with_message(into, 2, &self.argument)
    }
}

impl Decode for DelayedInvocation {
    ghost rows = { delayed_rows };

    ghost empty = { empty_delayed };

    #[tactic(auto, unfolding(crate::specs::AnswerTables::empty_delayed))]
    fn blank(alloc: Global) -> DelayedInvocation {
        DelayedInvocation {
            delay_in_ms: 0,
            target: None,
            argument: None,
            is_cancellation_request: false,
            cancellation_token: Text::new(alloc),
        }
    }

    #[tactic(auto, unfolding(crate::specs::AnswerTables::delayed_rows))]
    fn accept(&mut self, alloc: Global, item: &Record<'_>) -> Result<(), DecodeFault> {
        if item.is(1, 0) {
            self.delay_in_ms = item.long();
        } else if item.is(2, 2) {
            item.enter(alloc, &mut self.target)?;
        } else if item.is(3, 2) {
            item.enter(alloc, &mut self.argument)?;
        } else if item.is(10, 0) {
            self.is_cancellation_request = item.bool();
        } else if item.is(11, 2) {
            self.cancellation_token = item.text(alloc)?;
        }
        Ok(())
    }
}

impl Encode for DelayedInvocation {
    ghost spells = { spelling delayed_rows };

    ghost fits = { fit delayed_rows };

    #[tactic(auto, unfolding(crate::specs::AnswerTables::delayed_rows))]
    fn size(&self) -> u64 {
        signed_size(1, self.delay_in_ms)
            .saturating_add(message_size(2, &self.target))
            .saturating_add(message_size(3, &self.argument))
            .saturating_add(bool_size(10, self.is_cancellation_request))
            .saturating_add(bytes_size(11, self.cancellation_token.as_bytes()))
    }

    #[tactic(auto, using(crate::proofs::Puts::put_steps), unfolding(crate::specs::AnswerTables::delayed_rows))]
    fn put(&self, into: Bytes) -> Mem<Bytes> {
        let into = with_long(into, 1, self.delay_in_ms)?;
        let into = with_message(into, 2, &self.target)?;
        let into = with_message(into, 3, &self.argument)?;
        let into = with_bool(into, 10, self.is_cancellation_request)?;
        with_text(into, 11, &self.cancellation_token)
    }
}

impl Decode for EgressMessage {
    ghost rows = { egress_message_rows };

    ghost empty = { empty_egress_message };

    #[tactic(auto, unfolding(crate::specs::AnswerTables::empty_egress_message))]
    fn blank(alloc: Global) -> EgressMessage {
        EgressMessage {
            egress_namespace: Text::new(alloc),
            egress_type: Text::new(alloc),
            argument: None,
        }
    }

    #[tactic(auto, unfolding(crate::specs::AnswerTables::egress_message_rows))]
    fn accept(&mut self, alloc: Global, item: &Record<'_>) -> Result<(), DecodeFault> {
        if item.is(1, 2) {
            self.egress_namespace = item.text(alloc)?;
        } else if item.is(2, 2) {
            self.egress_type = item.text(alloc)?;
        } else if item.is(3, 2) {
            item.enter(alloc, &mut self.argument)?;
        }
        Ok(())
    }
}

impl Encode for EgressMessage {
    ghost spells = { spelling egress_message_rows };

    ghost fits = { fit egress_message_rows };

    #[tactic(auto, unfolding(crate::specs::AnswerTables::egress_message_rows))]
    fn size(&self) -> u64 {
        bytes_size(1, self.egress_namespace.as_bytes())
            .saturating_add(bytes_size(2, self.egress_type.as_bytes()))
            .saturating_add(message_size(3, &self.argument))
    }

    #[tactic(auto, using(crate::proofs::Puts::put_steps), unfolding(crate::specs::AnswerTables::egress_message_rows))]
    fn put(&self, into: Bytes) -> Mem<Bytes> {
        let into = with_text(into, 1, &self.egress_namespace)?;
        let into = with_text(into, 2, &self.egress_type)?;
        with_message(into, 3, &self.argument)
    }
}

impl Decode for InvocationResponse {
    ghost rows = { response_rows };

    ghost empty = { empty_response };

    #[tactic(auto, unfolding(crate::specs::AnswerTables::empty_response))]
    fn blank(alloc: Global) -> InvocationResponse {
        InvocationResponse {
            state_mutations: List::new(alloc),
            outgoing_messages: List::new(alloc),
            delayed_invocations: List::new(alloc),
            outgoing_egresses: List::new(alloc),
        }
    }

    #[tactic(auto, unfolding(crate::specs::AnswerTables::response_rows))]
    fn accept(&mut self, alloc: Global, item: &Record<'_>) -> Result<(), DecodeFault> {
        if item.is(1, 2) {
            item.append_to(alloc, &mut self.state_mutations)?;
        } else if item.is(2, 2) {
            item.append_to(alloc, &mut self.outgoing_messages)?;
        } else if item.is(3, 2) {
            item.append_to(alloc, &mut self.delayed_invocations)?;
        } else if item.is(4, 2) {
            item.append_to(alloc, &mut self.outgoing_egresses)?;
        }
        Ok(())
    }
}

impl Encode for InvocationResponse {
    ghost spells = { spelling response_rows };

    ghost fits = { fit response_rows };

    #[tactic(auto, unfolding(crate::specs::AnswerTables::response_rows))]
    fn size(&self) -> u64 {
        messages_size(1, self.state_mutations.as_slice())
            .saturating_add(messages_size(2, self.outgoing_messages.as_slice()))
            .saturating_add(messages_size(3, self.delayed_invocations.as_slice()))
            .saturating_add(messages_size(4, self.outgoing_egresses.as_slice()))
    }

    #[tactic(auto, using(crate::proofs::Puts::put_steps), unfolding(crate::specs::AnswerTables::response_rows))]
    fn put(&self, into: Bytes) -> Mem<Bytes> {
        let into = with_messages(into, 1, self.state_mutations.as_slice())?;
        let into = with_messages(into, 2, self.outgoing_messages.as_slice())?;
        let into = with_messages(into, 3, self.delayed_invocations.as_slice())?;
        with_messages(into, 4, self.outgoing_egresses.as_slice())
    }
}

impl Decode for ExpirationSpec {
    ghost rows = { expiration_rows };

    ghost empty = { empty_expiration };

    #[tactic(auto, unfolding(crate::specs::AnswerTables::empty_expiration))]
    fn blank(_alloc: Global) -> ExpirationSpec {
        ExpirationSpec {
            mode: 0,
            expire_after_millis: 0,
        }
    }

    #[tactic(auto, unfolding(crate::specs::AnswerTables::expiration_rows))]
    fn accept(&mut self, _alloc: Global, item: &Record<'_>) -> Result<(), DecodeFault> {
        if item.is(1, 0) {
            self.mode = item.int();
        } else if item.is(2, 0) {
            self.expire_after_millis = item.long();
        }
        Ok(())
    }
}

impl Encode for ExpirationSpec {
    ghost spells = { spelling expiration_rows };

    ghost fits = { fit expiration_rows };

    #[tactic(auto, unfolding(crate::specs::AnswerTables::expiration_rows))]
    fn size(&self) -> u64 {
        signed_size(1, i64::from(self.mode)).saturating_add(signed_size(
            2,
            self.expire_after_millis,
        ))
    }

    #[tactic(auto, using(crate::proofs::Puts::put_steps), unfolding(crate::specs::AnswerTables::expiration_rows))]
    fn put(&self, into: Bytes) -> Mem<Bytes> {
        let into = with_enum(into, 1, self.mode)?;
        with_long(into, 2, self.expire_after_millis)
    }
}

impl Decode for PersistedValueSpec {
    ghost rows = { value_spec_rows };

    ghost empty = { empty_value_spec };

    #[tactic(auto, unfolding(crate::specs::AnswerTables::empty_value_spec))]
    fn blank(alloc: Global) -> PersistedValueSpec {
        PersistedValueSpec {
            state_name: Text::new(alloc),
            expiration_spec: None,
            type_typename: Text::new(alloc),
        }
    }

    #[tactic(auto, unfolding(crate::specs::AnswerTables::value_spec_rows))]
    fn accept(&mut self, alloc: Global, item: &Record<'_>) -> Result<(), DecodeFault> {
        if item.is(1, 2) {
            self.state_name = item.text(alloc)?;
        } else if item.is(2, 2) {
            item.enter(alloc, &mut self.expiration_spec)?;
        } else if item.is(3, 2) {
            self.type_typename = item.text(alloc)?;
        }
        Ok(())
    }
}

impl Encode for PersistedValueSpec {
    ghost spells = { spelling value_spec_rows };

    ghost fits = { fit value_spec_rows };

    #[tactic(auto, unfolding(crate::specs::AnswerTables::value_spec_rows))]
    fn size(&self) -> u64 {
        bytes_size(1, self.state_name.as_bytes())
            .saturating_add(message_size(2, &self.expiration_spec))
            .saturating_add(bytes_size(3, self.type_typename.as_bytes()))
    }

    #[tactic(auto, using(crate::proofs::Puts::put_steps), unfolding(crate::specs::AnswerTables::value_spec_rows))]
    fn put(&self, into: Bytes) -> Mem<Bytes> {
        let into = with_text(into, 1, &self.state_name)?;
        let into = with_message(into, 2, &self.expiration_spec)?;
        with_text(into, 3, &self.type_typename)
    }
}

impl Decode for IncompleteInvocationContext {
    ghost rows = { context_rows };

    ghost empty = { empty_context };

    #[tactic(auto, unfolding(crate::specs::AnswerTables::empty_context))]
    fn blank(alloc: Global) -> IncompleteInvocationContext {
        IncompleteInvocationContext {
            missing_values: List::new(alloc),
        }
    }

    #[tactic(auto, unfolding(crate::specs::AnswerTables::context_rows))]
    fn accept(&mut self, alloc: Global, item: &Record<'_>) -> Result<(), DecodeFault> {
        if item.is(1, 2) {
            item.append_to(alloc, &mut self.missing_values)?;
        }
        Ok(())
    }
}

impl Encode for IncompleteInvocationContext {
    ghost spells = { spelling context_rows };

    ghost fits = { fit context_rows };

    #[tactic(auto, unfolding(crate::specs::AnswerTables::context_rows))]
    fn size(&self) -> u64 {
        messages_size(1, self.missing_values.as_slice())
    }

    #[tactic(auto, using(crate::proofs::Puts::put_steps), unfolding(crate::specs::AnswerTables::context_rows))]
    fn put(&self, into: Bytes) -> Mem<Bytes> {
        with_messages(into, 1, self.missing_values.as_slice())
    }
}
