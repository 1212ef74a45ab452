//! The flaws of the elements of a result.
ghost use Rattle.std.specs.Prelude.{◌≡◌, ◌+◌, ◌<◌, ◌^◌, Option, length};
ghost use Rattle.request_reply.specs.declared.flaw.FlawKind.{FlawKind as Kind};
ghost use Rattle.request_reply.specs.Flaws.{Setting, first_in, mutation_flaw, message_flaw, delayed_flaw, egress_flaw, target_flaw, value_flaw, set_flaw, result_flaw};

use crate::{
    DelayedInvocation, EgressMessage, Flaw, FlawKind, InvocationResponse, Known,
    OutgoingInvocation, PersistedValueMutation,
};
use proto_wire::Text;
use typed_values::{Address, TypedValue};

/// The most bytes of a cell's value.
const MOST_BYTES: usize = 1_048_576;

/// An element of a list of a result.
trait Element {
    /// What is wrong with it.
    ghost flaw_in: { Setting → Self → Option Kind };

    /// What is wrong with it, if anything is.
    fn flaw<K: Known>(&self, known: &K) -> Option<FlawKind>
        ensures { result ≡ flaw_in (K.setting known.now) self.now };
}

impl Element for PersistedValueMutation {
    ghost flaw_in = { mutation_flaw };

    fn flaw<K: Known>(&self, known: &K) -> Option<FlawKind> {
        if self.mutation_type < 0 || self.mutation_type > 1 {
            return Some(FlawKind::BadMutation);
        }
        let Some(typename) = known.type_of(&self.state_name) else {
            return Some(FlawKind::UnknownName);
        };
        if self.mutation_type == 0 {
            return None;
        }
        set_flaw(typename, &self.state_value)
    }
}

/// What is wrong with a value that is to be set, if one is there.
fn set_flaw(typename: &Text, value: &Option<TypedValue>) -> Option<FlawKind>
    ensures { result ≡ set_flaw typename.now value.now }
{
    match value {
        Some(value) => {
            if !value.has_value {
                None
            } else if value.typename != *typename {
                Some(FlawKind::TypeDiffers)
            } else if value.value.len() > MOST_BYTES {
                Some(FlawKind::TooLarge)
            } else {
                None
            }
        }
        None => None,
    }
}

/// What is wrong with a message to a target.
fn target_flaw<K: Known>(target: &Option<Address>, known: &K) -> Option<FlawKind>
    ensures { result ≡ target_flaw (K.setting known.now).endpoints target.now }
{
    match target {
        Some(target) => {
            if known.has_endpoint(&target.kind) {
                None
            } else {
                Some(FlawKind::NoEndpoint)
            }
        }
        None => Some(FlawKind::NoEndpoint),
    }
}

impl Element for OutgoingInvocation {
    ghost flaw_in = { message_flaw };

    fn flaw<K: Known>(&self, known: &K) -> Option<FlawKind> {
        target_flaw(&self.target, known)
    }
}

impl Element for DelayedInvocation {
    ghost flaw_in = { delayed_flaw };

    fn flaw<K: Known>(&self, known: &K) -> Option<FlawKind> {
        if self.is_cancellation_request {
            if self.cancellation_token.is_empty() {
                Some(FlawKind::EmptyToken)
            } else {
                None
            }
        } else if self.delay_in_ms < 0 {
            Some(FlawKind::NegativeDelay)
        } else {
            target_flaw(&self.target, known)
        }
    }
}

impl Element for EgressMessage {
    ghost flaw_in = { egress_flaw };

    fn flaw<K: Known>(&self, known: &K) -> Option<FlawKind> {
        if known.has_egress(&self.egress_namespace, &self.egress_type) {
            None
        } else {
            Some(FlawKind::UnknownEgress)
        }
    }
}

/// The first flaw of elements, with its place.
fn first_in<E: Element, K: Known>(elements: &[E], known: &K) -> Option<Flaw>
    requires { length elements.now < 2 ^ 32 }
    ensures { result ≡ first_in (E.flaw_in (K.setting known.now)) 0 elements.now }
{
    for (place, element) in elements.iter().enumerate() {
        if let Some(kind) = element.flaw(known) {
            return Some(Flaw {
                kind,
                index: place as u32,
                wire: None,
            });
        }
    }
    None
}

/// The first flaw of a result.
#[tactic(auto, unfolding(crate::specs::Flaws::result_flaw))]
pub(crate) fn result_flaw<K: Known>(response: &InvocationResponse, known: &K) -> Option<Flaw>
    requires mutations { length response.now.state_mutations < 2 ^ 32 }
    requires messages { length response.now.outgoing_messages < 2 ^ 32 }
    requires delayed { length response.now.delayed_invocations < 2 ^ 32 }
    requires egresses { length response.now.outgoing_egresses < 2 ^ 32 }
    ensures { result ≡ result_flaw (K.setting known.now) response.now }
{
    if let Some(flaw) = first_in(response.state_mutations.as_slice(), known) {
        return Some(flaw);
    }
    if let Some(flaw) = first_in(response.outgoing_messages.as_slice(), known) {
        return Some(flaw);
    }
    if let Some(flaw) = first_in(response.delayed_invocations.as_slice(), known) {
        return Some(flaw);
    }
    first_in(response.outgoing_egresses.as_slice(), known)
}
