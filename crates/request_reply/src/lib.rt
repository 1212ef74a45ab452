//! The messages between the runtime and its functions, and which answers are valid.
#![tactic(auto)]

mod answer;
mod answer_messages;
mod batch;
mod copies;
mod elements;
mod feeder;
mod field_laws;
mod flaw;
mod judging;
mod known;
mod missing;
mod request;
mod request_messages;
mod whole;

pub use answer::{
    DelayedInvocation, EgressMessage, ExpirationSpec, FromFunction, IncompleteInvocationContext,
    InvocationResponse, OutgoingInvocation, PersistedValueMutation, PersistedValueSpec,
};
pub use batch::{Batch, Stop};
pub use feeder::{Feeder, decode_pieces_from, decode_pieces_to};
pub use field_laws::members_of_an_answer;
pub use flaw::{Flaw, FlawKind, Reason};
pub use judging::{ANSWER_LIMIT, Judgement, judge};
pub use known::Known;
pub use proto_wire::DecodeFault;
pub use request::{BatchInvocation, InvocationBatchRequest, PersistedValue, ToFunction};
pub use whole::{
    decode_from, decode_to, encode_from, encode_to, size_from, size_letter, size_letter_from,
    size_to,
};
