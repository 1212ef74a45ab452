//! What the fields of each message are, by one record. Each function does nothing, and its contract is the law: a text, a number,
//! a flag or bytes is what a record of it says, a message goes on from the one that stands, and no record of another field changes
//! them. With the laws of the wire format this says what they are of whole bytes ("Last One Wins" and "Oneofs" of the Protocol
//! Buffers encoding guide).
ghost use Rattle.typed_values.specs.Fields.{
  AddressFields,
  DelayFields,
  EgressFields,
  LetterFields,
  SenderMember,
  ValueFields,
};

/// The namespace, the name and the id of an address are scalars.
pub fn fields_of_an_address()
    ensures { AddressFields }
{}

/// The type's name, the flag and the bytes of a value are scalars.
pub fn fields_of_a_value()
    ensures { ValueFields }
{}

/// A function is a member of a sender, and a split is the other member.
pub fn member_of_a_sender()
    ensures { SenderMember }
{}

/// The sender, the target and the argument of a letter are singular messages.
pub fn fields_of_a_letter()
    ensures { LetterFields }
{}

/// The moment and the token of a delayed letter are scalars; its sender, target and argument are singular messages.
pub fn fields_of_a_delay()
    ensures { DelayFields }
{}

/// The name's parts of an egress record are scalars; its sender and argument are singular messages.
pub fn fields_of_an_egress()
    ensures { EgressFields }
{}
