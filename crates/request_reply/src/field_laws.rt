//! What the members of an answer are, by one record. The function does nothing, and its contract is the law: a record of a member
//! goes on from it where it stands, and one of the other member drops it. With the laws of the wire format this says what they are
//! of whole bytes ("Oneofs" of the Protocol Buffers encoding guide).
ghost use Rattle.request_reply.specs.Members.{AnswerMembers};

/// A response and a context of missing values are the members of an answer, and each drops the other.
pub fn members_of_an_answer()
    ensures { AnswerMembers }
{}
