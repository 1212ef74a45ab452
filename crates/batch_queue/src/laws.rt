//! What follows from the definitions of mail, in plain words.
//!
//! Each function does nothing: its contract is a law.
ghost use Rattle.batch_queue.specs.Laws.{SizeIsOfRequest, BatchKeepsLimit, LettersLeaveInOrder};

/// What a batch's size counts is the length of the canonical spelling of the request with these letters: the records of its
/// target and of its state, those of its letters, and around them the tag and the length.
pub fn size_is_that_of_the_request()
    ensures { SizeIsOfRequest }
{}

/// The canonical spelling of a batch's request has at most the limit's bytes.
pub fn a_batch_keeps_the_limit()
    ensures { BatchKeepsLimit }
{}

/// Whatever the calls, the letters that were put for an address are, in order, those that batches took, and then those that
/// wait there still. So letters of one address leave in the order in which they came, and each once.
pub fn letters_leave_in_order_of_arrival()
    ensures { LettersLeaveInOrder }
{}
