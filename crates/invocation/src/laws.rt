//! What follows from the definitions of requests and of judging.
//!
//! Each function does nothing: its contract is a law.
ghost use Rattle.invocation.specs.Laws.{SizeIsOfParts, AcceptedFits};

/// The length of a request's canonical spelling is what its target, its cells and its letters count for together.
pub fn a_request_is_its_head_and_its_letters()
    ensures { SizeIsOfParts }
{}

/// Each mutation of an accepted result is of a cell that is there and takes it, and each cell of an accepted list of missing
/// values is new behind those before it.
pub fn an_accepted_answer_fits()
    ensures { AcceptedFits }
{}
