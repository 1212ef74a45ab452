//! A link to functions in memory that keeps nothing of what it did.
ghost use Rattle.std.specs.Prelude.{[], None};

use function_server::{FunctionTable, ServeFault, answer_request};
use proto_wire::Text;
use sf_outside::{Answered, Call, Fault, Link, Outcome};
use std::alloc::Global;
use std::collections::VecDeque;

/// A link that answers each call as a table of functions does, in order of the starts. It tells nothing of what it did, and never
/// fails.
#[derive(Drop)]
pub(crate) struct Answering {
    alloc: Global,
    table: FunctionTable,
    /// The outcomes that were not told yet, oldest first.
    ready: VecDeque<Outcome>,
}

impl Answering {
    pub(crate) fn new(alloc: Global, table: FunctionTable) -> Answering {
        Answering {
            alloc,
            table,
            ready: VecDeque::new(alloc),
        }
    }
}

impl Link for Answering {
    ghost journal = { λ _. None };

    ghost exchanges = { λ _. [] };

    ghost faults = { λ _. 0 };

    ghost losses = { λ _. 0 };

    /// Answers the call. One that no function answers is never told of.
    fn start(&mut self, call: Call, _url: &Text, request: &[u8]) -> Result<(), Fault> {
        match answer_request(self.alloc, &self.table, request) {
            Ok(answer) => {
                self.ready.push_back(Outcome {
                    call,
                    what: Answered::Answer(answer),
                })?;
                Ok(())
            }
            Err(ServeFault::OutOfMemory) => Err(Fault::OutOfMemory),
            Err(ServeFault::Wire(_)) => Ok(()),
            Err(ServeFault::NotServed) => Ok(()),
        }
    }

    /// The answer that has waited longest.
    fn poll(&mut self, _wait: u32) -> Result<Option<Outcome>, Fault> {
        match self.ready.pop_front() {
            Some(
                Outcome {
                    call,
                    what: Answered::Answer(answer),
                },
            ) => {
                Ok(Some(Outcome {
                    call,
                    what: Answered::Answer(answer),
                }))
            }
            Some(
                Outcome {
                    what: Answered::Lost(_),
                    ..
                },
            ) => Ok(None),
            None => Ok(None),
        }
    }
}
