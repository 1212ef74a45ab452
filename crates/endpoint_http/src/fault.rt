//! Why a message has no body.
ghost use Rattle.std.specs.Prelude.{◌≡◌};
ghost use Rattle.endpoint_http.specs.Answers.{number_of, fault_of};
ghost use Rattle.endpoint_http.specs.declared.fault.HttpFault.TheVariants.{OutOfMemory as WantsMemory};

use proto_wire::OutOfMemory;
use sf_outside::Fault;
use std::alloc::{AllocError, AllocFailed};
use thiserror::Error;

/// Why a message has no body, or why one was not written. The numbers are those that a link gives as its notes.
#[derive(Clone, Copy, Debug, PartialEq, Eq, Error)]
pub enum HttpFault {
    /// 1: a head that is none, or past a limit; or header lines that say no framing.
    #[error("bad head")]
    Head,
    /// 2: a response whose status is no success.
    #[error("status {0}")]
    Status(u16),
    /// 3: a body in a content coding.
    #[error("compressed body")]
    Compressed,
    /// 4: a chunk that is none.
    #[error("bad chunk")]
    Chunk,
    /// 5: a body that is longer than the limit.
    #[error("body over the limit")]
    OverLimit,
    /// 6: the input ends inside the message.
    #[error("cut message")]
    Cut,
    /// 7: the source failed, and its count of faults rose.
    #[error("read fault")]
    ReadFault,
    /// 8: the sink failed, and its count of faults rose.
    #[error("write fault")]
    WriteFault,
    /// 9: a request whose method is not `POST`.
    #[error("method is not POST")]
    Method,
    /// 10: no memory.
    #[error("out of memory")]
    OutOfMemory,
}

impl HttpFault {
    /// The number of the fault, from 1 to 10.
    pub fn number(self) -> u32
        ensures { result ≡ number_of self }
    {
        match self {
            HttpFault::Head => 1,
            HttpFault::Status(_) => 2,
            HttpFault::Compressed => 3,
            HttpFault::Chunk => 4,
            HttpFault::OverLimit => 5,
            HttpFault::Cut => 6,
            HttpFault::ReadFault => 7,
            HttpFault::WriteFault => 8,
            HttpFault::Method => 9,
            HttpFault::OutOfMemory => 10,
        }
    }
}

impl From<Fault> for HttpFault {
    ghost from_gives = { λ fault e. e ≡ fault_of fault };

    fn from(fault: Fault) -> HttpFault {
        match fault {
            Fault::Failed => HttpFault::ReadFault,
            Fault::OutOfMemory => HttpFault::OutOfMemory,
        }
    }
}

impl From<OutOfMemory> for HttpFault {
    ghost from_gives = { λ _ e. e ≡ WantsMemory };

    fn from(_: OutOfMemory) -> HttpFault {
        HttpFault::OutOfMemory
    }
}

impl From<AllocError> for HttpFault {
    ghost from_gives = { λ _ e. e ≡ WantsMemory };

    fn from(_: AllocError) -> HttpFault {
        HttpFault::OutOfMemory
    }
}

impl<T: Drop> From<AllocFailed<T>> for HttpFault {
    ghost from_gives = { λ _ e. e ≡ WantsMemory };

    fn from(_: AllocFailed<T>) -> HttpFault {
        HttpFault::OutOfMemory
    }
}
