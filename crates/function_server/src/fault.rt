//! Why a request has no answer.
ghost use Rattle.std.specs.Prelude.{◌≡◌};
ghost use Rattle.function_server.specs.declared.fault.ServeFault.TheVariants.{OutOfMemory as WantsMemory};
ghost use Rattle.function_server.specs.Faults.{fault_of};

use proto_wire::{DecodeFault, OutOfMemory, WireFault};

/// Why a request has no answer.
#[derive(Clone, Copy, Debug, PartialEq, Eq)]
pub enum ServeFault {
    /// The bytes spell no request.
    Wire(WireFault),
    /// It has no target, or no function of the target's type is there.
    NotServed,
    /// The call could not get the memory that it asked for.
    OutOfMemory,
}

impl From<OutOfMemory> for ServeFault {
    ghost from_gives = { λ _ e. e ≡ WantsMemory };

    fn from(_: OutOfMemory) -> ServeFault {
        ServeFault::OutOfMemory
    }
}

impl From<DecodeFault> for ServeFault {
    ghost from_gives = { λ fault e. e ≡ fault_of fault };

    fn from(fault: DecodeFault) -> ServeFault {
        match fault {
            DecodeFault::Wire(fault) => ServeFault::Wire(fault),
            DecodeFault::OutOfMemory => ServeFault::OutOfMemory,
        }
    }
}
