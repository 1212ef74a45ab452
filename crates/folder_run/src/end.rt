//! How a run over a folder ends.
ghost use Rattle.std.specs.Prelude.{◌≡◌};
ghost use Rattle.checkpoint_drive.specs.Driven.{IsStop};
ghost use Rattle.folder_run.specs.Running.{CanBe, IsNoSinkFault, fault_end, run_end, turns_end};

use checkpoint_drive::DriveEnd;
use proto_wire::{List, ModuleKind, Text};
use request_reply::Reason;
use statefun_driver::{Broken, End};
use store_faults::StoreFault;
use typed_values::Address;

/// How a run over a folder ends.
#[derive(Drop)]
pub enum RunEnd {
    /// The run drained: no split has more records, nothing is left to do, and all is in the checkpoint of that number.
    Done {
        checkpoint: u64,
    },
    /// The words are wrong, from this one on, counted from 0.
    Usage {
        word: u32,
    },
    /// The module file could not be read.
    ModuleFault,
    /// The module file is refused, by the first thing that is wrong with it.
    ModuleRefused {
        /// From 1.
        document: u32,
        /// From 1.
        line: u32,
        kind: ModuleKind,
    },
    /// All legs were made; the newest checkpoint has that number, 0 for none.
    TurnsSpent {
        checkpoint: u64,
        legs: u64,
    },
    /// As many attempts as the endpoint has failed in a row.
    EndpointFailed {
        address: Address,
        reasons: List<Reason>,
    },
    /// The request with the first letter of an address alone is longer than its endpoint takes.
    BatchTooLarge {
        address: Address,
        /// In bytes, or `u64::MAX` where it is greater.
        size: u64,
        /// In bytes.
        limit: u64,
    },
    /// Key and value of a record have together more bytes than they may. It was not taken.
    RecordTooLarge {
        split: u32,
        offset: u64,
        /// In bytes.
        size: u64,
    },
    /// The ingress failed.
    IngressFault,
    /// The disk failed.
    DiskFault,
    /// The sink failed.
    SinkFault,
    /// The link failed.
    LinkFault,
    /// The folder has not its form, by the block at that place of that file.
    NotAStore {
        file: u32,
        place: u64,
    },
    /// The folder is of another job.
    StoreOfOther {
        /// The text of the folder's job.
        kept: Text,
        /// That of the module that was given.
        given: Text,
    },
    /// The run could not get the memory that it asked for.
    OutOfMemory,
}

impl RunEnd {
    /// The end of a run that was driven.
    pub(crate) fn of(end: DriveEnd) -> RunEnd
        requires stops { CanBe end }
        ensures made { result ≡ run_end end }
        ensures no_sink { IsNoSinkFault result }
    {
        match end {
            DriveEnd::Done { checkpoint } => RunEnd::Done { checkpoint },
            DriveEnd::TurnsSpent { checkpoint, legs } => RunEnd::TurnsSpent { checkpoint, legs },
            DriveEnd::Refused(fault) => RunEnd::of_fault(fault),
            DriveEnd::Stopped(end) => RunEnd::of_turns(end),
        }
    }

    fn of_fault(fault: StoreFault) -> RunEnd
        ensures made { result ≡ fault_end fault }
        ensures no_sink { IsNoSinkFault result }
    {
        match fault {
            StoreFault::DiskFault => RunEnd::DiskFault,
            StoreFault::NotAStore { file, place } => RunEnd::NotAStore { file, place },
            StoreFault::StoreOfOther { kept, given } => RunEnd::StoreOfOther { kept, given },
            StoreFault::OutOfMemory => RunEnd::OutOfMemory,
        }
    }

    /// Turns that are driven never end done or spent by themselves.
    fn of_turns(end: End) -> RunEnd
        requires stops { IsStop end }
        ensures made { result ≡ turns_end end }
        ensures no_sink { IsNoSinkFault result }
    {
        match end {
            End::Done { .. } => unreachable!(),
            End::TurnsSpent { .. } => unreachable!(),
            End::RecordTooLarge {
                split,
                offset,
                size,
            } => {
                RunEnd::RecordTooLarge {
                    split,
                    offset,
                    size,
                }
            }
            End::BatchTooLarge {
                address,
                size,
                limit,
            } => {
                RunEnd::BatchTooLarge {
                    address,
                    size,
                    limit,
                }
            }
            End::EndpointFailed { address, reasons } => RunEnd::EndpointFailed { address, reasons },
            End::Broke(Broken::Ingress) => RunEnd::IngressFault,
            End::Broke(Broken::Link) => RunEnd::LinkFault,
            End::Broke(Broken::Memory) => RunEnd::OutOfMemory,
        }
    }
}
