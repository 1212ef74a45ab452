//! How a run ends.
ghost use Rattle.std.specs.Prelude.{◌≡◌};
ghost use Rattle.statefun_cli.specs.Running.{IsNoSinkFault, plain_end};

use proto_wire::{List, ModuleKind};
use request_reply::Reason;
use run_record::Entry;
use statefun_driver::{Broken, End};
use typed_values::Address;

/// The words are wrong from this one on, counted from 0.
#[derive(Clone, Copy, Debug, PartialEq, Eq)]
pub struct WordsFault {
    pub word: u32,
}

/// How a run without a folder ends.
#[derive(Drop)]
pub enum PlainEnd {
    /// All records of the ingress were taken, all letters delivered, and no delayed letter waits.
    Done {
        taken: u64,
    },
    /// The words are wrong, from this one on, counted from 0.
    Usage {
        word: u32,
    },
    /// The module file could not be read.
    ModuleFault,
    /// The module file is refused, by the first thing that is wrong with it.
    ModuleRefused {
        /// From 1.
        document: u32,
        /// From 1.
        line: u32,
        kind: ModuleKind,
    },
    /// All turns were made, and there is still work.
    TurnsSpent {
        taken: u64,
    },
    /// As many attempts as the endpoint has failed in a row.
    EndpointFailed {
        address: Address,
        reasons: List<Reason>,
    },
    /// The request with the first letter of an address alone is longer than its endpoint takes.
    BatchTooLarge {
        address: Address,
        /// In bytes, or `u64::MAX` where it is greater.
        size: u64,
        /// In bytes.
        limit: u64,
    },
    /// Key and value of a record have together more bytes than they may. It was not taken.
    RecordTooLarge {
        split: u32,
        offset: u64,
        /// In bytes.
        size: u64,
    },
    /// The ingress failed.
    IngressFault,
    /// The link failed.
    LinkFault,
    /// The sink failed.
    SinkFault,
    /// The run could not get the memory that it asked for.
    OutOfMemory,
}

impl PlainEnd {
    /// The end of a run's turns.
    pub(crate) fn of(end: End) -> PlainEnd
        ensures made { result ≡ plain_end end }
        ensures no_sink { IsNoSinkFault result }
    {
        match end {
            End::Done { taken } => PlainEnd::Done { taken },
            End::TurnsSpent { taken } => PlainEnd::TurnsSpent { taken },
            End::RecordTooLarge {
                split,
                offset,
                size,
            } => {
                PlainEnd::RecordTooLarge {
                    split,
                    offset,
                    size,
                }
            }
            End::BatchTooLarge {
                address,
                size,
                limit,
            } => {
                PlainEnd::BatchTooLarge {
                    address,
                    size,
                    limit,
                }
            }
            End::EndpointFailed { address, reasons } => PlainEnd::EndpointFailed {
                address,
                reasons,
            },
            End::Broke(Broken::Ingress) => PlainEnd::IngressFault,
            End::Broke(Broken::Link) => PlainEnd::LinkFault,
            End::Broke(Broken::Memory) => PlainEnd::OutOfMemory,
        }
    }
}

/// What a run gives back: how it ended, and the record of its steps.
#[derive(Drop)]
pub struct PlainRun {
    pub end: PlainEnd,
    pub entries: List<Entry>,
}
