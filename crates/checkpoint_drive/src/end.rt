//! How a run over a folder ends.
ghost use Rattle.std.specs.Prelude.{◌≡◌};
ghost use Rattle.checkpoint_drive.specs.declared.end.DriveEnd.TheVariants.{Refused as IsRefused, Stopped as HasStopped};

use statefun_driver::End;
use store_faults::StoreFault;

/// How a run over a folder ends.
#[derive(Drop)]
pub enum DriveEnd {
    /// No split has more records, nothing is left to do, and all is in the checkpoint of that number, the newest.
    Done { checkpoint: u64 },
    /// All legs were made; the newest checkpoint has that number, 0 for none.
    TurnsSpent { checkpoint: u64, legs: u64 },
    /// The folder cannot be opened, read or written.
    Refused(StoreFault),
    /// A leg's turn ended the run.
    Stopped(End),
}

impl From<StoreFault> for DriveEnd {
    ghost from_gives = { λ fault end. end ≡ IsRefused fault };

    fn from(fault: StoreFault) -> DriveEnd {
        DriveEnd::Refused(fault)
    }
}

impl From<End> for DriveEnd {
    ghost from_gives = { λ by end. end ≡ HasStopped by };

    fn from(end: End) -> DriveEnd {
        DriveEnd::Stopped(end)
    }
}
