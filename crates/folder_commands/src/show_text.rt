//! The lines of what was committed to egress.
ghost use Rattle.std.specs.Prelude.{◌≡◌, ◌++◌, List, IfOk, IfErr, OnOk, IsFalse};
ghost use Rattle.sf_disk.specs.Moments.{WhereTold};
ghost use Rattle.store_faults.specs.Faults.{HasStoreCause, RefusesUntold};
ghost use Rattle.egress_commit.specs.Epochs.{Epoch};
ghost use Rattle.egress_commit.specs.Outlets.{IsOutlet};
ghost use Rattle.folder_commands.specs.Shown.{IsOutletText, epoch_text, show_line};

use egress_commit::Outlet;
use message_text::put_decimal;
use proto_wire::{Bytes, Mem};
use run_record::put_egress_line;
use sf_disk::Disk;
use std::alloc::Global;
use store_faults::StoreFault;
use typed_values::EgressRecord;

/// The lines of all epochs, in order.
pub(crate) fn outlet_text<D: Disk>(
    alloc: Global,
    disk: &mut D,
    outlet: &Outlet,
) -> Result<Bytes, StoreFault>
    requires usable { IsFalse outlet.now.spent }
    requires is_open { WhereTold (D.moments disk.old) (λ now. (epochs : List Epoch) × IsOutlet outlet.now epochs (now 1)) }
    ensures text { IfOk result (IsOutletText outlet.now (D.moments disk.old)) }
    ensures refuses { IfErr result (RefusesUntold 1 (D.moments disk.old)) }
    ensures same { D.moments disk.new ≡ D.moments disk.old }
    ensures cause { HasStoreCause (D.faults disk.old) (D.faults disk.new) result }
{
    let mut text = Bytes::new(alloc);
    let mut done = 0;
    while done < outlet.last_epoch() {
        done += 1;
        let records = outlet.committed(disk, done)?;
        put_epoch(&mut text, done, records.as_slice())?;
    }
    Ok(text)
}

/// Adds the lines of an epoch.
#[tactic(auto, unfolding(crate::specs::Shown::epoch_text))]
fn put_epoch(into: &mut Bytes, number: u64, records: &[EgressRecord]) -> Mem<()>
    ensures { OnOk result (into.new ≡ into.old ++ epoch_text number records.now) }
{
    for record in records {
        put_show_line(into, number, record)?;
    }
    Ok(())
}

/// Adds the line of a record of an epoch.
#[tactic(auto, unfolding(crate::specs::Shown::show_line))]
fn put_show_line(into: &mut Bytes, number: u64, record: &EgressRecord) -> Mem<()>
    ensures { OnOk result (into.new ≡ into.old ++ show_line number «record».now) }
{
    put_decimal(into, number)?;
    into.push(b' ')?;
    put_egress_line(into, record)?;
    Ok(())
}
