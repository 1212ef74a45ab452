//! Rows of merges.
use crate::entries::entries_of;
use proto_wire::List;
use row_text::Failure;
use run_record::{Entry, Step, merge};
use std::alloc::Global;

/// The keys and splits of the merged takes: `ENTRIES|ENTRIES|..`.
pub(crate) fn merged(alloc: Global, row: &str) -> Result<String, Failure> {
    let mut lists = List::new(alloc);
    for field in row.split('|') {
        lists.push(entries_of(alloc, field)?)?;
    }
    let mut text = String::new(alloc);
    for entry in merge(alloc, lists)?.as_slice() {
        put_entry(alloc, &mut text, entry)?;
    }
    text.push_str("\n")?;
    Ok(text)
}

fn put_entry(alloc: Global, into: &mut String, entry: &Entry) -> Result<(), Failure> {
    let Step::Take(split) = &entry.step else {
        return Err(Failure::Row);
    };
    let leg = entry.leg;
    let stamp = entry.stamp;
    let node = entry.node;
    into.push_str(format!(in alloc; "  {leg}.{stamp}.{node}=take:{split}")?.as_str())?;
    Ok(())
}
