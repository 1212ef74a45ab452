//! Rows of whole folders: `whole PLAN` writes what is planned, and shows the bytes of each file and what is found.
use crate::files::content_of;
use crate::found::{Found, find};
use crate::life::live;
use crate::plan::plan_of;
use crate::quiet::Quiet;
use crate::stop::refusal;
use folder_messages::encode_entry;
use proto_wire::List;
use row_text::Failure;
use std::alloc::Global;
use typed_values::encode_egress;

/// The files shown: those of up to four partitions, and one more.
const SHOWN: u32 = 7;

/// The files, and what is found in them.
pub fn show(alloc: Global, words: &str) -> Result<String, Failure> {
    let plan = plan_of(alloc, words)?;
    let mut disk = Quiet::new(alloc, List::new(alloc))?;
    let life = live(alloc, &mut disk, &plan)?;
    if life.fault.is_some() {
        return Err(Failure::System);
    }
    let mut text = String::new(alloc);
    for file in 0..SHOWN {
        let content = content_of(alloc, &mut disk, file)?;
        put_line(
            alloc,
            &mut text,
            format!(in alloc; "{file}")?.as_str(),
            content.as_slice(),
        )?;
    }
    match find(alloc, &mut disk, &plan.job) {
        Ok(found) => put_found(alloc, &mut text, &found)?,
        Err(stop) => {
            let _fault = refusal(stop)?;
            return Err(Failure::System);
        }
    }
    Ok(text)
}

fn put_found(alloc: Global, text: &mut String, found: &Found) -> Result<(), Failure> {
    let newest = found.newest;
    let leg = found.leg;
    text.push_str(format!(in alloc; "  newest {newest} leg {leg}\n")?.as_str())?;
    put_line(alloc, text, "loaded", found.loaded.as_slice())?;
    for entry in found.entries.as_slice() {
        put_line(alloc, text, "entry", encode_entry(alloc, entry)?.as_slice())?;
    }
    for item in found.egress.as_slice() {
        put_line(
            alloc,
            text,
            "egress",
            encode_egress(alloc, item)?.as_slice(),
        )?;
    }
    Ok(())
}

fn put_line(alloc: Global, text: &mut String, word: &str, bytes: &[u8]) -> Result<(), Failure> {
    let digits = hex::encode(alloc, bytes)?;
    text.push_str(format!(in alloc; "  {word} {digits}\n")?.as_str())?;
    Ok(())
}
