//! Rows of one log: `log CONTENT BODY ..` opens the log in a file with that content, appends a block for each body, and
//! opens it again.
use crate::content::content_of;
use crate::life::{FILE, Life, live};
use crate::shown::fault_word;
use proto_wire::{Bytes, List};
use row_text::{Failure, bytes_of};
use sf_disk::MemoryDisk;
use sf_outside::Fault;
use std::alloc::Global;

/// What came of the two openings, and the file's bytes behind each.
pub fn show(alloc: Global, words: &str) -> Result<String, Failure> {
    let (content, words) = words.split_once(' ').unwrap_or((words, ""));
    let bodies = bodies_of(alloc, words)?;
    let mut files = List::new(alloc);
    files.push(bytes_of(alloc, content)?)?;
    let mut disk = MemoryDisk::steady(alloc, files)?;
    let mut text = String::new(alloc);
    put_life(alloc, &mut text, &live(alloc, &mut disk, bodies.as_slice()))?;
    put_content(alloc, &mut text, &mut disk)?;
    put_life(alloc, &mut text, &live(alloc, &mut disk, &[]))?;
    Ok(text)
}

/// The bytes of each word.
pub(crate) fn bodies_of(alloc: Global, words: &str) -> Result<List<Bytes>, Failure> {
    let mut bodies = List::new(alloc);
    for word in words.split_whitespace() {
        bodies.push(bytes_of(alloc, word)?)?;
    }
    Ok(bodies)
}

fn put_life(alloc: Global, text: &mut String, life: &Life) -> Result<(), Failure> {
    text.push_str("  opened")?;
    for block in life.found.as_slice() {
        let position = block.position;
        let digits = hex::encode(alloc, block.body.as_slice())?;
        text.push_str(format!(in alloc; " {position}={digits}")?.as_str())?;
    }
    text.push_str("\n")?;
    for position in life.answered.as_slice() {
        text.push_str(format!(in alloc; "  appended {position}\n")?.as_str())?;
    }
    if let Some(fault) = life.fault {
        let word = fault_word(alloc, fault)?;
        text.push_str(format!(in alloc; "  {word}\n")?.as_str())?;
    }
    Ok(())
}

fn put_content(alloc: Global, text: &mut String, disk: &mut MemoryDisk) -> Result<(), Failure> {
    let content = match content_of(alloc, disk, FILE) {
        Ok(content) => content,
        Err(Fault::OutOfMemory) => return Err(Failure::OutOfMemory),
        Err(Fault::Failed) => return Err(Failure::System),
    };
    let digits = hex::encode(alloc, content.as_slice())?;
    text.push_str(format!(in alloc; "  holds {digits}\n")?.as_str())?;
    Ok(())
}
