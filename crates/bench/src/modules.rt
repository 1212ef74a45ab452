//! A module file, read again and again.
use crate::failure::Failure;
use crate::tally::Tally;
use std::io::Read;
use yaml_block::read_documents;

/// Reads the module file on standard input in each round. Whether it has so many documents each time.
pub(crate) fn work(rt: &HostRuntime, count: u32, rounds: u32) -> Result<Tally, Failure> {
    let mut text = Vec::new(rt.alloc());
    rt.reader().read_to_end(&mut text)?;
    let mut same = true;
    for _ in 0..rounds {
        let nodes = read_documents(rt.alloc(), text.as_slice())?;
        same = same && nodes.len() == count as usize;
    }
    Ok(Tally {
        bytes: text.len(),
        same,
    })
}
