//! How answers are written.
use crate::life::Found;
use block_log::LogFault;
use row_text::Failure;
use std::alloc::Global;

/// The words of a fault.
pub(crate) fn fault_word(alloc: Global, fault: LogFault) -> Result<String, Failure> {
    match fault {
        LogFault::DiskFault => Ok(String::from_str(alloc, "disk fault")?),
        LogFault::NotALog { place } => Ok(format!(in alloc; "no log by the gate at {place}")?),
        LogFault::OutOfMemory => Err(Failure::OutOfMemory),
    }
}

/// The bodies of blocks as hexadecimal digits, with commas between them.
pub(crate) fn bodies(alloc: Global, found: &[Found]) -> Result<String, Failure> {
    let mut text = String::from_str(alloc, "(")?;
    for (place, block) in found.iter().enumerate() {
        if place > 0 {
            text.push_str(",")?;
        }
        let digits = hex::encode(alloc, block.body.as_slice())?;
        text.push_str(digits.as_str())?;
    }
    text.push_str(")")?;
    Ok(text)
}
