//! What is told of bytes and faults.
use proto_wire::{Bytes, DecodeFault, WireFault};
use row_text::Failure;
use std::alloc::Global;

/// The bytes in hexadecimal, or the fault.
pub(crate) fn spelled(alloc: Global, read: Result<Bytes, DecodeFault>) -> Result<String, Failure> {
    match read {
        Ok(bytes) => Ok(hex::encode(alloc, bytes.as_slice())?),
        Err(DecodeFault::Wire(fault)) => fault_text(alloc, fault),
        Err(DecodeFault::OutOfMemory) => Err(Failure::OutOfMemory),
    }
}

/// A fault with its place.
pub(crate) fn fault_text(alloc: Global, fault: WireFault) -> Result<String, Failure> {
    let kind = fault.kind;
    let at = fault.at;
    Ok(format!(in alloc; "fault {kind:?} at {at}")?)
}

/// A text of its own.
pub(crate) fn owned(alloc: Global, text: &str) -> Result<String, Failure> {
    Ok(String::from_str(alloc, text)?)
}
