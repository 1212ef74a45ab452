//! Lines of ends that no run comes to yet: endpoints that failed for several reasons.
use proto_wire::{Bytes, List, Mem, Text};
use request_reply::{Flaw, FlawKind, Reason};
use row_text::{Failure, text_of};
use statefun_cli::PlainEnd;
use std::alloc::Global;
use typed_values::{Address, TypeName};

/// The end of a failed endpoint of `com.example/greeter`, by `KEY REASON REASON ..`. A reason is `lost:N`, `late`, or
/// `refused:FLAW:N`.
pub(crate) fn end_of(alloc: Global, field: &str) -> Result<PlainEnd, Failure> {
    let mut words = field.split(' ');
    let key = text_of(alloc, words.next().unwrap_or(""))?;
    let mut reasons = List::new(alloc);
    for word in words {
        reasons.push(reason_of(alloc, word)?)?;
    }
    Ok(PlainEnd::EndpointFailed {
        address: greeter(alloc, key)?,
        reasons,
    })
}

fn greeter(alloc: Global, id: Text) -> Mem<Address> {
    Ok(Address {
        kind: TypeName {
            namespace: Text::copy_of(alloc, "com.example")?,
            name: Text::copy_of(alloc, "greeter")?,
        },
        id,
    })
}

fn reason_of(alloc: Global, word: &str) -> Result<Reason, Failure> {
    let mut parts = word.split(':');
    let name = parts.next().unwrap_or("");
    let more = parts.next().unwrap_or("");
    match name {
        "late" => Ok(Reason::Late),
        "lost" => Ok(Reason::Lost(more.parse::<u32>()?)),
        "refused" => Ok(Reason::Refused {
            answer: Bytes::new(alloc),
            flaw: flaw_of(more, parts.next().unwrap_or(""))?,
        }),
        _ => Err(Failure::Row),
    }
}

fn flaw_of(name: &str, index: &str) -> Result<Flaw, Failure> {
    Ok(Flaw {
        kind: kind_of(name)?,
        index: index.parse::<u32>()?,
        wire: None,
    })
}

fn kind_of(name: &str) -> Result<FlawKind, Failure> {
    match name {
        "1" => Ok(FlawKind::Wire),
        "2" => Ok(FlawKind::BadMutation),
        "3" => Ok(FlawKind::UnknownName),
        "4" => Ok(FlawKind::TypeDiffers),
        "5" => Ok(FlawKind::TooLarge),
        "6" => Ok(FlawKind::NoEndpoint),
        "7" => Ok(FlawKind::NegativeDelay),
        "8" => Ok(FlawKind::EmptyToken),
        "9" => Ok(FlawKind::UnknownEgress),
        "10" => Ok(FlawKind::BadExpiry),
        "11" => Ok(FlawKind::TooMany),
        "12" => Ok(FlawKind::NoNewName),
        _ => Err(Failure::Row),
    }
}
