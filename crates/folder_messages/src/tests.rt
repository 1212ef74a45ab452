use super::*;
use proto_wire::{Bytes, DecodeFault, WireFault, WireKind};
use std::alloc::Global;
use std::process::Abort;
use std::test::*;

type Want<'a> = Result<&'a [u8], WireFault>;

fn fault(kind: WireKind, at: usize) -> WireFault {
    WireFault { kind, at }
}

// What is read, written again.
fn check(rt: &impl Abort, got: Result<Bytes, DecodeFault>, want: Want<'_>) {
    match (got, want) {
        (Ok(bytes), Ok(wanted)) => assert_eq!(rt; bytes.as_slice(), wanted),
        (Err(DecodeFault::Wire(fault)), Err(wanted)) => assert_eq!(rt; fault, wanted),
        (Ok(_), Err(wanted)) => panic!(rt; "a message in place of {wanted:?}"),
        (Err(fault), _) => panic!(rt; "{fault:?}"),
    }
}

fn entry_again(alloc: Global, bytes: &[u8]) -> Result<Bytes, DecodeFault> {
    Ok(encode_entry(alloc, &decode_entry(alloc, bytes)?)?)
}

fn manifest_again(alloc: Global, bytes: &[u8]) -> Result<Bytes, DecodeFault> {
    Ok(encode_manifest(alloc, &decode_manifest(alloc, bytes)?)?)
}

fn call_again(alloc: Global, bytes: &[u8]) -> Result<Bytes, DecodeFault> {
    Ok(encode_call(alloc, &decode_call(alloc, bytes)?)?)
}

fn reply_again(alloc: Global, bytes: &[u8]) -> Result<Bytes, DecodeFault> {
    Ok(encode_reply(alloc, &decode_reply(alloc, bytes)?)?)
}

fn due_step_again(alloc: Global, bytes: &[u8]) -> Result<Bytes, DecodeFault> {
    Ok(encode_due_step(alloc, &decode_due_step(alloc, bytes)?)?)
}

fn taken_again(alloc: Global, bytes: &[u8]) -> Result<Bytes, DecodeFault> {
    Ok(encode_taken(alloc, &decode_taken(alloc, bytes)?)?)
}

fn place_again(alloc: Global, bytes: &[u8]) -> Result<Bytes, DecodeFault> {
    Ok(encode_place(alloc, &decode_place(alloc, bytes)?)?)
}

fn opening_again(alloc: Global, bytes: &[u8]) -> Result<Bytes, DecodeFault> {
    Ok(encode_opening(alloc, &decode_opening(alloc, bytes)?)?)
}

fn job_again(alloc: Global, bytes: &[u8]) -> Result<Bytes, DecodeFault> {
    Ok(encode_job(alloc, &decode_job(alloc, bytes)?)?)
}

fn complete_again(alloc: Global, bytes: &[u8]) -> Result<Bytes, DecodeFault> {
    Ok(encode_complete(alloc, &decode_complete(alloc, bytes)?)?)
}

#[test]
fn entries(rt: HostRuntime) -> Result<(), Fail> {
    let alloc = rt.alloc();
    let rows: [(&[u8], Want<'_>); 13] = [
        // A record of split 0 was taken.
        (
            b"\x08\x01\x10\x02\x18\x03\x50\x00",
            Ok(b"\x08\x01\x10\x02\x18\x03\x50\x00"),
        ),
        // Fields in any order, a field that is not known, and a split that is said twice.
        (
            b"\x50\x05\x18\x03\x2a\x01\x61\x50\x00\x08\x01",
            Ok(b"\x08\x01\x18\x03\x50\x00"),
        ),
        // A batch: a call, the address a/b/c, a moment, split 0 and an answer of one byte.
        (
            b"\x5a\x1a\x0a\x04\x08\x01\x18\x02\x12\x09\x0a\x01\x61\x12\x01\x62\x1a\x01\x63\x18\x07\x22\x02\x08\x00\x2a\x01\xff",
            Ok(
                b"\x5a\x1a\x0a\x04\x08\x01\x18\x02\x12\x09\x0a\x01\x61\x12\x01\x62\x1a\x01\x63\x18\x07\x22\x02\x08\x00\x2a\x01\xff",
            ),
        ),
        // The same reply in two records of it.
        (
            b"\x5a\x06\x0a\x04\x08\x01\x18\x02\x5a\x14\x12\x09\x0a\x01\x61\x12\x01\x62\x1a\x01\x63\x18\x07\x22\x02\x08\x00\x2a\x01\xff",
            Ok(
                b"\x5a\x1a\x0a\x04\x08\x01\x18\x02\x12\x09\x0a\x01\x61\x12\x01\x62\x1a\x01\x63\x18\x07\x22\x02\x08\x00\x2a\x01\xff",
            ),
        ),
        // A registration.
        (
            b"\x62\x1a\x0a\x04\x08\x01\x18\x02\x12\x09\x0a\x01\x61\x12\x01\x62\x1a\x01\x63\x18\x07\x22\x02\x08\x00\x2a\x01\xff",
            Ok(
                b"\x62\x1a\x0a\x04\x08\x01\x18\x02\x12\x09\x0a\x01\x61\x12\x01\x62\x1a\x01\x63\x18\x07\x22\x02\x08\x00\x2a\x01\xff",
            ),
        ),
        // A delayed letter that was sent.
        (
            b"\x6a\x0d\x0a\x09\x0a\x01\x61\x12\x01\x62\x1a\x01\x63\x10\x05",
            Ok(b"\x6a\x0d\x0a\x09\x0a\x01\x61\x12\x01\x62\x1a\x01\x63\x10\x05"),
        ),
        // A batch that another step takes the place of; it may lack its parts.
        (b"\x5a\x00\x50\x01", Ok(b"\x50\x01")),
        // No step.
        (b"", Err(fault(WireKind::NoMember, 0))),
        // A batch that lacks its parts.
        (b"\x08\x01\x5a\x00", Err(fault(WireKind::NoMember, 4))),
        // A sender that is neither a split nor a function.
        (
            b"\x5a\x15\x0a\x04\x08\x01\x18\x02\x12\x09\x0a\x01\x61\x12\x01\x62\x1a\x01\x63\x18\x07\x22\x00",
            Err(fault(WireKind::NoMember, 23)),
        ),
        // A node of 2^32, and a further one in its place.
        (
            b"\x18\x80\x80\x80\x80\x10\x18\x00\x50\x00",
            Err(fault(WireKind::OverLimit, 1)),
        ),
        // A split of 2^32, and another step in its place.
        (
            b"\x50\x80\x80\x80\x80\x10\x6a\x00",
            Err(fault(WireKind::OverLimit, 1)),
        ),
        // A reply that passes the end.
        (b"\x5a\x02\x0a", Err(fault(WireKind::Truncated, 1))),
    ];
    for (bytes, want) in rows {
        check(&rt, entry_again(alloc, bytes), want);
    }
    Ok(())
}

#[test]
fn manifests(rt: HostRuntime) -> Result<(), Fail> {
    let alloc = rt.alloc();
    let rows: [(&[u8], Want<'_>); 9] = [
        // A job.
        (
            b"\x0a\x05\x08\x01\x12\x01\x78",
            Ok(b"\x0a\x05\x08\x01\x12\x01\x78"),
        ),
        // The same job in two records of it.
        (
            b"\x0a\x02\x08\x01\x0a\x03\x12\x01\x78",
            Ok(b"\x0a\x05\x08\x01\x12\x01\x78"),
        ),
        // An opening.
        (b"\x12\x02\x08\x09", Ok(b"\x12\x02\x08\x09")),
        // A job in the place of an opening.
        (b"\x12\x02\x08\x09\x0a\x00", Ok(b"\x0a\x00")),
        // A complete checkpoint: counts, an entry, a place.
        (
            b"\x1a\x16\x08\x01\x10\x02\x18\x03\x22\x02\x08\x04\x2a\x04\x08\x01\x50\x00\x32\x04\x08\x05\x10\x06",
            Ok(
                b"\x1a\x16\x08\x01\x10\x02\x18\x03\x22\x02\x08\x04\x2a\x04\x08\x01\x50\x00\x32\x04\x08\x05\x10\x06",
            ),
        ),
        // An entry without a step.
        (b"\x1a\x02\x2a\x00", Err(fault(WireKind::NoMember, 4))),
        // No member.
        (b"", Err(fault(WireKind::NoMember, 0))),
        // A version of 2^32.
        (
            b"\x0a\x06\x08\x80\x80\x80\x80\x10",
            Err(fault(WireKind::OverLimit, 3)),
        ),
        // A text that is not UTF-8.
        (b"\x0a\x03\x12\x01\xff", Err(fault(WireKind::NotUtf8, 4))),
    ];
    for (bytes, want) in rows {
        check(&rt, manifest_again(alloc, bytes), want);
    }
    Ok(())
}

#[test]
fn parts_by_themselves(rt: HostRuntime) -> Result<(), Fail> {
    let alloc = rt.alloc();
    check(
        &rt,
        call_again(alloc, b"\x08\x01\x18\x02"),
        Ok(b"\x08\x01\x18\x02"),
    );
    check(
        &rt,
        reply_again(
            alloc,
            b"\x0a\x04\x08\x01\x18\x02\x12\x09\x0a\x01\x61\x12\x01\x62\x1a\x01\x63\x18\x07\x22\x02\x08\x00\x2a\x01\xff",
        ),
        Ok(
            b"\x0a\x04\x08\x01\x18\x02\x12\x09\x0a\x01\x61\x12\x01\x62\x1a\x01\x63\x18\x07\x22\x02\x08\x00\x2a\x01\xff",
        ),
    );
    check(
        &rt,
        due_step_again(
            alloc,
            b"\x0a\x09\x0a\x01\x61\x12\x01\x62\x1a\x01\x63\x10\x05",
        ),
        Ok(b"\x0a\x09\x0a\x01\x61\x12\x01\x62\x1a\x01\x63\x10\x05"),
    );
    check(&rt, taken_again(alloc, b"\x08\x04"), Ok(b"\x08\x04"));
    check(
        &rt,
        place_again(alloc, b"\x08\x05\x10\x06"),
        Ok(b"\x08\x05\x10\x06"),
    );
    check(&rt, opening_again(alloc, b"\x08\x09"), Ok(b"\x08\x09"));
    check(
        &rt,
        job_again(alloc, b"\x08\x01\x12\x01\x78"),
        Ok(b"\x08\x01\x12\x01\x78"),
    );
    check(
        &rt,
        complete_again(
            alloc,
            b"\x08\x01\x10\x02\x18\x03\x22\x02\x08\x04\x2a\x04\x08\x01\x50\x00\x32\x04\x08\x05\x10\x06",
        ),
        Ok(
            b"\x08\x01\x10\x02\x18\x03\x22\x02\x08\x04\x2a\x04\x08\x01\x50\x00\x32\x04\x08\x05\x10\x06",
        ),
    );
    Ok(())
}
