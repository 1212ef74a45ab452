use super::*;
use folder_messages::Manifest;
use piece_messages::{AddressState, CellState, Piece};
use proto_wire::{Bytes, List, Mem, Text};
use std::alloc::Global;
use std::test::*;
use typed_values::{Address, TypeName};

#[test]
fn shapes(rt: HostRuntime) -> Result<(), Fail> {
    let alloc = rt.alloc();
    let rows = [
        ("partitions 4\ningress a/b 3 x\n", Some((4, 3))),
        (
            "partitions 16\ningress a/b 3 x\nendpoint a/* u\ningress a/c 32 y\n",
            Some((16, 35)),
        ),
        ("partitions 1", Some((1, 0))),
        (
            "partitions 1\ningress a/b 33 x\ningress a/c 03 x\ningress a/d\ningress\n",
            Some((1, 0)),
        ),
        ("partitions 1\ningress a/b 2", Some((1, 2))),
        ("", None),
        ("\npartitions 1\n", None),
        ("ingress a/b 3 x\npartitions 1\n", None),
        ("partitions\n", None),
        ("partitions \n", None),
        ("partitions 1 \n", None),
        ("partitions 0\n", None),
        ("partitions 17\n", None),
        ("partitions 04\n", None),
        ("partitions +4\n", None),
        ("partitions 18446744073709551617\n", None),
    ];
    for (text, want) in rows {
        let shape = shape_in(&Text::copy_of(alloc, text)?);
        let got = shape.map(|shape| (shape.partitions, shape.splits));
        assert_eq!(rt; got, want, "at {text:?}");
    }
    Ok(())
}

#[test]
fn pieces(rt: HostRuntime) -> Result<(), Fail> {
    let alloc = rt.alloc();
    // The partitions, the partition, a piece of a checkpoint at moment 9, and whether it has the right form.
    let rows: [(u32, u32, &[u8], bool); 21] = [
        // Nothing.
        (1, 0, b"", true),
        // Another partition.
        (1, 0, b"\x08\x01", false),
        // Two states in order.
        (
            1,
            0,
            b"*\x0d\x0a\x09\x0a\x01a\x12\x01b\x1a\x01c\x10\x09*\x0b\x0a\x09\x0a\x01a\x12\x01b\x1a\x01d",
            true,
        ),
        // Two states out of order.
        (
            1,
            0,
            b"*\x0b\x0a\x09\x0a\x01a\x12\x01b\x1a\x01d*\x0b\x0a\x09\x0a\x01a\x12\x01b\x1a\x01c",
            false,
        ),
        // A state twice.
        (
            1,
            0,
            b"*\x0b\x0a\x09\x0a\x01a\x12\x01b\x1a\x01c*\x0b\x0a\x09\x0a\x01a\x12\x01b\x1a\x01c",
            false,
        ),
        // A longer id has its length in front of it.
        (
            1,
            0,
            b"*\x0b\x0a\x09\x0a\x01a\x12\x01b\x1a\x01d*\x0c\x0a\x0a\x0a\x01a\x12\x01b\x1a\x02cc",
            true,
        ),
        // A moment above that of the checkpoint.
        (
            1,
            0,
            b"*\x0d\x0a\x09\x0a\x01a\x12\x01b\x1a\x01c\x10\x0a",
            false,
        ),
        // A cell stamped at the moment of the checkpoint.
        (
            1,
            0,
            b"*\x19\x0a\x09\x0a\x01a\x12\x01b\x1a\x01c\x1a\x05\x0a\x01m0\x09\x1a\x05\x0a\x01n\x18\x02",
            true,
        ),
        // A cell stamped after it.
        (
            1,
            0,
            b"*\x12\x0a\x09\x0a\x01a\x12\x01b\x1a\x01c\x1a\x05\x0a\x01m0\x0a",
            false,
        ),
        // A cell twice.
        (
            1,
            0,
            b"*\x1a\x0a\x09\x0a\x01a\x12\x01b\x1a\x01c\x1a\x03\x0a\x01m\x1a\x03\x0a\x01n\x1a\x03\x0a\x01m",
            false,
        ),
        // A mode of 3.
        (
            1,
            0,
            b"*\x12\x0a\x09\x0a\x01a\x12\x01b\x1a\x01c\x1a\x05\x0a\x01m\x18\x03",
            false,
        ),
        // A take.
        (1, 0, b"\x12\x04\x08\x01P\x00", false),
        // A due step.
        (
            1,
            0,
            b"\x12\x11\x08\x01j\x0d\x0a\x09\x0a\x01a\x12\x01b\x1a\x01c\x10\x07",
            true,
        ),
        // Of the partition of its address.
        (
            16,
            9,
            b"\x08\x09\x12\x11\x08\x01j\x0d\x0a\x09\x0a\x01a\x12\x01b\x1a\x01c\x10\x07\x1a\x16\x0a\x09\x0a\x01a\x12\x01b\x1a\x01c\x12\x01n\x1a\x01t\x22\x03\x0a\x01x\x22\x14\x0a\x02\x08\x00\x12\x09\x0a\x01a\x12\x01b\x1a\x01c\x1a\x03\x0a\x01x*\x0b\x0a\x09\x0a\x01a\x12\x01b\x1a\x01c",
            true,
        ),
        // A foreign entry.
        (
            16,
            9,
            b"\x08\x09\x12\x11\x08\x01j\x0d\x0a\x09\x0a\x01a\x12\x01b\x1a\x01e\x10\x07",
            false,
        ),
        // A foreign egress record.
        (
            16,
            9,
            b"\x08\x09\x1a\x16\x0a\x09\x0a\x01a\x12\x01b\x1a\x01e\x12\x01n\x1a\x01t\x22\x03\x0a\x01x",
            false,
        ),
        // A foreign letter.
        (
            16,
            9,
            b"\x08\x09\x22\x14\x0a\x02\x08\x00\x12\x09\x0a\x01a\x12\x01b\x1a\x01e\x1a\x03\x0a\x01x",
            false,
        ),
        // A foreign state.
        (
            16,
            9,
            b"\x08\x09*\x0b\x0a\x09\x0a\x01a\x12\x01b\x1a\x01e",
            false,
        ),
        // A delayed letter to another partition.
        (
            16,
            9,
            b"\x08\x092\x1d\x0a\x09\x0a\x01a\x12\x01b\x1a\x01c\x10\x05\x1a\x09\x0a\x01a\x12\x01b\x1a\x01e*\x03\x0a\x01x",
            true,
        ),
        // One from another partition.
        (
            16,
            9,
            b"\x08\x092\x1d\x0a\x09\x0a\x01a\x12\x01b\x1a\x01e\x10\x05\x1a\x09\x0a\x01a\x12\x01b\x1a\x01c*\x03\x0a\x01x",
            false,
        ),
        // Bytes that spell nothing.
        (1, 0, b"\x08", false),
    ];
    for (partitions, partition, bytes, want) in rows {
        let home = Home {
            partitions,
            partition,
        };
        let piece = piece_in(alloc, home, 9, bytes)?;
        assert_eq!(rt; piece.is_some(), want, "at {bytes:?}");
    }
    Ok(())
}

/// A piece whose address has so many cells, each stamped one later than the one before.
fn piece_of_cells(alloc: Global, count: u64) -> Mem<Piece> {
    let mut cells = List::new(alloc);
    let mut name = Text::new(alloc);
    for stamp in 0..count {
        name.append("n")?;
        cells.push(CellState {
            name: Text::copy_of(alloc, name.as_str())?,
            typename: Text::new(alloc),
            mode: 0,
            millis: 0,
            has_value: false,
            stamp,
            value: Bytes::new(alloc),
        })?;
    }
    let mut states = List::new(alloc);
    states.push(AddressState {
        address: Address {
            kind: TypeName {
                namespace: Text::new(alloc),
                name: Text::new(alloc),
            },
            id: Text::new(alloc),
        },
        seen: 3,
        cells,
    })?;
    Ok(Piece {
        partition: 0,
        entries: List::new(alloc),
        egress: List::new(alloc),
        letters: List::new(alloc),
        states,
        delays: List::new(alloc),
    })
}

#[test]
fn cells_of_an_address(rt: HostRuntime) -> Result<(), Fail> {
    let alloc = rt.alloc();
    let home = Home {
        partitions: 1,
        partition: 0,
    };
    for (count, want, latest) in [(0, true, 3), (64, true, 63), (65, false, 64)] {
        let piece = piece_of_cells(alloc, count)?;
        assert_eq!(rt; owns_piece(alloc, home, &piece)?, want, "at {count}");
        assert_eq!(rt; latest_in(&piece), latest, "at {count}");
    }
    Ok(())
}

#[test]
fn letters_on_the_way(rt: HostRuntime) -> Result<(), Fail> {
    let alloc = rt.alloc();
    let home = Home {
        partitions: 16,
        partition: 9,
    };
    let rows: [(&[u8], Option<usize>); 4] = [
        // None.
        (b"", Some(0)),
        // Two of the partition.
        (
            b"\x0a\x14\x0a\x02\x08\x00\x12\x09\x0a\x01a\x12\x01b\x1a\x01c\x1a\x03\x0a\x01x\x0a\x14\x0a\x02\x08\x00\x12\x09\x0a\x01a\x12\x01b\x1a\x01c\x1a\x03\x0a\x01x",
            Some(2),
        ),
        // A foreign one.
        (
            b"\x0a\x14\x0a\x02\x08\x00\x12\x09\x0a\x01a\x12\x01b\x1a\x01c\x1a\x03\x0a\x01x\x0a\x14\x0a\x02\x08\x00\x12\x09\x0a\x01a\x12\x01b\x1a\x01e\x1a\x03\x0a\x01x",
            None,
        ),
        // One that lacks its parts.
        (b"\x0a\x00", None),
    ];
    for (bytes, want) in rows {
        let letters = letters_in(alloc, home, bytes)?;
        assert_eq!(rt; letters.map(|letters| letters.len()), want, "at {bytes:?}");
    }
    Ok(())
}

#[test]
fn jobs(rt: HostRuntime) -> Result<(), Fail> {
    let alloc = rt.alloc();
    let rows: [(&[u8], Option<&str>); 4] = [
        // A job.
        (
            b"\x0a\x10\x08\x01\x12\x0cpartitions\x201",
            Some("partitions 1"),
        ),
        // Another version.
        (b"\x0a\x10\x08\x02\x12\x0cpartitions\x201", None),
        // A run that was opened.
        (b"\x12\x02\x08\x03", None),
        // Bytes that spell nothing.
        (b"\x08", None),
    ];
    for (bytes, want) in rows {
        let text = job_in(alloc, bytes)?;
        assert_eq!(rt;
            text.as_ref().map(|text| text.as_str()),
            want,
            "at {bytes:?}"
        );
    }
    Ok(())
}

#[test]
fn checkpoints_in_turn(rt: HostRuntime) -> Result<(), Fail> {
    let alloc = rt.alloc();
    let shape = Shape {
        partitions: 1,
        splits: 2,
    };
    // How many stand before, a checkpoint, and whether it may come next.
    let rows: [(u64, &[u8], bool); 6] = [
        // The next.
        (
            2,
            b"\x1a\x18\x08\x03\x10\x03\x22\x02\x08\x05\x22\x02\x08\x00*\x04\x08\x01P\x002\x04\x08\x00\x10\x09",
            true,
        ),
        // A number that is not the next.
        (
            1,
            b"\x1a\x12\x08\x03\x10\x03\x22\x02\x08\x05\x22\x02\x08\x002\x04\x08\x00\x10\x09",
            false,
        ),
        // A number above its leg.
        (
            2,
            b"\x1a\x12\x08\x03\x10\x02\x22\x02\x08\x05\x22\x02\x08\x002\x04\x08\x00\x10\x09",
            false,
        ),
        // A split without a count.
        (
            2,
            b"\x1a\x0e\x08\x03\x10\x03\x22\x02\x08\x052\x04\x08\x00\x10\x09",
            false,
        ),
        // A partition without a place.
        (
            2,
            b"\x1a\x0c\x08\x03\x10\x03\x22\x02\x08\x05\x22\x02\x08\x00",
            false,
        ),
        // A step that takes nothing.
        (
            2,
            b"\x1a+\x08\x03\x10\x03\x22\x02\x08\x05\x22\x02\x08\x00*\x04\x08\x01P\x00*\x11\x08\x01j\x0d\x0a\x09\x0a\x01a\x12\x01b\x1a\x01c\x10\x072\x04\x08\x00\x10\x09",
            false,
        ),
    ];
    for (newest, bytes, want) in rows {
        match manifest_in(alloc, bytes)? {
            Some(Manifest::Complete(complete)) => {
                assert_eq!(rt; is_next(shape, newest, &complete), want, "at {bytes:?}")
            }
            Some(Manifest::Job(_job)) => panic!(rt; "a job at {bytes:?}"),
            Some(Manifest::Opening(_opening)) => panic!(rt; "an opening at {bytes:?}"),
            None => panic!(rt; "nothing at {bytes:?}"),
        }
    }
    Ok(())
}
