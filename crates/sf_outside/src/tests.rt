use super::*;
use crate::split_log::SplitLog;
use proto_wire::{Bytes, List, OutOfMemory, Text, put_bytes, put_varint};
use std::alloc::Global;
use std::io::{ErrorKind, Read, Seek, SeekFrom, Write};
use std::process::Abort;
use std::test::*;
use std::{fs, io};

fn record(alloc: Global, key: &str) -> Result<IngressRecord, OutOfMemory> {
    Ok(IngressRecord {
        key: Text::copy_of(alloc, key)?,
        value: Bytes::copy_of(alloc, key.as_bytes())?,
    })
}

fn numbers(alloc: Global, items: &[u64]) -> Result<List<u64>, OutOfMemory> {
    Ok(List::of(Vec::from_slice(alloc, items)?))
}

fn call(turn: u32) -> Call {
    Call {
        leg: 1,
        partition: 0,
        turn,
    }
}

type Want<'a> = Result<Option<&'a str>, Fault>;

// Reads a record, whose value is that of its key.
fn check_read<I: Ingress>(rt: &impl Abort, ingress: &mut I, split: u32, offset: u64, want: Want) {
    match (ingress.read(split, offset), want) {
        (Ok(Some(record)), Ok(Some(key))) => {
            assert_eq!(rt; record.key.as_str(), key);
            assert_eq!(rt; record.value.as_slice(), key.as_bytes());
        }
        (Ok(None), Ok(None)) => {}
        (Err(fault), Err(wanted)) => assert_eq!(rt; fault, wanted),
        _ => panic!(rt; "record {offset} of split {split}"),
    }
}

fn records(alloc: Global, keys: &[&str]) -> Result<List<IngressRecord>, OutOfMemory> {
    let mut list = List::new(alloc);
    for key in keys {
        list.push(record(alloc, key)?)?;
    }
    Ok(list)
}

#[test]
fn memory_ingress_reads_its_lists(rt: HostRuntime) -> Result<(), Fail> {
    let alloc = rt.alloc();
    let mut lists = List::new(alloc);
    lists.push(records(alloc, &["a", ""])?)?;
    let mut ingress = MemoryIngress::new(alloc, lists, numbers(alloc, &[1])?)?;
    let rows: [(u32, u64, Want); 5] = [
        (0, 0, Ok(Some("a"))),
        (0, 0, Err(Fault::Failed)),
        (0, 1, Ok(Some(""))),
        (0, 2, Ok(None)),
        (1, 0, Ok(None)),
    ];
    for (split, offset, want) in rows {
        check_read(&rt, &mut ingress, split, offset, want);
    }
    Ok(())
}

#[test]
fn a_steady_ingress(rt: HostRuntime) -> Result<(), Fail> {
    let mut steady = MemoryIngress::steady(rt.alloc(), List::new(rt.alloc()))?;
    check_read(&rt, &mut steady, 0, 0, Ok(None));
    Ok(())
}

#[test]
fn memory_sink_keeps_what_is_written(rt: HostRuntime) -> Result<(), Fail> {
    let alloc = rt.alloc();
    let held = Bytes::copy_of(alloc, &[1])?;
    let mut sink = MemorySink::new(alloc, held, numbers(alloc, &[1])?)?;
    let rows: [(&[u8], Result<usize, Fault>); 4] = [
        (&[2, 3], Ok(2)),
        (&[9], Err(Fault::Failed)),
        (&[], Ok(0)),
        (&[4], Ok(1)),
    ];
    for (bytes, want) in rows {
        assert_eq!(rt; sink.write(bytes), want);
    }
    assert_eq!(rt; sink.bytes().as_slice(), [1, 2, 3, 4].as_slice());
    Ok(())
}

#[test]
fn a_steady_sink(rt: HostRuntime) -> Result<(), Fail> {
    let mut steady = MemorySink::steady(rt.alloc(), Bytes::new(rt.alloc()))?;
    assert_eq!(rt; steady.write(&[5])?, 1);
    Ok(())
}

// Polls, and looks at the turn of the call and at the first byte of the answer, or at the note of its loss.
fn check_poll<L: Link>(
    rt: &impl Abort,
    link: &mut L,
    want: Result<Option<(u32, bool, u32)>, Fault>,
) {
    match (link.poll(0), want) {
        (Ok(Some(Outcome { call, what })), Ok(Some((turn, lost, number)))) => {
            assert_eq!(rt; call.turn, turn);
            match what {
                Answered::Lost(note) => assert_eq!(rt; (lost, number), (true, note)),
                Answered::Answer(answer) => {
                    let first = answer.as_slice().first().copied();
                    assert_eq!(rt; (lost, Some(number)), (false, first.map(u32::from)));
                }
            }
        }
        (Ok(None), Ok(None)) => {}
        (Err(fault), Err(wanted)) => assert_eq!(rt; fault, wanted),
        _ => panic!(rt; "a poll"),
    }
}

fn script(alloc: Global) -> Result<List<Turn>, OutOfMemory> {
    let mut turns = List::new(alloc);
    turns.push(Turn::Reply(1, Bytes::copy_of(alloc, &[5])?))?;
    turns.push(Turn::Nothing)?;
    turns.push(Turn::Lose(0, 3))?;
    turns.push(Turn::Reply(2, Bytes::copy_of(alloc, &[6])?))?;
    Ok(turns)
}

#[test]
fn script_link_follows_its_script(rt: HostRuntime) -> Result<(), Fail> {
    let alloc = rt.alloc();
    let url = Text::copy_of(alloc, "http://a")?;
    let mut link = ScriptLink::new(alloc, script(alloc)?, numbers(alloc, &[1, 3])?)?;
    for (turn, want) in [(0, Ok(())), (1, Err(Fault::Failed)), (1, Ok(()))] {
        assert_eq!(rt; link.start(call(turn), &url, &[7]), want);
    }
    let rows = [
        Err(Fault::Failed),
        Ok(Some((1, false, 5))),
        Ok(None),
        Ok(Some((0, true, 3))),
        Ok(None),
        Ok(None),
    ];
    for want in rows {
        check_poll(&rt, &mut link, want);
    }
    assert_eq!(rt; link.journal().len(), 7);
    assert_eq!(rt; link.exchanges().len(), 1);
    Ok(())
}

#[test]
fn a_steady_link(rt: HostRuntime) -> Result<(), Fail> {
    let mut steady = ScriptLink::steady(rt.alloc(), List::new(rt.alloc()))?;
    check_poll(&rt, &mut steady, Ok(None));
    Ok(())
}

#[test]
fn fixed_link_answers_each_call_once(rt: HostRuntime) -> Result<(), Fail> {
    let alloc = rt.alloc();
    let url = Text::copy_of(alloc, "http://a")?;
    let mut link = FixedLink::new(alloc, Bytes::copy_of(alloc, &[9])?);
    link.start(call(0), &url, &[1])?;
    link.start(call(1), &url, &[2])?;
    for want in [Some((0, false, 9)), Some((1, false, 9)), None] {
        check_poll(&rt, &mut link, Ok(want));
    }
    Ok(())
}

/// Answers each write by the next of its answers; a byte past them is taken alone.
#[derive(Drop)]
struct Stubborn {
    answers: Vec<Option<ErrorKind>>,
    taken: Vec<u8>,
}

impl Write for Stubborn {
    fn write(&mut self, buf: &[u8]) -> io::Result<usize> {
        match (self.answers.pop(), buf) {
            (Some(Some(kind)), _) => Err(io::Error::from(kind)),
            (Some(None), _) | (None, []) => Ok(0),
            (None, [byte, ..]) => {
                self.taken.push(*byte)?;
                Ok(1)
            }
        }
    }

    fn flush(&mut self) -> io::Result<()> {
        Ok(())
    }
}

#[test]
fn writer_sink_tells_faults(rt: HostRuntime) -> Result<(), Fail> {
    let alloc = rt.alloc();
    let answers = vec![in alloc;
        Some(ErrorKind::BrokenPipe),
        None,
        Some(ErrorKind::OutOfMemory),
        Some(ErrorKind::Interrupted),
    ]?;
    let taken = Vec::new(alloc);
    let mut sink = WriterSink::new(Stubborn { answers, taken });
    let rows: [(&[u8], Result<usize, Fault>); 5] = [
        (&[1], Err(Fault::OutOfMemory)),
        (&[1], Err(Fault::Failed)),
        (&[1], Err(Fault::Failed)),
        (&[1, 2], Ok(1)),
        (&[], Ok(0)),
    ];
    for (bytes, want) in rows {
        assert_eq!(rt; sink.write(bytes), want);
    }
    assert_eq!(rt; sink.into_writer().taken.as_slice(), [1].as_slice());
    Ok(())
}

// Reads into room for two bytes, and looks at the whole room.
fn check_source<S: Source>(
    rt: &impl Abort,
    source: &mut S,
    want: Result<usize, Fault>,
    room: [u8; 2],
) {
    let mut into = [9, 9];
    assert_eq!(rt; source.read(&mut into), want);
    assert_eq!(rt; into, room);
}

#[test]
fn memory_source_gives_its_bytes(rt: HostRuntime) -> Result<(), Fail> {
    let alloc = rt.alloc();
    let content = Bytes::copy_of(alloc, &[1, 2, 3])?;
    let mut source = MemorySource::new(alloc, content, numbers(alloc, &[0, 2])?)?;
    let rows = [
        (Err(Fault::Failed), [9, 9]),
        (Ok(2), [1, 2]),
        (Err(Fault::Failed), [9, 9]),
        (Ok(1), [3, 9]),
        (Ok(0), [9, 9]),
    ];
    for (want, room) in rows {
        check_source(&rt, &mut source, want, room);
    }
    let mut steady = MemorySource::steady(alloc, Bytes::new(alloc))?;
    check_source(&rt, &mut steady, Ok(0), [9, 9]);
    Ok(())
}

/// Answers each read by the next of its answers, and gives the next byte at an `Ok`, or none past the last.
#[derive(Drop)]
struct Sluggish {
    answers: Vec<Option<ErrorKind>>,
    bytes: Vec<u8>,
}

impl Read for Sluggish {
    fn read(&mut self, buf: &mut [u8]) -> io::Result<usize> {
        if let Some(Some(kind)) = self.answers.pop() {
            return Err(io::Error::from(kind));
        }
        match (buf.first_mut(), self.bytes.pop()) {
            (Some(place), Some(byte)) => {
                *place = byte;
                Ok(1)
            }
            _ => Ok(0),
        }
    }
}

#[test]
fn reader_source_tells_faults(rt: HostRuntime) -> Result<(), Fail> {
    let alloc = rt.alloc();
    let answers = vec![in alloc;
        Some(ErrorKind::BrokenPipe),
        None,
        Some(ErrorKind::OutOfMemory),
        Some(ErrorKind::Interrupted),
    ]?;
    let bytes = vec![in alloc; 5]?;
    let mut source = ReaderSource::new(Sluggish { answers, bytes });
    let rows = [
        (Err(Fault::OutOfMemory), [9, 9]),
        (Ok(1), [5, 9]),
        (Err(Fault::Failed), [9, 9]),
        (Ok(0), [9, 9]),
    ];
    for (want, room) in rows {
        check_source(&rt, &mut source, want, room);
    }
    assert_eq!(rt; source.into_reader().bytes.len(), 0);
    Ok(())
}

fn log(alloc: Global, keys: &[&str]) -> Result<Bytes, OutOfMemory> {
    let mut log = Bytes::new(alloc);
    for key in keys {
        let read = record(alloc, key)?;
        let mut message = Bytes::new(alloc);
        put_bytes(&mut message, 1, read.key.as_bytes())?;
        put_bytes(&mut message, 2, read.value.as_slice())?;
        put_varint(&mut log, message.len() as u64)?;
        log.append(message.as_slice())?;
    }
    Ok(log)
}

const FOLDER: &str = "sf_outside_logs";

const LOG: &str = "sf_outside_logs/split-0.log";

const BAD_LOG: &str = "sf_outside_logs/split-7.log";

#[test]
fn folder_ingress_reads_logs(rt: HostRuntime) -> Result<(), Fail> {
    let alloc = rt.alloc();
    let _ = fs::remove_dir_all(&rt, FOLDER);
    let mut ingress = FolderIngress::new(alloc, &rt, Text::copy_of(alloc, FOLDER)?);
    check_read(&rt, &mut ingress, 0, 0, Err(Fault::Failed));
    fs::create_dir(&rt, FOLDER)?;
    check_read(&rt, &mut ingress, 0, 0, Ok(None));
    fs::write(&rt, LOG, log(alloc, &["a", ""])?.as_slice())?;
    fs::write(&rt, BAD_LOG, [2, 0x0a, 1].as_slice())?;
    let rows: [(u32, u64, Want); 7] = [
        (0, 0, Ok(Some("a"))),
        (0, 1, Ok(Some(""))),
        (0, 2, Ok(None)),
        (7, 0, Err(Fault::Failed)),
        (0, 0, Ok(Some("a"))),
        (7, 0, Err(Fault::Failed)),
        (0, u64::MAX, Ok(None)),
    ];
    for (split, offset, want) in rows {
        check_read(&rt, &mut ingress, split, offset, want);
    }
    fs::remove_dir_all(&rt, FOLDER)?;
    Ok(())
}

/// Gives one byte at a time, and fails at each second read.
#[derive(Drop)]
struct Halting<'a> {
    bytes: &'a [u8],
    at: usize,
    fails: bool,
}

impl Read for Halting<'_> {
    fn read(&mut self, buf: &mut [u8]) -> io::Result<usize> {
        self.fails = !self.fails;
        if self.fails {
            return Err(io::Error::from(ErrorKind::TimedOut));
        }
        match self.bytes.get(self.at) {
            Some(byte) if !buf.is_empty() && self.at < usize::MAX => {
                buf[0] = *byte;
                self.at += 1;
                Ok(1)
            }
            _ => Ok(0),
        }
    }
}

impl Seek for Halting<'_> {
    fn seek(&mut self, to: SeekFrom) -> io::Result<u64> {
        match to {
            SeekFrom::Start(0) => {
                self.at = 0;
                Ok(0)
            }
            _ => Err(io::Error::from(ErrorKind::Unsupported)),
        }
    }
}

#[test]
fn a_failed_read_loses_nothing(rt: HostRuntime) -> Result<(), Fail> {
    let alloc = rt.alloc();
    let whole = log(alloc, &["a", "b"])?;
    let file = Halting {
        bytes: whole.as_slice(),
        at: 0,
        fails: false,
    };
    let mut split = SplitLog::new(alloc, file);
    for (offset, key) in [(0u64, "a"), (1, "b"), (0, "a")] {
        let mut found = Ok(None);
        for _ in 0..64u8 {
            found = split.read(alloc, offset);
            if found.is_ok() {
                break;
            }
        }
        assert!(rt; found == Ok(Some(record(alloc, key)?)), "at {offset}");
    }
    Ok(())
}

#[test]
fn logs_with_bad_bytes(rt: HostRuntime) -> Result<(), Fail> {
    let alloc = rt.alloc();
    let rows: [(&[u8], Result<bool, Fault>); 9] = [
        (&[], Ok(false)),
        (&[0], Ok(true)),
        (&[0x80], Ok(false)),
        (&[2, 0x0a], Ok(false)),
        (
            &[0xff, 0xff, 0xff, 0xff, 0xff, 0xff, 0xff, 0xff, 0xff, 0xff],
            Err(Fault::Failed),
        ),
        (&[1, 0x00], Err(Fault::Failed)),
        (&[1, 0x0b], Err(Fault::Failed)),
        (&[3, 0x0a, 1, 0xff], Err(Fault::Failed)),
        (&[2, 0x18, 5], Ok(true)),
    ];
    for (bytes, want) in rows {
        let mut split = SplitLog::new(alloc, io::Cursor::new(bytes));
        assert_eq!(rt;
            split.read(alloc, 0).map(|found| found.is_some()),
            want,
            "at {bytes:?}"
        );
    }
    Ok(())
}
