//! A sink over a writer of the system.
ghost use Rattle.std.specs.Prelude.{◌≡◌, ◌<◌, ◌≤◌, None, length, take, IfOk, OnErr};
ghost use Rattle.std.specs.Io.{WritesAtMost};
ghost use Rattle.std.specs.Io.KnownBytes.{Appends, Keeps, WriteAppends};
ghost use Rattle.sf_outside.specs.Told.{HasCause};

use crate::{Fault, Sink};
use std::io;
use std::io::{ErrorKind, Write};

/// How often a write is made again that a signal cut short.
const RETRIES: usize = 64;

/// A sink over a writer. It tells nothing of the bytes.
#[derive(Drop)]
pub struct WriterSink<W: Write> {
    writer: W,
    failed: u64,
}

impl<W: Write> WriterSink<W> {
    /// A sink over this writer, on which no write has failed.
    pub fn new(writer: W) -> WriterSink<W>
        ensures writer { result.writer ≡ writer }
        ensures faults { result.failed ≡ 0 }
    {
        WriterSink { writer, failed: 0 }
    }

    /// Gives the writer back.
    pub fn into_writer(self) -> W
        ensures { result ≡ self.writer }
    {
        let WriterSink { writer, failed: _ } = self;
        writer
    }
}

impl<W: Write> Sink for WriterSink<W> {
    ghost written = { λ _. None };

    ghost faults = { λ sink. sink.failed };

    /// Writes as many bytes as the writer takes at once. Its errors are faults, and so is that it takes none of some
    /// bytes, but for its want of memory.
    fn write(&mut self, bytes: &[u8]) -> Result<usize, Fault>
        ensures bound { IfOk result (λ n. n ≤ length bytes.now) }
        ensures progress { IfOk result (λ n. 0 < length bytes.now → 0 < n) }
        ensures cause { HasCause self.old.failed self.new.failed result }
        // What the writer holds, where it is known.
        ensures holds { IfOk result (λ n. Appends (W.contents self.old.writer) (W.contents self.new.writer) (take n bytes.now)) }
        ensures kept { OnErr result (Keeps (W.contents self.old.writer) (W.contents self.new.writer)) }
    {
        match write_some(&mut self.writer, bytes) {
            Ok(count) if count > 0 || bytes.is_empty() => Ok(count),
            Err(error) if error.kind() == ErrorKind::OutOfMemory => Err(Fault::OutOfMemory),
            _ => {
                self.failed = self.failed.saturating_add(1);
                Err(Fault::Failed)
            }
        }
    }
}

// One write, made again where a signal cut it short.
fn write_some<W: Write>(writer: &mut W, bytes: &[u8]) -> io::Result<usize>
    ensures bound { WritesAtMost result bytes.now }
    ensures bytes { WriteAppends (W.contents writer.old) (W.contents writer.new) result bytes.now }
{
    for _ in 0..RETRIES {
        match writer.write(bytes) {
            Err(error) if error.kind() == ErrorKind::Interrupted => {}
            other => return other,
        }
    }
    writer.write(bytes)
}
