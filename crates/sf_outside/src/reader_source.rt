//! A source over a reader of the system.
ghost use Rattle.std.specs.Prelude.{◌≡◌, ◌<◌, ◌≤◌, None, length, take, drop, IfOk, OnErr};
ghost use Rattle.std.specs.Io.KnownBytes.{Consumes, IsAtEnd, Keeps};
ghost use Rattle.sf_outside.specs.Told.{HasCause};

use crate::unread::{CHUNK, put_front, read_some};
use crate::{Fault, Source};
use std::io::{ErrorKind, Read};

/// A source over a reader. It tells nothing of the bytes.
#[derive(Drop)]
pub struct ReaderSource<R: Read> {
    reader: R,
    failed: u64,
}

impl<R: Read> ReaderSource<R> {
    /// A source over this reader, on which no read has failed.
    pub fn new(reader: R) -> ReaderSource<R>
        ensures reader { result.reader ≡ reader }
        ensures faults { result.failed ≡ 0 }
    {
        ReaderSource { reader, failed: 0 }
    }

    /// Gives the reader back.
    pub fn into_reader(self) -> R
        ensures { result ≡ self.reader }
    {
        let ReaderSource { reader, failed: _ } = self;
        reader
    }
}

impl<R: Read> Source for ReaderSource<R> {
    ghost left = { λ _. None };

    ghost faults = { λ source. source.failed };

    /// Reads as many bytes as the reader gives at once. Its errors are faults, but for its want of memory.
    fn read(&mut self, into: &mut [u8]) -> Result<usize, Fault>
        ensures bound { IfOk result (λ n. n ≤ length into.new) }
        ensures behind { IfOk result (λ n. drop n into.new ≡ drop n into.old) }
        ensures room { OnErr result (into.new ≡ into.old) }
        ensures cause { HasCause self.old.failed self.new.failed result }
        // What the reader has left, where it is known.
        ensures taken { IfOk result (λ n. Consumes (R.remaining self.old.reader) (R.remaining self.new.reader) (take n into.new)) }
        ensures ended { IfOk result (λ n. n ≡ 0 → 0 < length into.new → IsAtEnd (R.remaining self.new.reader)) }
        ensures kept { OnErr result (Keeps (R.remaining self.old.reader) (R.remaining self.new.reader)) }
    {
        let mut chunk = [0; CHUNK];
        let room = into.len().min(CHUNK);
        match read_some(&mut self.reader, &mut chunk[..room]) {
            Ok(count) => Ok(put_front(into, &chunk[..count])),
            Err(error) if error.kind() == ErrorKind::OutOfMemory => Err(Fault::OutOfMemory),
            Err(_) => {
                self.failed = self.failed.saturating_add(1);
                Err(Fault::Failed)
            }
        }
    }
}
