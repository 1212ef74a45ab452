//! A source that gives one byte at a time.
ghost use Rattle.std.specs.Prelude.{◌≡◌, ◌<◌, ◌≤◌, None, length, take, drop, IfOk, OnErr};
ghost use Rattle.sf_outside.specs.Told.{HasCause};
ghost use Rattle.sf_outside.specs.Left.{ahead, AtEnd};

use sf_outside::{Fault, Source};

/// The bytes of a list, one at each read. It tells nothing of them.
#[derive(Drop)]
pub(crate) struct ByteSource {
    bytes: Vec<u8>,
    /// How many of them were read.
    read: usize,
}

impl ByteSource {
    pub(crate) fn new(bytes: Vec<u8>) -> ByteSource {
        ByteSource { bytes, read: 0 }
    }
}

impl Source for ByteSource {
    ghost left = { λ _. None };

    ghost faults = { λ _. 0 };

    fn read(&mut self, into: &mut [u8]) -> Result<usize, Fault> {
        if into.is_empty() || self.read >= self.bytes.len() {
            return Ok(0);
        }
        into[0] = self.bytes[self.read];
        self.read += 1;
        Ok(1)
    }
}
