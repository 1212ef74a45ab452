//! Bytes of a file that were read ahead.
ghost use Rattle.std.specs.Prelude.{◌≡◌, [], ◌+◌, ◌≤◌, min, take, drop, length, vec_len, vec_capacity, IfOk, OnErr};
ghost use Rattle.std.specs.Io.{ReadsAtMost};
ghost use Rattle.std.specs.Io.KnownBytes.{Keeps, ReadConsumes};
ghost use Rattle.sf_outside.specs.Unread.{AreAdded};

use crate::Fault;
use crate::system::fault_of;
use std::alloc::Global;
use std::io;
use std::io::{ErrorKind, Read};
use std::marker::Model;

/// How many bytes are asked for at once.
pub(crate) const CHUNK: usize = 8192;

/// How often a read is made again that a signal cut short.
const RETRIES: usize = 64;

/// Bytes that were read ahead and not taken yet.
#[derive(Drop)]
pub struct Unread {
    bytes: Vec<u8>,
    /// How many of them were taken.
    at: usize,
}

impl Model for Unread {
    ghost use Rattle.std.specs.Prelude.{ℕ, List, drop, length, ◌≤◌};

    ghost Value = { List ℕ };

    ghost view = { λ unread. drop unread.at unread.bytes.items };

    ghost invariant = { λ unread. unread.at ≤ length unread.bytes.items };
}

impl Unread {
    /// No bytes. Takes no memory.
    pub(crate) fn new(alloc: Global) -> Unread
        ensures { result ≡ [] }
    {
        Unread {
            bytes: Vec::new(alloc),
            at: 0,
        }
    }

    /// The bytes of a vector, which is moved in.
    pub(crate) fn of(bytes: Vec<u8>) -> Unread
        ensures { result ≡ bytes.items }
    {
        Unread { bytes, at: 0 }
    }

    /// The bytes.
    pub(crate) fn as_slice(&self) -> &[u8]
        ensures { result.now ≡ self.now }
    {
        let (_, rest) = self.bytes.as_slice().split_at(self.at);
        rest
    }

    /// Takes the first bytes, or all where there are not so many.
    pub(crate) fn take(&mut self, count: usize)
        ensures { self.new ≡ drop count self.old }
    {
        self.at += count.min(self.bytes.len() - self.at);
    }

    /// Reads more bytes of a file, and answers how many: none only at its end. An `Err` takes none from the file.
    pub(crate) fn fill<F: Read>(&mut self, alloc: Global, file: &mut F) -> Result<usize, Fault>
        ensures added { IfOk result (λ count. AreAdded count self.old self.new (F.remaining file.old) (F.remaining file.new)) }
        ensures err { OnErr result (self.new ≡ self.old) }
        ensures kept { OnErr result (Keeps (F.remaining file.old) (F.remaining file.new)) }
    {
        if self.at > 0 {
            let (_, rest) = self.bytes.as_slice().split_at(self.at);
            self.bytes = Vec::from_slice(alloc, rest)?;
            self.at = 0;
        }
        read_behind(&mut self.bytes, file)
    }
}

fn read_behind<F: Read>(bytes: &mut Vec<u8>, file: &mut F) -> Result<usize, Fault>
    ensures added { IfOk result (λ count. AreAdded count bytes.old.items bytes.new.items (F.remaining file.old) (F.remaining file.new)) }
    ensures err { OnErr result (bytes.new.items ≡ bytes.old.items) }
    ensures kept { OnErr result (Keeps (F.remaining file.old) (F.remaining file.new)) }
{
    bytes.reserve(CHUNK)?;
    let mut chunk = [0; CHUNK];
    let count = match read_some(file, &mut chunk) {
        Ok(count) => count,
        Err(error) => return Err(fault_of(error.kind())),
    };
    let (read, _) = chunk.split_at(count);
    match bytes.extend_from_slice(read) {
        Ok(()) => Ok(count),
        Err(_) => unreachable!(),
    }
}

// One read, made again where a signal cut it short.
pub(crate) fn read_some<F: Read>(file: &mut F, chunk: &mut [u8]) -> io::Result<usize>
    ensures bound { ReadsAtMost result chunk.new }
    ensures bytes { ReadConsumes (F.remaining file.old) (F.remaining file.new) result chunk.new }
{
    for _ in 0..RETRIES {
        match file.read(chunk) {
            Err(error) if error.kind() == ErrorKind::Interrupted => {}
            other => return other,
        }
    }
    file.read(chunk)
}

/// Copies as many of the bytes as fit to the front of `into`, and answers how many.
pub(crate) fn put_front(into: &mut [u8], bytes: &[u8]) -> usize
    ensures count { result ≡ min (length bytes.now) (length into.old) }
    ensures front { take result into.new ≡ take result bytes.now }
    ensures behind { drop result into.new ≡ drop result into.old }
    ensures room { length into.new ≡ length into.old }
{
    let count = bytes.len().min(into.len());
    into[..count].copy_from_slice(&bytes[..count]);
    count
}
