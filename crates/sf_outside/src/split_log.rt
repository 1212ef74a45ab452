//! The log of one split, read record by record.
ghost use Rattle.std.specs.Prelude.{◌≡◌, [], ◌-◌, ◌<◌, ◌≤◌, ◌^◌, IfOk, OnOk, OnErr};
ghost use Rattle.std.specs.Io.KnownBytes.{Keeps};
ghost use Rattle.sf_outside.specs.Log.{known, TakesFirst, FindsRecord};

use crate::front::{Front, front_of};
use crate::system::fault_of;
use crate::unread::Unread;
use crate::{Fault, IngressRecord};
use std::alloc::Global;
use std::io::{Read, Seek, SeekFrom};

/// The log of one split. It goes on from where the last read ended.
#[derive(Drop)]
pub struct SplitLog<F: Read + Seek> {
    file: F,
    unread: Unread,
    /// The number of the record at the front of what is left.
    next: u64,
}

impl<F: Read + Seek> SplitLog<F> {
    /// A log that is read from its start. Takes no memory.
    pub(crate) fn new(alloc: Global, file: F) -> SplitLog<F>
        ensures file { result.file ≡ file }
        ensures unread { result.unread ≡ [] }
        ensures next { result.next ≡ 0 }
    {
        SplitLog {
            file,
            unread: Unread::new(alloc),
            next: 0,
        }
    }

    /// Record `offset`, or `None` where the log ends before it, or inside it. A read behind the last one goes on from
    /// there, and one before it begins again at the start.
    pub(crate) fn read(
        &mut self,
        alloc: Global,
        offset: u64,
    ) -> Result<Option<IngressRecord>, Fault>
        requires { offset < 2 ^ 63 }
        // Where the bytes that are left are known.
        ensures found { self.old.next ≤ offset → IfOk result
            (λ found. FindsRecord (known self.old.unread (F.remaining self.old.file)) (offset - self.old.next) found) }
    {
        if offset < self.next {
            self.rewind(alloc)?;
        }
        record_from(
            alloc,
            &mut self.unread,
            &mut self.file,
            &mut self.next,
            offset,
        )
    }

    fn rewind(&mut self, alloc: Global) -> Result<(), Fault>
        ensures { OnOk result (self.new.next ≡ 0) }
    {
        match self.file.seek(SeekFrom::Start(0)) {
            Ok(_) => {
                self.unread = Unread::new(alloc);
                self.next = 0;
                Ok(())
            }
            Err(error) => Err(fault_of(error.kind())),
        }
    }
}

// Record `offset`, where the front has the number `next`.
fn record_from<F: Read>(
    alloc: Global,
    unread: &mut Unread,
    file: &mut F,
    next: &mut u64,
    offset: u64,
) -> Result<Option<IngressRecord>, Fault>
    requires behind { next.old ≤ offset }
    requires short { offset < 2 ^ 63 }
    ensures found { IfOk result
        (λ found. FindsRecord (known unread.old (F.remaining file.old)) (offset - next.old) found) }
{
    loop {
        let found = next_record(alloc, unread, file)?;
        match found {
            None => return Ok(None),
            Some(record) => {
                let number = *next;
                *next = number + 1;
                if number == offset {
                    return Ok(Some(record));
                }
            }
        }
    }
}

// The record at the front, or `None` where it is cut by the end of the file. An `Err` takes nothing.
fn next_record<F: Read>(
    alloc: Global,
    unread: &mut Unread,
    file: &mut F,
) -> Result<Option<IngressRecord>, Fault>
    ensures found { IfOk result (λ found. TakesFirst (known unread.old (F.remaining file.old)) (known unread.new (F.remaining file.new)) found) }
    ensures err { OnErr result (Keeps (known unread.old (F.remaining file.old)) (known unread.new (F.remaining file.new))) }
{
    loop {
        match front_of(alloc, unread.as_slice())? {
            Front::Whole(record, len) => {
                unread.take(len);
                return Ok(Some(record));
            }
            Front::Bad => return Err(Fault::Failed),
            Front::Cut => {
                if unread.fill(alloc, file)? == 0 {
                    return Ok(None);
                }
            }
        }
    }
}
