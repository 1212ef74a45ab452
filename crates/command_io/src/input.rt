//! Reading a source to its end.
ghost use Rattle.std.specs.Prelude.{◌≡◌, ◌+◌, ◌^◌, ◌≤◌, ◌<◌, ℕ, List, length, take, drop, IfOk, OnOk, OnErr};
ghost use Rattle.sf_outside.specs.Told.{HasCause};
ghost use Rattle.sf_outside.specs.Left.{AtEnd, ahead};
ghost use Rattle.command_io.specs.Reading.{IsWhole};

use proto_wire::{Bytes, Mem};
use sf_outside::{Fault, Source};
use std::alloc::Global;

/// How many bytes there is room for at first.
const FIRST_ROOM: usize = 4096;

/// Reads a source to its end, or one byte past so many. An `Err` loses what was read.
pub fn read_up_to<S: Source>(alloc: Global, input: &mut S, most: usize) -> Result<Bytes, Fault>
    requires { most < 2 ^ 32 }
    ensures heard { IfOk result (λ bytes. S.left input.old ≡ ahead bytes (S.left input.new)) }
    ensures whole { IfOk result (λ bytes. IsWhole most bytes (S.left input.new)) }
    ensures bound { IfOk result (λ bytes. length bytes ≤ most + 1) }
    ensures part { OnErr result ((bytes : List ℕ) × (length bytes ≤ most + 1) × (S.left input.old ≡ ahead bytes (S.left input.new))) }
    ensures cause { HasCause (S.faults input.old) (S.faults input.new) result }
{
    let mut room = Vec::new(alloc);
    let mut count = 0;
    while count <= most {
        make_room(&mut room, count, most)?;
        let read = read_behind(input, &mut room, count)?;
        if read == 0 {
            return Ok(front(room, count));
        }
        count += read;
    }
    Ok(front(room, count))
}

/// Doubles the room where these bytes fill it, up to one byte past so many. An `Err` changes nothing of them.
fn make_room(room: &mut Vec<u8>, count: usize, most: usize) -> Mem<()>
    requires within { count ≤ length room.old.items }
    requires bound { count ≤ most }
    requires small { most < 2 ^ 32 }
    requires most { length room.old.items ≤ most + 1 }
    ensures ok { OnOk result (count < length room.new.items) }
    ensures kept { take count room.new.items ≡ take count room.old.items }
    ensures within { count ≤ length room.new.items }
    ensures most { length room.new.items ≤ most + 1 }
{
    if count < room.len() {
        return Ok(());
    }
    let len = (2 * count).max(FIRST_ROOM).min(most + 1);
    room.resize(len, 0)?;
    Ok(())
}

/// Reads behind these bytes, as far as there is room.
fn read_behind<S: Source>(input: &mut S, room: &mut Vec<u8>, count: usize) -> Result<usize, Fault>
    requires { count ≤ length room.old.items }
    ensures read { IfOk result (λ n. S.left input.old ≡ ahead (take n (drop count room.new.items)) (S.left input.new)) }
    ensures bound { IfOk result (λ n. count + n ≤ length room.new.items) }
    ensures end { IfOk result (λ n. n ≡ 0 → count < length room.old.items → AtEnd (S.left input.new)) }
    ensures err { OnErr result (S.left input.new ≡ S.left input.old) }
    ensures kept { take count room.new.items ≡ take count room.old.items }
    ensures len { length room.new.items ≡ length room.old.items }
    ensures cause { HasCause (S.faults input.old) (S.faults input.new) result }
{
    let (_, free) = room.as_mut_slice().split_at_mut(count);
    input.read(free)
}

/// The first bytes of these.
fn front(mut room: Vec<u8>, count: usize) -> Bytes
    ensures { result ≡ take count room.items }
{
    room.truncate(count);
    Bytes::of(room)
}
