//! How long the request of a batch is.
ghost use Rattle.std.specs.Prelude.{◌≡◌, ◌+◌, ◌^◌, ◌≤◌, length, MatchOption};
ghost use Rattle.request_reply.specs.Letters.{letter_record};
ghost use Rattle.proto_wire.specs.Message.{capped};
ghost use Rattle.batch_queue.specs.Batches.{enclosed};

use proto_wire::varint_size;
use request_reply::size_letter;
use typed_values::Letter;

/// The tag of a request in its message: field 100, with bytes.
const REQUEST_TAG: u64 = 8 * 100 + 2;

/// How long a request is.
#[derive(Clone, Copy, Debug, PartialEq, Eq)]
pub(crate) struct Size {
    /// The bytes of its records.
    pub(crate) records: u64,
    /// The bytes of its message.
    pub(crate) message: u64,
}

/// How long a request is with one letter more, where its records have so many bytes without it. `None` exactly where its
/// message is longer than `u64::MAX`.
pub(crate) fn with_letter(records: u64, letter: &Letter) -> Option<Size>
    ensures { MatchOption result (2 ^ 64 ≤ enclosed (records + length (letter_record letter.now)))
        (λ size. (size.records ≡ records + length (letter_record letter.now)) × (size.message ≡ enclosed size.records)) }
{
    let records = records.checked_add(size_letter(letter))?;
    let message = records.checked_add(varint_size(REQUEST_TAG) + varint_size(records))?;
    Some(Size { records, message })
}

/// How long that message is, or `u64::MAX` where it is longer.
pub(crate) fn told_size(records: u64, letter: &Letter) -> u64
    ensures { result ≡ capped (enclosed (records + length (letter_record letter.now))) }
{
    match with_letter(records, letter) {
        Some(size) => size.message,
        None => u64::MAX,
    }
}
