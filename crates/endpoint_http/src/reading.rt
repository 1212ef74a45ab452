//! Parts that are read from a source.
ghost use Rattle.std.specs.Prelude.{◌≡◌, ◌≤◌, length, drop, IfOk, IfErr, OnOk};
ghost use Rattle.sf_outside.specs.Left.{ahead};
ghost use Rattle.endpoint_http.specs.Answers.{Told, Blames, ReadCause};
ghost use Rattle.endpoint_http.specs.Parsed.{IsFound, PartFault};

use crate::HttpFault;
use crate::held::Held;
use crate::part::{Found, LONGEST, Parsed, Part};
use httparse::spans::HeaderSpan;
use sf_outside::Source;

/// Reads until the bytes held begin with a whole part. They stay held.
pub(crate) fn read_part<S: Source>(
    part: Part,
    held: &mut Held,
    source: &mut S,
    headers: &mut [HeaderSpan],
) -> Result<Found, HttpFault>
    requires room { length headers.old ≡ 64 }
    ensures found { IfOk result (λ found. IsFound part held.new headers.new found) }
    ensures refused { Told (ahead held.old (S.left source.old)) (λ bytes. IfErr result (Blames (PartFault part bytes))) }
    ensures known { ahead held.new (S.left source.new) ≡ ahead held.old (S.left source.old) }
    ensures cause { ReadCause (S.faults source.old) (S.faults source.new) result }
    ensures room { length headers.new ≡ 64 }
    ensures short { length held.new ≤ 16384 }
{
    loop {
        match part.parse(held.as_slice(), headers) {
            Parsed::Whole(found) => return Ok(found),
            Parsed::Refused => return Err(part.refusal()),
            Parsed::Unfinished => {}
        }
        if held.len() == LONGEST {
            return Err(part.refusal());
        }
        if held.fill_line(source)? == 0 {
            return Err(HttpFault::Cut);
        }
    }
}
