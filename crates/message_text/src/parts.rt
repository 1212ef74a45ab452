//! The parts of lines.
ghost use Rattle.std.specs.Prelude.{◌≡◌, ◌++◌, OnOk, OnErr};
ghost use Rattle.std.specs.Fmt.{decimal, signed_decimal};
ghost use Rattle.typed_values.specs.Escape.{StartsAs};
ghost use Rattle.message_text.specs.Lines.{value_part, address_part, token_part, expiry_part};

use itoa::Buffer;
use proto_wire::{Bytes, Mem, Text};
use request_reply::ExpirationSpec;
use typed_values::{Address, TypedValue, put_address_text, put_escaped, put_value_text};

/// Adds a value, `TYPENAME:HEX` or `TYPENAME:none`, or `-` where there is none.
pub fn put_value(into: &mut Bytes, value: &Option<TypedValue>) -> Mem<()>
    ensures ok { OnOk result (into.new ≡ into.old ++ value_part value.now) }
    ensures err { OnErr result (StartsAs into.old into.new) }
{
    match value {
        None => {
            into.push(b'-')?;
        }
        Some(value) => {
            put_escaped(into, value.typename.as_bytes())?;
            into.push(b':')?;
            put_value_text(into, value)?;
        }
    }
    Ok(())
}

/// Adds an address, `namespace/name/id`, or `-` where there is none.
pub fn put_optional_address(into: &mut Bytes, address: &Option<Address>) -> Mem<()>
    ensures ok { OnOk result (into.new ≡ into.old ++ address_part address.now) }
    ensures err { OnErr result (StartsAs into.old into.new) }
{
    match address {
        None => {
            into.push(b'-')?;
        }
        Some(address) => {
            put_address_text(into, address)?;
        }
    }
    Ok(())
}

/// Adds a token, or `-` where it is empty.
pub fn put_token(into: &mut Bytes, token: &Text) -> Mem<()>
    ensures ok { OnOk result (into.new ≡ into.old ++ token_part token.now) }
    ensures err { OnErr result (StartsAs into.old into.new) }
{
    if token.is_empty() {
        into.push(b'-')?;
    } else {
        put_escaped(into, token.as_bytes())?;
    }
    Ok(())
}

/// Adds the mode and the milliseconds of an expiry, both 0 where there is none.
pub fn put_expiry(into: &mut Bytes, expiry: &Option<ExpirationSpec>) -> Mem<()>
    ensures ok { OnOk result (into.new ≡ into.old ++ expiry_part expiry.now) }
    ensures err { OnErr result (StartsAs into.old into.new) }
{
    match expiry {
        None => {
            into.append(b"0 0")?;
        }
        Some(expiry) => {
            put_signed(into, i64::from(expiry.mode))?;
            into.push(b' ')?;
            put_signed(into, expiry.expire_after_millis)?;
        }
    }
    Ok(())
}

/// Adds a signed number in decimal. An `Err` changes nothing.
pub fn put_signed(into: &mut Bytes, number: i64) -> Mem<()>
    ensures ok { OnOk result (into.new ≡ into.old ++ signed_decimal number) }
    ensures err { OnErr result (into.new ≡ into.old) }
{
    let mut buffer = Buffer::new();
    into.append(buffer.format(number).as_bytes())
}

/// Adds a number in decimal. An `Err` changes nothing.
pub fn put_decimal(into: &mut Bytes, number: u64) -> Mem<()>
    ensures ok { OnOk result (into.new ≡ into.old ++ decimal number) }
    ensures err { OnErr result (into.new ≡ into.old) }
{
    let mut buffer = Buffer::new();
    into.append(buffer.format(number).as_bytes())
}
