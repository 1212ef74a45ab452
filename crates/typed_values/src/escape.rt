//! The escape of printed words, and the parts of lines that are made of it.
ghost use Rattle.std.specs.Prelude.{◌≡◌, ◌<◌, ◌++◌, OnOk, OnErr};
ghost use Rattle.typed_values.specs.Escape.{StartsAs, upper_digit, lower_digit, escaped_byte, escaped, hex_byte, hex, name_text, address_text, value_text};

use crate::{Address, TypeName, TypedValue};
use proto_wire::{Bytes, Mem, Text};

/// Adds an address, `namespace/name/id`, each part escaped. An `Err` leaves what stood there with a part behind it.
pub fn put_address_text(into: &mut Bytes, address: &Address) -> Mem<()>
    ensures ok { OnOk result (into.new ≡ into.old ++ address_text address.now) }
    ensures err { OnErr result (StartsAs into.old into.new) }
{
    put_name_text(into, &address.kind)?;
    into.push(b'/')?;
    put_escaped(into, address.id.as_bytes())?;
    Ok(())
}

/// Adds a name, `namespace/name`, each part escaped. An `Err` leaves what stood there with a part behind it.
pub fn put_name_text(into: &mut Bytes, name: &TypeName) -> Mem<()>
    ensures ok { OnOk result (into.new ≡ into.old ++ name_text name.now) }
    ensures err { OnErr result (StartsAs into.old into.new) }
{
    put_name_parts(into, &name.namespace, &name.name)
}

/// Adds the name of this namespace and this name, `namespace/name`, each part escaped. An `Err` leaves what stood there
/// with a part behind it.
pub fn put_name_parts(into: &mut Bytes, namespace: &Text, name: &Text) -> Mem<()>
    ensures ok { OnOk result (into.new ≡ into.old ++ name_text (record { namespace = namespace.now; name = name.now })) }
    ensures err { OnErr result (StartsAs into.old into.new) }
{
    put_escaped(into, namespace.as_bytes())?;
    into.push(b'/')?;
    put_escaped(into, name.as_bytes())?;
    Ok(())
}

/// Adds a value's bytes in hexadecimal, or `none` where it is none. An `Err` leaves what stood there with a part behind it.
pub fn put_value_text(into: &mut Bytes, value: &TypedValue) -> Mem<()>
    ensures ok { OnOk result (into.new ≡ into.old ++ value_text value.now) }
    ensures err { OnErr result (StartsAs into.old into.new) }
{
    if value.has_value {
        put_hex(into, value.value.as_slice())?;
    } else {
        into.append(b"none")?;
    }
    Ok(())
}

/// Adds bytes, each that is no visible ASCII character, and `%`, as `%` and two upper-case hexadecimal digits. An `Err`
/// leaves what stood there with a part behind it.
pub fn put_escaped(into: &mut Bytes, bytes: &[u8]) -> Mem<()>
    ensures ok { OnOk result (into.new ≡ into.old ++ escaped bytes.now) }
    ensures err { OnErr result (StartsAs into.old into.new) }
{
    for byte in bytes {
        put_escaped_byte(into, *byte)?;
    }
    Ok(())
}

fn put_escaped_byte(into: &mut Bytes, byte: u8) -> Mem<()>
    ensures ok { OnOk result (into.new ≡ into.old ++ escaped_byte byte) }
    ensures err { OnErr result (into.new ≡ into.old) }
{
    if byte < 33 || byte > 126 || byte == b'%' {
        into.append(&[b'%', upper_digit(byte / 16), upper_digit(byte % 16)])
    } else {
        into.push(byte)
    }
}

/// Adds bytes, each as two lower-case hexadecimal digits. An `Err` leaves what stood there with a part behind it.
pub fn put_hex(into: &mut Bytes, bytes: &[u8]) -> Mem<()>
    ensures ok { OnOk result (into.new ≡ into.old ++ hex bytes.now) }
    ensures err { OnErr result (StartsAs into.old into.new) }
{
    for byte in bytes {
        into.append(&[lower_digit(*byte / 16), lower_digit(*byte % 16)])?;
    }
    Ok(())
}

fn upper_digit(digit: u8) -> u8
    requires { digit < 16 }
    ensures { result ≡ upper_digit digit }
{
    if digit < 10 {
        b'0' + digit
    } else {
        b'A' - 10 + digit
    }
}

fn lower_digit(digit: u8) -> u8
    requires { digit < 16 }
    ensures { result ≡ lower_digit digit }
{
    if digit < 10 {
        b'0' + digit
    } else {
        b'a' - 10 + digit
    }
}
