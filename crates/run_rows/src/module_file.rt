//! The module file of a row.
use proto_wire::{Bytes, Mem};
use row_text::{Failure, text_of};
use std::alloc::Global;

const ENDPOINT: &str =
    "kind: io.statefun.endpoints.v2/http\nspec:\n  functions: com.example/*\n  urlPathTemplate: http://localhost:8000/{function.name}\n";

const INGRESS: &str =
    "---\nkind: local.log.v1/ingress\nspec:\n  id: com.example/names\n  valueType: io.statefun.types/string\n";

const EGRESS: &str = "---\nkind: local.log.v1/egress\nspec:\n  id: com.example/greetings\n";

/// The bytes of a field: `=TEXT` is a file with this text; `greet` is one for `com.example/greeter` alone, `both` one for
/// `com.example/greeter` and `com.example/total`, with `splits:N` and other keys of an endpoint behind it, as `attempts:3`.
pub(crate) fn file_of(alloc: Global, field: &str) -> Result<Bytes, Failure> {
    if let Some(text) = field.strip_prefix('=') {
        let text = text_of(alloc, text)?;
        return Ok(Bytes::copy_of(alloc, text.as_bytes())?);
    }
    let mut bytes = Bytes::new(alloc);
    bytes.append(ENDPOINT.as_bytes())?;
    put_keys(&mut bytes, field, false)?;
    bytes.append(INGRESS.as_bytes())?;
    put_keys(&mut bytes, field, true)?;
    put_targets(&mut bytes, field)?;
    bytes.append(EGRESS.as_bytes())?;
    Ok(bytes)
}

/// Adds the keys of a field: that of an ingress, or those of an endpoint.
fn put_keys(into: &mut Bytes, field: &str, of_ingress: bool) -> Mem<()> {
    for word in field.split(' ') {
        if let Some((key, value)) = word.split_once(':') {
            if (key == "splits") == of_ingress {
                put_key(into, key, value)?;
            }
        }
    }
    Ok(())
}

fn put_key(into: &mut Bytes, key: &str, value: &str) -> Mem<()> {
    into.append(b"  ")?;
    into.append(key.as_bytes())?;
    into.append(b": ")?;
    into.append(value.as_bytes())?;
    into.push(b'\n')
}

fn put_targets(into: &mut Bytes, field: &str) -> Mem<()> {
    into.append(b"  targets:\n  - com.example/greeter\n")?;
    if field.starts_with("both") {
        into.append(b"  - com.example/total\n")?;
    }
    Ok(())
}
