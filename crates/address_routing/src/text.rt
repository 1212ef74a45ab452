//! A module as text.
ghost use Rattle.std.specs.Prelude.{◌≡◌, ◌<◌, [], ◌∷◌, ◌++◌, codes, map, IfOk};
ghost use Rattle.std.specs.List.{flat_map};
ghost use Rattle.std.specs.Fmt.{decimal};
ghost use Rattle.std.specs.String.{string_bytes};
ghost use Rattle.typed_values.specs.Escape.{escaped, escaped_byte, name_text, upper_digit};
ghost use Rattle.address_routing.specs.JobText.{job_text, endpoint_line, ingress_line, egress_line, pattern_text, rest_of_line};

use crate::{Endpoint, IngressSpec, Module};
use itoa::Buffer;
use proto_wire::{Bytes, Mem, Text};
use std::alloc::Global;
use typed_values::{TypeName, TypePattern};

/// The text that stands for a module: a line for each endpoint, then for each ingress, then for each egress, each kind in its
/// order. The words of a line are escaped, with a space between each two, and each line ends with LF.
#[tactic(auto, unfolding(crate::specs::JobText::job_text))]
pub fn job_text(alloc: Global, job: &Module) -> Mem<Text>
    ensures { IfOk result (λ text. text ≡ job_text job.now) }
{
    let text = String::new(alloc);
    let text = with_endpoints(text, job.endpoints.as_slice())?;
    let text = with_ingresses(text, job.ingresses.as_slice())?;
    let text = with_egresses(text, job.egresses.as_slice())?;
    Ok(text_of(text))
}

/// A string as a text. Takes no memory.
fn text_of(text: String) -> Text
    ensures { result ≡ string_bytes text }
{
    match Text::of(Bytes::of(text.into_bytes())) {
        Some(text) => text,
        None => unreachable!(),
    }
}

fn with_endpoints(text: String, endpoints: &[Endpoint]) -> Mem<String>
    ensures { IfOk result (λ more. string_bytes more ≡ string_bytes text ++ flat_map endpoint_line endpoints.now) }
{
    let mut more = text;
    for endpoint in endpoints {
        more = with_endpoint(more, endpoint)?;
    }
    Ok(more)
}

fn with_ingresses(text: String, ingresses: &[IngressSpec]) -> Mem<String>
    ensures { IfOk result (λ more. string_bytes more ≡ string_bytes text ++ flat_map ingress_line ingresses.now) }
{
    let mut more = text;
    for ingress in ingresses {
        more = with_ingress(more, ingress)?;
    }
    Ok(more)
}

fn with_egresses(text: String, egresses: &[TypeName]) -> Mem<String>
    ensures { IfOk result (λ more. string_bytes more ≡ string_bytes text ++ flat_map egress_line egresses.now) }
{
    let mut more = text;
    for name in egresses {
        more = with_egress(more, name)?;
    }
    Ok(more)
}

fn with_endpoint(text: String, endpoint: &Endpoint) -> Mem<String>
    ensures { IfOk result (λ more. string_bytes more ≡ string_bytes text ++ endpoint_line endpoint.now) }
{
    let text = with_words(text, "endpoint ")?;
    let text = with_pattern(text, &endpoint.pattern)?;
    let text = with_words(text, " ")?;
    let text = with_escaped(text, &endpoint.template)?;
    with_limits(text, endpoint)
}

/// The numbers of an endpoint, each behind a space, and LF.
fn with_limits(text: String, endpoint: &Endpoint) -> Mem<String>
    ensures { IfOk result (λ more. string_bytes more ≡ string_bytes text ++ rest_of_line (decimal endpoint.now.max_letters
        ∷ decimal endpoint.now.max_bytes ∷ decimal endpoint.now.attempts ∷ decimal endpoint.now.patience ∷ [])) }
{
    let text = with_number(text, u64::from(endpoint.max_letters))?;
    let text = with_number(text, endpoint.max_bytes)?;
    let text = with_number(text, u64::from(endpoint.attempts))?;
    let text = with_number(text, u64::from(endpoint.patience))?;
    with_words(text, "\n")
}

fn with_ingress(text: String, ingress: &IngressSpec) -> Mem<String>
    ensures { IfOk result (λ more. string_bytes more ≡ string_bytes text ++ ingress_line ingress.now) }
{
    let text = with_words(text, "ingress ")?;
    let text = with_name(text, &ingress.id)?;
    let text = with_number(text, u64::from(ingress.splits))?;
    with_records(text, ingress)
}

/// The type of an ingress' values, and its targets, each behind a space, and LF.
fn with_records(text: String, ingress: &IngressSpec) -> Mem<String>
    ensures { IfOk result (λ more. string_bytes more
        ≡ string_bytes text ++ rest_of_line (escaped ingress.now.value_type ∷ map name_text ingress.now.targets)) }
{
    let text = with_words(text, " ")?;
    let text = with_escaped(text, &ingress.value_type)?;
    with_targets(text, ingress.targets.as_slice())
}

/// Names, each behind a space, and LF.
fn with_targets(text: String, targets: &[TypeName]) -> Mem<String>
    ensures { IfOk result (λ more. string_bytes more ≡ string_bytes text ++ rest_of_line (map name_text targets.now)) }
{
    let mut more = text;
    for target in targets {
        more = with_words(more, " ")?;
        more = with_name(more, target)?;
    }
    with_words(more, "\n")
}

fn with_egress(text: String, name: &TypeName) -> Mem<String>
    ensures { IfOk result (λ more. string_bytes more ≡ string_bytes text ++ egress_line name.now) }
{
    let text = with_words(text, "egress ")?;
    let text = with_name(text, name)?;
    with_words(text, "\n")
}

fn with_pattern(text: String, pattern: &TypePattern) -> Mem<String>
    ensures { IfOk result (λ more. string_bytes more ≡ string_bytes text ++ pattern_text pattern.now) }
{
    let text = with_escaped(text, &pattern.namespace)?;
    match &pattern.name {
        Some(name) => {
            let text = with_words(text, "/")?;
            with_escaped(text, name)
        }
        None => with_words(text, "/*"),
    }
}

fn with_name(text: String, name: &TypeName) -> Mem<String>
    ensures { IfOk result (λ more. string_bytes more ≡ string_bytes text ++ name_text name.now) }
{
    let text = with_escaped(text, &name.namespace)?;
    let text = with_words(text, "/")?;
    with_escaped(text, &name.name)
}

/// A number in decimal behind a space.
fn with_number(text: String, number: u64) -> Mem<String>
    ensures { IfOk result (λ more. string_bytes more ≡ string_bytes text ++ 32 ∷ decimal number) }
{
    let text = with_words(text, " ")?;
    let mut buffer = Buffer::new();
    with_words(text, buffer.format(number))
}

fn with_words(mut text: String, words: &str) -> Mem<String>
    ensures { IfOk result (λ more. string_bytes more ≡ string_bytes text ++ words.now) }
{
    text.push_str(words)?;
    Ok(text)
}

/// A text with each byte that is no visible ASCII character, and `%`, as `%` and two upper-case hexadecimal digits.
fn with_escaped(text: String, part: &Text) -> Mem<String>
    ensures { IfOk result (λ more. string_bytes more ≡ string_bytes text ++ escaped part.now) }
{
    let mut more = text;
    for byte in part.as_bytes() {
        more = with_escaped_byte(more, *byte)?;
    }
    Ok(more)
}

fn with_escaped_byte(mut text: String, byte: u8) -> Mem<String>
    ensures { IfOk result (λ more. string_bytes more ≡ string_bytes text ++ escaped_byte byte) }
{
    if byte < 33 || byte > 126 || byte == b'%' {
        text.push('%')?;
        text.push(upper_digit(byte / 16))?;
        text.push(upper_digit(byte % 16))?;
    } else {
        text.push(char::from(byte))?;
    }
    Ok(text)
}

fn upper_digit(digit: u8) -> char
    requires { digit < 16 }
    ensures value { result ≡ upper_digit digit }
    ensures ascii { result < 128 }
{
    if digit < 10 {
        char::from(b'0' + digit)
    } else {
        char::from(b'A' - 10 + digit)
    }
}
