//! The job and the address of the rows on answers.
ghost use Rattle.std.specs.Prelude.{◌≡◌, IfOk, IsTrue, codes};
ghost use Rattle.address_routing.specs.Routing.{is_routable};

use address_routing::{Endpoint, IngressSpec, Module, Routes};
use proto_wire::{List, Mem, Text, TryClone};
use row_text::{Failure, bytes_of};
use state_cells::Cells;
use std::alloc::Global;
use std::str::Split;
use typed_values::{Address, CellSpec, Expiry, TypeName, TypePattern, TypedValue};

fn name(alloc: Global, name: &str) -> Mem<TypeName>
    ensures { IfOk result (λ made. (made.namespace ≡ codes "com.example") × (made.name ≡ name.now)) }
{
    Ok(TypeName {
        namespace: Text::copy_of(alloc, "com.example")?,
        name: Text::copy_of(alloc, name)?,
    })
}

/// An endpoint for all types of a namespace, or for one.
fn endpoint(alloc: Global, pattern: TypePattern) -> Mem<Endpoint>
    ensures { IfOk result (λ made. (made.pattern ≡ pattern) × (made.max_letters ≡ 2) × (made.attempts ≡ 1) × (made.patience ≡ 1)) }
{
    Ok(Endpoint {
        pattern,
        template: Text::copy_of(alloc, "http://h")?,
        max_letters: 2,
        max_bytes: 1000,
        attempts: 1,
        patience: 1,
    })
}

/// Endpoints for `com.example/*` and `other/one`, and the egress `com.example/greetings`.
#[tactic(auto, unfolding(address_routing::specs::Routing::endpoint_of))]
fn job(alloc: Global) -> Mem<Module>
    ensures { IfOk result (λ made. IsTrue (is_routable made)) }
{
    let wide = TypePattern {
        namespace: Text::copy_of(alloc, "com.example")?,
        name: None,
    };
    let exact = TypePattern {
        namespace: Text::copy_of(alloc, "other")?,
        name: Some(Text::copy_of(alloc, "one")?),
    };
    let ingress = IngressSpec {
        id: name(alloc, "names")?,
        splits: 1,
        value_type: Text::copy_of(alloc, "v")?,
        targets: List::of(vec![in alloc; name(alloc, "greeter")?]?),
    };
    Ok(Module {
        endpoints: List::of(vec![in alloc; endpoint(alloc, wide)?, endpoint(alloc, exact)?]?),
        ingresses: List::of(vec![in alloc; ingress]?),
        egresses: List::of(vec![in alloc; name(alloc, "greetings")?]?),
    })
}

pub(crate) fn routes(alloc: Global) -> Mem<Routes> {
    Routes::new(alloc, job(alloc)?)
}

/// The address that answers: `com.example/greeter/a`.
pub(crate) fn greeter(alloc: Global) -> Mem<Address> {
    Ok(Address {
        kind: name(alloc, "greeter")?,
        id: Text::copy_of(alloc, "a")?,
    })
}

/// Cells by words, each `NAME:TYPE`, or `NAME:TYPE:MODE:MILLIS`, or with `:STAMP:HEX` behind that for its value; or `*N` for
/// N cells with the names `cN` downwards to `c1` and the type `t`.
pub(crate) fn cells(alloc: Global, words: &str) -> Result<Cells, Failure> {
    let mut cells = Cells::new(alloc)?;
    for word in words.split_whitespace() {
        match word.strip_prefix("*") {
            Some(count) => many(alloc, &mut cells, number(count)?)?,
            None => one(alloc, &mut cells, word)?,
        }
    }
    Ok(cells)
}

fn many(alloc: Global, cells: &mut Cells, count: u64) -> Result<(), Failure> {
    for made in 0..count {
        let number = count - made;
        let word = format!(in alloc; "c{number}:t")?;
        one(alloc, cells, word.as_str())?;
    }
    Ok(())
}

fn one(alloc: Global, cells: &mut Cells, word: &str) -> Result<(), Failure> {
    let mut parts = word.split(':');
    let name = Text::copy_of(alloc, parts.next().unwrap_or(""))?;
    let typename = Text::copy_of(alloc, parts.next().unwrap_or(""))?;
    let mode = match parts.next() {
        Some("1") => Expiry::AfterWrite,
        Some("2") => Expiry::AfterInvoke,
        _ => Expiry::Never,
    };
    let millis = number(parts.next().unwrap_or("0"))?;
    let spec = CellSpec {
        name: name.try_clone(alloc)?,
        typename: typename.try_clone(alloc)?,
        mode,
        millis,
    };
    if cells.register(spec).is_err() {
        return Err(Failure::Row);
    }
    written(alloc, cells, &name, typename, &mut parts)
}

/// Writes the value that the parts behind a cell's declaration have.
fn written(
    alloc: Global,
    cells: &mut Cells,
    name: &Text,
    typename: Text,
    parts: &mut Split<'_, char>,
) -> Result<(), Failure> {
    let Some(stamp) = parts.next() else {
        return Ok(());
    };
    let value = TypedValue {
        typename,
        has_value: true,
        value: bytes_of(alloc, parts.next().unwrap_or(""))?,
    };
    match cells.modify(name, value, number(stamp)?) {
        Ok(()) => Ok(()),
        Err(_) => Err(Failure::Row),
    }
}

pub(crate) fn number(word: &str) -> Result<u64, Failure> {
    word.parse::<u64>().map_err(|_| Failure::Row)
}
