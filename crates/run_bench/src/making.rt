//! The run, and its objects.
use crate::answering::Answering;
use function_server::{FunctionTable, Greeter, OwnedFunction, Total};
use proto_wire::{Bytes, List, Mem, Text};
use sf_clock::ScriptClock;
use sf_outside::{IngressRecord, MemoryIngress, MemorySource, WriterSink};
use statefun_cli::statefun_run;
use std::alloc::Global;
use typed_values::{TypeName, text_value};

/// How many keys the records have.
const KEYS: u64 = 97;

/// Runs so many records with at most so many letters a batch, and gives the status of the end.
pub(crate) fn run(rt: &HostRuntime, records: u32, letters: u32) -> Mem<u8> {
    let alloc = rt.alloc();
    let words = words(alloc)?;
    let mut file = MemorySource::steady(alloc, file(alloc, letters)?)?;
    let mut ingress = MemoryIngress::steady(alloc, splits(alloc, records)?)?;
    let mut entries = Vec::new(alloc);
    let greeter: OwnedFunction = Box::new(alloc, Greeter)?;
    entries.push((name(alloc, "greeter")?, greeter))?;
    let total: OwnedFunction = Box::new(alloc, Total)?;
    entries.push((name(alloc, "total")?, total))?;
    let mut link = Answering::new(alloc, FunctionTable::new(entries));
    let mut clock = ScriptClock::steady(alloc, List::new(alloc))?;
    let mut out = WriterSink::new(rt.stdout());
    let made = statefun_run(
        alloc,
        words.as_slice(),
        &mut file,
        &mut ingress,
        &mut link,
        &mut clock,
        &mut out,
    );
    Ok(made.end.status())
}

fn words(alloc: Global) -> Mem<Vec<String>> {
    let mut words = Vec::new(alloc);
    for word in ["run", "module.yaml", "--turns=1000000000"] {
        words.push(String::from_str(alloc, word)?)?;
    }
    Ok(words)
}

/// The module file.
fn file(alloc: Global, letters: u32) -> Mem<Bytes> {
    let text = format!(in alloc;
        "kind: io.statefun.endpoints.v2/http\nspec:\n  functions: com.example/*\n  urlPathTemplate: http://localhost/f\n  maxNumBatchRequests: {letters}\n---\nkind: local.log.v1/ingress\nspec:\n  id: com.example/names\n  valueType: io.statefun.types/string\n  targets:\n  - com.example/greeter\n---\nkind: local.log.v1/egress\nspec:\n  id: com.example/greetings\n"
    )?;
    Bytes::copy_of(alloc, text.as_bytes())
}

/// One split of records, each a text of its own under one of the keys.
fn splits(alloc: Global, records: u32) -> Mem<List<List<IngressRecord>>> {
    let mut split = List::new(alloc);
    for place in 0..records {
        split.push(record(alloc, place)?)?;
    }
    let mut splits = List::new(alloc);
    splits.push(split)?;
    Ok(splits)
}

fn record(alloc: Global, place: u32) -> Mem<IngressRecord> {
    let key = u64::from(place) * 7 % KEYS;
    let text = format!(in alloc; "n{place}")?;
    let value = text_value(alloc, &Text::copy_of(alloc, text.as_str())?)?;
    Ok(IngressRecord {
        key: Text::copy_of(alloc, format!(in alloc; "k{key}")?.as_str())?,
        value: value.value,
    })
}

fn name(alloc: Global, name: &str) -> Mem<TypeName> {
    Ok(TypeName {
        namespace: Text::copy_of(alloc, "com.example")?,
        name: Text::copy_of(alloc, name)?,
    })
}
