//! Rows on module files, URLs and partitions.
use address_routing::{Routes, UrlFault, job_text, key_group, partition_of, split_url};
use module_yaml::{ModuleFault, read_module};
use proto_wire::{Bytes, Text};
use row_text::Failure;
use std::alloc::Global;
use typed_values::{Address, TypeName};

/// The text of the module of a module file, each line behind two spaces, or its first refusal.
pub(crate) fn module_shown(alloc: Global, bytes: &[u8]) -> Result<String, Failure> {
    match read_module(alloc, bytes) {
        Ok(job) => {
            let routes = Routes::new(alloc, job)?;
            let text = job_text(alloc, routes.module())?;
            let mut shown = String::new(alloc);
            for line in text.as_str().lines() {
                shown.push_str("  ")?;
                shown.push_str(line)?;
                shown.push_str("\n")?;
            }
            Ok(shown)
        }
        Err(
            ModuleFault::Refused {
                document,
                line,
                kind,
            },
        ) => {
            let kind = kind.name();
            Ok(format!(in alloc; "  refused {document} {line} {kind}\n")?)
        }
        Err(ModuleFault::OutOfMemory) => Err(Failure::OutOfMemory),
    }
}

/// Where a request to a URL goes.
pub(crate) fn url_shown(alloc: Global, bytes: Vec<u8>) -> Result<String, Failure> {
    let Some(text) = Text::of(Bytes::of(bytes)) else {
        return Ok(String::from_str(alloc, "  no text\n")?);
    };
    match split_url(alloc, &text) {
        Ok(target) => {
            let host = target.host.as_str();
            let port = target.port;
            let path = target.path.as_str();
            Ok(format!(in alloc; "  host {host} port {port} path {path}\n")?)
        }
        Err(UrlFault::BadUrl) => Ok(String::from_str(alloc, "  bad url\n")?),
        Err(UrlFault::OutOfMemory) => Err(Failure::OutOfMemory),
    }
}

/// The group of an address of which the row has the namespace, the name and the id, and its partition of 1 to 16.
pub(crate) fn group_shown(alloc: Global, row: &str) -> Result<String, Failure> {
    let (namespace, rest) = row.split_once(' ').unwrap_or((row, ""));
    let (name, id) = rest.split_once(' ').unwrap_or((rest, ""));
    let address = Address {
        kind: TypeName {
            namespace: Text::copy_of(alloc, namespace)?,
            name: Text::copy_of(alloc, name)?,
        },
        id: Text::copy_of(alloc, id)?,
    };
    let group = key_group(&address);
    let mut shown = format!(in alloc; "  group {group} partitions")?;
    for partitions in 1..17u32 {
        let partition = partition_of(&address, partitions);
        let more = format!(in alloc; " {partition}")?;
        shown.push_str(more.as_str())?;
    }
    shown.push_str("\n")?;
    Ok(shown)
}
