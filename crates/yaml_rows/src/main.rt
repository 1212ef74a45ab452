//! The program `yaml_rows`: reads the texts of rows on standard input as module files are read, and prints each row with
//! the trees or the refusal below it. Rows that begin with `module|` are module files, with `url|` URLs, and with `group|` addresses.
#![tactic(auto)]

mod input;
mod modules;
mod trees;

use input::text_of_row;
use modules::{group_shown, module_shown, url_shown};
use proto_wire::{List, Text};
use row_text::{Failure, Rows, show_rows};
use std::alloc::Global;
use std::process::ExitCode;
use trees::put_node;
use yaml_block::{Node, YamlFault, read_documents};

#[derive(Drop)]
struct YamlRows;

impl Rows for YamlRows {
    fn shown(&self, alloc: Global, row: &str) -> Result<String, Failure> {
        if let Some(rest) = row.strip_prefix("module|") {
            return module_shown(alloc, text_of_row(alloc, rest)?.as_slice());
        }
        if let Some(rest) = row.strip_prefix("url|") {
            return url_shown(alloc, text_of_row(alloc, rest)?);
        }
        if let Some(rest) = row.strip_prefix("group|") {
            return group_shown(alloc, rest);
        }
        let bytes = text_of_row(alloc, row)?;
        match read_documents(alloc, bytes.as_slice()) {
            Ok(nodes) => trees_of(alloc, &nodes),
            Err(
                YamlFault::Refused {
                    document,
                    line,
                    kind,
                },
            ) => {
                let kind = kind.name();
                Ok(format!(in alloc; "  refused {document} {line} {kind}\n")?)
            }
            Err(YamlFault::OutOfMemory) => Err(Failure::OutOfMemory),
        }
    }
}

/// A line for each document.
fn trees_of(alloc: Global, nodes: &List<Node>) -> Result<String, Failure> {
    let mut text = Text::new(alloc);
    if nodes.is_empty() {
        text.append("  no documents\n")?;
    }
    for node in nodes.as_slice() {
        text.append("  ")?;
        put_node(alloc, node, &mut text)?;
        text.append("\n")?;
    }
    Ok(String::from_str(alloc, text.as_str())?)
}

fn main(rt: HostRuntime) -> ExitCode {
    show_rows(&rt, "yaml_rows", &YamlRows)
}
