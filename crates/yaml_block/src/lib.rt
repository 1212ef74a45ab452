//! Module files as trees: a profile of YAML 1.2.
//!
//! A text has documents, a document is a block, and a block is a scalar, a mapping or a sequence, by its indentation
//! alone. Flow collections, block scalars, anchors, tags and directives are refused. `specs/Documents.antt` says what
//! a text means, and `laws` what follows from that.
#![tactic(auto)]

mod blocks;
mod documents;
mod fault;
mod keys;
pub mod laws;
mod lines;
mod node;
mod piece;
mod quoted;
mod scalars;

pub use documents::read_documents;
pub use fault::YamlFault;
pub use node::{Node, NodeKind, Pair};
pub use sqlite_items::Items;
