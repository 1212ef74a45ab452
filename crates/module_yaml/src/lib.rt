//! Module files: what a job is made of, as YAML documents.
//!
//! `specs/Keys.antt` has the keys of each kind of document, `specs/Mappings.antt` the one rule by which a mapping is refused,
//! and `specs/Files.antt` what a whole file means.
#![tactic(auto)]

mod documents;
mod fault;
mod keys;
mod nodes;
mod part;
mod specs_of;
mod values;

pub use documents::read_module;
pub use fault::ModuleFault;
