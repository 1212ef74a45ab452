//! Where a job's records and requests go.
#![tactic(auto)]

mod http_target;
mod laws;
mod maps;
mod module;
mod partition;
mod routes;
mod text;

pub use http_target::{HttpTarget, UrlFault, split_url};
pub use laws::the_text_tells_the_module;
pub use module::{Endpoint, IngressSpec, Module};
pub use partition::{key_group, partition_of};
pub use routes::{Routes, filled};
pub use text::job_text;
