//! What follows for any machine of actors that send letters to one another, whatever its steps are.
#![tactic(auto)]

mod laws;

pub use laws::{
    a_merge_is_a_run, a_run_is_what_each_actor_did, a_step_leads_on_from_a_cut,
    a_step_stands_at_its_key,
};
