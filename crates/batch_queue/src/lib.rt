//! Mail: the letters that wait for each address, and the batches in which they leave.
#![tactic(auto)]

mod fault;
mod laws;
mod limits;
mod line;
mod mail;
mod mailbox;
mod sizes;

pub use fault::BatchFault;
pub use laws::{
    a_batch_keeps_the_limit, letters_leave_in_order_of_arrival, size_is_that_of_the_request,
};
pub use limits::Limits;
pub use mail::Mail;
