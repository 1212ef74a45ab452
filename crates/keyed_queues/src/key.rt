//! The keys of the machine's queues.
ghost use Rattle.typed_values.proofs.Orders.{exact_names, exact_addresses, exact_senders};

use crate::shelf::Key;
use typed_values::{Address, Sender, TypeName};

impl Key for TypeName {
    ghost exact = { exact_names };
}

impl Key for Address {
    ghost exact = { exact_addresses };
}

impl Key for Sender {
    ghost exact = { exact_senders };
}
