//! The letters of a batch.
ghost use Rattle.std.specs.Prelude.{◌≡◌, ◌+◌, ℕ, IfOk};
ghost use Rattle.std.specs.Option.{option_map};
ghost use Rattle.proto_wire.specs.Message.{capped};
ghost use Rattle.typed_values.specs.declared.letter.Sender.{Sender};
ghost use Rattle.typed_values.specs.declared.address.Address.{Address};
ghost use Rattle.typed_values.specs.declared.letter.Sender.TheVariants.{Function};
ghost use Rattle.batch_queue.specs.Batches.{records_size};
ghost use Rattle.run_record.specs.Machine.{picked, unpicked};
ghost use Rattle.run_record.specs.StateOf.{mail_of};

use invocation::RequestSize;
use keyed_queues::{Numbers, Shelves};
use proto_wire::Mem;
use std::alloc::Global;
use typed_values::{Address, Sender, TypedValue};

/// The size of a request with such a head and the letters that picks stand for. `None` exactly where a letter is not there.
pub(crate) fn with_picked(
    alloc: Global,
    mail: &Shelves<Address, Sender, TypedValue>,
    address: &Address,
    picks: &[Sender],
    head: RequestSize,
) -> Mem<Option<RequestSize>>
    ensures { (records : ℕ) → head ≡ capped records → IfOk result (λ size. size ≡
        option_map (λ letters. capped (records + records_size letters)) (picked address.now (λ sender. mail_of mail.now sender address.now) picks.now)) }
{
    let mut tally = Numbers::new(alloc);
    let mut size = head;
    for sender in picks {
        let count = tally.at(sender);
        let Some(argument) = mail.get(address, sender, count as usize) else {
            return Ok(None);
        };
        size.add(sender, argument);
        tally.set(alloc, sender, count + 1)?;
    }
    Ok(Some(size))
}

/// Drops the letters to an address that picks stand for: from the front of each pair, as many as its sender was picked.
pub(crate) fn drop_picked(
    mail: &mut Shelves<Address, Sender, TypedValue>,
    address: &Address,
    picks: &[Sender],
)
    ensures { (sender : Sender) → (target : Address) →
        mail_of mail.new sender target ≡ unpicked (Function address.now) picks.now (mail_of mail.old) sender target }
{
    for sender in picks {
        mail.drop_first(address, sender);
    }
}
