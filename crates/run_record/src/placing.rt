//! Letters and egress records, put where they are kept.
ghost use Rattle.std.specs.Prelude.{◌≡◌, ◌++◌, IfOk, OnOk, OnErr, map};
ghost use Rattle.typed_values.specs.declared.address.Address.{Address};
ghost use Rattle.typed_values.specs.declared.name.TypeName.{TypeName};
ghost use Rattle.typed_values.specs.declared.letter.Sender.{Sender};
ghost use Rattle.run_record.specs.Machine.{posted, given};
ghost use Rattle.run_record.specs.StateOf.{mail_of, egress_in, placed_letter, placed_record};

use keyed_queues::{Placed, Shelves};
use proto_wire::{List, Mem};
use std::alloc::Global;
use typed_values::{Address, EgressRecord, Letter, Sender, TypeName, TypedValue};

/// Letters, to be kept by target and sender.
fn placed_letters(
    alloc: Global,
    letters: List<Letter>,
) -> Mem<Vec<Placed<Address, Sender, TypedValue>>>
    ensures { IfOk result (λ items. items.items ≡ map placed_letter letters) }
{
    let mut items = Vec::with_capacity(alloc, letters.len())?;
    for letter in letters.into_vec() {
        items.push(Placed {
            outer: letter.target,
            inner: letter.sender,
            value: letter.argument,
        })?;
    }
    Ok(items)
}

/// Egress records, to be kept by sender and egress.
fn placed_records(
    alloc: Global,
    records: List<EgressRecord>,
) -> Mem<Vec<Placed<Address, TypeName, TypedValue>>>
    ensures { IfOk result (λ items. items.items ≡ map placed_record records) }
{
    let mut items = Vec::with_capacity(alloc, records.len())?;
    for record in records.into_vec() {
        items.push(Placed {
            outer: record.sender,
            inner: record.egress,
            value: record.argument,
        })?;
    }
    Ok(items)
}

/// Letters go last in the mail of their pairs, in order. An `Err` changes no mail.
pub(crate) fn post(
    alloc: Global,
    mail: &mut Shelves<Address, Sender, TypedValue>,
    letters: List<Letter>,
) -> Mem<()>
    ensures ok { OnOk result ((sender : Sender) → (target : Address) →
        mail_of mail.new sender target ≡ posted (mail_of mail.old) letters sender target) }
    ensures err { OnErr result ((sender : Sender) → (target : Address) → mail_of mail.new sender target ≡ mail_of mail.old sender target) }
{
    let items = placed_letters(alloc, letters)?;
    let _places = mail.push_all(alloc, items)?;
    Ok(())
}

/// Letters go last in the mail of their pairs and egress records last in the egress of theirs, in order. An `Err` changes
/// neither.
pub(crate) fn send(
    alloc: Global,
    mail: &mut Shelves<Address, Sender, TypedValue>,
    egress: &mut Shelves<Address, TypeName, TypedValue>,
    letters: List<Letter>,
    records: List<EgressRecord>,
) -> Mem<()>
    ensures mail { OnOk result ((sender : Sender) → (target : Address) →
        mail_of mail.new sender target ≡ posted (mail_of mail.old) letters sender target) }
    ensures egress { OnOk result ((address : Address) → (name : TypeName) →
        egress_in egress.new address name ≡ given (egress_in egress.old) records address name) }
    ensures no_mail { OnErr result ((sender : Sender) → (target : Address) →
        mail_of mail.new sender target ≡ mail_of mail.old sender target) }
    ensures no_egress { OnErr result ((address : Address) → (name : TypeName) →
        egress_in egress.new address name ≡ egress_in egress.old address name) }
{
    let letters = placed_letters(alloc, letters)?;
    let records = placed_records(alloc, records)?;
    let places = mail.push_all(alloc, letters)?;
    if let Err(refused) = egress.push_all(alloc, records) {
        mail.withdraw(places.as_slice());
        return Err(refused);
    }
    Ok(())
}
