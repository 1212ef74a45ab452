//! Reading of names.
ghost use Rattle.std.specs.Prelude.{◌≡◌, ◌↔◌, Some, None, Err, IfOk};
ghost use Rattle.typed_values.specs.Names.{name_in, named, NamesAreMadeSo};
ghost use Rattle.typed_values.specs.declared.parse.NameFault.TheVariants.{BadName, OutOfMemory as WantsMemory};

use crate::TypeName;
use proto_wire::{OutOfMemory, Text};
use std::alloc::Global;

/// Why a text gave no name.
#[derive(Clone, Copy, Debug, PartialEq, Eq)]
pub enum NameFault {
    /// 6: it has no `/`, or nothing before its last one, or nothing behind it.
    BadName,
    /// The call could not get the memory that it asked for.
    OutOfMemory,
}

impl From<OutOfMemory> for NameFault {
    ghost from_gives = { λ _ e. e ≡ WantsMemory };

    fn from(_: OutOfMemory) -> NameFault {
        NameFault::OutOfMemory
    }
}

/// The name that a text spells: its namespace is what stands before its last `/`, and its name what stands behind it.
/// `BadName` exactly where there is no `/` or one of the two is empty.
pub fn parse_type_name(alloc: Global, text: &Text) -> Result<TypeName, NameFault>
    ensures found { IfOk result (λ name. name_in text.now ≡ Some name) }
    ensures bad { (result ≡ Err BadName) ↔ (name_in text.now ≡ None) }
{
    parse_name(alloc, text.as_str())
}

/// The name that a text spells, as `parse_type_name` gives it.
#[tactic(auto, unfolding(crate::specs::Names::name_in))]
pub fn parse_name(alloc: Global, text: &str) -> Result<TypeName, NameFault>
    ensures found { IfOk result (λ name. name_in text.now ≡ Some name) }
    ensures bad { (result ≡ Err BadName) ↔ (name_in text.now ≡ None) }
{
    match text.rsplit_once('/') {
        Some((namespace, name)) => name_of(alloc, namespace, name),
        None => Err(NameFault::BadName),
    }
}

/// A name of a namespace and a name; neither may be empty.
fn name_of(alloc: Global, namespace: &str, name: &str) -> Result<TypeName, NameFault>
    ensures found { IfOk result (λ made. named (namespace.now, name.now) ≡ Some made) }
    ensures bad { (result ≡ Err BadName) ↔ (named (namespace.now, name.now) ≡ None) }
{
    if namespace.is_empty() || name.is_empty() {
        return Err(NameFault::BadName);
    }
    Ok(TypeName {
        namespace: Text::copy_of(alloc, namespace)?,
        name: Text::copy_of(alloc, name)?,
    })
}

/// A name stands in a text exactly where the text is a namespace, a slash and a name without a slash, neither of them empty.
/// The function does nothing: its contract is that law.
pub fn names_are_made_so()
    ensures { NamesAreMadeSo }
{}
