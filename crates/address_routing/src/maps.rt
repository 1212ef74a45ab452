//! Maps by name, made of lists.
ghost use Rattle.std.specs.Prelude.{◌≡◌, ℕ, List, true, IfOk, OnOk, None, Some, find, if◌then◌else◌};
ghost use Rattle.std.specs.List.{list_any};
ghost use Rattle.std.specs.Option.{option_copied};
ghost use Rattle.std.specs.BTreeMap.{get};
ghost use Rattle.typed_values.specs.declared.name.TypeName.{TypeName};
ghost use Rattle.std.specs.BTreeSet.{contains};
ghost use Rattle.typed_values.specs.Sameness.{same_bytes};
ghost use Rattle.address_routing.specs.Routing.{is_exact, is_wide, is_called};
ghost use Rattle.address_routing.specs.Kept.{name_order, text_order, has_name, endpoint_at};

use crate::Endpoint;
use proto_wire::{Mem, Text, TryClone};
use std::alloc::Global;
use std::collections::{BTreeMap, BTreeSet};
use typed_values::TypeName;

/// Of each type, the place of the first endpoint for that very name.
pub(crate) fn exact_places(alloc: Global, endpoints: &[Endpoint]) -> Mem<BTreeMap<TypeName, usize>>
    ensures { IfOk result (λ places. (kind : TypeName) →
        endpoint_at endpoints.now (get name_order places kind) ≡ find (is_exact kind) endpoints.now) }
{
    let mut places = BTreeMap::new(alloc);
    // From the back: what is put in last is found.
    let mut place = endpoints.len();
    'back: while place > 0 {
        place -= 1;
        note_exact(alloc, &mut places, &endpoints[place], place)?;
    }
    Ok(places)
}

/// Of each namespace, the place of the first endpoint for all its names.
pub(crate) fn wide_places(alloc: Global, endpoints: &[Endpoint]) -> Mem<BTreeMap<Text, usize>>
    ensures { IfOk result (λ places. (kind : TypeName) →
        endpoint_at endpoints.now (get text_order places kind.namespace) ≡ find (is_wide kind) endpoints.now) }
{
    let mut places = BTreeMap::new(alloc);
    let mut place = endpoints.len();
    'back: while place > 0 {
        place -= 1;
        note_wide(alloc, &mut places, &endpoints[place], place)?;
    }
    Ok(places)
}

/// The names of a list, by namespace.
pub(crate) fn names_in(alloc: Global, names: &[TypeName]) -> Mem<BTreeMap<Text, BTreeSet<Text>>>
    ensures { IfOk result (λ spaces. (namespace name : List ℕ) → has_name spaces namespace name ≡ list_any (is_called namespace name) names.now) }
{
    let mut spaces = BTreeMap::new(alloc);
    for name in names {
        note_name(alloc, &mut spaces, name)?;
    }
    Ok(spaces)
}

/// Notes a name in its namespace.
fn note_name(
    alloc: Global,
    spaces: &mut BTreeMap<Text, BTreeSet<Text>>,
    noted: &TypeName,
) -> Mem<()>
    ensures { OnOk result ((namespace name : List ℕ) → has_name spaces.new namespace name
        ≡ (if is_called namespace name noted.now then true else has_name spaces.old namespace name)) }
{
    let mut names = take_names(alloc, spaces, &noted.namespace);
    names.insert(noted.name.try_clone(alloc)?)?;
    spaces.insert(noted.namespace.try_clone(alloc)?, names)?;
    Ok(())
}

/// Takes the names of a namespace out.
fn take_names(
    alloc: Global,
    spaces: &mut BTreeMap<Text, BTreeSet<Text>>,
    namespace: &Text,
) -> BTreeSet<Text>
    ensures taken { (name : List ℕ) → contains text_order result name ≡ has_name spaces.old namespace.now name }
    ensures others { (other : List ℕ) → get text_order spaces.new other ≡ (if same_bytes other namespace.now then None else get text_order spaces.old other) }
{
    match spaces.remove(namespace) {
        Some(names) => names,
        None => BTreeSet::new(alloc),
    }
}

/// Notes the place of an endpoint for one name.
fn note_exact(
    alloc: Global,
    places: &mut BTreeMap<TypeName, usize>,
    endpoint: &Endpoint,
    place: usize,
) -> Mem<()>
    ensures { OnOk result ((kind : TypeName) → get name_order places.new kind
        ≡ (if is_exact kind endpoint.now then Some place else get name_order places.old kind)) }
{
    if let Some(name) = &endpoint.pattern.name {
        let kind = TypeName {
            namespace: endpoint.pattern.namespace.try_clone(alloc)?,
            name: name.try_clone(alloc)?,
        };
        places.insert(kind, place)?;
    }
    Ok(())
}

/// Notes the place of an endpoint for a namespace.
fn note_wide(
    alloc: Global,
    places: &mut BTreeMap<Text, usize>,
    endpoint: &Endpoint,
    place: usize,
) -> Mem<()>
    ensures { OnOk result ((kind : TypeName) → get text_order places.new kind.namespace
        ≡ (if is_wide kind endpoint.now then Some place else get text_order places.old kind.namespace)) }
{
    if endpoint.pattern.name.is_none() {
        places.insert(endpoint.pattern.namespace.try_clone(alloc)?, place)?;
    }
    Ok(())
}

/// The endpoint that stands at a place, if there is one.
pub(crate) fn endpoint_at<'a>(
    endpoints: &'a [Endpoint],
    place: Option<&usize>,
) -> Option<&'a Endpoint>
    ensures { option_copied result ≡ endpoint_at endpoints.now (option_copied place.entry) }
{
    match place {
        Some(place) => endpoints.get(*place),
        None => None,
    }
}
