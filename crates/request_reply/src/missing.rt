//! The cells that missing values declare.
ghost use Rattle.std.specs.Prelude.{◌≡◌, ◌+◌, ◌++◌, is_none, if◌then◌else◌, ◌<◌, ◌^◌, [], ◌∷◌, length, map, IfOk, MatchResult, None, Some};
ghost use Rattle.std.specs.Option.{option_copied};
ghost use Rattle.typed_values.specs.Cells.{empty};
ghost use Rattle.request_reply.specs.Flaws.{added, mode_in, millis_in, declared, is_expiry, missing_flaw, type_of, none_new, flaw_at, incomplete_flaw};

use crate::{ExpirationSpec, Flaw, FlawKind, Known, PersistedValueSpec};
use proto_wire::{List, Mem, Text};
use std::alloc::Global;
use typed_values::{CellSpec, Expiry};

/// The most cells of an address.
const MOST_CELLS: usize = 64;

/// Whether the expiry of a missing value is one.
fn is_expiry(expiry: &Option<ExpirationSpec>) -> bool
    ensures { result ≡ is_expiry expiry.now }
{
    match expiry {
        Some(expiry) => {
            expiry.mode == 0
                || (0 < expiry.mode && expiry.mode <= 2 && expiry.expire_after_millis > 0)
        }
        None => true,
    }
}

/// Which of its uses a value's time counts from.
fn mode_in(expiry: &Option<ExpirationSpec>) -> Expiry
    ensures { result ≡ mode_in expiry.now }
{
    match expiry {
        Some(expiry) => {
            if expiry.mode > 1 {
                Expiry::AfterInvoke
            } else if expiry.mode > 0 {
                Expiry::AfterWrite
            } else {
                Expiry::Never
            }
        }
        None => Expiry::Never,
    }
}

/// How long a value lasts. A number below 0 is kept as 0.
fn millis_in(expiry: &Option<ExpirationSpec>) -> u64
    ensures { result ≡ millis_in expiry.now }
{
    match expiry {
        Some(expiry) => {
            if expiry.expire_after_millis < 0 {
                0
            } else {
                expiry.expire_after_millis as u64
            }
        }
        None => 0,
    }
}

/// The cell that a missing value declares.
fn declared(missing: PersistedValueSpec) -> CellSpec
    ensures { result ≡ declared missing }
{
    CellSpec {
        mode: mode_in(&missing.expiration_spec),
        millis: millis_in(&missing.expiration_spec),
        name: missing.state_name,
        typename: missing.type_typename,
    }
}

/// The type of the first of some declarations that has a name.
fn type_in<'a>(specs: &'a [CellSpec], name: &Text) -> Option<&'a Text>
    ensures { option_copied result ≡ type_of name.now (map empty specs.now) }
{
    for spec in specs {
        if *name == spec.name {
            return Some(&spec.typename);
        }
    }
    None
}

/// The type under which a name is known, beside the cells that are known and those of some declarations.
fn type_of<'a, K: Known>(known: &'a K, new: &'a [CellSpec], name: &Text) -> Option<&'a Text>
    ensures { option_copied result ≡ type_of name.now ((K.setting known.now).cells ++ map empty new.now) }
{
    match known.type_of(name) {
        Some(typename) => Some(typename),
        None => type_in(new, name),
    }
}

/// Whether the name of a missing value is new, beside such cells.
fn is_new<K: Known>(
    value: &PersistedValueSpec,
    new: &[CellSpec],
    known: &K,
) -> Result<bool, FlawKind>
    ensures { let cells = (K.setting known.now).cells ++ map empty new.now in MatchResult result
        (λ is_new. (missing_flaw cells value.now ≡ None) × (is_new ≡ is_none (type_of value.now.state_name cells)))
        (λ kind. missing_flaw cells value.now ≡ Some kind) }
{
    if !is_expiry(&value.expiration_spec) {
        return Err(FlawKind::BadExpiry);
    }
    match type_of(known, new, &value.state_name) {
        Some(typename) => {
            if *typename == value.type_typename {
                Ok(false)
            } else {
                Err(FlawKind::TypeDiffers)
            }
        }
        None => {
            if known.cell_count().saturating_add(new.len()) < MOST_CELLS {
                Ok(true)
            } else {
                Err(FlawKind::TooMany)
            }
        }
    }
}

/// Takes in a missing value: its cell goes behind the declarations where its name is new. An `Err` inside is its flaw.
fn take_in<K: Known>(
    new: &mut List<CellSpec>,
    value: PersistedValueSpec,
    known: &K,
) -> Mem<Result<(), FlawKind>>
    ensures { let cells = (K.setting known.now).cells ++ map empty new.old in IfOk result (λ made. MatchResult made
        (λ _. (missing_flaw cells value ≡ None) × (new.new ≡ (if is_none (type_of value.state_name cells) then new.old ++ declared value ∷ [] else new.old)))
        (λ kind. missing_flaw cells value ≡ Some kind)) }
{
    match is_new(&value, new.as_slice(), known) {
        Ok(true) => {
            new.push(declared(value))?;
            Ok(Ok(()))
        }
        Ok(false) => Ok(Ok(())),
        Err(kind) => Ok(Err(kind)),
    }
}

/// The cells that missing values add to those that are known, or the first flaw.
pub(crate) fn declared_by<K: Known>(
    alloc: Global,
    values: List<PersistedValueSpec>,
    known: &K,
) -> Mem<Result<List<CellSpec>, Flaw>>
    requires { length values < 2 ^ 32 }
    ensures { IfOk result (λ made. MatchResult made
        (λ specs. (incomplete_flaw (K.setting known.now).cells values ≡ None) × (specs ≡ added (K.setting known.now).cells values))
        (λ flaw. incomplete_flaw (K.setting known.now).cells values ≡ Some flaw)) }
{
    let mut new = List::new(alloc);
    let mut index = 0;
    for value in values.into_vec() {
        if let Err(kind) = take_in(&mut new, value, known)? {
            return Ok(Err(flaw_at(kind, index)));
        }
        index += 1;
    }
    Ok(if_some(new))
}

/// At least one cell is to be new.
fn if_some(new: List<CellSpec>) -> Result<List<CellSpec>, Flaw>
    ensures { MatchResult result (λ specs. (none_new new ≡ None) × (specs ≡ new)) (λ flaw. none_new new ≡ Some flaw) }
{
    if new.is_empty() {
        Err(flaw_at(FlawKind::NoNewName, 0))
    } else {
        Ok(new)
    }
}

fn flaw_at(kind: FlawKind, index: u32) -> Flaw
    ensures { result ≡ flaw_at kind index }
{
    Flaw {
        kind,
        index,
        wire: None,
    }
}
