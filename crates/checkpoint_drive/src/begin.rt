//! What turns begin with: the newest checkpoint of a folder.
ghost use Rattle.std.specs.Prelude.{◌≡◌, ◌≤◌, ◌++◌, ◌<◌, true, false, length, IfOk, MatchResult};
ghost use Rattle.std.specs.Option.{is_some};
ghost use Rattle.std.specs.List.{list_all};
ghost use Rattle.address_routing.specs.Routing.{endpoint_of};
ghost use Rattle.store_faults.specs.declared.fault.StoreFault.TheVariants.{NotAStore as IsNoStore};
ghost use Rattle.checkpoint_state.specs.Stored.{states_in, delays_in, letters_in, on_the_way};
ghost use Rattle.checkpoint_drive.specs.Begins.{reaches_delay, reaches_letter, reaches_work};

use address_routing::Routes;
use partition_core::KeptWork;
use piece_messages::{AddressState, Piece};
use proto_wire::{List, Mem};
use std::alloc::Global;
use store_faults::StoreFault;
use typed_values::{Delay, Letter, TypeName};

/// The number of the manifest's file.
const MANIFEST: u32 = 0;

/// The number of the file of the only partition.
const PIECES: u32 = 2;

/// The parts of pieces, in order of partitions.
#[derive(Drop)]
struct Gathered {
    letters: Vec<Letter>,
    states: Vec<AddressState>,
    delays: Vec<Delay>,
}

/// The work that pieces keep, with the letters that were on the way behind those that waited.
pub(crate) fn kept_of(
    alloc: Global,
    pieces: List<Piece>,
    feedback: List<List<Letter>>,
) -> Mem<KeptWork>
    ensures letters { IfOk result (λ kept. kept.letters ≡ letters_in pieces ++ on_the_way feedback) }
    ensures states { IfOk result (λ kept. kept.states ≡ states_in pieces) }
    ensures delays { IfOk result (λ kept. kept.delays ≡ delays_in pieces) }
{
    let gathered = gather(alloc, pieces)?;
    let mut letters = gathered.letters;
    let mut on_the_way = joined(alloc, feedback)?;
    letters.append(&mut on_the_way)?;
    Ok(KeptWork {
        letters: List::of(letters),
        states: List::of(gathered.states),
        delays: List::of(gathered.delays),
    })
}

/// What pieces keep.
fn gather(alloc: Global, pieces: List<Piece>) -> Mem<Gathered>
    ensures letters { IfOk result (λ all. all.letters.items ≡ letters_in pieces) }
    ensures states { IfOk result (λ all. all.states.items ≡ states_in pieces) }
    ensures delays { IfOk result (λ all. all.delays.items ≡ delays_in pieces) }
{
    let mut letters = Vec::new(alloc);
    let mut states = Vec::new(alloc);
    let mut delays = Vec::new(alloc);
    for piece in pieces.into_vec() {
        letters.append(&mut piece.letters.into_vec())?;
        states.append(&mut piece.states.into_vec())?;
        delays.append(&mut piece.delays.into_vec())?;
    }
    Ok(Gathered {
        letters,
        states,
        delays,
    })
}

/// Lists of letters as one.
fn joined(alloc: Global, lists: List<List<Letter>>) -> Mem<Vec<Letter>>
    ensures { IfOk result (λ letters. letters.items ≡ on_the_way lists) }
{
    let mut all = Vec::new(alloc);
    for letters in lists.into_vec() {
        all.append(&mut letters.into_vec())?;
    }
    Ok(all)
}

/// Refuses a checkpoint that counts more splits than there are.
pub(crate) fn check_counts(splits: u64, taken: &[u64]) -> Result<(), StoreFault>
    ensures { MatchResult result (λ _. length taken.now ≤ splits)
        (λ fault. (fault ≡ IsNoStore 0 0) × (splits < length taken.now)) }
{
    if taken.len() as u64 <= splits {
        return Ok(());
    }
    Err(StoreFault::NotAStore {
        file: MANIFEST,
        place: 0,
    })
}

/// Refuses work in which something waits for a function that has no endpoint.
pub(crate) fn check_targets(routes: &Routes, kept: &KeptWork) -> Result<(), StoreFault>
    ensures { MatchResult result (λ _. reaches_work routes.now kept.now.letters kept.now.delays ≡ true)
        (λ fault. (fault ≡ IsNoStore 2 0) × (reaches_work routes.now kept.now.letters kept.now.delays ≡ false)) }
{
    if reach_letters(routes, kept.letters.as_slice())
        && reach_delays(routes, kept.delays.as_slice())
    {
        return Ok(());
    }
    Err(StoreFault::NotAStore {
        file: PIECES,
        place: 0,
    })
}

/// Whether letters can be delivered.
fn reach_letters(routes: &Routes, letters: &[Letter]) -> bool
    ensures { result ≡ list_all (reaches_letter routes.now) letters.now }
{
    letters
        .iter()
        .all(|letter| has_endpoint(routes, &letter.target.kind))
}

/// Whether delayed letters can.
fn reach_delays(routes: &Routes, delays: &[Delay]) -> bool
    ensures { result ≡ list_all (reaches_delay routes.now) delays.now }
{
    delays
        .iter()
        .all(|delay| has_endpoint(routes, &delay.target.kind))
}

/// Whether there is an endpoint for functions of that type.
fn has_endpoint(routes: &Routes, kind: &TypeName) -> bool
    ensures { result ≡ is_some (endpoint_of routes.now kind.now) }
{
    routes.endpoint_of(kind).is_some()
}
