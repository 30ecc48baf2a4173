// The entries of a journal, compared with those that it should have.
ghost use Rattle.std.specs.Prelude.{◌≡◌, ◌≢◌, ◌≤◌, ◌↔◌, [], List, Ok, Some, IfOk, IsTrue, All, false, true, length, slice_get, take};
ghost use Rattle.hose_graph.specs.Network.{Network};
ghost use Rattle.hose_graph.specs.steps.Ranges.{IsInRanges};
ghost use Rattle.hose_graph.specs.declared.entry.Entry.{Entry};
ghost use Rattle.hose_codec.specs.Spelling.{IsSpelling};
ghost use Rattle.hose_store.specs.steps.Replaying.{IsReplaying};
ghost use Rattle.hose_move.specs.steps.Committing.{Compares, ComparesEntry, ComparesNext};

use crate::fault::MoveFault;
use hose_disk::Disk;
use hose_graph::Entry;
use hose_journal::ready;
use hose_store::Replay;
use std::alloc::{AllocError, Global};

/// How many entries a journal has of which nothing was read, where they are a part of these from
/// the first one on.
pub fn compare<D: Disk>(
    alloc: Global,
    replay: &mut Replay<D>,
    entries: &[Entry],
) -> Result<usize, MoveFault>
    requires ranges { All IsInRanges entries.now }
    requires first { (was : D) × (network : Network)
        × IsReplaying D.Disk was network replay.old [] }
    ensures compares { (was : D) → (network : Network) →
        IsReplaying D.Disk was network replay.old [] →
        Compares D.Disk was network entries.now replay.new result }
    ensures closed { IfOk result (λ _. IsTrue replay.new.reading.closed) }
{
    let mut place = 0;
    while compare_next(alloc, replay, entries, place)? {
        place += 1;
    }
    Ok(place)
}

// Whether the journal has an entry more. It is that of this place.
fn compare_next<D: Disk>(
    alloc: Global,
    replay: &mut Replay<D>,
    entries: &[Entry],
    place: usize,
) -> Result<bool, MoveFault>
    requires ranges { All IsInRanges entries.now }
    requires few { place ≤ length entries.now }
    requires part { (was : D) × (network : Network)
        × IsReplaying D.Disk was network replay.old (take place entries.now) }
    ensures compares { (was : D) → (network : Network) →
        IsReplaying D.Disk was network replay.old (take place entries.now) →
        ComparesNext D.Disk was network entries.now replay.new place result }
    ensures closed { result ≡ Ok false → IsTrue replay.new.reading.closed }
{
    match replay.next() {
        Ok(Some(given)) => compare_entry(alloc, entries, place, &given.bytes),
        Ok(None) => Ok(false),
        Err(fault) => Err(MoveFault::Store(fault)),
    }
}

// Whether these bytes are the spelling of the entry of a place; else they differ.
fn compare_entry(
    alloc: Global,
    entries: &[Entry],
    place: usize,
    bytes: &[u8],
) -> Result<bool, MoveFault>
    requires ranges { All IsInRanges entries.now }
    requires few { place ≤ length entries.now }
    ensures { ComparesEntry entries.now place bytes.now result }
{
    let epoch = place as u64 + 1;
    let Some(entry) = entries.get(place) else {
        return Err(MoveFault::Differs { epoch });
    };
    match is_spelled(alloc, entry, bytes) {
        Ok(true) => Ok(true),
        Ok(false) => Err(MoveFault::Differs { epoch }),
        Err(AllocError) => Err(MoveFault::Memory),
    }
}

// Whether these bytes are the spelling of this entry.
fn is_spelled(alloc: Global, entry: &Entry, bytes: &[u8]) -> Result<bool, AllocError>
    requires { IsInRanges entry.now }
    ensures same { result ≡ Ok true → (spelled : Entry) → IsSpelling spelled bytes.now →
        entry.now ≡ spelled }
    ensures other { result ≡ Ok false → (spelled : Entry) → IsSpelling spelled bytes.now →
        entry.now ≢ spelled }
{
    let own = ready(alloc, entry)?;
    Ok(is_same(&own.bytes, bytes))
}

// Whether these bytes are the same.
fn is_same(one: &[u8], other: &[u8]) -> bool
    ensures { IsTrue result ↔ (one.now ≡ other.now) }
{
    one == other
}
