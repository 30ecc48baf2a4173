// Entries that are moved into a journal.
ghost use Rattle.std.specs.Prelude.{All, [], IsTrue};
ghost use Rattle.hose_graph.specs.Network.{Network};
ghost use Rattle.hose_graph.specs.steps.Ranges.{IsInRanges};
ghost use Rattle.hose_store.specs.steps.Replaying.{IsReplaying};
ghost use Rattle.hose_move.specs.steps.Committing.{HasReadPart};
ghost use Rattle.hose_move.specs.Moving.{Moves, OnlyMoves};

use crate::committing::commit_rest;
use crate::comparing::compare;
use crate::fault::MoveFault;
use hose_book::Books;
use hose_disk::Disk;
use hose_graph::{Entry, Topology};
use hose_store::{Replay, StoreFault};
use std::alloc::Global;

/// Moves entries into the journal of a network on a disk, and says how many VPNs are live then. The
/// journal may have a part of them already, from the first one on; where none was begun, it begins
/// one. Each entry is judged by the book of those before it. So what a stop leaves is gone on from
/// by the same call.
pub fn move_into<D: Disk>(
    alloc: Global,
    disk: D,
    new: &Topology,
    entries: &[Entry],
) -> (Result<usize, MoveFault>, D)
    requires ranges { All IsInRanges entries.now }
    ensures moves { Moves D.Disk disk new.now entries.now result.1 result.0 }
    ensures only { OnlyMoves D.Disk disk new.now entries.now result.1 }
{
    let Ok(topology) = new.copy(alloc) else {
        return (Err(MoveFault::Store(StoreFault::Memory)), disk);
    };
    let mut replay = match Replay::open(alloc, disk, topology) {
        Ok(replay) => replay,
        Err(refused) => return (Err(MoveFault::Store(refused.0)), refused.1),
    };
    match compare(alloc, &mut replay, entries) {
        Ok(place) => go_on(alloc, replay, entries, place),
        Err(fault) => (Err(fault), replay.stop()),
    }
}

// Moves the entries from a place on into a journal that has those before it.
fn go_on<D: Disk>(
    alloc: Global,
    replay: Replay<D>,
    entries: &[Entry],
    place: usize,
) -> (Result<usize, MoveFault>, D)
    requires ranges { All IsInRanges entries.now }
    requires part { (was : D) × (network : Network)
        × HasReadPart D.Disk was network entries.now replay place }
    requires closed { IsTrue replay.reading.closed }
    ensures moves { (was : D) → (network : Network) →
        HasReadPart D.Disk was network entries.now replay place →
        Moves D.Disk was network entries.now result.1 result.0 }
    ensures only { (was : D) → (network : Network) →
        HasReadPart D.Disk was network entries.now replay place →
        OnlyMoves D.Disk was network entries.now result.1 }
{
    let mut store = match replay.into_store() {
        Ok(store) => store,
        Err(disk) => return (Err(MoveFault::Store(StoreFault::Disk)), disk),
    };
    match commit_rest(alloc, &mut store, entries, place) {
        Ok(()) => {
            let live = store.book().live().len();
            (Ok(live), store.stop())
        }
        Err(fault) => (Err(fault), store.stop()),
    }
}
