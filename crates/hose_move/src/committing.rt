// Entries that are committed to a store one after another, each judged by the book of those before.
ghost use Rattle.std.specs.Prelude.{◌≤◌, All, length};
ghost use Rattle.hose_graph.specs.Network.{Network};
ghost use Rattle.hose_graph.specs.steps.Ranges.{IsInRanges};
ghost use Rattle.hose_move.specs.steps.Committing.{IsMoving, MovesAll, TakesEntry};

use crate::fault::MoveFault;
use hose_book::{Books, Committed};
use hose_disk::Disk;
use hose_graph::Entry;
use hose_store::Store;
use std::alloc::Global;

/// Commits the entries from a place on to a store that has those before it.
pub fn commit_rest<D: Disk>(
    alloc: Global,
    store: &mut Store<D>,
    entries: &[Entry],
    from: usize,
) -> Result<(), MoveFault>
    requires ranges { All IsInRanges entries.now }
    requires few { from ≤ length entries.now }
    ensures { (was : D) → (network : Network) →
        IsMoving D.Disk was network entries.now store.old from →
        MovesAll D.Disk was network entries.now store.new result }
{
    for place in from..entries.len() {
        commit_entry(alloc, store, &entries[place])?;
    }
    Ok(())
}

// Commits an entry where it is sound.
fn commit_entry<D: Disk>(
    alloc: Global,
    store: &mut Store<D>,
    entry: &Entry,
) -> Result<(), MoveFault>
    requires ranges { IsInRanges entry.now }
    ensures { TakesEntry D.Disk store.old entry.now store.new result }
{
    if store.book().check(entry).is_err() {
        return Err(MoveFault::Unsound {
            epoch: store.book().epoch() + 1,
        });
    }
    let Ok(copy) = entry.copy(alloc) else {
        return Err(MoveFault::Memory);
    };
    let Ok(ready) = Store::<D>::prepare(alloc, &copy) else {
        return Err(MoveFault::Memory);
    };
    match store.commit(copy, ready) {
        Committed::Done => Ok(()),
        Committed::Disk => Err(MoveFault::Disk),
    }
}
