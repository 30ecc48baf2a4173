// Reading a journal to its end: its entries into a list, or for the book that they lead to.
ghost use Rattle.std.specs.Prelude.{◌≡◌, ◌+◌, ◌≤◌, [], List, Ok, true};
ghost use Rattle.hose_graph.specs.Network.{Network};
ghost use Rattle.hose_graph.specs.declared.entry.Entry.{Entry};
ghost use Rattle.hose_graph.specs.Limits.{most_epoch};
ghost use Rattle.hose_store.specs.steps.Replaying.{IsReplaying};
ghost use Rattle.hose_move.specs.steps.Collecting.{CollectsAll, CollectsNext, HasPassed, PassesAll, PassesNext};

use hose_codec::decode;
use hose_disk::Disk;
use hose_graph::Entry;
use hose_store::{Replay, StoreFault};
use std::alloc::Global;

/// Adds all entries of a journal to an empty list, where none was read.
pub fn collect<D: Disk>(
    alloc: Global,
    replay: &mut Replay<D>,
    entries: &mut Vec<Entry>,
) -> Result<(), StoreFault>
    requires empty { entries.old.items ≡ [] }
    requires first { (was : D) × (network : Network)
        × IsReplaying D.Disk was network replay.old [] }
    ensures { (was : D) → (network : Network) → IsReplaying D.Disk was network replay.old [] →
        CollectsAll D.Disk was network replay.new entries.new.items result }
{
    while collect_next(alloc, replay, entries)? {}
    Ok(())
}

// Adds the next entry, and says whether there was one.
fn collect_next<D: Disk>(
    alloc: Global,
    replay: &mut Replay<D>,
    entries: &mut Vec<Entry>,
) -> Result<bool, StoreFault>
    requires { (was : D) × (network : Network)
        × HasPassed D.Disk was network replay.old entries.old.items }
    ensures collects { (was : D) → (network : Network) →
        HasPassed D.Disk was network replay.old entries.old.items →
        CollectsNext D.Disk was network replay.new entries.new.items result }
    ensures more { result ≡ Ok true →
        (replay.new.book.book.epoch ≡ replay.old.book.book.epoch + 1)
        × (replay.new.book.book.epoch ≤ most_epoch) }
{
    let Some(ready) = replay.next()? else {
        return Ok(false);
    };
    let Ok(entry) = decode(alloc, &ready.bytes) else {
        return Err(StoreFault::Memory);
    };
    let Ok(()) = entries.push(entry) else {
        return Err(StoreFault::Memory);
    };
    Ok(true)
}

/// Reads all entries of a journal, where none was read.
pub fn pass<D: Disk>(replay: &mut Replay<D>) -> Result<(), StoreFault>
    requires { (was : D) × (network : Network) × IsReplaying D.Disk was network replay.old [] }
    ensures { (was : D) → (network : Network) → IsReplaying D.Disk was network replay.old [] →
        PassesAll D.Disk was network replay.new result }
{
    while pass_next(replay)? {}
    Ok(())
}

// Reads the next entry, and says whether there was one.
fn pass_next<D: Disk>(replay: &mut Replay<D>) -> Result<bool, StoreFault>
    requires { (was : D) × (network : Network) × (entries : List Entry)
        × HasPassed D.Disk was network replay.old entries }
    ensures passes { (was : D) → (network : Network) → (entries : List Entry) →
        HasPassed D.Disk was network replay.old entries →
        PassesNext D.Disk was network replay.new result }
    ensures more { result ≡ Ok true →
        (replay.new.book.book.epoch ≡ replay.old.book.book.epoch + 1)
        × (replay.new.book.book.epoch ≤ most_epoch) }
{
    let Some(_ready) = replay.next()? else {
        return Ok(false);
    };
    Ok(true)
}
