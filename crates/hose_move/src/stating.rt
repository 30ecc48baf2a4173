// What an old journal states for a new one, read from its disk.
ghost use Rattle.std.specs.Prelude.{◌≡◌, [], All, IfOk, take};
ghost use Rattle.hose_graph.specs.Network.{Network};
ghost use Rattle.hose_graph.specs.steps.Ranges.{IsInRanges};
ghost use Rattle.hose_journal.specs.Opening.{KeepsDisk};
ghost use Rattle.hose_store.specs.Opening.{IsUnchanged};
ghost use Rattle.hose_store.specs.steps.Replaying.{IsReplaying};
ghost use Rattle.hose_move.specs.Stating.{ReadsJournal};
ghost use Rattle.hose_move.specs.steps.Stating.{StatesAll};
ghost use Rattle.hose_move.specs.declared.stating.Scope.{Scope};

use crate::begun::is_begun;
use crate::collecting::{collect, pass};
use crate::live::state_live;
use hose_disk::{Disk, Failed};
use hose_graph::{Entry, Topology};
use hose_store::{Replay, StoreFault};
use std::alloc::{AllocError, Global};

/// Which entries a journal that is moved has.
#[derive(Clone, Copy, Debug, PartialEq, Eq)]
pub enum Scope {
    /// All that the old one has, in order.
    All,
    /// The first of these, so many of them; all where there are fewer.
    First(u64),
    /// An admission of each VPN that is live, in the order of their admission, and then the links
    /// that are out of service.
    Live,
}

/// What a journal states for one that it is moved into.
#[derive(Debug, Drop)]
pub struct Stated {
    /// The entries that the other one is to have.
    pub entries: Vec<Entry>,
    /// Where these are the live VPNs alone, their old numbers, in order: the k-th VPN, counted from
    /// 1, has the number k in the other journal.
    pub numbers: Vec<u64>,
}

/// What the journal on a disk, of a network, states for one that it is moved into: all of its
/// entries, the first of them, or what is live. The disk is only read. A journal that was not begun
/// states nothing.
pub fn read_journal<D: Disk>(
    alloc: Global,
    disk: D,
    old: &Topology,
    scope: Scope,
) -> (Result<Stated, StoreFault>, D)
    ensures reads { ReadsJournal D.Disk disk result.1 old.now scope result.0 }
    ensures ranges { IfOk result.0 (λ stated. All IsInRanges stated.entries.items) }
    // At every moment an image is one that the disk had before.
    ensures unchanged { IsUnchanged D.Disk disk result.1 }
    ensures kept { D.content result.1 ≡ D.content disk }
    ensures keeps { KeepsDisk D.Disk disk result.1 }
{
    let mut disk = disk;
    match is_begun(&mut disk) {
        Ok(true) => read_begun(alloc, disk, old, scope),
        Ok(false) => (Ok(state_nothing(alloc)), disk),
        Err(Failed) => (Err(StoreFault::Disk), disk),
    }
}

// What a journal states that has no entry.
fn state_nothing(alloc: Global) -> Stated
    ensures entries { result.entries.items ≡ [] }
    ensures numbers { result.numbers.items ≡ [] }
{
    Stated {
        entries: Vec::new(alloc),
        numbers: Vec::new(alloc),
    }
}

// What the journal on a disk states.
fn read_begun<D: Disk>(
    alloc: Global,
    disk: D,
    old: &Topology,
    scope: Scope,
) -> (Result<Stated, StoreFault>, D)
    ensures { StatesAll D.Disk disk result.1 old.now scope result.0 }
{
    let Ok(topology) = old.copy(alloc) else {
        return (Err(StoreFault::Memory), disk);
    };
    let mut replay = match Replay::open(alloc, disk, topology) {
        Ok(replay) => replay,
        Err(refused) => return (Err(refused.0), refused.1),
    };
    let stated = state_all(alloc, &mut replay, scope);
    (stated, replay.stop())
}

// What a journal states of which nothing was read.
fn state_all<D: Disk>(
    alloc: Global,
    replay: &mut Replay<D>,
    scope: Scope,
) -> Result<Stated, StoreFault>
    requires { (was : D) × (network : Network) × IsReplaying D.Disk was network replay.old [] }
    ensures { (was : D) → (network : Network) → IsReplaying D.Disk was network replay.old [] →
        StatesAll D.Disk was replay.new.reading.disk network scope result }
{
    match scope {
        Scope::All => state_entries(alloc, replay),
        Scope::First(count) => state_first(alloc, replay, count),
        Scope::Live => state_book(alloc, replay),
    }
}

// All entries of a journal of which nothing was read.
fn state_entries<D: Disk>(alloc: Global, replay: &mut Replay<D>) -> Result<Stated, StoreFault>
    requires { (was : D) × (network : Network) × IsReplaying D.Disk was network replay.old [] }
    ensures { (was : D) → (network : Network) → IsReplaying D.Disk was network replay.old [] →
        StatesAll D.Disk was replay.new.reading.disk network Scope.All result }
{
    let mut entries = Vec::new(alloc);
    collect(alloc, replay, &mut entries)?;
    Ok(Stated {
        entries,
        numbers: Vec::new(alloc),
    })
}

// The first entries, so many of them, of a journal of which nothing was read.
fn state_first<D: Disk>(
    alloc: Global,
    replay: &mut Replay<D>,
    count: u64,
) -> Result<Stated, StoreFault>
    requires { (was : D) × (network : Network) × IsReplaying D.Disk was network replay.old [] }
    ensures { (was : D) → (network : Network) → IsReplaying D.Disk was network replay.old [] →
        StatesAll D.Disk was replay.new.reading.disk network (Scope.First count) result }
{
    let all = state_entries(alloc, replay)?;
    Ok(front_of(all, count))
}

// The first entries of what is stated, so many of them.
fn front_of(all: Stated, count: u64) -> Stated
    ensures entries { result.entries.items ≡ take count all.entries.items }
    ensures numbers { result.numbers.items ≡ all.numbers.items }
{
    let mut entries = all.entries;
    entries.truncate(count as usize);
    Stated {
        entries,
        numbers: all.numbers,
    }
}

// What is live once all entries of a journal were read, of which nothing was read.
fn state_book<D: Disk>(alloc: Global, replay: &mut Replay<D>) -> Result<Stated, StoreFault>
    requires { (was : D) × (network : Network) × IsReplaying D.Disk was network replay.old [] }
    ensures { (was : D) → (network : Network) → IsReplaying D.Disk was network replay.old [] →
        StatesAll D.Disk was replay.new.reading.disk network Scope.Live result }
{
    pass(replay)?;
    match state_live(alloc, replay.book()) {
        Ok(stated) => Ok(stated),
        Err(AllocError) => Err(StoreFault::Memory),
    }
}
