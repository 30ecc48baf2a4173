// The journal of a host with a standby, opened with its last packets at hand.
ghost use Rattle.std.specs.Prelude.{◌≡◌, ◌+◌, ◌≤◌, ◌++◌, ◌∷◌, List, [], Err, IfErr, IfOk, None, Ok, true};
ghost use Rattle.hose_graph.specs.Network.{Network};
ghost use Rattle.hose_graph.specs.declared.entry.Entry.{Entry};
ghost use Rattle.hose_graph.specs.Limits.{most_epoch};
ghost use Rattle.hose_lead.specs.steps.LedStore.{IsLedOf};
ghost use Rattle.hose_outside.specs.OnDisk.{OthersStay};
ghost use Rattle.hose_outside.specs.Unopened.{OpensNoJournal};
ghost use Rattle.hose_outside.specs.steps.Journal.{IsJustOpened, IsOpenCall, OpensJournal};
ghost use Rattle.hose_outside.specs.steps.Unopened.{IsNotOpened};
ghost use Rattle.hosed_host.specs.steps.Reading.{HasRead, IsNextOf, ReadsAll, ReadsNext, ReadsStore};

use hose_disk::{Cabinet, Disk};
use hose_graph::Topology;
use hose_lead::{LedStore, RecentPackets};
use hose_outside::{Fault, open_journal};
use hose_store::{Premises, Replay, StoreFault};
use std::alloc::Global;

// How many bytes of the last packets of a history are kept for a standby.
const RECENT_BYTES: usize = 67_108_864;

/// Takes the disk of a name out of the cabinet and opens the store on it; where none is opened, the
/// disk is put back. Where it `is_led`, the last packets of its history are at hand. What is added
/// to the store is to be as `P` says.
pub fn open_led<C: Cabinet, P: Premises>(
    alloc: Global,
    name: &str,
    topology: Topology,
    is_led: bool,
    cabinet: &mut C,
) -> Result<LedStore<C::Disk>, Fault>
    requires { (C.frame cabinet.old).out ≡ None }
    ensures opens { IfOk result (λ led. (opens : OpensJournal C.Cabinet C.Disk.Disk P.kind name.now
        cabinet.old cabinet.new topology led.store)
        × IsLedOf C.Disk.Disk led topology opens.opens.opened.history) }
    ensures refused { IfErr result (λ why. OpensNoJournal C.Cabinet C.Disk.Disk name.now
        cabinet.old cabinet.new topology (Err why)) }
    ensures others { OthersStay C.Cabinet name.now cabinet.old cabinet.new }
    ensures call { IsOpenCall name.now (C.frame cabinet.old) (C.frame cabinet.new) result }
{
    if is_led {
        return open_with_packets::<C, P>(alloc, name, topology, cabinet);
    }
    match open_journal::<C, P>(alloc, name, topology, cabinet) {
        Ok(store) => Ok(LedStore::of(alloc, store, 0)),
        Err(why) => Err(why),
    }
}

// Takes the disk of a name out of the cabinet and opens the store on it, with its last packets at
// hand.
fn open_with_packets<C: Cabinet, P: Premises>(
    alloc: Global,
    name: &str,
    topology: Topology,
    cabinet: &mut C,
) -> Result<LedStore<C::Disk>, Fault>
    requires { (C.frame cabinet.old).out ≡ None }
    ensures opens { IfOk result (λ led. (opens : OpensJournal C.Cabinet C.Disk.Disk P.kind name.now
        cabinet.old cabinet.new topology led.store)
        × IsLedOf C.Disk.Disk led topology opens.opens.opened.history) }
    ensures refused { IfErr result (λ why. OpensNoJournal C.Cabinet C.Disk.Disk name.now
        cabinet.old cabinet.new topology (Err why)) }
    ensures others { OthersStay C.Cabinet name.now cabinet.old cabinet.new }
    ensures call { IsOpenCall name.now (C.frame cabinet.old) (C.frame cabinet.new) result }
{
    let Ok(disk) = cabinet.disk(name) else {
        return Err(Fault::Cabinet);
    };
    match open_led_store::<C::Disk, P>(alloc, topology, disk) {
        Ok(led) => Ok(led),
        Err(refused) => {
            cabinet.back(refused.1);
            Err(refused.0)
        }
    }
}

// Opens the store on a disk with its last packets at hand, or says why it is not opened and hands
// the disk back.
fn open_led_store<D: Disk, P: Premises>(
    alloc: Global,
    topology: Topology,
    disk: D,
) -> Result<LedStore<D>, (Fault, D)>
    ensures opens { IfOk result (λ led. (opens : IsJustOpened D.Disk P.kind disk topology led.store)
        × IsLedOf D.Disk led topology opens.opened.history) }
    ensures refused { IfErr result (λ refused.
        IsNotOpened D.Disk disk refused.1 topology (Err refused.0)) }
{
    match read_store(alloc, topology, disk) {
        Ok(led) => Ok(led),
        Err(refused) => Err((Fault::from(refused.0), refused.1)),
    }
}

// Reads the journal on a disk to its end, and takes it for a store.
fn read_store<D: Disk>(
    alloc: Global,
    topology: Topology,
    disk: D,
) -> Result<LedStore<D>, (StoreFault, D)>
    ensures { ReadsStore D.Disk disk topology result }
{
    let mut replay = match Replay::open(alloc, disk, topology) {
        Ok(replay) => replay,
        Err(refused) => return Err(refused),
    };
    let mut recent = RecentPackets::new(alloc, RECENT_BYTES, 0, replay.chain());
    match read_all(&mut replay, &mut recent) {
        Ok(()) => store_of(replay, recent),
        Err(fault) => Err((fault, replay.stop())),
    }
}

// The store of a journal that was read to its end.
fn store_of<D: Disk>(
    replay: Replay<D>,
    recent: RecentPackets,
) -> Result<LedStore<D>, (StoreFault, D)>
    requires { (was : D) × (network : Network)
        × ReadsAll D.Disk was network replay recent (Ok tt) }
    ensures { (was : D) → (network : Network)
        → ReadsAll D.Disk was network replay recent (Ok tt)
        → ReadsStore D.Disk was network result }
{
    match replay.into_store() {
        Ok(store) => Ok(LedStore::with_recent(store, recent)),
        Err(disk) => Err((StoreFault::Disk, disk)),
    }
}

// Reads all entries of a journal, where none was read, and takes in their packets.
fn read_all<D: Disk>(replay: &mut Replay<D>, recent: &mut RecentPackets) -> Result<(), StoreFault>
    requires { (was : D) × (network : Network)
        × HasRead D.Disk was network replay.old recent.old [] }
    ensures { (was : D) → (network : Network)
        → HasRead D.Disk was network replay.old recent.old []
        → ReadsAll D.Disk was network replay.new recent.new result }
{
    while read_next(replay, recent)? {}
    Ok(())
}

// Reads the next entry and takes in its packet, and says whether there was one.
fn read_next<D: Disk>(
    replay: &mut Replay<D>,
    recent: &mut RecentPackets,
) -> Result<bool, StoreFault>
    requires { (was : D) × (network : Network) × (entries : List Entry)
        × HasRead D.Disk was network replay.old recent.old entries }
    ensures reads { (was : D) → (network : Network) → (entries : List Entry)
        → HasRead D.Disk was network replay.old recent.old entries
        → ReadsNext D.Disk was network replay.new recent.new result }
    ensures more { result ≡ Ok true
        → (replay.new.book.book.epoch ≡ replay.old.book.book.epoch + 1)
        × (replay.new.book.book.epoch ≤ most_epoch) }
{
    let Some(ready) = replay.next()? else {
        return Ok(false);
    };
    take_in(recent, replay, &ready.bytes);
    Ok(true)
}

// Takes in the packet of the entry that was read last, by its spelling.
fn take_in<D: Disk>(recent: &mut RecentPackets, replay: &Replay<D>, body: &[u8])
    requires next { (was : D) × (network : Network) × (entries : List Entry) × (entry : Entry)
        × IsNextOf D.Disk was network replay.now recent.old entries entry body.now }
    requires few { replay.now.book.book.epoch ≤ most_epoch }
    ensures { (was : D) → (network : Network) → (entries : List Entry) → (entry : Entry)
        → IsNextOf D.Disk was network replay.now recent.old entries entry body.now
        → HasRead D.Disk was network replay.now recent.new (entries ++ entry ∷ []) }
{
    // Where no memory is left for the packet, none is at hand then.
    let _kept = recent.push(body, replay.chain());
}
