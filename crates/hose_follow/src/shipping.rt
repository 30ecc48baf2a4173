// The entries of a journal, sent on as packets.
ghost use Rattle.std.specs.Prelude.{◌≡◌, ◌+◌, ◌≤◌, [], List, Ok, true};
ghost use Rattle.hose_graph.specs.Network.{Network};
ghost use Rattle.hose_graph.specs.declared.entry.Entry.{Entry};
ghost use Rattle.hose_graph.specs.Limits.{most_epoch};
ghost use Rattle.hose_journal.specs.Moments.{LeavesOnly};
ghost use Rattle.hose_journal.specs.Opening.{KeepsDisk};
ghost use Rattle.hose_store.specs.Opening.{IsAtOpening};
ghost use Rattle.hose_store.specs.Replaying.{IsOnlyOpened};
ghost use Rattle.hose_store.specs.steps.Replaying.{IsReplaying};
ghost use Rattle.hose_follow.specs.steps.Shipping.{AddsAll, AddsNext, HasAdded, OutgoingPackets, Ships, outgoing_packets, shipment, shipped_of};

use crate::packet::add_packet;
use hose_disk::Disk;
use hose_graph::Topology;
use hose_io::{Failed, Gather, Sink};
use hose_store::{Replay, StoreFault};
use std::alloc::Global;

/// Why not all entries of a journal were sent.
#[derive(Clone, Copy, Debug, PartialEq, Eq)]
pub enum ShipFault {
    /// The journal is not opened, or read no further.
    Store(StoreFault),
    /// The sink failed.
    Write,
}

/// Writes the packets of the entries of the journal on a disk, from those of an epoch on, and says
/// how many. The first entry's epoch is 1. It writes no entry and no seal; where no journal was
/// begun, it begins one.
pub fn ship<S: Sink, D: Disk>(
    alloc: Global,
    sink: &mut S,
    disk: D,
    top: &Topology,
    from: u64,
) -> (Result<u64, ShipFault>, D)
    ensures ships { Ships S.Sink D.Disk sink.old sink.new (shipment disk top.now from) result.1
        result.0 }
    ensures any_moment { LeavesOnly D.Disk disk result.1 (IsAtOpening D.Disk disk top.now) }
    ensures keeps { KeepsDisk D.Disk disk result.1 }
{
    let Ok(topology) = top.copy(alloc) else {
        return (Err(ShipFault::Store(StoreFault::Memory)), disk);
    };
    let mut replay = match Replay::open(alloc, disk, topology) {
        Ok(replay) => replay,
        Err(refused) => return (Err(ShipFault::Store(refused.0)), refused.1),
    };
    let shipped = ship_all(&mut replay, sink, from);
    (shipped, replay.stop())
}

// Writes the packets of a journal of which nothing was read, in few pieces.
fn ship_all<S: Sink, D: Disk>(
    replay: &mut Replay<D>,
    sink: &mut S,
    from: u64,
) -> Result<u64, ShipFault>
    requires { (was : D) × (network : Network) × IsReplaying D.Disk was network replay.old [] }
    ensures ships { (was : D) → (network : Network) →
        IsReplaying D.Disk was network replay.old [] →
        Ships S.Sink D.Disk sink.old sink.new (shipment was network from)
        replay.new.reading.disk result }
    ensures opened { (was : D) → (network : Network) →
        IsReplaying D.Disk was network replay.old [] →
        IsOnlyOpened D.Disk was replay.new.reading.disk network }
{
    let mut gather = Gather::new();
    let added = add_all(replay, &mut gather, sink, from);
    let sent = gather.finish(sink);
    let count = replay.epoch().saturating_sub(from.saturating_sub(1));
    first_fault(added, sent, count)
}

// What came of adding packets and of sending them. Where the sink failed, that is told.
fn first_fault(
    added: Result<(), StoreFault>,
    sent: Result<(), Failed>,
    count: u64,
) -> Result<u64, ShipFault>
    ensures { result ≡ shipped_of added sent count }
{
    match (sent, added) {
        (Err(Failed), _) => Err(ShipFault::Write),
        (Ok(()), Err(fault)) => Err(ShipFault::Store(fault)),
        (Ok(()), Ok(())) => Ok(count),
    }
}

// Adds the packets of all entries that are to come, where none was read.
fn add_all<S: Sink, D: Disk>(
    replay: &mut Replay<D>,
    gather: &mut Gather,
    sink: &mut S,
    from: u64,
) -> Result<(), StoreFault>
    requires { (was : D) × (network : Network) × IsReplaying D.Disk was network replay.old [] }
    ensures { (was : D) → (network : Network) → IsReplaying D.Disk was network replay.old [] →
        AddsAll S.Sink D.Disk (shipment was network from) (outgoing_packets gather.old sink.old)
        replay.new (outgoing_packets gather.new sink.new) result }
{
    while add_next(replay, gather, sink, from)? {}
    Ok(())
}

// Adds the packet of the next entry, where it is wanted, and says whether there was an entry.
fn add_next<S: Sink, D: Disk>(
    replay: &mut Replay<D>,
    gather: &mut Gather,
    sink: &mut S,
    from: u64,
) -> Result<bool, StoreFault>
    requires { (was : D) × (network : Network) × (entries : List Entry)
        × IsReplaying D.Disk was network replay.old entries }
    ensures adds { (was : D) → (network : Network) → (start : OutgoingPackets S) →
        HasAdded S.Sink D.Disk (shipment was network from) start
        replay.old (outgoing_packets gather.old sink.old) →
        AddsNext S.Sink D.Disk (shipment was network from) start
        replay.new (outgoing_packets gather.new sink.new) result }
    ensures more { result ≡ Ok true →
        (replay.new.book.book.epoch ≡ replay.old.book.book.epoch + 1)
        × (replay.new.book.book.epoch ≤ most_epoch) }
{
    let epoch = replay.epoch() + 1;
    let value = replay.chain();
    let Some(ready) = replay.next()? else {
        return Ok(false);
    };
    if epoch < from {
        return Ok(true);
    }
    add_packet(gather, sink, epoch as u32, &value, &ready.bytes);
    Ok(true)
}
