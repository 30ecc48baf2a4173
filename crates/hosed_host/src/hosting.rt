// A host: connections to doors, whose lines are answered by the book of a journal.
ghost use Rattle.std.specs.Prelude.{◌≡◌, ◌≢◌, ◌++◌, ℕ, List, codes, decimal, get_or, length, Ok, Err, IfErr, IfOk, IfSome, IsSome, None, option_map};
ghost use Rattle.hose_io.specs.Frame.{Stays};
ghost use Rattle.hose_io.specs.Stream.{Grows};
ghost use Rattle.hose_proto.specs.ReplyText.{line_of};
ghost use Rattle.hose_io.specs.steps.Writing.{IsPut};
ghost use Rattle.hose_graph.specs.Network.{IsNetwork, Network};
ghost use Rattle.hose_law.specs.History.{IsDecidedAt};
ghost use Rattle.hose_outside.specs.Reading.{priced_names};
ghost use Rattle.hose_outside.specs.Ending.{IsOut};
ghost use Rattle.hose_outside.specs.OnDisk.{OthersStay};
ghost use Rattle.hose_outside.specs.Parts.{door_parts, tellings};
ghost use Rattle.hose_outside.specs.Why.{why_status};
ghost use Rattle.hose_lead.specs.LedStore.{LedState};
ghost use Rattle.hose_lead.specs.steps.LedStore.{IsLedOf};
ghost use Rattle.hose_audit.specs.Audit.{audit_text};
ghost use Rattle.hose_clerk.specs.steps.Linking.{goes_alone, path_at};
ghost use Rattle.hose_outside.specs.steps.Journal.{OpensJournal, TouchesOnly};
ghost use Rattle.hose_outside.specs.steps.Parts.{KeepsAll, LeavesBeside, held};
ghost use Rattle.hosed_host.specs.HostBook.{Announces, EndsBy, EndsHosted, HostsByJournal, LeavesDoors, door_tellings};
ghost use Rattle.hosed_host.specs.HostDoors.{AreOpenedAt, door_words, may_be_alone};
ghost use Rattle.hose_clerk.specs.declared.doors.DoorRule.{DoorRule};
ghost use Rattle.hosed_host.specs.HostWhy.{TellsWhy, host_status, last_of_host};
ghost use Rattle.hosed_host.specs.HostOutcome.{FailsHost, HostOutcome};
ghost use Rattle.hosed_host.specs.steps.HostOutcome.{AreServable, FailsHosting, HostsJournal, IsWhyOf, asked_of, closed_as, plan_at, why_of_standby};

use crate::opening::{HostDoors, Opened, StandbyPlan, opened_as};
use crate::reading::open_led;
use crate::why::HostWhy;
use hose_audit::audit;
use hose_book::{Book, Books};
use hose_clerk::{Clerk, StandbyAt};
use hose_core::Core;
use hose_disk::{Cabinet, Disk};
use hose_graph::Topology;
use hose_host::host;
use hose_io::{Failed, Gather, Sink, Source, write_all};
use hose_lead::LedStore;
use hose_log::Log;
use hose_net::{Address, DoorTrouble, Doors, DoorsFault, Parting};
use hose_outside::{Fault, Outside, Why, close_journal, end, read_topology, tell};
use hose_paths::{RowTable, RowsInAdvance};
use hose_store::Decided;
use hose_tariff::Prices;
use std::alloc::{AllocError, Global};
use std::sync::Wait;

/// What a host is to do: the names of its topology and of its journal, and its doors.
#[derive(Clone, Copy)]
pub struct HostRequest<'a> {
    pub topology: &'a str,
    pub journal: &'a str,
    pub doors: HostDoors<'a>,
}

/// The book of a journal by which connections were hosted, once it was closed: why the host ended,
/// and what closing came to.
#[derive(Drop)]
pub struct HostEnd {
    pub book: Book,
    pub why: Parting,
    pub closing: Result<(), Failed>,
}

/// Why no connection was hosted, once the journal was opened.
#[derive(Clone, Copy, Debug, PartialEq, Eq)]
pub enum NotHosted {
    /// There was no memory to begin with.
    Memory,
    /// The door that the word of this number names could not be opened, and why.
    Door(u64, DoorTrouble),
    /// The output failed.
    Write,
}

/// Reads the topology that is named, hosts the connections to the doors by the journal until the
/// operator ends it, writes what its book holds, and says why it ended. It writes `ready` once the
/// doors are open.
pub fn host_by_names<W: Wait, P: Prices, I: Source, O: Sink, C: Cabinet, D: Doors, L: Log>(
    rt: &W,
    alloc: Global,
    costs: &P,
    request: HostRequest<'_>,
    outside: &mut Outside<'_, I, O, C>,
    doors: &mut D,
    log: L,
) -> HostWhy
    requires out { (C.frame outside.old.cabinet.now).out ≡ None }
    requires doors { AreServable request.doors }
    ensures outcome { HostOutcome (tellings I.Source O.Sink C.Cabinet C.Disk.Disk)
        (door_tellings D.Doors D.Network.Connections.did
        (D.Network.Connections.saw (LedState C.Disk)))
        (priced_names (P.prices costs.now) request.entry.topology.now request.entry.journal.now)
        (asked_of request.entry.doors) (door_parts (held outside.old) doors.old)
        (door_parts (held outside.new) doors.new) (host_status result) }
    ensures told { TellsWhy O.Sink outside.new.output.now result }
    ensures fails { FailsHost (tellings I.Source O.Sink C.Cabinet C.Disk.Disk)
        (door_tellings D.Doors D.Network.Connections.did
        (D.Network.Connections.saw (LedState C.Disk)))
        (priced_names (P.prices costs.now) request.entry.topology.now request.entry.journal.now)
        (asked_of request.entry.doors) (door_parts (held outside.old) doors.old)
        (door_parts (held outside.new) doors.new) result }
    ensures not_words { host_status result ≢ 1 }
    ensures back { (C.frame outside.new.cabinet.now).out ≡ None }
    ensures keeps { KeepsAll (tellings I.Source O.Sink C.Cabinet C.Disk.Disk)
        outside.old outside.new }
{
    match read_topology(alloc, costs, request.topology, outside.cabinet) {
        Ok(topology) => host_journal(rt, alloc, topology, request, outside, doors, log),
        Err(why) => HostWhy::Ended(end(Err(why), outside.output)),
    }
}

// Hosts the connections to the doors by the journal that is named, or says why no store was opened,
// and why that ended. The disk is back in the cabinet then.
fn host_journal<W: Wait, I: Source, O: Sink, C: Cabinet, D: Doors, L: Log>(
    rt: &W,
    alloc: Global,
    topology: Topology,
    request: HostRequest<'_>,
    outside: &mut Outside<'_, I, O, C>,
    doors: &mut D,
    log: L,
) -> HostWhy
    requires out { (C.frame (held outside.old).cabinet).out ≡ None }
    requires doors { AreServable request.doors }
    ensures hosts { HostsJournal (tellings I.Source O.Sink C.Cabinet C.Disk.Disk)
        (door_tellings D.Doors D.Network.Connections.did
        (D.Network.Connections.saw (LedState C.Disk))) request.entry.journal.now
        (asked_of request.entry.doors) (door_parts (held outside.old) doors.old)
        (door_parts (held outside.new) doors.new) (host_status result) topology }
    ensures told { TellsWhy O.Sink (held outside.new).output result }
    ensures fails { FailsHosting C.Cabinet D.Doors (asked_of request.entry.doors)
        ((held outside.old).cabinet, doors.old) ((held outside.new).cabinet, doors.new) result }
    ensures input { (held outside.new).input ≡ (held outside.old).input }
    ensures alone { TouchesOnly C.Cabinet request.entry.journal.now (held outside.old).cabinet
        (held outside.new).cabinet }
    ensures beside { LeavesBeside (tellings I.Source O.Sink C.Cabinet C.Disk.Disk)
        outside.old outside.new }
{
    let name = request.journal;
    let is_led = request.doors.standby.is_some();
    match open_led::<C, Decided>(alloc, name, topology, is_led, outside.cabinet) {
        Ok(led) => {
            let came = host_by_store(rt, alloc, led, request, outside, doors, log);
            tell_hosted(came, outside.output)
        }
        Err(why) => HostWhy::Ended(end(Err(why), outside.output)),
    }
}

// Hosts the connections to the doors by a store that was just opened, whose disk is out of the
// cabinet, and closes it. The disk is back then.
fn host_by_store<W: Wait, I: Source, O: Sink, C: Cabinet, D: Doors, L: Log>(
    rt: &W,
    alloc: Global,
    led: LedStore<C::Disk>,
    request: HostRequest<'_>,
    outside: &mut Outside<'_, I, O, C>,
    doors: &mut D,
    log: L,
) -> Result<HostEnd, NotHosted>
    requires out { IsSome (C.frame (held outside.old).cabinet).out }
    requires doors { AreServable request.doors }
    ensures hosts { (name : List ℕ) → (before : C) → (network : Network) → IsNetwork network
        → (opens : OpensJournal C.Cabinet C.Disk.Disk IsDecidedAt name before
        (held outside.old).cabinet network led.store)
        → IsLedOf C.Disk.Disk led network opens.opens.opened.history
        → HostsByJournal (tellings I.Source O.Sink C.Cabinet C.Disk.Disk)
        (door_tellings D.Doors D.Network.Connections.did
        (D.Network.Connections.saw (LedState C.Disk))) name (asked_of request.entry.doors)
        before (held outside.new).cabinet network doors.old doors.new result }
    ensures announces { Announces O.Sink (held outside.old).output (held outside.new).output
        result }
    ensures left { IfErr result (LeavesDoors D.Doors (asked_of request.entry.doors)
        doors.old doors.new) }
    ensures input { (held outside.new).input ≡ (held outside.old).input }
    ensures others { IfSome (C.frame (held outside.old).cabinet).out
        (λ name. OthersStay C.Cabinet name (held outside.old).cabinet (held outside.new).cabinet) }
    ensures absent { (C.frame (held outside.new).cabinet).absent
        ≡ (C.frame (held outside.old).cabinet).absent }
    ensures beside { LeavesBeside (tellings I.Source O.Sink C.Cabinet C.Disk.Disk)
        outside.old outside.new }
{
    let Ok(table) = RowTable::of_all(alloc, led.book().topology()) else {
        let _ = close_journal(led.into_store(), outside.cabinet);
        return Err(NotHosted::Memory);
    };
    let Ok(opened) = opened_as(alloc, request.doors) else {
        let _ = close_journal(led.into_store(), outside.cabinet);
        return Err(NotHosted::Memory);
    };
    let Ok(awaited) = awaited_by(alloc, request.doors.standby) else {
        let _ = close_journal(led.into_store(), outside.cabinet);
        return Err(NotHosted::Memory);
    };
    let Opened {
        addresses: all,
        rules,
    } = opened;
    let addresses = &all[..rules.len()];
    let mut network = match open_doors(alloc, addresses, request.doors, outside.output, doors) {
        Ok(network) => network,
        Err(why) => {
            let _ = close_journal(led.into_store(), outside.cabinet);
            return Err(why);
        }
    };
    let core = Core::with_rows(alloc, led, table);
    let mut clerk = Clerk::new(alloc, core, RowsInAdvance::new(), rules, log, awaited);
    let why = host(rt, alloc, &mut network, &mut clerk);
    doors.close(network);
    let (closing, book) = close_journal(clerk.into_books().into_store(), outside.cabinet);
    Ok(HostEnd { book, why, closing })
}

// The standby that replies wait for, with its path in memory.
fn awaited_by(alloc: Global, plan: Option<StandbyPlan<'_>>) -> Result<Option<StandbyAt>, AllocError>
    ensures path { IfOk result (λ at. path_at at
        ≡ option_map (λ standby. standby.path) (option_map plan_at plan.entry)) }
    ensures alone { IfOk result (λ at. goes_alone at
        ≡ may_be_alone (option_map plan_at plan.entry)) }
{
    let Some(plan) = plan else {
        return Ok(None);
    };
    Ok(Some(StandbyAt {
        path: String::from_str(alloc, plan.path)?,
        seconds: plan.seconds,
        or_stop: plan.or_stop,
    }))
}

// Opens the doors, and says that customers may come. Where that cannot be said they are closed.
fn open_doors<O: Sink, D: Doors>(
    alloc: Global,
    addresses: &[Address<'_>],
    asked: HostDoors<'_>,
    output: &mut O,
    doors: &mut D,
) -> Result<D::Network, NotHosted>
    requires servable { AreServable asked }
    requires all { length addresses.now ≡ length (door_words (asked_of asked)) }
    ensures opened { IfOk result (λ network. D.opens doors.old addresses.now network doors.new) }
    ensures told { IfOk result (λ _. Grows (O.content output.old) (O.content output.new)
        (line_of (codes "ready")) × (O.frame output.new ≡ O.frame output.old)) }
    ensures failed { IfErr result (λ why. Announces O.Sink output.old output.new (Err why)) }
    ensures left { IfErr result (λ why. (rules : List DoorRule)
        → AreOpenedAt (asked_of asked.entry) addresses.now rules
        → LeavesDoors D.Doors (asked_of asked.entry) doors.old doors.new why) }
    ensures stays { Stays (O.frame output.old) (O.frame output.new) }
{
    let network = match doors.open(alloc, addresses) {
        Ok(network) => network,
        Err(DoorsFault::Memory) => return Err(NotHosted::Memory),
        Err(DoorsFault::Door(place, trouble)) => {
            return Err(NotHosted::Door(asked.number(place), trouble));
        }
    };
    if write_all(output, b"ready\n").is_err() {
        doors.close(network);
        return Err(NotHosted::Write);
    }
    Ok(network)
}

// Writes what is left to write once connections were hosted, or not, and says why that ended.
fn tell_hosted<O: Sink>(came: Result<HostEnd, NotHosted>, output: &mut O) -> HostWhy
    ensures came { EndsHosted O.Sink output.old output.new (host_status result) came }
    ensures told { TellsWhy O.Sink output.new result }
    ensures why { IsWhyOf came result }
    ensures stays { Stays (O.frame output.old) (O.frame output.new) }
{
    match came {
        Ok(end) => tell_end(end, output),
        Err(NotHosted::Memory) => HostWhy::Ended(end(Err(Fault::Memory), output)),
        Err(NotHosted::Door(word, trouble)) => {
            // The status stays where the line cannot be written.
            let _ = put_door(output, word);
            HostWhy::Door(word, trouble)
        }
        // After a failed write nothing more is written.
        Err(NotHosted::Write) => HostWhy::Ended(Why::Stopped(Fault::Write)),
    }
}

// Writes which door could not be opened.
fn put_door<O: Sink>(output: &mut O, word: u64) -> Result<(), Failed>
    ensures { IsPut O.Sink output.old output.new (line_of (codes "door " ++ decimal word))
        result }
{
    let mut gather = Gather::new();
    gather.add_numbered(output, b"door ", word);
    gather.add(output, b"\n");
    gather.finish(output)
}

// Writes what the book holds by which connections were hosted, and then the last line, and says why
// the program ends.
fn tell_end<O: Sink>(end: HostEnd, output: &mut O) -> HostWhy
    ensures came { EndsBy O.Sink output.old output.new (host_status result)
        (audit_text end.book.network end.book.book) end.why end.closing }
    ensures told { TellsWhy O.Sink output.new result }
    ensures why { IsWhyOf (Ok end) result }
    ensures stays { Stays (O.frame output.old) (O.frame output.new) }
{
    let HostEnd { book, why, closing } = end;
    match why {
        Parting::Asked => HostWhy::Ended(tell(&book, closed_as(closing), output)),
        Parting::Told => HostWhy::Ended(tell(&book, Err(Fault::Door), output)),
        Parting::Late => tell_standby(&book, None, output),
        Parting::Ahead(count) => tell_standby(&book, Some(count), output),
    }
}

// What closing came to.
fn closed_as(closing: Result<(), Failed>) -> Result<(), Fault>
    ensures { result ≡ closed_as closing }
{
    match closing {
        Err(_) => Err(Fault::Cabinet),
        Ok(()) => Ok(()),
    }
}

// Writes what a book holds, and then that the standby is gone, or that it has so many entries.
fn tell_standby<O: Sink>(book: &Book, ahead: Option<u64>, output: &mut O) -> HostWhy
    ensures is { result ≡ why_of_standby ahead }
    ensures out { IsOut O.Sink output.old output.new
        (audit_text book.now.network book.now.book ++ last_of_host (why_of_standby ahead)) }
    ensures told { TellsWhy O.Sink output.new result }
    ensures stays { Stays (O.frame output.old) (O.frame output.new) }
{
    match audit(book, output) {
        Ok(()) => put_last(output, ahead),
        // After a failed write nothing more is written.
        Err(_) => why_of_standby(ahead),
    }
}

// Writes that the standby is gone, or has so many entries, and says that the host ends for that.
fn put_last<O: Sink>(output: &mut O, ahead: Option<u64>) -> HostWhy
    ensures is { result ≡ why_of_standby ahead }
    ensures out { IsOut O.Sink output.old output.new (last_of_host (why_of_standby ahead)) }
    ensures stays { Stays (O.frame output.old) (O.frame output.new) }
{
    // The status stays where the line cannot be written.
    let _ = put_standby(output, ahead);
    why_of_standby(ahead)
}

// Why a host ends for its standby.
fn why_of_standby(ahead: Option<u64>) -> HostWhy
    ensures { result ≡ why_of_standby ahead }
{
    match ahead {
        None => HostWhy::StandbyGone,
        Some(count) => HostWhy::StandbyAhead(count),
    }
}

// Writes the line that tells it.
fn put_standby<O: Sink>(output: &mut O, ahead: Option<u64>) -> Result<(), Failed>
    ensures { IsPut O.Sink output.old output.new (last_of_host (why_of_standby ahead)) result }
{
    match ahead {
        None => write_all(output, b"standby\n"),
        Some(count) => put_ahead(output, count),
    }
}

// Writes that it has so many entries.
fn put_ahead<O: Sink>(output: &mut O, count: u64) -> Result<(), Failed>
    ensures { IsPut O.Sink output.old output.new (line_of (codes "ahead " ++ decimal count))
        result }
{
    let mut gather = Gather::new();
    gather.add_numbered(output, b"ahead ", count);
    gather.add(output, b"\n");
    gather.finish(output)
}
