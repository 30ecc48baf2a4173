// Connections that are served: a door, a crew, and the book of a journal that they share.
ghost use Rattle.std.specs.Prelude.{◌≡◌, ◌≢◌, ◌≤◌, Err, IfOk, None, Result, Some, ⊤};
ghost use Rattle.hose_io.specs.declared.Failed.{Failed};
ghost use Rattle.hose_io.specs.steps.Connections.{AreAccounted};
ghost use Rattle.hose_io.specs.Frame.{Stays};
ghost use Rattle.hose_crew.specs.Crew.{AreServed};
ghost use Rattle.hose_outside.specs.Reading.{priced_names};
ghost use Rattle.hose_outside.specs.Failing.{FailsNamed};
ghost use Rattle.hose_outside.specs.steps.Ending.{WroteWhy};
ghost use Rattle.hose_outside.specs.Why.{IsTold, why_status};
ghost use Rattle.hose_outside.specs.Parts.{door_parts, tellings};
ghost use Rattle.hose_outside.specs.steps.Parts.{KeepsAll, held};
ghost use Rattle.hosed.specs.ServeOutcome.{EndsServed, ServeOutcome, first_failed};
ghost use Rattle.hosed.specs.ServerDoor.{Speaks, seen_of};
ghost use Rattle.hosed.specs.steps.ServerDoor.{BothStay, IsAnnounced, IsClosedOn, IsOpenedAs, IsWhyServed, Opened, ServesByStore, port_asked};

use hose_book::{Book, Books};
use hose_crew::{Context, Crew, CrewEnd, DoorStart, Work};
use hose_disk::{Cabinet, Disk};
use hose_graph::Topology;
use hose_io::{Door, Failed, Sink, Source, write_all};
use hose_outside::{Fault, Outside, Why, end, open_store, read_topology, tell};
use hose_paths::RowTable;
use hose_pool::{Gate, MOST_WORKERS, table_of_all};
use hose_shared::{Begun, Shared};
use hose_store::{Decided, Store};
use hose_tariff::Prices;
use hosed_requests::ServeRequest;
use std::alloc::{AllocError, Global};
use std::marker::{Brand, PhantomData};
use std::snapshot::Snapshot;
use std::sync::Wait;
use std::sync::ledger::Blank;
use std::thread::Threads;

/// The book of a journal by which connections were served, once it was closed, and what accepting
/// and closing came to.
pub struct ServerEnd {
    pub book: Book,
    pub accepting: Result<(), Failed>,
    pub closing: Result<(), Failed>,
}

/// What came of serving connections by a store that was opened, its disk, once it was closed, and
/// the door.
pub struct ServedDoor<D, L> {
    pub came: Result<ServerEnd, Fault>,
    pub disk: D,
    pub door: L,
}

/// How a store was opened. A caller names it here, since a lock has no other way to tell for what
/// its store stood.
pub trait AtOpening: DoorStart {
    ghost opened: { Opened };
}

// No opening, in whose place a caller's proof puts the one that it knows.
impl AtOpening for Brand {
    ghost use Rattle.hosed.specs.steps.ServerDoor.{unopened};

    ghost opened = { unopened };
}

/// The store that is shared was just opened so.
struct JustOpened<N> {
    at: PhantomData<N>,
}

impl<D: Disk, N: AtOpening> Begun<D> for JustOpened<N> {
    ghost use Rattle.hosed.specs.steps.ServerDoor.{OpensAt};

    ghost begins = { OpensAt D.Disk N.opened };
}

/// A store that was just opened, what its disk was then, and what is to become the ledger of the
/// connections that are accepted.
#[derive(Drop)]
pub struct OpenedStore<D: Disk> {
    pub store: Store<D>,
    pub was: Snapshot<D>,
    pub blank: Blank,
}

/// Workers, and the rows of all nodes, by which the book that they share is to plan.
#[derive(Drop)]
pub struct Staff<L: Door, N: DoorStart> {
    pub crew: Crew<L, N>,
    pub table: RowTable,
}

// Opens the door, and says that the server is ready.
fn announce<O: Sink, L: Door>(door: &mut L, port: u16, output: &mut O) -> Result<(), Fault>
    ensures announced { IsAnnounced O.Sink port output.old output.new
        (seen_of (L.frame door.old) (L.told door.old) (L.opened_at door.old))
        (seen_of (L.frame door.new) (L.told door.new) (L.opened_at door.new)) result }
    ensures told { L.told door.new ≡ L.told door.old }
    ensures frame { IfOk result (λ _. L.frame door.new ≡ L.frame door.old) }
    ensures port { IfOk result (λ _. L.opened_at door.new ≡ Some port) }
    ensures accounted { AreAccounted (L.told door.new) }
    ensures stay { BothStay (O.frame output.old) (O.frame output.new)
        (L.frame door.old) (L.frame door.new) }
{
    let Ok(()) = door.open(port) else {
        return Err(Fault::Door);
    };
    if write_all(output, b"ready\n").is_err() {
        return Err(Fault::Write);
    }
    Ok(())
}

// Closes a store, and hands back its disk and its book.
fn close_store<D: Disk>(store: Store<D>) -> (Result<(), Failed>, D, Book)
    ensures closed { IsClosedOn D.Disk store result.1 result.0 }
    ensures book { result.2 ≡ store.ledger }
{
    store.close()
}

// Closes a store by which no connection was served, and says why none was.
fn give_up<D: Disk, L>(store: Store<D>, why: Fault, door: L) -> ServedDoor<D, L>
    ensures came { result.came ≡ Err why }
    ensures door { result.door ≡ door }
    ensures closed { (closing : Result ⊤ Failed) × IsClosedOn D.Disk store result.disk closing }
{
    let (_, disk, _) = close_store(store);
    ServedDoor {
        came: Err(why),
        disk,
        door,
    }
}

// Serves the connections of a door by a store that was just opened on the disk that was once so,
// and closes it.
fn serve_store<
    R: Threads + Wait + Sync,
    O: Sink,
    D: Disk + Send,
    L: Door + Send,
    N: AtOpening + Send + Sync,
    G: Gate + Sync,
>(
    context: Context<'_, R, G>,
    opening: OpenedStore<D>,
    request: ServeRequest<'_>,
    output: &mut O,
    door: L,
) -> ServedDoor<D, L>
    requires workers { (1 ≤ request.workers) × (request.workers ≤ MOST_WORKERS) }
    requires name { opening.blank.name ≡ N.name }
    requires parts { (opening.blank.parts ≡ N.parts) × (opening.blank.parts ≡ request.workers) }
    requires start { N.start ≡ record {
      frame = L.frame door;
      told = L.told door;
      port = Some request.port;
      connections = request.connections;
    } }
    requires opened { IsOpenedAs D.Disk N.opened opening.was.value opening.store }
    ensures serves { ServesByStore D.Disk opening.was.value result.disk
        opening.store.ledger.network
        (AreServed (L.told door) (L.told result.door) request.entry.connections) result.came }
    ensures speaks { Speaks O.Sink request.entry.port output.old output.new
        (seen_of (L.frame door) (L.told door) (L.opened_at door))
        (seen_of (L.frame result.door) (L.told result.door) (L.opened_at result.door))
        result.came }
    ensures stay { BothStay (O.frame output.old) (O.frame output.new)
        (L.frame door) (L.frame result.door) }
{
    // What the disk was is there for the clauses alone.
    let OpenedStore {
        store,
        was: _,
        blank,
    } = opening;
    let top = store.book().topology();
    let Ok(Staff { crew, table }) = begin::<R, L, N>(context.rt, context.alloc, top, request) else {
        return give_up(store, Fault::Memory, door);
    };
    let (shared, pass) = match Shared::<D, JustOpened<N>>::share(
        context.alloc,
        store,
        Some(table),
    ) {
        Ok(made) => made,
        Err(store) => return give_up(store, Fault::Memory, door),
    };
    let mut door = door;
    if let Err(why) = announce(&mut door, request.port, output) {
        return give_up(shared.close(pass), why, door);
    }
    let work = Work {
        context,
        shared: &shared,
    };
    let CrewEnd {
        accepting,
        pass,
        door,
    } = crew.serve(work, pass, door, blank);
    let (closing, disk, book) = close_store(shared.close(pass));
    let came = Ok(ServerEnd {
        book,
        accepting,
        closing,
    });
    ServedDoor { came, disk, door }
}

// The workers, and the rows of all nodes, which as many threads make.
fn begin<R: Threads + Sync, L: Door + Send, N: DoorStart + Send + Sync>(
    rt: &R,
    alloc: Global,
    network: &Topology,
    request: ServeRequest,
) -> Result<Staff<L, N>, AllocError>
    requires workers { (1 ≤ request.workers) × (request.workers ≤ MOST_WORKERS) }
    ensures crew { IfOk result (λ staff. staff.crew
        ≡ record { workers = request.entry.workers; connections = request.entry.connections }) }
    ensures table { IfOk result (λ staff. staff.table.network ≡ network.now) }
{
    let crew = Crew::new(alloc, request.workers, request.connections)?;
    let table = table_of_all(rt, alloc, network, request.workers)?;
    Ok(Staff { crew, table })
}

/// Reads the topology that is named, serves the connections of a door by the journal, writes what
/// its book holds, and says why it ended. The book is told where accepting or closing failed too.
pub fn serve<
    R: Threads + Wait + Sync,
    P: Prices,
    I: Source,
    O: Sink,
    C: Cabinet,
    L: Door + Send,
    G: Gate + Sync,
>(
    context: Context<'_, R, G>,
    costs: &P,
    request: ServeRequest<'_>,
    outside: &mut Outside<'_, I, O, C>,
    door: &mut L,
) -> Why
    requires none_out { (C.frame outside.old.cabinet.now).out ≡ None }
    requires workers { (1 ≤ request.workers) × (request.workers ≤ MOST_WORKERS) }
    ensures outcome { ServeOutcome (tellings I.Source O.Sink C.Cabinet C.Disk.Disk)
        (priced_names (P.prices costs.now) request.entry.topology.now request.entry.journal.now)
        (port_asked request.entry.port request.entry.connections) (door_parts (held outside.old)
        (seen_of (L.frame door.old) (L.told door.old) (L.opened_at door.old)))
        (door_parts (held outside.new)
        (seen_of (L.frame door.new) (L.told door.new) (L.opened_at door.new)))
        (why_status result) }
    ensures told { IsTold O.Sink outside.new.output.now result }
    ensures fails { FailsNamed (tellings I.Source O.Sink C.Cabinet C.Disk.Disk)
        (priced_names (P.prices costs.now) request.entry.topology.now request.entry.journal.now)
        (held outside.old) (held outside.new) result }
    ensures not_words { why_status result ≢ 1 }
    ensures back { (C.frame outside.new.cabinet.now).out ≡ None }
    ensures keeps { KeepsAll (tellings I.Source O.Sink C.Cabinet C.Disk.Disk)
        outside.old outside.new }
    ensures door { Stays (L.frame door.old) (L.frame door.new) }
{
    let topology = match read_topology(context.alloc, costs, request.topology, outside.cabinet) {
        Ok(topology) => topology,
        Err(why) => return end(Err(why), outside.output),
    };
    let Ok(disk) = outside.cabinet.disk(request.journal) else {
        return end(Err(Fault::Cabinet), outside.output);
    };
    let was = Snapshot::of(&disk);
    let store = match open_store::<C::Disk, Decided>(context.alloc, topology, disk) {
        Ok(store) => store,
        Err(refused) => {
            outside.cabinet.back(refused.1);
            return end(Err(refused.0), outside.output);
        }
    };
    let blank = Blank::new(u64::from(request.workers));
    let opening = OpenedStore { store, was, blank };
    let ServedDoor {
        came,
        disk,
        door: _door,
    } = serve_store::<R, O, C::Disk, &mut L, Brand, G>(
        context,
        opening,
        request,
        outside.output,
        door,
    );
    outside.cabinet.back(disk);
    tell_served(came, outside.output)
}

// Writes what is left to write once connections were served, or not, and says why that ended.
fn tell_served<O: Sink>(came: Result<ServerEnd, Fault>, output: &mut O) -> Why
    ensures { WroteWhy O.Sink output.old output.new result
        (EndsServed O.Sink output.old output.new (why_status result) came)
        (IsWhyServed came result) }
{
    match came {
        Ok(
            ServerEnd {
                book,
                accepting,
                closing,
            },
        ) => tell(&book, first_failed(accepting, closing), output),
        Err(why) => tell_unserved(why, output),
    }
}

// Writes why no connection was served, but after a failed write nothing more, and says why that
// ended.
fn tell_unserved<O: Sink>(why: Fault, output: &mut O) -> Why
    ensures { WroteWhy O.Sink output.old output.new result
        (EndsServed O.Sink output.old output.new (why_status result) (Err why))
        (IsWhyServed (Err why) result) }
{
    match why {
        Fault::Write => Why::Stopped(Fault::Write),
        _ => end(Err(why), output),
    }
}

// What came of accepting and then closing.
fn first_failed(accepting: Result<(), Failed>, closing: Result<(), Failed>) -> Result<(), Fault>
    ensures { result ≡ first_failed accepting closing }
{
    match accepting {
        Err(_) => Err(Fault::Door),
        Ok(()) => match closing {
            Err(_) => Err(Fault::Cabinet),
            Ok(()) => Ok(()),
        },
    }
}
