// Moving: what a journal of one network holds, written into a journal of another one; and cutting:
// the first entries of a journal, written into another one.
ghost use Rattle.std.specs.Prelude.{◌≡◌, ◌↔◌, All, IfOk, IsTrue, None};
ghost use Rattle.hose_graph.specs.steps.Ranges.{IsInRanges};
ghost use Rattle.hose_move.specs.Stating.{Suffice};
ghost use Rattle.hose_copying.specs.CutOutcome.{CutOutcome};
ghost use Rattle.hose_copying.specs.Failing.{FailsCut, FailsMoved};
ghost use Rattle.hose_outside.specs.steps.Journal.{IsBack};
ghost use Rattle.hose_copying.specs.MoveOutcome.{MoveOutcome};
ghost use Rattle.hose_copying.specs.Moving.{EntersEnough, EntersNew, EntersStated, MovesApart, MovesFrom, MovesBetween, MovesStated, ReadsOld, read_done, scope_of};
ghost use Rattle.hose_copying.specs.steps.Moving.{cut_of, journals_at, journals_of, names_of};
ghost use Rattle.hose_outside.specs.Parts.{tellings};
ghost use Rattle.hose_outside.specs.steps.Parts.{ComesTo, KeepsAll, held};

use crate::move_end::{Moved, as_moved, end_move, put_numbers, stop_of_change};
use hose_disk::Cabinet;
use hose_graph::{Entry, Topology};
use hose_io::{Sink, Source};
use hose_move::{Scope, Stated, first_change, move_into, read_journal};
use hose_outside::{Fault, Move, MoveStop, Names, Outside, Why, read_topology};
use hose_store::StoreFault;
use hose_tariff::Prices;
use std::alloc::Global;

/// What is cut: the names of the topology and of the journal that are left as they are, how many
/// entries the new journal is to have, and its name.
#[derive(Clone, Copy)]
pub struct Cut<'a> {
    pub from: Names<'a>,
    pub count: u64,
    pub to: &'a str,
}

/// The journals of which one is moved into the other, and which entries.
#[derive(Clone, Copy)]
struct Journals<'a> {
    scope: Scope,
    old: &'a str,
    new: &'a str,
}

/// Reads two topologies and the journal of the first, writes what that holds into a journal of the
/// second, and says why it ended. Both networks have these costs. The old journal is read and
/// never changed.
pub fn move_journal<P: Prices, I: Source, O: Sink, C: Cabinet>(
    alloc: Global,
    costs: &P,
    of: Move<'_>,
    outside: &mut Outside<'_, I, O, C>,
) -> Why
    requires none_out { (C.frame (held outside.old).cabinet).out ≡ None }
    ensures { ComesTo (tellings I.Source O.Sink C.Cabinet C.Disk.Disk) (λ tells. MoveOutcome tells
        (names_of (P.prices costs.now) of.entry))
        (λ tells. FailsMoved tells (names_of (P.prices costs.now) of.entry))
        outside.old outside.new result }
{
    match read_topology(alloc, costs, of.from.topology, outside.cabinet) {
        Ok(old) => {
            let moved = move_from(alloc, costs, of, &old, outside);
            end_move(moved, outside.output)
        }
        Err(why) => end_move(Err(MoveStop::Old(why)), outside.output),
    }
}

/// Reads a topology and a journal of it, writes its first entries into another journal of it, so
/// many of them, and says why it ended. The old journal is read and never changed.
pub fn cut_journal<P: Prices, I: Source, O: Sink, C: Cabinet>(
    alloc: Global,
    costs: &P,
    of: Cut<'_>,
    outside: &mut Outside<'_, I, O, C>,
) -> Why
    requires none_out { (C.frame (held outside.old).cabinet).out ≡ None }
    ensures { ComesTo (tellings I.Source O.Sink C.Cabinet C.Disk.Disk) (λ tells. CutOutcome tells
        (cut_of (P.prices costs.now) of.entry))
        (λ tells. FailsCut tells (cut_of (P.prices costs.now) of.entry))
        outside.old outside.new result }
{
    match read_topology(alloc, costs, of.from.topology, outside.cabinet) {
        Ok(network) => {
            let journals = Journals {
                scope: Scope::First(of.count),
                old: of.from.journal,
                new: of.to,
            };
            let moved = move_apart(alloc, journals, &network, &network, outside);
            end_move(moved, outside.output)
        }
        Err(why) => end_move(Err(MoveStop::Old(why)), outside.output),
    }
}

// Moves what the journal of a network holds, once the topology of the network was read.
fn move_from<P: Prices, I: Source, O: Sink, C: Cabinet>(
    alloc: Global,
    costs: &P,
    of: Move<'_>,
    old: &Topology,
    outside: &mut Outside<'_, I, O, C>,
) -> Result<Moved, MoveStop>
    requires { (C.frame (held outside.old).cabinet).out ≡ None }
    ensures moves { MovesFrom (tellings I.Source O.Sink C.Cabinet C.Disk.Disk)
        (names_of (P.prices costs.now) of.entry) (held outside.old) (held outside.new) old.now
        result }
    ensures input { (held outside.new).input ≡ (held outside.old).input }
    ensures back { (C.frame (held outside.new).cabinet).out ≡ None }
    ensures keeps { KeepsAll (tellings I.Source O.Sink C.Cabinet C.Disk.Disk)
        outside.old outside.new }
{
    match read_topology(alloc, costs, of.to.topology, outside.cabinet) {
        Ok(new) => move_on(alloc, of, old, &new, outside),
        Err(why) => Err(MoveStop::New(why)),
    }
}

// Moves what the journal of a network holds to another network, which has to go on from it, once
// both topologies were read.
fn move_on<I: Source, O: Sink, C: Cabinet>(
    alloc: Global,
    of: Move<'_>,
    old: &Topology,
    new: &Topology,
    outside: &mut Outside<'_, I, O, C>,
) -> Result<Moved, MoveStop>
    requires { (C.frame (held outside.old).cabinet).out ≡ None }
    ensures moves { MovesBetween (tellings I.Source O.Sink C.Cabinet C.Disk.Disk)
        (journals_of of.entry) (held outside.old) (held outside.new) old.now new.now result }
    ensures input { (held outside.new).input ≡ (held outside.old).input }
    ensures back { (C.frame (held outside.new).cabinet).out ≡ None }
    ensures keeps { KeepsAll (tellings I.Source O.Sink C.Cabinet C.Disk.Disk)
        outside.old outside.new }
{
    match first_change(old, new) {
        Some(change) => Err(stop_of_change(change)),
        None => {
            let journals = Journals {
                scope: scope_of(of.live),
                old: of.from.journal,
                new: of.to.journal,
            };
            move_apart(alloc, journals, old, new, outside)
        }
    }
}

// Moves what a journal holds into another one, where they are of two disks. Else nothing is opened.
fn move_apart<I: Source, O: Sink, C: Cabinet>(
    alloc: Global,
    of: Journals<'_>,
    old: &Topology,
    new: &Topology,
    outside: &mut Outside<'_, I, O, C>,
) -> Result<Moved, MoveStop>
    requires { (C.frame (held outside.old).cabinet).out ≡ None }
    ensures moves { MovesApart (tellings I.Source O.Sink C.Cabinet C.Disk.Disk)
        (journals_at of.entry) (held outside.old) (held outside.new) old.now new.now result }
    ensures input { (held outside.new).input ≡ (held outside.old).input }
    ensures back { (C.frame (held outside.new).cabinet).out ≡ None }
    ensures keeps { KeepsAll (tellings I.Source O.Sink C.Cabinet C.Disk.Disk)
        outside.old outside.new }
{
    match outside.cabinet.tell_apart(of.old, of.new) {
        Ok(()) => move_stated(alloc, of, old, new, outside),
        Err(_) => Err(MoveStop::New(Fault::Cabinet)),
    }
}

// Moves what a journal holds into another one.
fn move_stated<I: Source, O: Sink, C: Cabinet>(
    alloc: Global,
    of: Journals<'_>,
    old: &Topology,
    new: &Topology,
    outside: &mut Outside<'_, I, O, C>,
) -> Result<Moved, MoveStop>
    requires { (C.frame (held outside.old).cabinet).out ≡ None }
    ensures moves { MovesStated (tellings I.Source O.Sink C.Cabinet C.Disk.Disk)
        (journals_at of.entry) (held outside.old) (held outside.new) old.now new.now result }
    ensures input { (held outside.new).input ≡ (held outside.old).input }
    ensures back { (C.frame (held outside.new).cabinet).out ≡ None }
    ensures keeps { KeepsAll (tellings I.Source O.Sink C.Cabinet C.Disk.Disk)
        outside.old outside.new }
{
    match read_old(alloc, of.old, old, of.scope, outside.cabinet) {
        Ok(stated) => enter_enough(alloc, of, new, &stated, outside),
        Err(why) => Err(MoveStop::Old(why)),
    }
}

// Moves the entries that were stated into a journal, where they are as many as are asked for.
fn enter_enough<I: Source, O: Sink, C: Cabinet>(
    alloc: Global,
    of: Journals<'_>,
    new: &Topology,
    stated: &Stated,
    outside: &mut Outside<'_, I, O, C>,
) -> Result<Moved, MoveStop>
    requires none_out { (C.frame (held outside.old).cabinet).out ≡ None }
    requires ranges { All IsInRanges stated.now.entries.items }
    ensures enters { EntersEnough (tellings I.Source O.Sink C.Cabinet C.Disk.Disk)
        (journals_at of.entry) (held outside.old) (held outside.new) new.now stated.now result }
    ensures input { (held outside.new).input ≡ (held outside.old).input }
    ensures back { (C.frame (held outside.new).cabinet).out ≡ None }
    ensures keeps { KeepsAll (tellings I.Source O.Sink C.Cabinet C.Disk.Disk)
        outside.old outside.new }
{
    let entries = stated.entries.len() as u64;
    if !suffice(of.scope, entries) {
        return Err(MoveStop::Less { entries });
    }
    enter(alloc, of.new, new, stated, outside)
}

// Whether so many entries are as many as are asked for.
fn suffice(scope: Scope, found: u64) -> bool
    ensures { IsTrue result ↔ Suffice scope found }
{
    match scope {
        Scope::All | Scope::Live => true,
        Scope::First(count) => count <= found,
    }
}

// Tells which VPNs have other numbers in the journal of a name, and moves the entries into it that
// were stated for it.
fn enter<I: Source, O: Sink, C: Cabinet>(
    alloc: Global,
    name: &str,
    new: &Topology,
    stated: &Stated,
    outside: &mut Outside<'_, I, O, C>,
) -> Result<Moved, MoveStop>
    requires none_out { (C.frame (held outside.old).cabinet).out ≡ None }
    requires ranges { All IsInRanges stated.now.entries.items }
    ensures enters { EntersStated (tellings I.Source O.Sink C.Cabinet C.Disk.Disk) name.now
        (held outside.old) (held outside.new) new.now stated.now result }
    ensures input { (held outside.new).input ≡ (held outside.old).input }
    ensures back { (C.frame (held outside.new).cabinet).out ≡ None }
    ensures keeps { KeepsAll (tellings I.Source O.Sink C.Cabinet C.Disk.Disk)
        outside.old outside.new }
{
    match put_numbers(&stated.numbers, outside.output) {
        Ok(()) => move_new(alloc, name, new, &stated.entries, outside.cabinet),
        Err(_) => Err(MoveStop::Old(Fault::Write)),
    }
}

// What the journal of a name states, which has to be there. Its disk is only read, and back in the
// cabinet then.
fn read_old<C: Cabinet>(
    alloc: Global,
    name: &str,
    old: &Topology,
    scope: Scope,
    cabinet: &mut C,
) -> Result<Stated, Fault>
    requires { (C.frame cabinet.old).out ≡ None }
    ensures reads { ReadsOld C.Cabinet C.Disk.Disk old.now scope name.now
        cabinet.old cabinet.new result }
    ensures ranges { IfOk result (λ stated. All IsInRanges stated.entries.items) }
    ensures back { IsBack (C.frame cabinet.old) (C.frame cabinet.new) }
{
    // Of a name that is not there a cabinet in memory would make a disk.
    let Ok(_) = cabinet.text(name, 0, &mut [0]) else {
        return Err(Fault::Cabinet);
    };
    let Ok(disk) = cabinet.disk_to_read(name) else {
        return Err(Fault::Cabinet);
    };
    let read = read_journal(alloc, disk, old, scope);
    cabinet.back(read.1);
    as_read(read.0)
}

// Which entries are moved.
fn scope_of(live: bool) -> Scope
    ensures { result ≡ scope_of live }
{
    if live { Scope::Live } else { Scope::All }
}

// What came of reading a journal, as a fault of the program.
fn as_read(read: Result<Stated, StoreFault>) -> Result<Stated, Fault>
    ensures { result ≡ read_done read }
{
    match read {
        Ok(stated) => Ok(stated),
        Err(fault) => Err(Fault::from(fault)),
    }
}

// Moves entries into the journal of a name. Its disk is back in the cabinet then.
fn move_new<C: Cabinet>(
    alloc: Global,
    name: &str,
    new: &Topology,
    entries: &[Entry],
    cabinet: &mut C,
) -> Result<Moved, MoveStop>
    requires none_out { (C.frame cabinet.old).out ≡ None }
    requires ranges { All IsInRanges entries.now }
    ensures moves { EntersNew C.Cabinet C.Disk.Disk new.now entries.now name.now
        cabinet.old cabinet.new result }
    ensures back { IsBack (C.frame cabinet.old) (C.frame cabinet.new) }
{
    let Ok(disk) = cabinet.disk(name) else {
        return Err(MoveStop::New(Fault::Cabinet));
    };
    let moved = move_into(alloc, disk, new, entries);
    cabinet.back(moved.1);
    as_moved(entries.len() as u64, moved.0)
}
