// What the program's words ask for is done, for every command that waits for nobody.
ghost use Rattle.std.specs.Prelude.{◌≡◌, ℕ, List, None, map};
ghost use Rattle.hose_outside.specs.Parts.{tellings};
ghost use Rattle.hose_outside.specs.Why.{IsTold, why_status};
ghost use Rattle.hose_outside.specs.steps.Parts.{KeepsAll, held};
ghost use Rattle.hosed.specs.Failing.{FailsWords};
ghost use Rattle.hosed.specs.Offline.{OfflineOutcome, offer_of};
ghost use Rattle.hosed_requests.specs.steps.ProgramWords.{AreWordsOf, tariff_in};

use hose_copying::{Cut, cut_journal, follow, move_journal, ship};
use hose_disk::Cabinet;
use hose_io::{Sink, Source};
use hose_offline::{EndWords, audit, check, price, prove, run, run_generated};
use hose_outside::{Outside, Why};
use hose_tariff::{Prices, Tariff};
use hosed_requests::{Request, costs_of};
use std::alloc::Global;

/// Does what a request says, by the costs that it chooses.
pub fn do_request<I: Source, O: Sink, C: Cabinet>(
    alloc: Global,
    request: Request<'_>,
    tariffs: &[Tariff],
    outside: &mut Outside<'_, I, O, C>,
) -> Why
    requires none_out { (C.frame (held outside.old).cabinet).out ≡ None }
    requires words { (words : List (List ℕ))
        × AreWordsOf (map (λ tariff. tariff.name) tariffs.now) words request }
    ensures outcome { (words : List (List ℕ))
        → AreWordsOf (map (λ tariff. tariff.name) tariffs.now) words request.entry
        → OfflineOutcome (tellings I.Source O.Sink C.Cabinet C.Disk.Disk)
        (offer_of ⟦<Tariff as Prices>⟧.prices (λ tariff. tariff.name) (λ tariff. tariff.base)
        (λ tariff. tariff.per) tariffs.now)
        (held outside.old) (held outside.new) (why_status result) words }
    ensures told { IsTold O.Sink outside.new.output.now result }
    ensures fails { (words : List (List ℕ))
        → AreWordsOf (map (λ tariff. tariff.name) tariffs.now) words request.entry
        → FailsWords (tellings I.Source O.Sink C.Cabinet C.Disk.Disk)
        (offer_of ⟦<Tariff as Prices>⟧.prices (λ tariff. tariff.name) (λ tariff. tariff.base)
        (λ tariff. tariff.per) tariffs.now) (held outside.old) (held outside.new) result words }
    ensures out { (C.frame outside.new.cabinet.now).out ≡ (C.frame outside.old.cabinet.now).out }
    ensures keeps { KeepsAll (tellings I.Source O.Sink C.Cabinet C.Disk.Disk)
        outside.old outside.new }
{
    let by = costs_of(tariffs, tariff_of(request));
    match request {
        Request::Run { tariff: _, journal } => run(
            alloc,
            &by,
            journal,
            outside.input,
            outside.output,
            outside.cabinet,
        ),
        Request::Audit(of) => audit(alloc, &by, of.names, outside),
        Request::Generate(sizes) => run_generated(alloc, sizes, outside),
        Request::Prove { of, ends, first } => {
            prove(
                alloc,
                &by,
                of.topology,
                EndWords { words: ends, first },
                outside,
            )
        }
        Request::Check(of) => check(alloc, &by, of.topology, outside),
        Request::Price { topology } => price(alloc, tariffs, topology, outside),
        Request::Ship { of, from } => ship(alloc, &by, of.names, from, outside),
        Request::Follow(of) => follow(alloc, &by, of.names, outside),
        Request::Move { tariff: _, of } => move_journal(alloc, &by, of, outside),
        Request::Cut { of, count, to } => cut_journal(
            alloc,
            &by,
            Cut {
                from: of.names,
                count,
                to,
            },
            outside,
        ),
    }
}

// The place of the tariff that a request chooses.
fn tariff_of(request: Request<'_>) -> Option<usize>
    ensures { result ≡ tariff_in request.entry }
{
    match request {
        Request::Run { tariff, journal: _ } => tariff,
        Request::Audit(of) => of.tariff,
        Request::Generate(_) => None,
        Request::Prove { of, .. } => of.tariff,
        Request::Check(of) => of.tariff,
        Request::Price { .. } => None,
        Request::Ship { of, from: _ } => of.tariff,
        Request::Follow(of) => of.tariff,
        Request::Move { tariff, of: _ } => tariff,
        Request::Cut { of, .. } => of.tariff,
    }
}
