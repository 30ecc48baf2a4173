// A worker and what it has in hand.
ghost use Rattle.std.specs.Prelude.{◌≡◌, ◌+◌, ◌<◌, ◌≤◌, ◌∷◌, [], ◌++◌, IfOk, IsTrue, List, Option, Some, is_some, map, vec_capacity};
ghost use Rattle.hose_io.specs.steps.Connections.{AreAccounted};
ghost use Rattle.hose_shared.specs.steps.Sharing.{IsPassOf};
ghost use Rattle.hose_crew.specs.steps.Desk.{AreArrived};
ghost use Rattle.hose_crew.specs.steps.Hands.{AllComeBack, AllMayComeBack, AreBack, HasWorked, IsGathered, IsIdle, MayServe, Works, part_of};

use crate::desk::{Accept, Accepted, DoorStart};
use hose_disk::Disk;
use hose_io::Door;
use hose_paths::RowsInAdvance;
use hose_pool::Gate;
use hose_session::{Session, serve_session};
use hose_shared::{Begun, Context, Shared};
use hose_turn::Pass;
use std::alloc::{AllocError, Global};
use std::marker::Model;
use std::snapshot::Snapshot;
use std::sync::Wait;
use std::sync::ledger::{Book as Tally, Share};

/// What all workers of a crew are given: its context, and the book that they share.
#[derive(Drop)]
pub struct Work<'a, W, D: Disk, B: Begun<D>, G> {
    pub context: Context<'a, W, G>,
    pub shared: &'a Shared<D, B>,
}

/// A worker's place: its pass, and its share of what was accepted.
#[derive(Drop)]
pub struct Place<N: DoorStart> {
    pub pass: Pass,
    pub share: Share<N>,
}

impl<N: DoorStart> Model for Place<N> {
    ghost use Rattle.hose_crew.specs.steps.Hands.{PlaceState};

    ghost Value = { PlaceState };

    ghost view = { λ place. record {
      pass = place.pass;
      parts = place.share.parts;
      amount = place.share.amount;
    } };
}

/// What workers gave up, as far as they did: it is part of the first pass and of its share again,
/// and what they ended is back at the door.
pub struct GatheredCrew<L: Door, N: DoorStart> {
    pub pass: Pass,
    pub share: Share<N>,
    pub tally: Tally<N>,
    pub door: L,
}

/// A worker.
#[derive(Drop)]
pub struct Hand<L: Door, N: DoorStart> {
    place: Option<Place<N>>,
    ended: Vec<L::Done>,
}

impl<L: Door, N: DoorStart> Model for Hand<L, N> {
    ghost use Rattle.std.specs.Prelude.{vec_capacity};
    ghost use Rattle.hose_crew.specs.steps.Hands.{HandState};

    ghost Value = { HandState L.Done };

    ghost view = { λ hand. record {
      place = hand.place;
      ended = hand.ended.items;
      room = vec_capacity hand.ended;
    } };
}

impl<L: Door, N: DoorStart> Hand<L, N> {
    /// A worker with room for so many connections.
    pub fn new(alloc: Global, connections: u32) -> Result<Hand<L, N>, AllocError>
        ensures { IfOk result (IsIdle connections) }
    {
        Ok(Hand {
            place: None,
            ended: Vec::with_capacity(alloc, connections as usize)?,
        })
    }
}

impl<L: Door, N: DoorStart> Hand<L, N> {
    /// Takes a place that is a part of the first pass, and of which nothing was made.
    pub fn take_place(&mut self, place: Place<N>, first: &Snapshot<Pass>)
        requires idle { IsIdle N.start.connections self.old }
        requires pass { place.pass ≡ part_of first.now.value }
        requires share { (place.parts ≡ 1) × (place.amount ≡ 0) }
        ensures works { HasWorked L.came_to N.start first.now.value self.new }
    {
        // The first pass is there for the clauses alone.
        let _ = first;
        self.place = Some(place);
    }

    /// Serves one connection after another, until no more is told of.
    pub fn work<W: Wait, D: Disk, B: Begun<D>, G: Gate, A: Accept<L, N>>(
        &mut self,
        work: &Work<'_, W, D, B, G>,
        first: &Snapshot<Pass>,
        from: &mut A,
    )
        requires may { MayServe work.now.shared.now first.now.value }
        requires works { HasWorked L.came_to N.start first.now.value self.old }
        ensures works { HasWorked L.came_to N.start first.now.value self.new }
        ensures over { A.is_over from.new }
    {
        let _ = first;
        let Some(place) = self.place.take() else {
            return;
        };
        let mut rows = RowsInAdvance::new();
        let Place {
            mut pass,
            mut share,
        } = place;
        // Where the desk is locked, it is let go before the session begins.
        while let Some(one) = from.accept(&mut share) {
            let Accepted {
                session,
                mut input,
                mut output,
            } = one;
            let session = Session {
                context: &work.context,
                shared: work.shared,
                number: session,
            };
            let (_, later) = serve_session(session, &mut input, &mut output, pass, &mut rows);
            pass = later;
            self.ended.push_reserved(L::done(input, output));
        }
        self.place = Some(Place { pass, share });
    }
}

impl<L: Door, N: DoorStart> Hand<L, N> {
    /// Gives up the place to the first pass, and the connections back to the door.
    pub fn end<D: Disk, B: Begun<D>>(
        self,
        shared: &Shared<D, B>,
        gathered: &mut GatheredCrew<L, N>,
        first: &Snapshot<Pass>,
        was: &Snapshot<L>,
    )
        requires of { IsPassOf shared.now first.now.value }
        requires worked { HasWorked L.came_to N.start first.now.value self }
        requires gathered { IsGathered N.parts first.now.value gathered.old.pass
            gathered.old.share.parts }
        requires accounted { AreAccounted N.start.told }
        requires arrived { AreArrived N.start.told (L.told was.now.value)
            gathered.old.tally.total }
        requires back { AreBack (L.told was.now.value) (L.told gathered.old.door)
            gathered.old.share.amount gathered.old.pass }
        ensures gathered { IsGathered N.parts first.now.value gathered.new.pass
            gathered.new.share.parts }
        ensures parts { gathered.new.share.parts ≡ gathered.old.share.parts + 1 }
        ensures total { gathered.new.tally.total ≡ gathered.old.tally.total }
        ensures back { AreBack (L.told was.now.value) (L.told gathered.new.door)
            gathered.new.share.amount gathered.new.pass }
        ensures frame { L.frame gathered.new.door ≡ L.frame gathered.old.door }
        ensures port { L.opened_at gathered.new.door ≡ L.opened_at gathered.old.door }
    {
        let Hand { place, ended } = self;
        if let Some(place) = place {
            shared.join(&mut gathered.pass, place.pass);
            gathered.share.merge(place.share);
            gathered.tally.audit(&mut gathered.share);
            give_back(&mut gathered.door, ended);
        }
    }
}

// Gives connections back to the door that accepted them.
fn give_back<L: Door>(door: &mut L, ended: Vec<L::Done>)
    requires may { AllMayComeBack (L.told door.old) (map L.came_to ended.items) }
    ensures back { AllComeBack (L.told door.old) (L.told door.new) (map L.came_to ended.items) }
    ensures frame { L.frame door.new ≡ L.frame door.old }
    ensures port { L.opened_at door.new ≡ L.opened_at door.old }
{
    for done in ended {
        door.back(done);
    }
}
