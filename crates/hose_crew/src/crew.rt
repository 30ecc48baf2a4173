// A crew from its start to its end.
ghost use Rattle.std.specs.Prelude.{◌≡◌, ◌+◌, ◌<◌, ◌≤◌, [], All, IfOk, length};
ghost use mathlib.Core.List.{IsPrefix};
ghost use Rattle.hose_io.specs.steps.Connections.{AreAccounted};
ghost use Rattle.hose_shared.specs.steps.Sharing.{IsPassOf};
ghost use Rattle.hose_crew.specs.steps.Crew.{ServesDoor};
ghost use Rattle.hose_crew.specs.steps.Desk.{AreArrived, HasStopped, started_at};
ghost use Rattle.hose_crew.specs.steps.Hands.{AreBack, HasWorked, HaveWorked, IsGathered, IsIdle, MayServe};

use crate::desk::{Closed, Desk, DoorStart, LockedDesk};
use crate::hand::{GatheredCrew, Hand, Place, Work};
use hose_disk::Disk;
use hose_io::{Door, Failed};
use hose_pool::{Gate, MOST_WORKERS};
use hose_shared::{Begun, Context, Shared};
use hose_turn::Pass;
use std::alloc::{AllocError, Global};
use std::marker::Model;
use std::snapshot::Snapshot;
use std::sync::ledger::{Blank, Share};
use std::sync::{Mutex, Wait};
use std::thread;
use std::thread::Threads;

/// What a crew ends with, once it has served the connections of a door: what accepting came to, the
/// pass, whole again, and the door.
pub struct CrewEnd<L> {
    pub accepting: Result<(), Failed>,
    pub pass: Pass,
    pub door: L,
}

/// Workers, with room for the connections that they are to serve.
#[derive(Drop)]
pub struct Crew<L: Door, N: DoorStart> {
    hands: Vec<Hand<L, N>>,
    connections: u32,
}

impl<L: Door, N: DoorStart> Model for Crew<L, N> {
    ghost use Rattle.std.specs.Prelude.{◌<◌, ◌≤◌, All, length};
    ghost use Rattle.hose_pool.specs.declared.rows.TheConstants.{MOST_WORKERS};
    ghost use Rattle.hose_crew.specs.steps.Crew.{CrewState};
    ghost use Rattle.hose_crew.specs.steps.Hands.{IsIdle};

    ghost Value = { CrewState };

    ghost view = { λ crew. record {
      workers = length crew.hands.items;
      connections = crew.connections;
    } };

    ghost invariant = { λ crew. (0 < length crew.hands.items)
        × (length crew.hands.items ≤ MOST_WORKERS)
        × All (IsIdle crew.connections) crew.hands.items };
}

impl<L: Door + Send, N: DoorStart + Send + Sync> Crew<L, N> {
    /// So many workers, from 1 to 16, with room for so many connections.
    pub fn new(alloc: Global, workers: u32, connections: u32) -> Result<Crew<L, N>, AllocError>
        requires workers { (1 ≤ workers) × (workers ≤ MOST_WORKERS) }
        ensures { IfOk result
            (λ crew. crew ≡ record { workers = workers; connections = connections }) }
    {
        let mut hands = Vec::new(alloc);
        for _ in 0..workers {
            hands.push(Hand::new(alloc, connections)?)?;
        }
        Ok(Crew { hands, connections })
    }

    /// Serves the connections of a door that is open, each in a session along a part of the pass,
    /// until there are as many as the crew is for, or no more will come, or accepting fails. They
    /// are given back to the door, and the pass comes back whole.
    pub fn serve<R: Threads + Wait + Sync, D: Disk + Send, B: Begun<D> + Send, G: Gate + Sync>(
        self,
        work: Work<'_, R, D, B, G>,
        pass: Pass,
        door: L,
        blank: Blank,
    ) -> CrewEnd<L>
        requires of { IsPassOf work.shared.now pass }
        requires shares { self.workers < pass.share }
        requires own { pass.own ≡ [] }
        requires tried { pass.tried ≡ [] }
        requires since { IsPrefix pass.origin.since pass.seen }
        requires name { blank.name ≡ N.name }
        requires parts { (blank.parts ≡ N.parts) × (blank.parts ≡ self.workers) }
        requires start { N.start ≡ started_at L.Door door self.connections }
        requires accounted { AreAccounted (L.told door) }
        ensures { ServesDoor L.Door door result.door self.connections pass result.pass
            result.accepting }
    {
        let Crew {
            mut hands,
            connections,
        } = self;
        let (tally, mut share) = blank.open::<N>();
        let mut pass = pass;
        let first = &Snapshot::of(&pass);
        let desk = Desk::new(door, connections, tally);
        take_places(work.shared, &mut pass, &mut share, &mut hands, first);
        let Closed {
            door,
            tally,
            stopped,
        } = serve_all(&work, first, desk, &mut hands);
        let left = GatheredCrew {
            pass,
            share,
            tally,
            door,
        };
        let (pass, door) = gather(work.shared, left, hands, first);
        CrewEnd {
            accepting: stopped,
            pass,
            door,
        }
    }
}

// Each worker takes a part of the first pass.
fn take_places<D: Disk, B: Begun<D>, L: Door, N: DoorStart>(
    shared: &Shared<D, B>,
    pass: &mut Pass,
    share: &mut Share<N>,
    hands: &mut [Hand<L, N>],
    first: &Snapshot<Pass>,
)
    requires of { IsPassOf shared.now first.now.value }
    requires pass { pass.old ≡ first.now.value }
    requires shares { length hands.old < first.now.value.share }
    requires parts { (share.old.parts ≡ length hands.old) × (share.old.amount ≡ 0) }
    requires idle { All (IsIdle N.start.connections) hands.old }
    ensures pass { pass.new ≡ record first.now.value { share = pass.new.share } }
    ensures left { pass.new.share + length hands.old ≡ first.now.value.share }
    ensures parts { (share.new.parts ≡ 0) × (share.new.amount ≡ 0) }
    ensures number { length hands.new ≡ length hands.old }
    ensures works { HaveWorked L.came_to N.start first.now.value hands.new }
{
    for number in 0..hands.len() {
        let place = Place {
            pass: shared.split(pass),
            share: share.split_off(1, 0),
        };
        hands[number].take_place(place, first);
    }
}

// All workers serve side by side, each until it is told of no more, and then the desk is closed.
fn serve_all<
    R: Threads + Wait + Sync,
    D: Disk + Send,
    B: Begun<D> + Send,
    G: Gate + Sync,
    L: Door + Send,
    N: DoorStart + Send + Sync,
>(
    work: &Work<'_, R, D, B, G>,
    first: &Snapshot<Pass>,
    desk: Desk<L, N>,
    hands: &mut [Hand<L, N>],
) -> Closed<L, N>
    requires some { 0 < length hands.old }
    requires may { MayServe work.now.shared.now first.now.value }
    requires works { HaveWorked L.came_to N.start first.now.value hands.old }
    ensures number { length hands.new ≡ length hands.old }
    ensures works { HaveWorked L.came_to N.start first.now.value hands.new }
    ensures stopped { HasStopped N.start (L.frame result.door) (L.told result.door)
        result.tally.total result.stopped }
    ensures arrived { AreArrived N.start.told (L.told result.door) result.tally.total }
    ensures port { L.opened_at result.door ≡ N.start.port }
    ensures few { result.tally.total ≤ N.start.connections }
{
    let desk = Mutex::new(desk);
    // Its parts are known to be shared by threads, and the whole is not.
    let Work {
        context: Context { rt, alloc, gate },
        shared,
    } = *work;
    let serve = |_: usize, hand: &mut Hand<L, N>|
        requires { MayServe shared.now first.now.value
            × HasWorked L.came_to N.start first.now.value hand.now }
    {
        let work = Work {
            context: Context { rt, alloc, gate },
            shared,
        };
        let mut locked = LockedDesk { rt, desk: &desk };
        hand.work(&work, first, &mut locked)
    };
    let workers = hands.len();
    thread::for_each_mut(rt, hands, workers, &serve);
    // Each worker stopped where there was no more. The lock does not tell so, and without it the
    // desk does, which one of them asks once more.
    let mut desk = desk.into_inner();
    hands[0].work(work, first, &mut desk);
    desk.close()
}

// Each worker gives up its place, and the connections that it ended go back to the door.
fn gather<D: Disk, B: Begun<D>, L: Door, N: DoorStart>(
    shared: &Shared<D, B>,
    left: GatheredCrew<L, N>,
    hands: Vec<Hand<L, N>>,
    first: &Snapshot<Pass>,
) -> (Pass, L)
    requires of { IsPassOf shared.now first.now.value }
    requires own { first.now.value.own ≡ [] }
    requires tried { first.now.value.tried ≡ [] }
    requires pass { left.pass ≡ record first.now.value { share = left.pass.share } }
    requires left { left.pass.share + length hands.items ≡ first.now.value.share }
    requires share { (left.share.parts ≡ 0) × (left.share.amount ≡ 0) }
    requires parts { length hands.items ≡ N.parts }
    requires works { HaveWorked L.came_to N.start first.now.value hands.items }
    requires accounted { AreAccounted N.start.told }
    requires arrived { AreArrived N.start.told (L.told left.door) left.tally.total }
    ensures gathered { IsGathered N.parts first.now.value result.0 N.parts }
    ensures back { AreBack (L.told left.door) (L.told result.1) left.tally.total result.0 }
    ensures frame { L.frame result.1 ≡ L.frame left.door }
    ensures port { L.opened_at result.1 ≡ L.opened_at left.door }
{
    let was = Snapshot::of(&left.door);
    let mut gathered = left;
    for hand in hands {
        hand.end(shared, &mut gathered, first, &was);
    }
    // That the whole share is the total is told by this call.
    gathered.tally.audit(&mut gathered.share);
    let GatheredCrew {
        pass,
        share: _share,
        tally: _tally,
        door,
    } = gathered;
    (pass, door)
}
