// The door under its lock.
ghost use Rattle.std.specs.Prelude.{◌≡◌, ◌+◌, ◌<◌, ◌≤◌, IfNone, IfSome, IsSome};
ghost use Rattle.hose_crew.specs.steps.Desk.{AreArrived, AreFresh, DeskState, HasStopped, Started, started_at};

use hose_io::{Door, Failed};
use std::marker::{Brand, Model};
use std::sync::ledger::{Book as Tally, Ledger, Share};
use std::sync::{Mutex, Wait};

/// What a crew's door was at the start. A caller names it here, since a lock has no other way to
/// tell what became of it.
pub trait DoorStart: Ledger {
    ghost start: { Started };
}

// A caller's proof names the door.
impl DoorStart for Brand {
    ghost use Rattle.std.specs.Prelude.{None, []};

    ghost start = { record {
      frame = record { faults = 0; number = 0; loan = [] };
      told = None;
      port = None;
      connections = 0;
    } };
}

/// A connection that was accepted.
#[derive(Drop)]
pub struct Accepted<L: Door> {
    /// Its number, counted from 1.
    pub session: u64,
    pub input: L::In,
    pub output: L::Out,
}

/// Where a worker asks for the next connection: a desk, by itself or under its lock.
pub trait Accept<L: Door, N: DoorStart> {
    /// What is known of it where no connection comes any more.
    ghost is_over: { Self → Type 0 };

    /// Waits for the next connection, which counts in the share; none where as many were accepted
    /// as are to be, no more will come, or the door failed.
    fn accept(&mut self, share: &mut Share<N>) -> Option<Accepted<L>>
        requires { 0 < share.old.parts }
        ensures parts { share.new.parts ≡ share.old.parts }
        ensures none { IfNone result (share.new.amount ≡ share.old.amount) }
        ensures one { IfSome result (λ one. share.new.amount ≡ share.old.amount + 1) }
        ensures few { IfSome result (λ one. share.new.amount ≤ N.start.connections) }
        ensures fresh { IfSome result (λ one. AreFresh L.In.Source L.Out.Sink N.start.told
            one.input one.output) }
        ensures over { IfNone result (Self.is_over self.new) };
}

/// What accepting came to, with the door and the tally of what was accepted.
pub struct Closed<L: Door, N: DoorStart> {
    pub door: L,
    pub tally: Tally<N>,
    pub stopped: Result<(), Failed>,
}

/// A door, and how many connections it has accepted.
pub struct Desk<L: Door, N: DoorStart> {
    door: L,
    connections: u32,
    accepted: u32,
    stopped: Option<Result<(), Failed>>,
    tally: Tally<N>,
}

impl<L: Door, N: DoorStart> Model for Desk<L, N> {
    ghost use Rattle.hose_crew.specs.steps.Desk.{DeskState, IsDesk};

    ghost Value = { DeskState L };

    ghost view = { λ desk. record {
      door = desk.door;
      connections = desk.connections;
      accepted = desk.accepted;
      stopped = desk.stopped;
      total = desk.tally.total;
    } };

    ghost invariant = { λ desk. IsDesk L.Door N.start (record {
      door = desk.door;
      connections = desk.connections;
      accepted = desk.accepted;
      stopped = desk.stopped;
      total = desk.tally.total;
    }) };
}

impl<L: Door, N: DoorStart> Desk<L, N> {
    /// A door that is to accept so many connections.
    pub fn new(door: L, connections: u32, tally: Tally<N>) -> Desk<L, N>
        requires start { N.start ≡ started_at L.Door door connections }
        requires none { tally.total ≡ 0 }
    {
        Desk {
            door,
            connections,
            accepted: 0,
            stopped: None,
            tally,
        }
    }

    /// What accepting came to, where no connection comes any more.
    pub fn close(self) -> Closed<L, N>
        requires { IsSome self.stopped }
        ensures stopped { HasStopped N.start (L.frame result.door) (L.told result.door)
            result.tally.total result.stopped }
        ensures arrived { AreArrived N.start.told (L.told result.door) result.tally.total }
        ensures port { L.opened_at result.door ≡ N.start.port }
        ensures few { result.tally.total ≤ N.start.connections }
    {
        let Desk {
            door,
            connections: _,
            accepted: _,
            stopped,
            tally,
        } = self;
        Closed {
            door,
            tally,
            stopped: stopped.unwrap(),
        }
    }
}

impl<L: Door, N: DoorStart> Accept<L, N> for Desk<L, N> {
    ghost use Rattle.std.specs.Prelude.{IsSome};

    ghost is_over = { λ desk. IsSome desk.stopped };

    fn accept(&mut self, share: &mut Share<N>) -> Option<Accepted<L>> {
        if self.stopped.is_some() {
            return None;
        }
        if self.accepted == self.connections {
            self.stopped = Some(Ok(()));
            return None;
        }
        match self.door.accept() {
            Ok(Some((input, output))) => {
                self.accepted += 1;
                self.tally.add(share, 1);
                // That a share is no more than the total is told by this call.
                self.tally.audit(share);
                let one = Accepted {
                    session: u64::from(self.accepted),
                    input,
                    output,
                };
                // Customers who come later are not to wait for the sessions' ends.
                if self.connections == self.accepted {
                    self.door.close();
                    return Some(one);
                }
                Some(one)
            }
            Ok(None) => {
                self.stopped = Some(Ok(()));
                None
            }
            Err(failed) => {
                self.door.close();
                self.stopped = Some(Err(failed));
                None
            }
        }
    }
}

/// A desk that workers share, under its lock.
#[derive(Drop)]
pub struct LockedDesk<'a, W, L: Door, N: DoorStart> {
    pub rt: &'a W,
    pub desk: &'a Mutex<Desk<L, N>>,
}

// That a connection is the last one is known only while the lock is held.
impl<'a, W: Wait, L: Door, N: DoorStart> Accept<L, N> for LockedDesk<'a, W, L, N> {
    ghost use Rattle.std.specs.Prelude.{⊤};

    ghost is_over = { λ _. ⊤ };

    fn accept(&mut self, share: &mut Share<N>) -> Option<Accepted<L>> {
        self.desk.lock(self.rt).accept(share)
    }
}
