// Connections in memory.
ghost use Rattle.std.specs.Prelude.{◌≡◌, ◌↔◌, ◌<◌, ◌+◌, Option, None, Some, List, [], ◌∷◌, ◌++◌, All, IfOk, IsErr, OnOk, OnErr, MatchOption, MatchResult, Contains, length};
ghost use Rattle.hose_io.specs.steps.Connections.{Accepts, AreAccounted, AreUsedUp, ComesBack, HasEnded, IsConnection, MayComeBack};
ghost use Rattle.hose_io.specs.steps.DoorState.{IsFresh, IsHandedOut, door_after_call, door_after_fault, door_after_open, door_after_return, connections_of, mem_door_frame, mem_sink, mem_source, outcome};
ghost use Rattle.hose_io.specs.steps.Faults.{no_faults};
ghost use Rattle.hose_io.specs.Frame.{Met};
ghost use Rattle.hose_io.specs.steps.SinkState.{fresh_sink};

use crate::{Door, Failed, FailingCalls, Faults, MemSink, MemSource};
use std::alloc::{AllocError, Global};
use std::collections::VecDeque;
use std::marker::Model;

/// A connection of a door in memory, for tests and embeddings, that ended: its number, and what
/// became of its input and its output.
#[derive(Debug, Drop)]
pub struct MemDone {
    pub number: u64,
    pub input: MemSource,
    pub output: MemSink,
}

impl Model for MemDone {
    ghost use Rattle.hose_io.specs.steps.DoorState.{DoneState};

    ghost Value = { DoneState };

    ghost view = { λ done. record {
      number = done.number;
      input = done.input;
      output = done.output;
    } };
}

// A connection that is still to come. Its sink is made with it, so that accepting takes no memory.
#[derive(Debug, Drop)]
struct Coming {
    input: MemSource,
    output: MemSink,
}

impl Model for Coming {
    ghost use Rattle.std.specs.Prelude.{◌≡◌};
    ghost use Rattle.hose_io.specs.steps.DoorState.{IsFresh};
    ghost use Rattle.hose_io.specs.steps.SinkState.{fresh_sink};
    ghost use Rattle.hose_io.specs.steps.SourceState.{SourceState};

    ghost Value = { SourceState };

    ghost view = { λ coming. coming.input };

    ghost invariant = { λ coming. IsFresh coming.input × (coming.output ≡ fresh_sink) };
}

impl Coming {
    fn new(alloc: Global, input: MemSource) -> Result<Coming, AllocError>
        requires { IsFresh input }
        ensures { IfOk result (λ coming. coming ≡ input) }
    {
        Ok(Coming {
            input,
            output: MemSink::new(alloc)?,
        })
    }

    // Its input and its output, as those of the connection of this number.
    fn into_ends(self, number: u64) -> (MemSource, MemSink)
        ensures fresh { IsFresh self }
        ensures input { result.0 ≡ record self { number = number } }
        ensures output { result.1 ≡ record fresh_sink { number = number } }
    {
        (
            self.input.with_number(number),
            self.output.with_number(number),
        )
    }
}

/// A list of connections in memory, for tests and embeddings. A call of `open` or `accept` fails
/// exactly where it was told to, and no call of the trait takes memory.
#[derive(Debug, Drop)]
pub struct MemDoor {
    port: Option<u16>,
    coming: VecDeque<Coming>,
    accepted: u64,
    ended: Vec<MemDone>,
    faults: Faults,
    failing: FailingCalls,
}

impl Model for MemDoor {
    ghost use Rattle.std.specs.Prelude.{◌+◌, ◌≤◌, length, vec_capacity, vec_len};
    ghost use Rattle.hose_io.specs.steps.DoorState.{DoorState};

    ghost Value = { DoorState };

    ghost view = { λ door. record {
      port = door.port;
      coming = door.coming.items;
      accepted = door.accepted;
      ended = door.ended.items;
      faults = door.faults;
      failing = door.failing;
    } };

    // There is room for all connections to come back.
    ghost invariant = { λ door.
        (vec_len door.ended ≤ door.accepted)
        × (door.accepted + length door.coming.items ≤ vec_capacity door.ended) };
}

impl MemDoor {
    /// A door that will give these connections in order.
    pub fn new(alloc: Global, inputs: Vec<MemSource>) -> Result<MemDoor, AllocError>
        requires { All IsFresh inputs.items }
        ensures { IfOk result (λ door. door ≡ record {
          port = None;
          coming = inputs.items;
          accepted = 0;
          ended = [];
          faults = no_faults;
          failing = [];
        }) }
    {
        let ended = Vec::with_capacity(alloc, inputs.len())?;
        let mut coming = VecDeque::with_capacity(alloc, inputs.len())?;
        for input in inputs {
            coming.push_back(Coming::new(alloc, input)?)?;
        }
        Ok(MemDoor {
            port: None,
            coming,
            accepted: 0,
            ended,
            faults: Faults::none(),
            failing: FailingCalls::new(alloc),
        })
    }

    /// The connections that ended and came back, in the order in which they did.
    pub fn ended(&self) -> &[MemDone]
        ensures { result.now ≡ self.now.ended }
    {
        &self.ended
    }

    /// What it counts of its calls that failed, of which none finds no memory.
    pub fn faults(&self) -> Faults
        ensures { result ≡ self.now.faults }
    {
        self.faults
    }

    /// The `nth` call of `open` and `accept` together from now on, counted from 1, is to fail.
    pub fn fail(&mut self, nth: u64) -> Result<(), AllocError>
        ensures ok { OnOk result
            (self.new ≡ record self.old { failing = self.old.failing ++ nth ∷ [] }) }
        ensures err { OnErr result (self.new ≡ self.old) }
    {
        self.failing.add(nth)
    }
}

impl Door for MemDoor {
    ghost use Rattle.std.specs.Prelude.{Some};
    ghost use Rattle.hose_io.specs.steps.DoorState.{connections_of, mem_door_frame, outcome};

    type In = MemSource;

    type Out = MemSink;

    type Done = MemDone;

    ghost frame = { mem_door_frame };

    ghost opened_at = { λ door. door.port };

    ghost told = { λ door. Some (connections_of door) };

    ghost came_to = { λ done. Some (outcome done) };

    fn open(&mut self, port: u16) -> Result<(), Failed>
        ensures told { Some (connections_of self.new) ≡ Some (connections_of self.old) }
        ensures accounted { AreAccounted (Some (connections_of self.new)) }
        ensures met { Met (mem_door_frame self.old) (mem_door_frame self.new) result }
        ensures port { MatchResult result
            (λ _. self.new.port ≡ Some port)
            (λ _. self.new.port ≡ self.old.port) }

        ensures fails { IsErr result ↔ Contains self.old.failing 1 }
        ensures after { MatchResult result
            (λ _. self.new ≡ door_after_open port self.old)
            (λ _. self.new ≡ door_after_fault self.old) }
    {
        if self.failing.next() {
            Err(self.faults.fail())
        } else {
            self.port = Some(port);
            Ok(())
        }
    }

    fn accept(&mut self) -> Result<Option<(MemSource, MemSink)>, Failed>
        ensures accepted { MatchResult result
            (λ found. MatchOption found
            (AreUsedUp (Some (connections_of self.old))
            × (Some (connections_of self.new) ≡ Some (connections_of self.old)))
            (λ ends. IsConnection mem_source mem_sink ends.0 ends.1
            × Accepts (Some (connections_of self.old)) (Some (connections_of self.new))
            (Some ends.0.content) (Some ends.1.given) ends.0.number))
            (λ _. Some (connections_of self.new) ≡ Some (connections_of self.old)) }
        ensures accounted { AreAccounted (Some (connections_of self.new)) }
        ensures met { Met (mem_door_frame self.old) (mem_door_frame self.new) result }
        ensures port { self.new.port ≡ self.old.port }

        ensures fails { IsErr result ↔ Contains self.old.failing 1 }
        ensures after { MatchResult result
            (λ found. MatchOption found
            ((self.old.coming ≡ []) × (self.new ≡ door_after_call self.old))
            (λ ends. IsHandedOut self.old self.new ends.0 ends.1))
            (λ _. self.new ≡ door_after_fault self.old) }
    {
        if self.failing.next() {
            return Err(self.faults.fail());
        }
        let Some(next) = self.coming.pop_front() else {
            return Ok(None);
        };
        self.accepted += 1;
        Ok(Some(next.into_ends(self.accepted)))
    }

    fn done(input: MemSource, output: MemSink) -> MemDone
        requires { input.number ≡ output.number }
        ensures ended { HasEnded mem_source mem_sink input output (Some (outcome result)) }

        ensures done { result ≡ record {
          number = input.number;
          input = input;
          output = output;
        } }
    {
        MemDone {
            number: input.number(),
            input,
            output,
        }
    }

    fn back(&mut self, done: MemDone)
        requires { MayComeBack (Some (connections_of self.old)) (Some (outcome done)) }
        ensures back { ComesBack (Some (connections_of self.old))
            (Some (connections_of self.new)) (Some (outcome done)) }
        ensures frame { mem_door_frame self.new ≡ mem_door_frame self.old }
        ensures port { self.new.port ≡ self.old.port }

        ensures after { self.new ≡ door_after_return done self.old }
    {
        self.ended.push_reserved(done);
    }
}
