// Bytes in memory that are written.
ghost use Rattle.std.specs.Prelude.{◌≡◌, ◌<◌, ◌≤◌, ℕ, Option, Some, List, [], ◌∷◌, ◌++◌, IfOk, IsErr, OnOk, OnErr, MatchResult, Contains, length, take};
ghost use Rattle.hose_io.specs.steps.Count.{pieces_after};
ghost use Rattle.hose_io.specs.Frame.{Frame, Met};
ghost use Rattle.hose_io.specs.steps.SinkState.{SinkState, fresh_sink, mem_sink_frame, sink_after_putting, sink_after_fault, sink_after_starving};
ghost use Rattle.hose_io.specs.Stream.{Grows};

use crate::{Failed, FailingCalls, Faults, Sink};
use std::alloc::{AllocError, Global};
use std::marker::Model;

/// Bytes in memory that are written, for tests and embeddings. A call fails where it was told to,
/// and where no memory is left to grow.
#[derive(Debug, Drop)]
pub struct MemSink {
    bytes: Vec<u8>,
    pieces: u64,
    faults: Faults,
    failing: FailingCalls,
    number: u64,
}

impl Model for MemSink {
    ghost use Rattle.hose_io.specs.steps.SinkState.{SinkState};

    ghost Value = { SinkState };

    ghost view = { λ s. record {
      given = s.bytes.items;
      pieces = s.pieces;
      faults = s.faults;
      failing = s.failing;
      number = s.number;
    } };
}

impl MemSink {
    /// A sink that was given nothing. Its number is 0.
    pub fn new(alloc: Global) -> Result<MemSink, AllocError>
        ensures { IfOk result (λ sink. sink ≡ fresh_sink) }
    {
        Ok(MemSink {
            bytes: Vec::new(alloc),
            pieces: 0,
            faults: Faults::none(),
            failing: FailingCalls::new(alloc),
            number: 0,
        })
    }

    /// This sink, as that of the connection of this number.
    pub(crate) fn with_number(mut self, number: u64) -> MemSink
        ensures { result ≡ record self { number = number } }
    {
        self.number = number;
        self
    }

    /// What was given.
    pub fn bytes(&self) -> &[u8]
        ensures { result.now ≡ self.now.given }
    {
        &self.bytes
    }

    /// What it counts of its calls that failed.
    pub fn faults(&self) -> Faults
        ensures { result ≡ self.now.faults }
    {
        self.faults
    }

    /// The `nth` call of `put` from now on, counted from 1, is to fail.
    pub fn fail(&mut self, nth: u64) -> Result<(), AllocError>
        ensures ok { OnOk result
            (self.new ≡ record self.old { failing = self.old.failing ++ nth ∷ [] }) }
        ensures err { OnErr result (self.new ≡ self.old) }
    {
        self.failing.add(nth)
    }
}

impl Sink for MemSink {
    ghost use Rattle.std.specs.Prelude.{Some};
    ghost use Rattle.hose_io.specs.steps.SinkState.{mem_sink_frame};

    ghost frame = { mem_sink_frame };

    ghost content = { λ s. Some s.given };

    ghost pieces = { λ s. s.pieces };

    fn put(&mut self, bytes: &[u8]) -> Result<usize, Failed>
        requires { 0 < length bytes.now }
        ensures some { IfOk result (λ k. 0 < k) }
        ensures room { IfOk result (λ k. k ≤ length bytes.now) }
        ensures appended { MatchResult result
            (λ k. Grows (Some self.old.given) (Some self.new.given) (take k bytes.now))
            (λ _. Some self.new.given ≡ Some self.old.given) }
        ensures pieces { MatchResult result
            (λ k. self.new.pieces ≡ pieces_after self.old.pieces k (length bytes.now))
            (λ _. self.new.pieces ≡ self.old.pieces) }
        ensures met { Met (mem_sink_frame self.old) (mem_sink_frame self.new) result }

        ensures all { IfOk result (λ k. k ≡ length bytes.now) }
        ensures given { OnOk result (self.new ≡ sink_after_putting self.old bytes.now) }

        // A call on the list fails for that reason, and another one only for want of memory.
        ensures listed { Contains self.old.failing 1 → IsErr result }
        ensures fault { Contains self.old.failing 1 → self.new ≡ sink_after_fault self.old }
        ensures starved { ¬ Contains self.old.failing 1 →
            OnErr result (self.new ≡ sink_after_starving self.old) }
    {
        if self.failing.next() {
            return Err(self.faults.fail());
        }
        if self.bytes.extend_from_slice(bytes).is_err() {
            return Err(self.faults.starve());
        }
        self.pieces = self.pieces.saturating_add(1);
        Ok(bytes.len())
    }
}
