// Bytes in memory that are read.
ghost use Rattle.std.specs.Prelude.{◌≡◌, ◌↔◌, ◌<◌, ◌≤◌, ℕ, Option, Ok, List, [], ◌∷◌, ◌++◌, IfOk, IsErr, OnOk, OnErr, MatchResult, Contains, length, min, take};
ghost use Rattle.hose_io.specs.steps.Faults.{no_faults};
ghost use Rattle.hose_io.specs.Frame.{Frame, Met};
ghost use Rattle.hose_io.specs.steps.SourceState.{SourceState, WasAsked, mem_source_frame, source_after_taking, source_after_fault};
ghost use Rattle.hose_io.specs.Stream.{Stream, Gives, IsAtEnd};

use crate::{Failed, FailingCalls, Faults, Source};
use std::alloc::{AllocError, Global};
use std::marker::Model;

/// Bytes in memory that are read, for tests and embeddings. A call fails exactly where it was told
/// to.
#[derive(Debug, Drop)]
pub struct MemSource {
    bytes: Vec<u8>,
    taken: usize,
    // How many were taken when it was asked last.
    asked: usize,
    piece: u64,
    faults: Faults,
    failing: FailingCalls,
    number: u64,
}

impl Model for MemSource {
    ghost use Rattle.std.specs.Prelude.{◌≤◌, take, drop, vec_len};
    ghost use Rattle.hose_io.specs.steps.SourceState.{SourceState};

    ghost Value = { SourceState };

    ghost view = { λ s. record {
      content = record { taken = take s.taken s.bytes.items; left = drop s.taken s.bytes.items };
      asked = drop s.asked s.bytes.items;
      piece = s.piece;
      faults = s.faults;
      failing = s.failing;
      number = s.number;
    } };

    ghost invariant = { λ s. (s.taken ≤ vec_len s.bytes) × (1 ≤ s.piece) };
}

impl MemSource {
    /// A source of these bytes, which gives at most `piece` of them in one call. Its number is 0.
    pub fn new(alloc: Global, bytes: &[u8], piece: u64) -> Result<MemSource, AllocError>
        requires { 1 ≤ piece }
        ensures { IfOk result (λ source. source ≡ record {
          content = record { taken = []; left = bytes.now };
          asked = bytes.now;
          piece = piece;
          faults = no_faults;
          failing = [];
          number = 0;
        }) }
    {
        Ok(MemSource {
            bytes: Vec::from_slice(alloc, bytes)?,
            taken: 0,
            asked: 0,
            piece,
            faults: Faults::none(),
            failing: FailingCalls::new(alloc),
            number: 0,
        })
    }

    /// This source, as that of the connection of this number.
    pub(crate) fn with_number(mut self, number: u64) -> MemSource
        ensures { result ≡ record self { number = number } }
    {
        self.number = number;
        self
    }

    pub(crate) fn number(&self) -> u64
        ensures { result ≡ self.now.number }
    {
        self.number
    }

    /// The bytes not yet taken.
    pub fn left(&self) -> &[u8]
        ensures { result.now ≡ self.now.content.left }
    {
        &self.bytes[self.taken..]
    }

    /// The bytes that were taken.
    pub fn taken(&self) -> &[u8]
        ensures { result.now ≡ self.now.content.taken }
    {
        &self.bytes[..self.taken]
    }

    /// What it counts of its calls that failed, of which none finds no memory.
    pub fn faults(&self) -> Faults
        ensures { result ≡ self.now.faults }
    {
        self.faults
    }

    /// The `nth` call of `take` from now on, counted from 1, is to fail.
    pub fn fail(&mut self, nth: u64) -> Result<(), AllocError>
        ensures ok { OnOk result
            (self.new ≡ record self.old { failing = self.old.failing ++ nth ∷ [] }) }
        ensures err { OnErr result (self.new ≡ self.old) }
    {
        self.failing.add(nth)
    }
}

impl Source for MemSource {
    ghost use Rattle.std.specs.Prelude.{Some};
    ghost use Rattle.hose_io.specs.steps.SourceState.{WasAsked, mem_source_frame};

    ghost frame = { mem_source_frame };

    ghost content = { λ s. Some s.content };

    ghost went = { WasAsked };

    fn take(&mut self, into: &mut [u8]) -> Result<usize, Failed>
        requires { 0 < length into.old }
        ensures room { IfOk result (λ k. k ≤ length into.new) }
        ensures taken { MatchResult result
            (λ k. Gives (Some self.old.content) (Some self.new.content) (take k into.new))
            (λ _. Some self.new.content ≡ Some self.old.content) }
        ensures none_only_at_end { result ≡ Ok 0 → IsAtEnd (Some self.old.content) }
        ensures met { Met (mem_source_frame self.old) (mem_source_frame self.new) result }
        ensures went { WasAsked self.old self.new }

        ensures fails { IsErr result ↔ Contains self.old.failing 1 }
        ensures amount { IfOk result
            (λ k. k ≡ min self.old.piece (min (length into.old) (length self.old.content.left))) }
        ensures after { MatchResult result
            (λ k. self.new ≡ source_after_taking self.old k)
            (λ _. self.new ≡ source_after_fault self.old) }
    {
        self.asked = self.taken;
        if self.failing.next() {
            return Err(self.faults.fail());
        }
        let left = &self.bytes[self.taken..];
        let count = left.len().min(into.len()).min(self.piece as usize);
        into[..count].copy_from_slice(&left[..count]);
        self.taken += count;
        Ok(count)
    }
}
