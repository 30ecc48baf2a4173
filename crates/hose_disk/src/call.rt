// The kinds of calls of a disk, and which calls of each are to fail.
ghost use Rattle.std.specs.Prelude.{◌≡◌, ◌↔◌, [], ◌∷◌, ◌++◌, Contains, IsTrue, OnOk, OnErr};
ghost use Rattle.hose_disk.specs.steps.MemState.{of_kind, with_kind, after_kind, none_to_fail};

use hose_io::FailingCalls;
use std::alloc::{AllocError, Global};
use std::marker::Model;

/// The kind of a call of a disk.
#[derive(Clone, Copy, Debug, PartialEq, Eq)]
pub enum DiskCall {
    Len,
    Read,
    Write,
    Cut,
    Sync,
}

/// The calls to come of each kind that are to fail.
#[derive(Debug, Drop)]
pub struct FailingByKind {
    lens: FailingCalls,
    reads: FailingCalls,
    writes: FailingCalls,
    cuts: FailingCalls,
    syncs: FailingCalls,
}

impl Model for FailingByKind {
    ghost use Rattle.hose_disk.specs.steps.MemState.{ToFail};

    ghost Value = { ToFail };

    ghost view = { λ failing. record {
      lens = failing.lens;
      reads = failing.reads;
      writes = failing.writes;
      cuts = failing.cuts;
      syncs = failing.syncs;
    } };
}

impl FailingByKind {
    /// No call is to fail.
    pub fn new(alloc: Global) -> FailingByKind
        ensures { result ≡ none_to_fail }
    {
        FailingByKind {
            lens: FailingCalls::new(alloc),
            reads: FailingCalls::new(alloc),
            writes: FailingCalls::new(alloc),
            cuts: FailingCalls::new(alloc),
            syncs: FailingCalls::new(alloc),
        }
    }

    /// The `nth` call of this kind from now on, counted from 1, is to fail.
    pub fn add(&mut self, kind: DiskCall, nth: u64) -> Result<(), AllocError>
        ensures ok { OnOk result
            (self.new ≡ with_kind kind self.old (of_kind kind self.old ++ nth ∷ [])) }
        ensures err { OnErr result (self.new ≡ self.old) }
    {
        match kind {
            DiskCall::Len => self.lens.add(nth),
            DiskCall::Read => self.reads.add(nth),
            DiskCall::Write => self.writes.add(nth),
            DiskCall::Cut => self.cuts.add(nth),
            DiskCall::Sync => self.syncs.add(nth),
        }
    }

    /// Whether the call of this kind that is made now is to fail.
    pub fn next(&mut self, kind: DiskCall) -> bool
        ensures fails { IsTrue result ↔ Contains (of_kind kind self.old) 1 }
        ensures later { self.new ≡ after_kind kind self.old }
    {
        match kind {
            DiskCall::Len => self.lens.next(),
            DiskCall::Read => self.reads.next(),
            DiskCall::Write => self.writes.next(),
            DiskCall::Cut => self.cuts.next(),
            DiskCall::Sync => self.syncs.next(),
        }
    }
}
