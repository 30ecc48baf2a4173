// The calls to come that are to fail.
ghost use Rattle.std.specs.Prelude.{◌≡◌, ◌↔◌, ◌-◌, ℕ, List, [], ◌∷◌, ◌++◌, map, Contains, IsTrue, OnOk, OnErr};
ghost use Rattle.hose_io.specs.steps.FailingCalls.{later_calls};

use std::alloc::{AllocError, Global};
use std::marker::Model;

/// The calls to come that are to fail, each by its number, counted from 1. A form in memory keeps
/// one, so that a test can try each fault.
#[derive(Debug, Drop)]
pub struct FailingCalls {
    calls: Vec<u64>,
}

impl Model for FailingCalls {
    ghost Value = { List ℕ };

    ghost view = { λ f. f.calls.items };
}

impl FailingCalls {
    /// No call is to fail.
    pub fn new(alloc: Global) -> Self
        ensures { result ≡ [] }
    {
        FailingCalls {
            calls: Vec::new(alloc),
        }
    }

    /// The `nth` call from now on is to fail. There is no call 0.
    pub fn add(&mut self, nth: u64) -> Result<(), AllocError>
        ensures ok { OnOk result (self.new ≡ self.old ++ nth ∷ []) }
        ensures err { OnErr result (self.new ≡ self.old) }
    {
        self.calls.push(nth)?;
        Ok(())
    }

    /// Whether the call that is made now is to fail.
    pub fn next(&mut self) -> bool
        ensures fails { IsTrue result ↔ Contains self.old 1 }
        ensures later { self.new ≡ later_calls self.old }
    {
        let fails = self.calls.contains(&1);
        come_nearer(&mut self.calls);
        self.calls.retain(|nth| *nth > 0);
        fails
    }
}

fn come_nearer(calls: &mut [u64])
    ensures { calls.new ≡ map (λ nth. nth - 1) calls.old }
{
    for nth in calls.iter_mut() {
        *nth = nth.saturating_sub(1);
    }
}
