// What runs the cases of files.
ghost use Rattle.hose_pool.specs.steps.Shareable.{IsShared};

use crate::conversation::converse_twice;
use crate::run::run_program;
use crate::sessions::run_session;
use cases_files::{Call, Case, CaseTrouble};
use cases_stage::{Outcome, Runs};
use std::alloc::Global;
use std::marker::Model;
use std::sync::Wait;
use std::thread::Threads;

/// What several threads may use at once, which is all that is `Sync`. The proof of a trait's method
/// is not told of that bound, so an invariant keeps it.
pub trait UsedAtOnce {
    ghost is_shareable: { Type 0 };
}

impl<T: Sync> UsedAtOnce for T {
    ghost is_shareable = { IsShared T.row.shr_at };
}

/// What runs a case: a runtime, of which threads come. A contract sees nothing of it.
#[derive(Drop)]
pub struct Runner<'a, R: UsedAtOnce> {
    rt: &'a R,
}

impl<'a, R: UsedAtOnce> Model for Runner<'a, R> {
    ghost use Rattle.std.specs.Prelude.{⊤};

    ghost Value = { ⊤ };

    ghost view = { λ _. tt };

    ghost invariant = { λ _. R.is_shareable };
}

impl<'a, R: Sync> Runner<'a, R> {
    pub fn new(rt: &'a R) -> Runner<'a, R> {
        Runner { rt }
    }
}

impl<R: Threads + Wait + Sync> Runs for Runner<'_, R> {
    fn run(&self, alloc: Global, case: &Case, cut: u64) -> Result<Outcome, CaseTrouble> {
        match case.call {
            Call::Program => Ok(run_program(self.rt, alloc, case)?),
            Call::Session => run_session(self.rt, alloc, case, cut),
            Call::Conversation(times) => converse_twice(self.rt, alloc, case, times),
        }
    }
}
