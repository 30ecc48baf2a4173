//! Makes single calls of the crates that plan hoses and keep books, which are written down in a
//! file. Each generic call is made at a concrete type here.
//!
//! The folder in which it runs holds the file; `data/README.md` describes it. What comes of a call
//! is printed, and compared with the file `stdout` of this crate.
#![tactic(auto)]

mod books;
mod calls;
mod cores;
mod judging;
mod plans;
mod quotes;
mod traffic;

use calls::PlanCalls;
use cases_common::run_calls;
use std::process::ExitCode;

fn main(rt: HostRuntime) -> ExitCode {
    run_calls::<PlanCalls, _>(&rt, "cases_plans", "calls.cases")
}
