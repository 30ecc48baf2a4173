//! Makes single calls of the crates below the planner, which are written down in a file. Each
//! generic call is made at a concrete type here.
//!
//! The folder in which it runs holds the file; `data/README.md` describes it. What comes of a call
//! is printed, and compared with the file `stdout` of this crate.
#![tactic(auto)]

mod calls;
mod doors;
mod lines;
mod streams;
mod topologies;
mod values;

use calls::PartCalls;
use cases_common::run_calls;
use std::process::ExitCode;

fn main(rt: HostRuntime) -> ExitCode {
    run_calls::<PartCalls, _>(&rt, "cases_parts", "calls.cases")
}
