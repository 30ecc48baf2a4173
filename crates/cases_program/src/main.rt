//! Runs the program, and sessions of its server, on cases that are written down in files, and tells
//! where they do not do what the files say.
//!
//! The folder in which it runs holds the files; `data/README.md` describes them. The input names
//! those that are run. Each case is one call of `hosed_program::program` over streams, a cabinet
//! and a door in memory, or a session or two of `hose_session::serve_session`. What is printed is
//! compared with the file `stdout` of this crate. `cases_files` reads the files, and `cases_stage`
//! compares what comes of a case.
//!
//! First each word that it is run with is printed on a line, as `hosed_program::program_words`
//! takes them: what the system hands a program is told by no clause, and the stored run of the
//! program has a few words. Here the file `args` has 68, as many as any command takes, and the file
//! `stdout` the same, but for a word that is too long, in place of which stands an empty one.
#![tactic(auto)]

mod conversation;
mod holding;
mod run;
mod runner;
mod sessions;

use cases_files::CaseTrouble;
use cases_stage::run_files;
use hosed_program::{SystemWords, program_words};
use runner::Runner;
use std::env::Env;
use std::process::ExitCode;

fn main(rt: HostRuntime) -> ExitCode {
    if tell_words(&rt).is_err() {
        return ExitCode::FAILURE;
    }
    run_files(&Runner::new(&rt), &rt, "cases_program")
}

fn tell_words<R: Env + Print + AllocGlobal>(rt: &R) -> Result<(), CaseTrouble> {
    for word in &program_words(&SystemWords { env: rt }, rt.alloc())? {
        println!(rt; "{word}")?;
    }
    Ok(())
}
