// A file of calls, each of which is printed with what comes of it; and how a program of cases ends.
use crate::case_text::CaseText;
use crate::trouble::Trouble;
use crate::words::{cases_of, first};
use std::alloc::Global;
use std::fmt::Display;
use std::fs;
use std::process::ExitCode;
use std::rt::Files;

/// A call that a line writes down.
#[derive(Clone, Copy)]
pub struct CaseCall<'a> {
    /// The name of a network.
    pub network: &'a str,
    pub name: &'a str,
    /// What stands after the name.
    pub words: &'a str,
}

impl<'a> CaseCall<'a> {
    fn read(line: &'a str) -> CaseCall<'a> {
        let (network, call) = first(line);
        let (name, words) = first(call);
        CaseCall {
            network,
            name,
            words,
        }
    }
}

/// Calls that are written down in lines.
pub trait Calls {
    /// Tells what comes of a call.
    fn tell(call: CaseCall<'_>, told: &mut CaseText) -> Result<(), Trouble>;
}

/// Makes the calls of a file, and prints each, what comes of it, and how many there were.
pub fn run_calls<C: Calls, R: Files + Print + Eprint + AllocGlobal>(
    rt: &R,
    program: &str,
    file: &str,
) -> ExitCode {
    ended(rt, program, &run_file::<C, R>(rt, file))
}

/// How a program of cases ends, which prints why it stops before all of them are done.
pub fn ended<T: Display, R: Eprint>(rt: &R, program: &str, done: &Result<(), T>) -> ExitCode {
    match done {
        Ok(()) => ExitCode::SUCCESS,
        Err(trouble) => {
            let _ = eprintln!(rt; "{program}: {trouble}");
            ExitCode::FAILURE
        }
    }
}

fn run_file<C: Calls, R: Files + Print + AllocGlobal>(rt: &R, file: &str) -> Result<(), Trouble> {
    let text = fs::read_to_string(rt, file)?;
    let calls = run_lines::<C, R>(rt, text.as_str())?;
    println!(rt; "{file}: {calls} calls")?;
    Ok(())
}

fn run_lines<C: Calls, R: Print + AllocGlobal>(rt: &R, text: &str) -> Result<usize, Trouble> {
    let cases = cases_of(rt.alloc(), text)?;
    for line in &cases {
        run_line::<C, R>(rt, line)?;
    }
    Ok(cases.len())
}

// Prints a call, and below it what came of it.
fn run_line<C: Calls, R: Print + AllocGlobal>(rt: &R, line: &str) -> Result<(), Trouble> {
    println!(rt; "{line}")?;
    let text = told_of::<C>(rt.alloc(), line)?;
    for told in text.lines() {
        println!(rt; "    {told}")?;
    }
    Ok(())
}

fn told_of<C: Calls>(alloc: Global, line: &str) -> Result<String, Trouble> {
    let mut told = CaseText::new(alloc);
    C::tell(CaseCall::read(line), &mut told)?;
    Ok(told.finish()?)
}
