// A file of cases, each of which is run, and printed with what differs.
use crate::comparison::differences;
use crate::outcome::Outcome;
use cases_common::ended;
use cases_files::{Case, CaseTrouble, FileRefusal, read_cases};
use std::alloc::Global;
use std::fs;
use std::process::ExitCode;
use std::rt::Files;

/// What runs a case.
pub trait Runs {
    /// What comes of a case. One more call of a session's output fails, if the number `cut` is not
    /// 0.
    fn run(&self, alloc: Global, case: &Case, cut: u64) -> Result<Outcome, CaseTrouble>;
}

/// What all files had so far.
#[derive(Clone, Copy)]
struct RunCount {
    cases: u64,
    differ: u64,
    refused: u64,
}

/// Runs the files that the input names, and prints how many cases there were.
pub fn run_files<C: Runs, R: Input + Files + Print + Eprint + AllocGlobal>(
    runs: &C,
    rt: &R,
    program: &str,
) -> ExitCode {
    ended(rt, program, &run_each(runs, rt))
}

fn run_each<C: Runs, R: Input + Files + Print + AllocGlobal>(
    runs: &C,
    rt: &R,
) -> Result<(), CaseTrouble> {
    let mut count = RunCount {
        cases: 0,
        differ: 0,
        refused: 0,
    };
    for name in rt.lines(rt.alloc()) {
        run_file(runs, rt, name?.as_str(), &mut count)?;
    }
    let RunCount {
        cases,
        differ,
        refused,
    } = count;
    println!(rt; "{cases} cases, {differ} differ; {refused} files refused")?;
    Ok(())
}

// Runs the cases of a file, and tells of each; or why the file was refused.
fn run_file<C: Runs, R: Files + Print + AllocGlobal>(
    runs: &C,
    rt: &R,
    name: &str,
    count: &mut RunCount,
) -> Result<(), CaseTrouble> {
    let text = fs::read_to_string(rt, name)?;
    run_text(runs, rt, name, text.as_str(), count)
}

fn run_text<C: Runs, R: Print + AllocGlobal>(
    runs: &C,
    rt: &R,
    name: &str,
    text: &str,
    count: &mut RunCount,
) -> Result<(), CaseTrouble> {
    match read_cases(rt.alloc(), text) {
        Ok(cases) => run_cases(runs, rt, name, &cases, count),
        Err(refusal) => {
            count.refused = count.refused.saturating_add(1);
            tell_refusal(rt, name, &refusal)
        }
    }
}

fn tell_refusal<R: Print>(rt: &R, name: &str, refusal: &FileRefusal) -> Result<(), CaseTrouble> {
    let (line, why) = (refusal.line, &refusal.why);
    println!(rt; "refused {name}, line {line}: {why}")?;
    Ok(())
}

fn run_cases<C: Runs, R: Print + AllocGlobal>(
    runs: &C,
    rt: &R,
    name: &str,
    cases: &[Case],
    count: &mut RunCount,
) -> Result<(), CaseTrouble> {
    for case in cases {
        count.cases = count.cases.saturating_add(1);
        if run_case(runs, rt, name, case)? {
            count.differ = count.differ.saturating_add(1);
        }
    }
    Ok(())
}

// Runs a case, and tells of it. Answers whether something differs.
fn run_case<C: Runs, R: Print + AllocGlobal>(
    runs: &C,
    rt: &R,
    file: &str,
    case: &Case,
) -> Result<bool, CaseTrouble> {
    let told = differences(runs, rt.alloc(), case)?;
    tell_case(rt, file, case, told.as_str())
}

// Prints whether a case went as it says, and what differs. Answers whether something does.
fn tell_case<R: Print>(rt: &R, file: &str, case: &Case, told: &str) -> Result<bool, CaseTrouble> {
    let verdict = if told.is_empty() { "ok" } else { "differs" };
    println!(rt; "{verdict:<8}{file}: {}", case.name)?;
    for line in told.lines() {
        println!(rt; "        {line}")?;
    }
    Ok(!told.is_empty())
}
