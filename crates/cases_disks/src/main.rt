//! Runs cases of what a book on a disk stands on, which are written down in files: entries as
//! bytes, disks and cabinets in memory that fail and are stopped, and stores on such disks.
//!
//! The folder in which it runs holds the files; `data/README.md` describes them. Of a case is
//! printed only what comes in place of that which must come of it. What is printed is compared with
//! the file `stdout` of this crate.
#![tactic(auto)]

mod cabinets;
mod change;
mod disks;
mod entries;
mod names;
mod stores;
mod subject;

use cases_common::{CaseText, Trouble, cases_of, ended};
use names::BytesByName;
use std::fs;
use std::process::ExitCode;
use std::rt::Files;
use subject::{AskedCase, tell_other};

// The files, in the order in which they are read: names that one gives, those after it may use.
const FILES: [&str; 6] = [
    "entries.cases",
    "disks.cases",
    "images.cases",
    "cabinets.cases",
    "stores.cases",
    "differs.cases",
];

// How many cases there were, and of how many something else came.
#[derive(Clone, Copy)]
struct Count {
    cases: u64,
    differ: u64,
}

fn main(rt: HostRuntime) -> ExitCode {
    ended(&rt, "cases_disks", &run_files(&rt))
}

fn run_files<R: Files + Print + AllocGlobal>(rt: &R) -> Result<(), Trouble> {
    let mut names = BytesByName::new(rt.alloc());
    for file in FILES {
        run_file(rt, file, &mut names)?;
    }
    Ok(())
}

// Runs the cases of a file, and prints how many there were.
fn run_file<R: Files + Print + AllocGlobal>(
    rt: &R,
    file: &str,
    names: &mut BytesByName,
) -> Result<(), Trouble> {
    let text = fs::read_to_string(rt, file)?;
    let Count { cases, differ } = run_lines(rt, text.as_str(), names)?;
    println!(rt; "{file}: {cases} cases, {differ} differ")?;
    Ok(())
}

fn run_lines<R: Print + AllocGlobal>(
    rt: &R,
    text: &str,
    names: &mut BytesByName,
) -> Result<Count, Trouble> {
    let mut count = Count {
        cases: 0,
        differ: 0,
    };
    for line in &cases_of(rt.alloc(), text)? {
        run_line(rt, line, names, &mut count)?;
    }
    Ok(count)
}

// A line names bytes, or says what must come of a case.
fn run_line<R: Print + AllocGlobal>(
    rt: &R,
    line: &str,
    names: &mut BytesByName,
    count: &mut Count,
) -> Result<(), Trouble> {
    if let Some(named) = line.strip_prefix("let ") {
        return names.define(rt.alloc(), named);
    }
    let (case, wanted) = line.split_once(" = ").ok_or(Trouble::Word)?;
    count.cases = count.cases.saturating_add(1);
    if differs(rt, names, case, wanted, &mut CaseText::new(rt.alloc()))? {
        count.differ = count.differ.saturating_add(1);
    }
    Ok(())
}

// Whether something else comes of a case than is wanted, which is printed.
fn differs<R: Print>(
    rt: &R,
    names: &BytesByName,
    case: &str,
    wanted: &str,
    told: &mut CaseText,
) -> Result<bool, Trouble> {
    if !tell_other(AskedCase::read(names, case), wanted, told)? {
        return Ok(false);
    }
    println!(rt;
        "differs: {case} = {}, and {wanted} is wanted",
        told.told()?
    )?;
    Ok(true)
}
