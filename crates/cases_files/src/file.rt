// A file of cases.
use crate::case::Case;
use crate::line::CaseLine;
use crate::trouble::{CaseTrouble, NO_CASE, NOTHING_TO_COMPARE};
use std::alloc::{AllocError, Global};

/// Where a file of cases is refused, and why.
#[derive(Drop)]
pub struct FileRefusal {
    /// Counted from 1.
    pub line: usize,
    pub why: CaseTrouble,
}

/// The cases of a file. What stands above the first one holds for each of them.
pub fn read_cases(alloc: Global, text: &str) -> Result<Vec<Case>, FileRefusal> {
    let mut head = FileHead {
        lines: Vec::new(alloc),
        case: Case::new(alloc, String::new(alloc)),
    };
    let mut cases = Vec::new(alloc);
    read_lines(alloc, text, &mut head, &mut cases)?;
    Ok(cases)
}

fn read_lines<'a>(
    alloc: Global,
    text: &'a str,
    head: &mut FileHead<'a>,
    cases: &mut Vec<Case>,
) -> Result<(), FileRefusal> {
    let mut last = 0;
    for (above, line) in text.lines().enumerate() {
        last = above.saturating_add(1);
        if let Err(why) = read_line(alloc, head, cases, line) {
            return Err(FileRefusal { line: last, why });
        }
    }
    match end_cases(cases) {
        Ok(()) => Ok(()),
        Err(why) => Err(FileRefusal { line: last, why }),
    }
}

// Refuses a file without a case.
fn end_cases(cases: &[Case]) -> Result<(), CaseTrouble> {
    end_case(cases)?;
    if cases.is_empty() {
        return Err(CaseTrouble::Case(NO_CASE));
    }
    Ok(())
}

// The lines above the first case, and a case of which they alone are read.
#[derive(Drop)]
struct FileHead<'a> {
    lines: Vec<&'a str>,
    case: Case,
}

impl<'a> FileHead<'a> {
    fn add(&mut self, alloc: Global, line: &'a str, read: CaseLine<'_>) -> Result<(), CaseTrouble> {
        self.case.add(alloc, read)?;
        self.lines.push(line)?;
        Ok(())
    }
}

// Reads a line of the file. What it says goes to the last case, or to all where there is none yet.
fn read_line<'a>(
    alloc: Global,
    head: &mut FileHead<'a>,
    cases: &mut Vec<Case>,
    line: &'a str,
) -> Result<(), CaseTrouble> {
    match CaseLine::read(line)? {
        CaseLine::Case(name) => begin(alloc, &head.lines, cases, name),
        read => match cases.last_mut() {
            Some(case) => case.add(alloc, read),
            None => head.add(alloc, line, read),
        },
    }
}

// Begins a case of this name after the last one, with what the lines say that hold for all.
fn begin(
    alloc: Global,
    lines: &[&str],
    cases: &mut Vec<Case>,
    name: &str,
) -> Result<(), CaseTrouble> {
    end_case(cases)?;
    add_case(alloc, cases, name)?;
    match cases.last_mut() {
        Some(case) => add_lines(alloc, case, lines),
        None => Ok(()),
    }
}

fn add_case(alloc: Global, cases: &mut Vec<Case>, name: &str) -> Result<(), AllocError> {
    let name = String::from_str(alloc, name)?;
    cases.push(Case::new(alloc, name))?;
    Ok(())
}

fn add_lines(alloc: Global, case: &mut Case, lines: &[&str]) -> Result<(), CaseTrouble> {
    for line in lines {
        add_line(alloc, case, line)?;
    }
    Ok(())
}

fn add_line(alloc: Global, case: &mut Case, line: &str) -> Result<(), CaseTrouble> {
    let read = CaseLine::read(line)?;
    case.add(alloc, read)
}

// Refuses a last case that says nothing of what must come of it.
fn end_case(cases: &[Case]) -> Result<(), CaseTrouble> {
    match cases.last() {
        Some(case) if !case.wanted.is_said => Err(CaseTrouble::Case(NOTHING_TO_COMPARE)),
        _ => Ok(()),
    }
}
