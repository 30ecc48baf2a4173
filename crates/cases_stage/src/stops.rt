// A case that is stopped: after calls of its disk, or at each call of its output.
ghost use Rattle.std.specs.Prelude.{◌≤◌, length};

use crate::outcome::{Outcome, held};
use crate::places::last_place;
use crate::running::Runs;
use crate::stage::{JOURNAL, TEXT};
use crate::wanted::is_as_wanted;
use cases_common::STOP_PICKS;
use cases_files::{Case, CaseTrouble};
use hose_disk::{MemDisk, Pick};
use std::alloc::{AllocError, Global};

// The status of a session whose output failed.
const WRITE: u64 = 4;

/// After how many stops of a case, with any of the picks, another book is found than one of those
/// that it names.
pub fn stops_that_differ<C: Runs>(
    runs: &C,
    alloc: Global,
    case: &Case,
    disk: &MemDisk,
) -> Result<u64, CaseTrouble> {
    let mut audit = Case::new(alloc, String::new(alloc));
    count_stops(runs, alloc, case, disk, &mut audit)
}

// Has a new case audit a journal over the network of a case: its text `t`, or else that of its
// input.
fn ask_for_audit(alloc: Global, audit: &mut Case, case: &Case) -> Result<(), AllocError> {
    add_words(alloc, &mut audit.words, &["audit", TEXT, JOURNAL])?;
    let network = if case.text.is_empty() {
        topology_of(&case.input.bytes)
    } else {
        case.text.as_slice()
    };
    audit.text.extend_from_slice(network)
}

fn count_stops<C: Runs>(
    runs: &C,
    alloc: Global,
    case: &Case,
    disk: &MemDisk,
    audit: &mut Case,
) -> Result<u64, CaseTrouble> {
    ask_for_audit(alloc, audit, case)?;
    let mut differ = 0u64;
    for stop in &case.wanted.stops {
        let books = NamedBooks {
            books: &case.wanted.books,
            numbers: &stop.books,
        };
        for calls in stop.from..=stop.to {
            let lost = count_picks(runs, alloc, audit, disk, calls, books)?;
            differ = differ.saturating_add(lost);
        }
    }
    Ok(differ)
}

// With how many of the picks another book is found after so many calls.
fn count_picks<C: Runs>(
    runs: &C,
    alloc: Global,
    audit: &mut Case,
    disk: &MemDisk,
    calls: u64,
    books: NamedBooks<'_>,
) -> Result<u64, CaseTrouble> {
    let mut lost = 0u64;
    for pick in STOP_PICKS {
        if !is_found(runs, alloc, audit, disk, (calls, pick), books)? {
            lost = lost.saturating_add(1);
        }
    }
    Ok(lost)
}

fn is_found<C: Runs>(
    runs: &C,
    alloc: Global,
    audit: &mut Case,
    disk: &MemDisk,
    stop: (u64, Pick),
    books: NamedBooks<'_>,
) -> Result<bool, CaseTrouble> {
    let told = audit_after(runs, alloc, audit, disk, stop.0, stop.1)?;
    Ok(books.has(&told))
}

// What an audit tells after a stop: nothing where so many calls were not made.
fn audit_after<C: Runs>(
    runs: &C,
    alloc: Global,
    audit: &mut Case,
    disk: &MemDisk,
    calls: u64,
    pick: Pick,
) -> Result<Vec<u8>, CaseTrouble> {
    if calls > disk.calls() {
        return Ok(Vec::new(alloc));
    }
    audit.journal.bytes = left_by(alloc, disk, calls, pick)?;
    output_of(runs, alloc, audit)
}

fn left_by(alloc: Global, disk: &MemDisk, calls: u64, pick: Pick) -> Result<Vec<u8>, AllocError>
    requires { calls ≤ length disk.now.made.calls }
{
    let mut image = disk.stop_image(alloc, calls, pick)?;
    held(alloc, &mut image)
}

fn output_of<C: Runs>(runs: &C, alloc: Global, case: &Case) -> Result<Vec<u8>, CaseTrouble> {
    let Outcome { output, .. } = runs.run(alloc, case, 0)?;
    Ok(output)
}

// The audits of books, and the numbers of those of which one must be found after a stop.
#[derive(Clone, Copy)]
struct NamedBooks<'a> {
    books: &'a [Vec<u8>],
    numbers: &'a [u64],
}

impl NamedBooks<'_> {
    // Whether a text is the audit of one of them.
    fn has(&self, told: &[u8]) -> bool {
        for number in self.numbers {
            if let Some(book) = self.books.get(number.wrapping_sub(1) as usize) {
                if is_as_wanted(told, book) {
                    return true;
                }
            }
        }
        false
    }
}

/// The epoch that a run on a journal finds.
pub fn epoch_of<C: Runs>(
    runs: &C,
    alloc: Global,
    topology: &[u8],
    journal: &[u8],
) -> Result<Option<u64>, CaseTrouble> {
    let mut case = Case::new(alloc, String::new(alloc));
    epoch_by(runs, alloc, &mut case, topology, journal)
}

fn epoch_by<C: Runs>(
    runs: &C,
    alloc: Global,
    case: &mut Case,
    topology: &[u8],
    journal: &[u8],
) -> Result<Option<u64>, CaseTrouble> {
    ask_for_link(alloc, case, topology, journal)?;
    let output = output_of(runs, alloc, case)?;
    Ok(last_place(&output))
}

// Has a new case ask a run on a journal for a link.
fn ask_for_link(
    alloc: Global,
    case: &mut Case,
    topology: &[u8],
    journal: &[u8],
) -> Result<(), AllocError> {
    add_words(alloc, &mut case.words, &["run", JOURNAL])?;
    case.input.bytes.extend_from_slice(topology)?;
    case.input.bytes.extend_from_slice(b"x link 0\n")?;
    case.journal.bytes.extend_from_slice(journal)
}

fn add_words(alloc: Global, words: &mut Vec<String>, added: &[&str]) -> Result<(), AllocError> {
    for word in added {
        words.push(String::from_str(alloc, word)?)?;
    }
    Ok(())
}

/// The topology with which bytes begin, up to its line `end`.
pub fn topology_of(bytes: &[u8]) -> &[u8] {
    let mut len = 0usize;
    for line in str::from_utf8(bytes).unwrap_or("").lines() {
        len = len.saturating_add(line.len()).saturating_add(1);
        if line == "end" {
            break;
        }
    }
    &bytes[..len.min(bytes.len())]
}

/// After how many failed calls of its output, each in turn, something else comes of a session than
/// should. Its output takes a byte in a call.
pub fn cuts_that_differ<C: Runs>(runs: &C, alloc: Global, case: &Case) -> Result<u64, CaseTrouble> {
    let mut differ = 0u64;
    if case.output.cuts {
        count_cuts(runs, alloc, case, &mut differ)?;
    }
    Ok(differ)
}

fn count_cuts<C: Runs>(
    runs: &C,
    alloc: Global,
    case: &Case,
    differ: &mut u64,
) -> Result<(), CaseTrouble> {
    for nth in 1..=case.output.bytes.len() as u64 {
        if !is_right_after(runs, alloc, case, nth)? {
            *differ = differ.saturating_add(1);
        }
    }
    Ok(())
}

// Whether a session whose output failed at its `nth` byte has what stands before that where nothing
// fails, and the book has what was acknowledged in whole lines, and at most one entry more.
fn is_right_after<C: Runs>(
    runs: &C,
    alloc: Global,
    case: &Case,
    nth: u64,
) -> Result<bool, CaseTrouble> {
    let mut cut = runs.run(alloc, case, nth)?;
    is_right(runs, alloc, case, &mut cut, nth)
}

fn is_right<C: Runs>(
    runs: &C,
    alloc: Global,
    case: &Case,
    cut: &mut Outcome,
    nth: u64,
) -> Result<bool, CaseTrouble> {
    if !stops_before(case, cut, nth) {
        return Ok(false);
    }
    has_told(runs, alloc, case, cut)
}

fn stops_before(case: &Case, cut: &Outcome, nth: u64) -> bool {
    cut.status == WRITE
        && cut.output.len() as u64 == nth.saturating_sub(1)
        && case.output.bytes.starts_with(&cut.output)
}

// Whether the book of a session has what its whole lines tell, and at most one entry more.
fn has_told<C: Runs>(
    runs: &C,
    alloc: Global,
    case: &Case,
    cut: &mut Outcome,
) -> Result<bool, CaseTrouble> {
    if cut.disk.is_none() {
        return Ok(false);
    }
    let found = epoch_left(runs, alloc, case, cut)?;
    let told = last_place(whole_lines(&cut.output));
    Ok(found == told || is_next(told, found))
}

fn epoch_left<C: Runs>(
    runs: &C,
    alloc: Global,
    case: &Case,
    cut: &mut Outcome,
) -> Result<Option<u64>, CaseTrouble> {
    let journal = cut.left(alloc)?;
    epoch_of(runs, alloc, &case.text, &journal)
}

fn is_next(told: Option<u64>, found: Option<u64>) -> bool {
    match told {
        Some(told) => found == Some(told.saturating_add(1)),
        None => false,
    }
}

// The lines of an output that end with a line feed.
fn whole_lines(output: &[u8]) -> &[u8] {
    let mut len = 0usize;
    for place in 0..output.len() {
        if output[place] == b'\n' {
            len = place;
        }
    }
    &output[..len.min(output.len())]
}
