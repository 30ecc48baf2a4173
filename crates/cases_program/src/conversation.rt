// Two customers who each release what they are told is admitted, at once.
ghost use Rattle.hose_shared.specs.steps.Sharing.{IsPassOf, IsSamePass};

use crate::sessions::{CaseBook, close, serve, share};
use cases_files::{Case, CaseTrouble};
use cases_stage::{Outcome, customer, outcome_of_two};
use hose_turn::Pass;
use std::alloc::{AllocError, Global};
use std::cell::Cell;
use std::sync::Wait;
use std::thread;
use std::thread::Threads;

/// Serves two sessions on the book of a case at once, in two threads, each with so many admissions
/// and releases.
pub fn converse_twice<R: Wait + Threads + Sync>(
    rt: &R,
    alloc: Global,
    case: &Case,
    times: u64,
) -> Result<Outcome, CaseTrouble> {
    let (book, mut pass) = share(alloc, case)?;
    let other = book.split(&mut pass);
    let (mine, theirs) = thread::join(
        rt,
        || converse(rt, alloc, &book, pass, times),
        || converse(rt, alloc, &book, other, times),
    );
    let (mine, mut pass) = mine;
    let (theirs, other) = theirs;
    book.join(&mut pass, other);
    let disk = close(book, pass)?;
    Ok(outcome_of_two(alloc, disk, mine, theirs)?)
}

// Serves a session of which each release is of what the admission before it was told, and gives its
// replies.
fn converse<W: Wait>(
    rt: &W,
    alloc: Global,
    book: &CaseBook,
    pass: Pass,
    times: u64,
) -> (Result<Vec<u8>, AllocError>, Pass)
    requires { IsPassOf book.now pass }
    ensures { IsSamePass pass result.1 }
{
    let told = Cell::new(0);
    match customer(alloc, &told, times) {
        Ok(mut ends) => {
            let (_, pass) = serve(rt, alloc, &mut ends, book, pass);
            (Vec::from_slice(alloc, ends.sink.bytes()), pass)
        }
        Err(error) => (Err(error), pass),
    }
}
