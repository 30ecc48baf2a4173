// Sessions on the shared book of a case, which is closed after them.
ghost use Rattle.std.specs.Prelude.{◌≡◌, IfOk};
ghost use Rattle.hose_shared.specs.steps.Sharing.{IsPassOf, IsSamePass};

use cases_files::{Case, CaseTrouble};
use cases_stage::{
    CaseEnds, LongSource, NarrowSink, Outcome, disk_of, ends_of, network_of, peer_ends,
};
use hose_disk::MemDisk;
use hose_graph::Topology;
use hose_io::{Sink, Source};
use hose_paths::PlainRows;
use hose_pool::PlainGate;
use hose_session::{Session, SessionEnd, serve_session};
use hose_shared::{AnyStore, Context, Shared};
use hose_store::Store;
use hose_turn::{ALL_SHARES, Pass};
use std::alloc::{AllocError, Global};
use std::sync::Wait;

pub type CaseBook = Shared<MemDisk, AnyStore>;

/// Serves the session of a case, after that of its first connection if it has one. One more call of
/// the output fails, if its number is not 0.
pub fn run_session<W: Wait>(
    rt: &W,
    alloc: Global,
    case: &Case,
    cut: u64,
) -> Result<Outcome, CaseTrouble> {
    let mut outcome = Outcome::new(alloc, 0, None);
    serve_ends(rt, alloc, case, cut, &mut outcome)?;
    Ok(outcome)
}

fn serve_ends<W: Wait>(
    rt: &W,
    alloc: Global,
    case: &Case,
    cut: u64,
    outcome: &mut Outcome,
) -> Result<(), CaseTrouble> {
    let mut ends = ends_of(alloc, case, cut)?;
    serve_case(rt, alloc, case, &mut ends, outcome)?;
    Ok(outcome.tell_ends(&ends)?)
}

fn serve_case<W: Wait>(
    rt: &W,
    alloc: Global,
    case: &Case,
    ends: &mut CaseEnds<LongSource, NarrowSink>,
    outcome: &mut Outcome,
) -> Result<(), CaseTrouble> {
    let (book, pass) = share(alloc, case)?;
    let (before, pass) = serve_before(rt, alloc, case, &book, pass, outcome);
    let (end, pass) = serve(rt, alloc, ends, &book, pass);
    outcome.status = status_of(end);
    outcome.disk = Some(close(book, pass)?);
    Ok(before?)
}

// The status that stands for the end of a session: where one comes of the same in the program, its.
fn status_of(end: SessionEnd) -> u64 {
    match end {
        SessionEnd::Bye => 0,
        SessionEnd::End => 1,
        SessionEnd::NoHello => 2,
        SessionEnd::Read => 3,
        SessionEnd::Write => 4,
        SessionEnd::TooLong => 8,
    }
}

/// The book of a case, on its journal, and its first pass.
pub fn share(alloc: Global, case: &Case) -> Result<(CaseBook, Pass), CaseTrouble>
    ensures of { IfOk result (λ made. IsPassOf made.0 made.1) }
    ensures share { IfOk result (λ made. made.1.share ≡ ALL_SHARES) }
{
    let disk = disk_of(alloc, &case.journal)?;
    share_on(alloc, disk, network_of(alloc, case)?)
}

fn share_on(alloc: Global, disk: MemDisk, top: Topology) -> Result<(CaseBook, Pass), CaseTrouble>
    ensures of { IfOk result (λ made. IsPassOf made.0 made.1) }
    ensures share { IfOk result (λ made. made.1.share ≡ ALL_SHARES) }
{
    match Store::open(alloc, disk, top) {
        Ok(store) => Ok(Shared::new(alloc, store)?),
        Err(_) => Err(CaseTrouble::opening()),
    }
}

/// The disk of a book that is closed.
pub fn close(book: CaseBook, pass: Pass) -> Result<MemDisk, CaseTrouble>
    requires of { IsPassOf book pass }
    requires share { pass.share ≡ ALL_SHARES }
{
    let (closed, disk, _book) = book.close(pass).close();
    if closed.is_err() {
        return Err(CaseTrouble::close());
    }
    Ok(disk)
}

// Serves the first connection of a case, if it has one, and tells what it is given.
fn serve_before<W: Wait>(
    rt: &W,
    alloc: Global,
    case: &Case,
    book: &CaseBook,
    pass: Pass,
    outcome: &mut Outcome,
) -> (Result<(), AllocError>, Pass)
    requires { IsPassOf book.now pass }
    ensures { IsSamePass pass result.1 }
{
    let Some(connection) = case.door.connections.first() else {
        return (Ok(()), pass);
    };
    match peer_ends(alloc, connection) {
        Ok(mut ends) => {
            let (_, pass) = serve(rt, alloc, &mut ends, book, pass);
            (outcome.add_given(alloc, ends.sink.bytes()), pass)
        }
        Err(error) => (Err(error), pass),
    }
}

/// Serves a session.
pub fn serve<W: Wait, S: Source, O: Sink>(
    rt: &W,
    alloc: Global,
    ends: &mut CaseEnds<S, O>,
    book: &CaseBook,
    pass: Pass,
) -> (SessionEnd, Pass)
    requires { IsPassOf book.now pass }
    ensures { IsSamePass pass result.1 }
{
    let context = Context {
        rt,
        alloc,
        gate: &PlainGate,
    };
    let session = Session {
        context: &context,
        shared: book,
        number: 1,
    };
    let rows = &mut PlainRows::new();
    serve_session(session, &mut ends.source, &mut ends.sink, pass, rows)
}
