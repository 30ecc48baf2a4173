// Planning a hose: a quote, or a reply.
ghost use Rattle.std.specs.Prelude.{◌≡◌, IfSome, MatchResult, length};
ghost use Rattle.hose_graph.specs.Network.{IsNetwork};
ghost use Rattle.hose_law.specs.Book.{Book, loads_of};
ghost use Rattle.hose_law.specs.steps.Plan.{AreNodes};
ghost use Rattle.hose_law.specs.Room.{first_links};
ghost use Rattle.hose_paths.specs.steps.Rows.{AreRows};
ghost use Rattle.hose_tree.specs.steps.Amounts.{AreWithinCapacities};
ghost use Rattle.hose_core.specs.steps.Planning.{IsNotPlanned, IsPlannedFor};

use crate::quotes::Quote;
use hose_book::Books;
use hose_graph::{Hose, Reply, Row, Topology};
use hose_links::LinkSet;
use hose_paths::{RowMaker, RowTable, kept_rows};
use hose_plan::{Decision, decide_with_rows};
use std::alloc::Global;

/// The plan of a hose at books, or the reply where it has none. Where there is a table of the rows
/// of their network, it is asked first.
pub fn plan_now<K: Books, R: RowMaker>(
    alloc: Global,
    books: &K,
    hose: Hose,
    table: Option<&RowTable>,
    rows: &mut R,
) -> Result<Quote, Reply>
    requires nodes { AreNodes (K.ledger books.now).network hose }
    requires table { IfSome table
        (λ table. table.now.network ≡ (K.ledger books.now).network) }
    ensures planned { MatchResult result
        (IsPlannedFor (K.ledger books.now).network (K.ledger books.now).book hose)
        (IsNotPlanned (K.ledger books.now).network (K.ledger books.now).book hose) }
    ensures network { IsNetwork (K.ledger books.now).network }
{
    let book = books.book();
    let (top, service, loads) = (book.topology(), book.service(), book.loads());
    let seen = BookView {
        top,
        service,
        loads,
        epoch: book.epoch(),
        kept: kept_rows(table, service),
    };
    plan_beside(alloc, seen, hose, rows)
}

/// What a plan sees of a book: its topology, the links that it has in service, a load for each, and
/// its epoch, with the rows of all nodes, where they are kept. It may be of a book that has gone on
/// since.
#[derive(Drop)]
pub struct BookView<'a> {
    pub top: &'a Topology,
    pub service: &'a LinkSet,
    pub loads: &'a [u64],
    /// The rows of all nodes over the links in service, where they are kept.
    pub kept: Option<&'a [Row]>,
    pub epoch: u64,
}

/// The plan of a hose over the links that a book had in service, and beside its loads, wherever
/// that book is now; or the reply where it has none. The set has a place for each link, there is a
/// load for each, at most its capacity, and the hose's endpoints are nodes of the topology.
pub fn plan_beside<R: RowMaker>(
    alloc: Global,
    seen: BookView<'_>,
    hose: Hose,
    rows: &mut R,
) -> Result<Quote, Reply>
    requires places { length seen.service.now ≡ length seen.top.now.links }
    requires loads { AreWithinCapacities seen.top.now seen.loads.now }
    requires nodes { AreNodes seen.top.now hose }
    requires kept { IfSome seen.kept (λ rows. AreRows seen.top.now seen.service.now rows.now) }
    ensures planned { (book : Book)
        → seen.entry.service.now ≡ first_links seen.entry.top.now book
        → seen.entry.loads.now ≡ loads_of seen.entry.top.now book
        → seen.entry.epoch ≡ book.epoch
        → MatchResult result (IsPlannedFor seen.entry.top.now book hose)
        (IsNotPlanned seen.entry.top.now book hose) }
    ensures network { IsNetwork seen.entry.top.now }
{
    let BookView {
        top,
        service,
        loads,
        kept,
        epoch,
    } = seen;
    let _nodes = top.nodes();
    match decide_with_rows(alloc, top, service, loads, &hose, kept, rows) {
        Err(_) => Err(Reply::Memory),
        Ok(Decision::Refused { side }) => Err(Reply::Refused { at: epoch, side }),
        Ok(
            Decision::Plan {
                grounds,
                amounts,
                cost,
            },
        ) => Ok(Quote {
            hose,
            seen: epoch,
            cost,
            amounts,
            grounds,
        }),
    }
}
