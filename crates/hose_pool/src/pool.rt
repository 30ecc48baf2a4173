// A maker of rows that asks several workers at once.
ghost use Rattle.std.specs.Prelude.{◌≡◌, ◌≤◌, IfOk, length};
ghost use Rattle.hose_paths.specs.steps.Alike.{AreCostAlike};
ghost use Rattle.hose_pool.specs.steps.Shareable.{IsShared};
ghost use Rattle.hose_pool.specs.declared.rows.TheConstants.{MOST_WORKERS};

use crate::rows::all_rows;
use hose_graph::{Row, Topology};
use hose_links::LinkSet;
use hose_paths::{HeapRows, MadeRow, RowMaker, RowTable};
use std::alloc::{AllocError, Global};
use std::marker::Model;
use std::thread::Threads;

/// What several threads may use at once, which is all that is `Sync`. The proof of a trait's method
/// is not told of that bound, so an invariant keeps it.
pub trait Shareable {
    ghost is_shareable: { Type 0 };
}

impl<T: Sync> Shareable for T {
    ghost is_shareable = { IsShared T.row.shr_at };
}

/// A maker of rows for embeddings and tests alone, as the program makes its table at its start. It
/// has several workers at once make the rows of all nodes over all links of a network, the first
/// time that it is asked for one. It keeps them, and gives copies of them until it is asked over
/// a network that has others. Over fewer links it makes each row when it is asked.
///
/// A contract sees it as the number of its workers.
#[derive(Drop)]
pub struct PoolRows<'a, T: Shareable> {
    rt: &'a T,
    workers: u32,
    kept: Option<RowTable>,
}

impl<'a, T: Shareable> Model for PoolRows<'a, T> {
    ghost use Rattle.std.specs.Prelude.{ℕ, ◌≤◌};
    ghost use Rattle.hose_pool.specs.declared.rows.TheConstants.{MOST_WORKERS};

    ghost Value = { ℕ };

    ghost view = { λ pool. pool.workers };

    ghost invariant = { λ pool. (1 ≤ pool.workers) × (pool.workers ≤ MOST_WORKERS)
        × T.is_shareable };
}

impl<'a, T: Threads + Sync> PoolRows<'a, T> {
    /// A maker that keeps no row yet.
    pub fn new(rt: &'a T, workers: u32) -> PoolRows<'a, T>
        requires workers { (1 ≤ workers) × (workers ≤ MOST_WORKERS) }
        ensures { result ≡ workers }
    {
        PoolRows {
            rt,
            workers,
            kept: None,
        }
    }
}

impl<T: Threads + Sync> RowMaker for PoolRows<'_, T> {
    fn row(&mut self, alloc: Global, top: &Topology, links: &LinkSet, root: u32) -> MadeRow {
        // While no link is out of service each hose is planned over all links first, so these rows
        // are asked for again.
        if !has_all(links) {
            return HeapRows::new().row(alloc, top, links, root);
        }
        let kept = take_or_make(self.rt, alloc, &mut self.kept, top, links, self.workers)?;
        let row = kept.row(alloc, root);
        self.kept = Some(kept);
        row
    }

    fn kept(&self, top: &Topology, links: &LinkSet) -> Option<&[Row]> {
        self.kept.as_ref()?.over(top, links)
    }
}

// Whether each link is in the set.
fn has_all(links: &LinkSet) -> bool {
    (0..links.len()).all(|link| links.has(link))
}

// The rows over these links: those that are kept, where they are of these, and else new ones that
// the workers make.
fn take_or_make<T: Threads + Sync>(
    rt: &T,
    alloc: Global,
    kept: &mut Option<RowTable>,
    top: &Topology,
    links: &LinkSet,
    workers: u32,
) -> Result<RowTable, AllocError>
    requires workers { (1 ≤ workers) × (workers ≤ MOST_WORKERS) }
    requires places { length links.now ≡ length top.now.links }
    ensures network { IfOk result (λ kept. AreCostAlike kept.network top.now) }
    ensures links { IfOk result (λ kept. kept.links ≡ links.now) }
{
    // What is kept of others goes before new rows take memory.
    if let Some(kept) = kept.take() {
        if kept.is_over(top, links) {
            return Ok(kept);
        }
    }
    let rows = all_rows(rt, alloc, top, links, workers)?;
    RowTable::build(alloc, top, links, rows)
}
