// Rows that are kept.
ghost use Rattle.std.specs.Prelude.{◌≡◌, ◌<◌, ◌↔◌, IfOk, IfSome, IsTrue, length};
ghost use Rattle.hose_graph.specs.Network.{Network};
ghost use Rattle.hose_graph.specs.steps.Row.{HasBoundedDistances};
ghost use Rattle.hose_law.specs.Row.{IsRow};
ghost use Rattle.hose_paths.specs.steps.Alike.{AreCostAlike};
ghost use Rattle.hose_paths.specs.steps.Rows.{AreRows, IsRowOf};

use crate::ahead::RowsAhead;
use crate::alike::are_cost_alike;
use crate::heap::HeapRows;
use crate::{MadeRow, RowMaker};
use hose_graph::{Row, Topology};
use hose_links::LinkSet;
use std::alloc::{AllocError, Global};
use std::marker::Model;

/// The rows of all nodes over a set of a network's links, with copies of the network and the set.
///
/// A contract sees it as `KeptRows`.
#[derive(Drop)]
pub struct RowTable {
    top: Topology,
    links: LinkSet,
    rows: Vec<Row>,
}

impl Model for RowTable {
    ghost use Rattle.hose_paths.specs.steps.Kept.{KeptRows};
    ghost use Rattle.hose_paths.specs.steps.Rows.{AreRows};

    ghost Value = { KeptRows };

    ghost view = { λ table.
        record { network = table.top; links = table.links; rows = table.rows.items } };

    ghost invariant = { λ table. AreRows table.top table.links table.rows.items };
}

impl RowTable {
    /// Keeps the rows, one for each node in order, which were made over these links.
    pub fn build(
        alloc: Global,
        top: &Topology,
        links: &LinkSet,
        rows: Vec<Row>,
    ) -> Result<RowTable, AllocError>
        requires rows { AreRows top.now links.now rows.items }
        ensures network { IfOk result (λ table. table.network ≡ top.now) }
        ensures links { IfOk result (λ table. table.links ≡ links.now) }
        ensures rows { IfOk result (λ table. table.rows ≡ rows.items) }
    {
        Ok(RowTable {
            top: top.copy(alloc)?,
            links: links.copy(alloc)?,
            rows,
        })
    }

    /// Whether its rows are over this set of the links of this network, or of one that has the same
    /// rows: as many nodes, and links that join the same nodes at the same costs.
    pub fn is_over(&self, top: &Topology, links: &LinkSet) -> bool
        ensures { IsTrue result
            ↔ (AreCostAlike self.now.network top.now × (self.now.links ≡ links.now)) }
    {
        // The sets are the shorter ones to compare.
        self.links.same(links) && are_cost_alike(&self.top, top)
    }

    /// Its rows, where they are over this set of this network's links.
    pub fn over(&self, top: &Topology, links: &LinkSet) -> Option<&[Row]>
        ensures { IfSome result (λ rows. AreRows top.now links.now rows.now) }
    {
        if self.is_over(top, links) {
            Some(&self.rows)
        } else {
            None
        }
    }

    /// A copy of the row of a root.
    pub fn row(&self, alloc: Global, root: u32) -> Result<Row, AllocError>
        requires is_node { root < length self.now.network.nodes }
        ensures { IfOk result (IsRowOf self.now.network self.now.links root) }
    {
        self.rows[root as usize].copy(alloc)
    }
}

/// The rows of all nodes over a set of a network's links, where there is a table of this network
/// that keeps them. Whoever has made the table of a network asks so, and nothing of the network is
/// compared.
pub fn kept_rows<'a>(table: Option<&'a RowTable>, links: &LinkSet) -> Option<&'a [Row]>
    ensures { (network : Network)
        → IfSome table.entry (λ table. table.now.network ≡ network)
        → IfSome result (λ rows. AreRows network links.now rows.now) }
{
    let table = table?;
    if table.links.same(links) {
        Some(&table.rows)
    } else {
        None
    }
}

/// The row of a root among those of all nodes over a set of the topology's links.
pub fn row_of<'a>(top: &Topology, links: &LinkSet, rows: &'a [Row], root: u32) -> &'a Row
    requires rows { AreRows top.now links.now rows.now }
    requires is_node { root < length top.now.nodes }
    ensures row { IsRow top.now links.now root result.now }
    ensures bounded { HasBoundedDistances result.now }
{
    &rows[root as usize]
}

/// Gives copies of the rows of a table, or lends them, where they are over the set that is asked
/// for, and makes others by a heap.
#[derive(Drop)]
pub struct TableRows<'a> {
    table: &'a RowTable,
}

impl<'a> TableRows<'a> {
    /// A maker over a table.
    pub fn new(table: &'a RowTable) -> TableRows<'a>
        ensures { result.table.now ≡ table.now }
    {
        TableRows { table }
    }
}

impl RowMaker for TableRows<'_> {
    fn row(&mut self, alloc: Global, top: &Topology, links: &LinkSet, root: u32) -> MadeRow {
        if self.table.is_over(top, links) {
            return self.table.row(alloc, root);
        }
        HeapRows::new().row(alloc, top, links, root)
    }

    fn kept(&self, top: &Topology, links: &LinkSet) -> Option<&[Row]> {
        self.table.over(top, links)
    }
}

/// Makes rows by a heap. Of the last set that it was told to expect it makes one row more each time
/// that it is told so, and lends them once all are there.
#[derive(Drop)]
pub struct RowsInAdvance {
    ahead: Option<RowsAhead>,
}

impl RowsInAdvance {
    /// A maker that keeps nothing yet.
    pub fn new() -> RowsInAdvance
        ensures { result.ahead ≡ None }
    {
        RowsInAdvance { ahead: None }
    }
}

impl RowMaker for RowsInAdvance {
    fn row(&mut self, alloc: Global, top: &Topology, links: &LinkSet, root: u32) -> MadeRow {
        HeapRows::new().row(alloc, top, links, root)
    }

    fn kept(&self, top: &Topology, links: &LinkSet) -> Option<&[Row]> {
        self.ahead.as_ref()?.over(top, links)
    }

    fn expect(&mut self, alloc: Global, top: &Topology, links: &LinkSet) {
        make_ahead(alloc, top, links, &mut self.ahead);
    }
}

// Makes one row more over a set, or begins with it.
fn make_ahead(alloc: Global, top: &Topology, links: &LinkSet, ahead: &mut Option<RowsAhead>)
    requires { length links.now ≡ length top.now.links }
{
    if let Some(rows) = ahead {
        if rows.has_links(links) {
            // A row for which there is no memory now is made another time.
            let _ = rows.add(alloc);
            return;
        }
    }
    *ahead = RowsAhead::new(alloc, top, links).ok();
}
