// The rows that a table of prices is read from.
ghost use Rattle.std.specs.Prelude.{◌≡◌, ℕ, ◌+◌, ◌<◌, length, IfOk, slice_index_or};
ghost use Rattle.hose_price.specs.steps.Kept.{AreTablesOf};

use crate::sheet::PriceSheet;
use hose_graph::{Row, Topology};
use hose_links::LinkSet;
use hose_paths::{HeapRows, MadeRow, RowMaker, RowTable, row_of};
use std::alloc::{AllocError, Global};

impl PriceSheet {
    /// The rows of all nodes over all links, by each of the costs that a line needs: where links
    /// are counted, by the lengths, and by each tariff, in this order.
    pub fn row_tables(&self, alloc: Global) -> Result<Vec<RowTable>, AllocError>
        ensures { IfOk result (λ tables. AreTablesOf self.now tables.items) }
    {
        let mut tables = Vec::with_capacity(alloc, self.count() + 2)?;
        tables.push_reserved(RowTable::of_all(alloc, &self.hops)?);
        tables.push_reserved(RowTable::of_all(alloc, &self.lengths)?);
        for place in 0..self.count() {
            tables.push_reserved(RowTable::of_all(alloc, &self.column(place).top)?);
        }
        Ok(tables)
    }
}

/// Lends the rows of the first of several tables whose rows are over the network and the set that
/// are asked for, and makes others by a heap.
#[derive(Clone, Copy)]
pub struct TablesRows<'a> {
    tables: &'a [RowTable],
}

impl<'a> TablesRows<'a> {
    /// A maker over tables.
    pub fn new(tables: &'a [RowTable]) -> TablesRows<'a>
        ensures { result.tables.now ≡ tables.now }
    {
        TablesRows { tables }
    }
}

impl RowMaker for TablesRows<'_> {
    fn row(&mut self, alloc: Global, top: &Topology, links: &LinkSet, root: u32) -> MadeRow {
        if let Some(rows) = self.kept(top, links) {
            return row_of(top, links, rows, root).copy(alloc);
        }
        HeapRows::new().row(alloc, top, links, root)
    }

    fn kept(&self, top: &Topology, links: &LinkSet) -> Option<&[Row]> {
        for table in self.tables {
            if let Some(rows) = table.over(top, links) {
                return Some(rows);
            }
        }
        None
    }
}
