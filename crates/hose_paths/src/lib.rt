//! Rows: the distances of all nodes of a topology from one of them, over a set of its links, and
//! each node's tight link. The planner takes what makes them by its contract alone. Four makers
//! are here: by rounds over all links; by a heap, which follows the links of the nearest node first
//! and is the faster one the longer the ways are; over a table of rows that are kept, which are
//! lent as they lie; and by a heap in advance, for a set that is asked for again and again. Whoever
//! wants the distances of several nodes over one set makes its chains once, and marks tight links
//! in the row alone of which a tree is wanted.
//!
//! ```
//! let row = HeapRows::new().row(alloc, &top, &links, root)?;
//!
//! if let Some(rows) = kept_rows(Some(&table), &links) {
//!     let row = row_of(&top, &links, rows, root);
//! }
//!
//! let chains = Chains::new(alloc, &top, &links)?;
//! let far = distances_along(alloc, &top, &links, &chains, root)?;
//! let row = with_tight_links(alloc, &top, &links, &far)?;
//! ```
#![tactic(auto)]

ghost use Rattle.std.specs.Prelude.{◌≡◌, ◌<◌, IfOk, IfSome, length};
ghost use Rattle.hose_graph.specs.steps.Row.{HasBoundedDistances};
ghost use Rattle.hose_law.specs.Row.{IsRow};
ghost use Rattle.hose_paths.specs.steps.Rows.{AreRows};

mod ahead;
mod alike;
mod chains;
mod entries;
mod heap;
mod plain;
mod settling;
mod table;
mod tight;
mod whole;

pub use chains::{Arc, Chains};
pub use heap::{HeapRows, distances_along};
use hose_graph::{Row, Topology};
use hose_links::LinkSet;
pub use plain::PlainRows;
pub use settling::RowsBy;
use std::alloc::{AllocError, Global};
pub use table::{RowTable, RowsInAdvance, TableRows, kept_rows, row_of};
pub use tight::with_tight_links;
pub use whole::{all_links, rows_of_all};

/// A row, or want of memory for it.
pub type MadeRow = Result<Row, AllocError>;

/// What makes rows.
pub trait RowMaker {
    /// The row of a root over a set of the topology's links.
    fn row(&mut self, alloc: Global, top: &Topology, links: &LinkSet, root: u32) -> MadeRow
        requires places { length links.now ≡ length top.now.links }
        requires is_node { root < length top.now.nodes }
        ensures row { IfOk result (IsRow top.now links.now root) }
        ensures bounded { IfOk result HasBoundedDistances };

    /// The rows of all nodes over a set of the topology's links, in order of nodes, where they are
    /// kept. Whoever wants several rows over one set asks once, and reads them where they lie.
    fn kept(&self, top: &Topology, links: &LinkSet) -> Option<&[Row]>
        ensures { IfSome result (λ rows. AreRows top.now links.now rows.now) }
    {
        let _ = top;
        let _ = links;
        None
    }

    /// Tells that rows over a set of the topology's links will be asked for again and again, as
    /// those over the links in service are. A maker may make some of them ahead and keep them;
    /// where memory is wanting, it keeps none.
    fn expect(&mut self, alloc: Global, top: &Topology, links: &LinkSet)
        requires places { length links.now ≡ length top.now.links }
    {
        let _ = alloc;
        let _ = top;
        let _ = links;
    }
}
