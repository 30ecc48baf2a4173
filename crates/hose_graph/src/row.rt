// Rows: the distances of all nodes from one of them.
ghost use Rattle.std.specs.Prelude.{◌≡◌, IfOk};

use std::alloc::{AllocError, Global};
use std::marker::Model;

/// The distances of all nodes from a root over a set of links, with a place for each node.
///
/// A contract sees it as `Distances`.
#[derive(Debug, Drop)]
pub struct Row {
    /// The root's node.
    pub root: u32,
    /// What a cheapest walk from the root costs for one unit of bandwidth, or none where there is
    /// no walk.
    pub dist: Vec<Option<u64>>,
    /// The lowest-numbered link by which a shortest walk from the root comes to the node, or none
    /// for the root and where there is no walk.
    pub tight: Vec<Option<u32>>,
}

impl Model for Row {
    ghost use Rattle.hose_graph.specs.Row.{Distances};

    ghost Value = { Distances };

    ghost view = { λ row.
        record { root = row.root; dist = row.dist.items; tight = row.tight.items } };
}

impl Row {
    /// A copy of the row.
    pub fn copy(&self, alloc: Global) -> Result<Row, AllocError>
        ensures { IfOk result (λ row. row ≡ self.now) }
    {
        Ok(Row {
            root: self.root,
            dist: Vec::from_slice(alloc, &self.dist)?,
            tight: Vec::from_slice(alloc, &self.tight)?,
        })
    }
}
