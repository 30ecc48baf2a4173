// Rows that are made one after another, ahead of being asked for.
ghost use Rattle.std.specs.Prelude.{◌≡◌, ◌↔◌, ◌≤◌, [], IfOk, IfSome, IsTrue, length};
ghost use Rattle.hose_paths.specs.steps.Alike.{AreCostAlike};
ghost use Rattle.hose_paths.specs.steps.Rows.{AreRows};

use crate::RowMaker;
use crate::alike::are_cost_alike;
use crate::heap::HeapRows;
use hose_graph::{Row, Topology};
use hose_links::LinkSet;
use std::alloc::{AllocError, Global};
use std::marker::Model;

// The rows of the first nodes over a set of a network's links, in order of nodes, with copies of
// the network and the set.
//
// A contract sees it as `KeptRows`.
#[derive(Drop)]
pub(crate) struct RowsAhead {
    top: Topology,
    links: LinkSet,
    rows: Vec<Row>,
}

impl Model for RowsAhead {
    ghost use Rattle.std.specs.Prelude.{◌≡◌, length};
    ghost use Rattle.hose_paths.specs.steps.Kept.{KeptRows};
    ghost use Rattle.hose_paths.specs.steps.Rows.{AreFirstRows};

    ghost Value = { KeptRows };

    ghost view = { λ ahead.
        record { network = ahead.top; links = ahead.links; rows = ahead.rows.items } };

    ghost invariant = { λ ahead. (length ahead.links ≡ length ahead.top.links)
        × AreFirstRows ahead.top ahead.links ahead.rows.items };
}

impl RowsAhead {
    // None yet.
    pub(crate) fn new(
        alloc: Global,
        top: &Topology,
        links: &LinkSet,
    ) -> Result<RowsAhead, AllocError>
        requires { length links.now ≡ length top.now.links }
        ensures { IfOk result
            (λ ahead. ahead ≡ record { network = top.now; links = links.now; rows = [] }) }
    {
        Ok(RowsAhead {
            top: top.copy(alloc)?,
            links: links.copy(alloc)?,
            rows: Vec::with_capacity(alloc, top.nodes() as usize)?,
        })
    }

    // Whether they are over this set.
    pub(crate) fn has_links(&self, links: &LinkSet) -> bool
        ensures { IsTrue result ↔ (self.now.links ≡ links.now) }
    {
        self.links.same(links)
    }

    // Makes the row of the next node, if there is one.
    pub(crate) fn add(&mut self, alloc: Global) -> Result<(), AllocError>
        ensures network { self.new.network ≡ self.old.network }
        ensures links { self.new.links ≡ self.old.links }
    {
        let nodes = self.top.nodes() as usize;
        let made = self.rows.len();
        if made >= nodes {
            return Ok(());
        }
        let row = HeapRows::new().row(alloc, &self.top, &self.links, made as u32)?;
        self.rows.push(row)?;
        Ok(())
    }

    // The rows of all nodes, where they are there, and over this set of this network's links.
    pub(crate) fn over(&self, top: &Topology, links: &LinkSet) -> Option<&[Row]>
        ensures { IfSome result (λ rows. AreRows top.now links.now rows.now) }
    {
        if self.are_all() && self.is_over(top, links) {
            Some(&self.rows)
        } else {
            None
        }
    }

    // Whether there is a row for each node.
    fn are_all(&self) -> bool
        ensures { IsTrue result → length self.now.rows ≡ length self.now.network.nodes }
    {
        self.rows.len() == self.top.nodes() as usize
    }

    // Whether they are over this set of the links of this network, or of one that has the same
    // rows.
    fn is_over(&self, top: &Topology, links: &LinkSet) -> bool
        ensures { IsTrue result
            ↔ (AreCostAlike self.now.network top.now × (self.now.links ≡ links.now)) }
    {
        // The sets are the shorter ones to compare.
        self.links.same(links) && are_cost_alike(&self.top, top)
    }
}
