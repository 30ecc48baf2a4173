// The maker of rows, whichever way its table of distances settles.
ghost use Rattle.std.specs.Prelude.{◌≡◌, ◌<◌, Bool, IfOk, List, OnOk, length};
ghost use Rattle.hose_graph.specs.Network.{IsNetwork};
ghost use Rattle.hose_graph.specs.steps.Row.{HasBoundedDistances};
ghost use Rattle.hose_paths.specs.steps.Rows.{HasDistances};
ghost use Rattle.hose_paths.specs.steps.Table.{IsBounded, IsFound, IsRootAlone, IsSettled, SettlesTable};

use crate::tight::with_tight_links;
use crate::{MadeRow, RowMaker};
use hose_graph::{Row, Topology};
use hose_links::LinkSet;
use std::alloc::{AllocError, Global};
use std::marker::PhantomData;

// A way to lower the entries of nodes to their distances.
pub trait Settling {
    // Lowers entries until no link of the set can, where at first the root alone has one.
    fn settle(
        alloc: Global,
        top: &Topology,
        links: &LinkSet,
        dist: &mut [Option<u64>],
        root: u32,
    ) -> Result<(), AllocError>
        requires first { IsRootAlone top.now root dist.old }
        requires links { length links.now ≡ length top.now.links }
        ensures { OnOk result (SettlesTable top.now links.now dist.old dist.new) };
}

/// Makes each row in one way.
#[derive(Clone, Copy, Debug, Default)]
pub struct RowsBy<W> {
    way: PhantomData<W>,
}

impl<W> RowsBy<W> {
    /// A maker, which keeps nothing.
    pub fn new() -> RowsBy<W>
        ensures { result ≡ record { way = record {} } }
    {
        RowsBy { way: PhantomData }
    }
}

impl<W: Settling> RowMaker for RowsBy<W> {
    fn row(&mut self, alloc: Global, top: &Topology, links: &LinkSet, root: u32) -> MadeRow {
        let mut dist = start(alloc, top, root)?;
        W::settle(alloc, top, links, &mut dist, root)?;
        let row = settled(alloc, top, links, root, dist);
        with_tight_links(alloc, top, links, &row)
    }
}

// A table in which the root alone has an entry.
pub fn start(alloc: Global, top: &Topology, root: u32) -> Result<Vec<Option<u64>>, AllocError>
    requires is_node { root < length top.now.nodes }
    ensures first { IfOk result (λ dist. IsRootAlone top.now root dist.items) }
    ensures found { (links : List Bool)
        → IfOk result (λ dist. IsFound top.now links root dist.items) }
    ensures network { IsNetwork top.now }
{
    let mut dist = vec![in alloc; None; top.nodes() as usize]?;
    dist[root as usize] = Some(0);
    Ok(dist)
}

// A table that has settled, as a row without tight links.
pub fn settled(
    alloc: Global,
    top: &Topology,
    links: &LinkSet,
    root: u32,
    dist: Vec<Option<u64>>,
) -> Row
    requires network { IsNetwork top.now }
    requires places { length dist.items ≡ length top.now.nodes }
    requires bounded { IsBounded dist.items }
    requires found { IsFound top.now links.now root dist.items }
    requires settled { IsSettled top.now links.now dist.items }
    ensures distances { HasDistances top.now links.now root result }
    ensures bounded { HasBoundedDistances result }
{
    Row {
        root,
        dist,
        tight: Vec::new(alloc),
    }
}
