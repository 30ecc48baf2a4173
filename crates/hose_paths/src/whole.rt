// All links of a topology, and the rows of all its nodes.
ghost use Rattle.std.specs.Prelude.{◌≡◌, IfOk, length};
ghost use Rattle.hose_law.specs.Walk.{all_links};
ghost use Rattle.hose_paths.specs.steps.Rows.{AreRows};

use crate::chains::Chains;
use crate::heap::distances_along;
use crate::table::RowTable;
use crate::tight::with_tight_links;
use hose_graph::{Row, Topology};
use hose_links::LinkSet;
use std::alloc::{AllocError, Global};

/// All links of a topology, in service or not.
pub fn all_links(alloc: Global, top: &Topology) -> Result<LinkSet, AllocError>
    ensures links { IfOk result (λ links. links ≡ all_links top.now) }
    ensures places { IfOk result (λ links. length links ≡ length top.now.links) }
{
    let mut links = LinkSet::new(alloc, top.links())?;
    links.fill_where(|_| true);
    Ok(links)
}

/// The rows of all nodes over a set of the topology's links, in order of nodes, made one after
/// another by a heap.
pub fn rows_of_all(alloc: Global, top: &Topology, links: &LinkSet) -> Result<Vec<Row>, AllocError>
    requires places { length links.now ≡ length top.now.links }
    ensures { IfOk result (λ rows. AreRows top.now links.now rows.items) }
{
    let chains = Chains::new(alloc, top, links)?;
    let mut rows = Vec::with_capacity(alloc, top.nodes() as usize)?;
    for root in 0..top.nodes() {
        let far = distances_along(alloc, top, links, &chains, root)?;
        rows.push(with_tight_links(alloc, top, links, &far)?)?;
    }
    Ok(rows)
}

impl RowTable {
    /// The rows of all nodes over all links, made one after another.
    pub fn of_all(alloc: Global, top: &Topology) -> Result<RowTable, AllocError>
        ensures network { IfOk result (λ table. table.network ≡ top.now) }
        ensures links { IfOk result (λ table. table.links ≡ all_links top.now) }
    {
        let links = all_links(alloc, top)?;
        let rows = rows_of_all(alloc, top, &links)?;
        RowTable::build(alloc, top, &links, rows)
    }
}
