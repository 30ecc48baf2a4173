// Rows that several workers make at once.
ghost use Rattle.std.specs.Prelude.{◌≡◌, ◌<◌, ◌≤◌, IfOk, Some, length, map};
ghost use Rattle.hose_law.specs.Walk.{all_links};
ghost use Rattle.hose_paths.specs.steps.Rows.{AreRows};
ghost use Rattle.hose_pool.specs.steps.Rows.{IsMadeRow};
ghost use Rattle.hose_pool.specs.Limits.{most_workers};

use hose_graph::{Row, Topology};
use hose_links::LinkSet;
use hose_paths::{HeapRows, RowMaker, RowTable, all_links};
use std::alloc::{AllocError, Global};
use std::thread;
use std::thread::Threads;

/// The most workers.
pub const MOST_WORKERS: u32 = 16;

/// The limit is the literal that definitions cite.
pub fn law_limit()
    ensures most_workers { MOST_WORKERS ≡ most_workers }
{}

/// The rows of all nodes over a set of the topology's links, in order of nodes. They are made by 1
/// to 16 workers at once, or by fewer where the system has no thread left.
pub fn all_rows<T: Threads + Sync>(
    rt: &T,
    alloc: Global,
    top: &Topology,
    links: &LinkSet,
    workers: u32,
) -> Result<Vec<Row>, AllocError>
    requires workers { (1 ≤ workers) × (workers ≤ MOST_WORKERS) }
    requires places { length links.now ≡ length top.now.links }
    ensures { IfOk result (λ rows. AreRows top.now links.now rows.items) }
{
    let nodes = top.nodes() as usize;
    let mut made = no_rows(alloc, nodes)?;
    thread::for_each_mut(
        rt,
        &mut made,
        workers as usize,
        &|root, place| *place = row_of(alloc, top, links, root),
    );
    all_made(alloc, made)
}

/// The rows of all nodes over all links of a topology, made in the same way and kept.
pub fn table_of_all<T: Threads + Sync>(
    rt: &T,
    alloc: Global,
    top: &Topology,
    workers: u32,
) -> Result<RowTable, AllocError>
    requires workers { (1 ≤ workers) × (workers ≤ MOST_WORKERS) }
    ensures network { IfOk result (λ table. table.network ≡ top.now) }
    ensures links { IfOk result (λ table. table.links ≡ all_links top.now) }
{
    let links = all_links(alloc, top)?;
    let rows = all_rows(rt, alloc, top, &links, workers)?;
    RowTable::build(alloc, top, &links, rows)
}

// The rows, where each was made.
fn all_made(alloc: Global, made: Vec<Option<Row>>) -> Result<Vec<Row>, AllocError>
    ensures { IfOk result (λ rows. map Some rows.items ≡ made.items) }
{
    let mut rows = Vec::new(alloc);
    for row in made {
        rows.push(row.ok_or(AllocError)?)?;
    }
    Ok(rows)
}

// A place for the row of each node.
fn no_rows(alloc: Global, nodes: usize) -> Result<Vec<Option<Row>>, AllocError>
    ensures { IfOk result (λ places. length places.items ≡ nodes) }
{
    let mut places = Vec::new(alloc);
    for _ in 0..nodes {
        places.push(None)?;
    }
    Ok(places)
}

// The row of a node, or none where memory is wanting.
fn row_of(alloc: Global, top: &Topology, links: &LinkSet, root: usize) -> Option<Row>
    requires places { length links.now ≡ length top.now.links }
    requires is_node { root < length top.now.nodes }
    ensures { IsMadeRow top.now links.now root result }
{
    // The call tells the proof that a network has few nodes, so that the cast keeps the number.
    let _nodes = top.nodes();
    HeapRows::new().row(alloc, top, links, root as u32).ok()
}
