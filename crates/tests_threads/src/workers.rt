// The rows of all nodes, by one worker and by several, and a maker of rows that has several.
ghost use Rattle.std.specs.Prelude.{◌≡◌, ◌≤◌, IfOk, length};
ghost use Rattle.hose_pool.specs.declared.rows.TheConstants.{MOST_WORKERS};

use crate::shared::tells;
use cases_common::{name, named, network};
use hose_graph::{Link, MOST_NODES, Row, Topology};
use hose_links::LinkSet;
use hose_paths::{HeapRows, PlainRows, RowMaker, RowTable, TableRows};
use hose_pool::{PoolRows, all_rows, table_of_all};
use std::alloc::{AllocError, Global};
use std::test::Fail;
use std::thread::Threads;

/// Towns and the cables between them, by their lengths.
const BACKBONE: &str = "node sea\nnode svl\nnode lax\nnode den\nnode kcy\nnode hou\n\
    node ind\nnode chi\nnode atl\nnode was\nnode nyc\n\
    link sea svl 10000 8\nlink sea den 10000 13\nlink svl lax 10000 4\n\
    link svl den 10000 11\nlink lax hou 10000 17\nlink den kcy 10000 7\n\
    link kcy hou 10000 9\nlink kcy ind 10000 6\nlink hou atl 10000 9\n\
    link ind chi 10000 2\nlink ind atl 10000 6\nlink chi nyc 10000 9\n\
    link atl was 10000 7\nlink nyc was 10000 3\nend\n";

/// Numbers of links, from one up to another that is none of them.
#[derive(Clone, Copy)]
struct LinkNumbers {
    from: u32,
    to: u32,
}

const NONE: LinkNumbers = LinkNumbers { from: 0, to: 0 };

/// All links but those of some numbers.
fn links_but(alloc: Global, top: &Topology, out: LinkNumbers) -> Result<LinkSet, AllocError>
    ensures { IfOk result (λ links. length links ≡ length top.now.links) }
{
    let mut links = LinkSet::new(alloc, top.links())?;
    links.fill_where(|link| link < out.from || out.to <= link);
    Ok(links)
}

/// The rows of all nodes over all links.
fn rows_of<T: Threads + Sync>(
    rt: &T,
    alloc: Global,
    top: &Topology,
    workers: u32,
) -> Result<Vec<Row>, AllocError>
    requires { (1 ≤ workers) × (workers ≤ MOST_WORKERS) }
{
    let links = links_but(alloc, top, NONE)?;
    all_rows(rt, alloc, top, &links, workers)
}

/// Fails where a maker makes another row of the fourth node over all links but these.
fn makes<R: RowMaker>(
    alloc: Global,
    rows: &mut R,
    top: &Topology,
    out: LinkNumbers,
    want: &str,
) -> Result<(), Fail> {
    if top.nodes() < 4 {
        return Err(Fail::from("no node"));
    }
    let links = links_but(alloc, top, out)?;
    tells(alloc, &rows.row(alloc, top, &links, 3)?, want)
}

/// Fails where a maker makes other rows than these over all links but some.
fn makes_all<R: RowMaker>(
    alloc: Global,
    rows: &mut R,
    top: &Topology,
    out: LinkNumbers,
    want: &[Row],
) -> Result<(), Fail> {
    let links = links_but(alloc, top, out)?;
    are_same(&all_by(alloc, rows, top, &links)?, want)
}

/// The rows of all nodes over these links, by a maker.
fn all_by<R: RowMaker>(
    alloc: Global,
    rows: &mut R,
    top: &Topology,
    links: &LinkSet,
) -> Result<Vec<Row>, AllocError>
    requires { length links.now ≡ length top.now.links }
{
    let mut made = Vec::new(alloc);
    for root in 0..top.nodes() {
        made.push(rows.row(alloc, top, links, root)?)?;
    }
    Ok(made)
}

/// As many nodes as can be on a ring, each with one more link across it.
fn ring(alloc: Global) -> Result<Topology, Fail> {
    let mut top = Topology::new(alloc)?;
    for node in 0..MOST_NODES {
        add_node(alloc, &mut top, node)?;
    }
    for node in 0..MOST_NODES {
        add_link(&mut top, node, node + 1, 1 + node * 7 % 13)?;
    }
    for node in 0..MOST_NODES {
        add_link(&mut top, node, node * 37 + 11, 1 + node * node % 29)?;
    }
    Ok(top)
}

/// Adds a node that has its number as its name.
fn add_node(alloc: Global, top: &mut Topology, node: u32) -> Result<(), Fail> {
    let node = name(format!(in alloc; "{node}")?.as_str())?;
    if top.add_node(node).is_err() {
        return Err(Fail::from("no node"));
    }
    Ok(())
}

/// Adds a link of this cost, to the node at a place of the ring, which may go round it.
fn add_link(top: &mut Topology, a: u32, place: u32, cost: u32) -> Result<(), Fail> {
    let link = Link {
        a,
        b: place % MOST_NODES,
        capacity: 1,
        length: 1,
        cost: u64::from(cost),
    };
    if top.add_link(link).is_err() {
        return Err(Fail::from("no link"));
    }
    Ok(())
}

/// The sums of the distances and of the tight links of these rows.
fn sums(rows: &[Row]) -> (u64, u64) {
    let mut distances: u64 = 0;
    let mut links: u64 = 0;
    for row in rows {
        distances = distances.saturating_add(sum_of_distances(row));
        links = links.saturating_add(sum_of_links(row));
    }
    (distances, links)
}

fn sum_of_distances(row: &Row) -> u64 {
    let mut sum: u64 = 0;
    for distance in &row.dist {
        sum = sum.saturating_add(distance.unwrap_or(0));
    }
    sum
}

fn sum_of_links(row: &Row) -> u64 {
    let mut sum: u64 = 0;
    for link in &row.tight {
        sum = sum.saturating_add(u64::from(link.unwrap_or(0)));
    }
    sum
}

/// Fails where rows are not these.
fn are_same(rows: &[Row], want: &[Row]) -> Result<(), Fail> {
    if rows.len() != want.len() {
        return Err(Fail::from("another number of rows"));
    }
    for place in 0..rows.len() {
        is_same(&rows[place], &want[place])?;
    }
    Ok(())
}

fn is_same(row: &Row, want: &Row) -> Result<(), Fail> {
    if row.root != want.root || row.dist != want.dist || row.tight != want.tight {
        return Err(Fail::new(format_args!("another row of {}", row.root)));
    }
    Ok(())
}

/// The links of the star cost 1, 2 and 3, each from its node to the fourth one.
const ROWS: &str = "[\
    Row { root: 0, dist: [Some(0), Some(3), Some(4), Some(1)], \
    tight: [None, Some(1), Some(2), Some(0)] }, \
    Row { root: 1, dist: [Some(3), Some(0), Some(5), Some(2)], \
    tight: [Some(0), None, Some(2), Some(1)] }, \
    Row { root: 2, dist: [Some(4), Some(5), Some(0), Some(3)], \
    tight: [Some(0), Some(1), None, Some(2)] }, \
    Row { root: 3, dist: [Some(1), Some(2), Some(3), Some(0)], \
    tight: [Some(0), Some(1), Some(2), None] }]";

#[test]
fn rows_are_the_same_for_each_number_of_workers(rt: HostRuntime) -> Result<(), Fail> {
    let alloc = rt.alloc();
    let top = named(alloc, "star")?;
    tells(alloc, &rows_of(&rt, alloc, &top, 1)?, ROWS)?;
    tells(alloc, &rows_of(&rt, alloc, &top, 4)?, ROWS)?;
    tells(alloc, &rows_of(&rt, alloc, &top, 16)?, ROWS)
}

/// The row of the fourth node over all links.
const WHOLE: &str = "Row { root: 3, dist: [Some(1), Some(2), Some(3), Some(0)], \
    tight: [Some(0), Some(1), Some(2), None] }";

/// Its row without the second link.
const WITHOUT: &str = "Row { root: 3, dist: [Some(1), None, Some(3), Some(0)], \
    tight: [Some(0), None, Some(2), None] }";

const SECOND: LinkNumbers = LinkNumbers { from: 1, to: 2 };

/// Fails where a maker makes other rows than those of the links that it is asked for.
fn makes_each<R: RowMaker>(alloc: Global, rows: &mut R, top: &Topology) -> Result<(), Fail> {
    makes(alloc, rows, top, NONE, WHOLE)?;
    makes(alloc, rows, top, NONE, WHOLE)?;
    makes(alloc, rows, top, SECOND, WITHOUT)?;
    makes(alloc, rows, top, NONE, WHOLE)
}

#[test]
fn kept_rows_are_of_the_links_that_are_asked_for(rt: HostRuntime) -> Result<(), Fail> {
    let top = named(rt.alloc(), "star")?;
    makes_each(rt.alloc(), &mut PoolRows::new(&rt, 4), &top)?;
    makes_each(rt.alloc(), &mut PlainRows::new(), &top)
}

/// The sums are those that another program finds for this network.
#[test]
fn rows_of_a_large_network_are_the_same(rt: HostRuntime) -> Result<(), Fail> {
    let top = ring(rt.alloc())?;
    let rows = rows_of(&rt, rt.alloc(), &top, 1)?;
    assert!(rt; sums(&rows) == (10_575_290, 113_875_306));
    are_same(&rows_of(&rt, rt.alloc(), &top, 4)?, &rows)?;
    are_same(&rows_of(&rt, rt.alloc(), &top, 16)?, &rows)
}

/// Fails where makers of rows do not agree over all links but some.
fn agree<T: Threads + Sync>(
    rt: &T,
    alloc: Global,
    top: &Topology,
    table: &RowTable,
    out: LinkNumbers,
) -> Result<(), Fail> {
    let links = links_but(alloc, top, out)?;
    let plain = all_by(alloc, &mut PlainRows::new(), top, &links)?;
    makes_all(alloc, &mut HeapRows::new(), top, out, &plain)?;
    makes_all(alloc, &mut PoolRows::new(rt, 4), top, out, &plain)?;
    makes_all(alloc, &mut TableRows::new(table), top, out, &plain)
}

#[test]
fn makers_of_rows_agree_on_a_backbone(rt: HostRuntime) -> Result<(), Fail> {
    let top = network(rt.alloc(), BACKBONE)?;
    let table = table_of_all(&rt, rt.alloc(), &top, 4)?;
    agree(&rt, rt.alloc(), &top, &table, NONE)?;
    let late = LinkNumbers {
        from: 10,
        to: top.links(),
    };
    agree(&rt, rt.alloc(), &top, &table, late)
}

#[test]
fn a_table_gives_the_rows_that_it_was_built_of(rt: HostRuntime) -> Result<(), Fail> {
    let top = named(rt.alloc(), "star")?;
    let table = table_by_one(&rt, rt.alloc(), &top)?;
    makes(rt.alloc(), &mut TableRows::new(&table), &top, NONE, WHOLE)
}

fn table_by_one<T: Threads + Sync>(
    rt: &T,
    alloc: Global,
    top: &Topology,
) -> Result<RowTable, AllocError> {
    let links = links_but(alloc, top, NONE)?;
    let rows = all_rows(rt, alloc, top, &links, 1)?;
    RowTable::build(alloc, top, &links, rows)
}
