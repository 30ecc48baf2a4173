// Which nodes a node reaches over a set of links.
ghost use Rattle.std.specs.Prelude.{◌≡◌, ◌≢◌, ℕ, ◌<◌, false, true, length, replicate, All, IfOk, slice_index_or, slice_set};
ghost use Rattle.hose_graph.specs.Network.{IsNetwork};
ghost use Rattle.hose_law.specs.Decision.{IsReachedList};
ghost use Rattle.hose_law.specs.steps.Plan.{IsReachedSet};
ghost use Rattle.hose_law.specs.Walk.{IsIn};
ghost use Rattle.hose_law.specs.steps.Walk.{IsClosedSide};
ghost use Rattle.hose_tree.specs.steps.Nodes.{AreNodesBelow};
ghost use Rattle.hose_tree.specs.steps.Reach.{count_on, AllReached, IsClosedAt};

use hose_graph::{NodeList, Topology};
use hose_links::LinkSet;
use std::alloc::{AllocError, Global};

/// The nodes that a node reaches over a set of links, itself included, ascending. The set has a
/// place for each link of the topology.
pub fn reached(
    alloc: Global,
    top: &Topology,
    links: &LinkSet,
    from: u32,
) -> Result<NodeList, AllocError>
    requires places { length links.now ≡ length top.now.links }
    requires is_node { from < length top.now.nodes }
    ensures list { IfOk result (IsReachedList top.now links.now from) }
    ensures nodes { IfOk result (All (λ node. node < length top.now.nodes)) }
{
    let mut side = vec![in alloc; false; top.nodes() as usize]?;
    reach_from(top, links, from, &mut side);
    nodes_on(alloc, top, &side)
}

// Puts on a side that has no node yet what a node reaches.
fn reach_from(top: &Topology, links: &LinkSet, from: u32, side: &mut [bool])
    requires places { length links.now ≡ length top.now.links }
    requires is_node { from < length top.now.nodes }
    requires none { side.old ≡ replicate (length top.now.nodes) false }
    ensures { IsReachedSet top.now links.now from side.new }
{
    side[from as usize] = true;
    spread_all(top, links, side);
}

// Adds all that is reached over the set from the nodes on the side.
fn spread_all(top: &Topology, links: &LinkSet, side: &mut [bool])
    requires places { length links.now ≡ length top.now.links }
    requires nodes { length side.old ≡ length top.now.nodes }
    ensures keeps { (v : ℕ) → IsIn side.old v → IsIn side.new v }
    ensures reached { (from : ℕ) → AllReached top.now links.now from side.old
        → AllReached top.now links.now from side.new }
    ensures closed { IsClosedSide top.now links.now side.new }
{
    while spread(top, links, side) {}
}

// Where one node of a link of the set is on the side, so is the other from now on. Says whether
// that added a node.
fn spread(top: &Topology, links: &LinkSet, side: &mut [bool]) -> bool
    requires places { length links.now ≡ length top.now.links }
    requires nodes { length side.old ≡ length top.now.nodes }
    ensures keeps { (v : ℕ) → IsIn side.old v → IsIn side.new v }
    ensures reached { (from : ℕ) → AllReached top.now links.now from side.old
        → AllReached top.now links.now from side.new }
    ensures stable { result ≡ false → IsClosedSide top.now links.now side.new }
    ensures grows { result ≡ true → count_on side.old < count_on side.new }
{
    let mut has_grown = false;
    for l in 0..top.links() {
        if spread_along(top, links, side, l) {
            has_grown = true;
        }
    }
    has_grown
}

// Where one node of this link is on the side and the set has the link, so is the other from now on.
// Says whether that added a node.
fn spread_along(top: &Topology, links: &LinkSet, side: &mut [bool], l: u32) -> bool
    requires places { length links.now ≡ length top.now.links }
    requires nodes { length side.old ≡ length top.now.nodes }
    requires link { l < length top.now.links }
    ensures keeps { (v : ℕ) → IsIn side.old v → IsIn side.new v }
    ensures reached { (from : ℕ) → AllReached top.now links.now from side.old
        → AllReached top.now links.now from side.new }
    ensures same { result ≡ false → side.new ≡ side.old }
    ensures stable { result ≡ false → IsClosedAt top.now links.now side.new l }
    ensures grows { result ≡ true → count_on side.old < count_on side.new }
{
    let link = top.link(l);
    links.has(l) && join(side, link.a as usize, link.b as usize)
}

// Where one of two nodes is on the side, the other joins it. Says whether one did.
fn join(side: &mut [bool], a: usize, b: usize) -> bool
    requires a { a < length side.old }
    requires b { b < length side.old }
    ensures same { result ≡ false → side.new ≡ side.old }
    ensures alike { result ≡ false
        → slice_index_or side.old a false ≡ slice_index_or side.old b false }
    ensures differ { result ≡ true
        → slice_index_or side.old a false ≢ slice_index_or side.old b false }
    ensures both { result ≡ true → side.new ≡ slice_set (slice_set side.old a true) b true }
{
    if side[a] == side[b] {
        return false;
    }
    side[a] = true;
    side[b] = true;
    true
}

// The nodes on a side, ascending.
fn nodes_on(alloc: Global, top: &Topology, side: &[bool]) -> Result<NodeList, AllocError>
    requires { length side.now ≡ length top.now.nodes }
    ensures nodes { IfOk result (AreNodesBelow side.now (length side.now)) }
    ensures network { IsNetwork top.now }
{
    let mut nodes = Vec::new(alloc);
    for v in 0..top.nodes() {
        if side[v as usize] {
            nodes.push(v)?;
        }
    }
    NodeList::build(alloc, &nodes)
}
