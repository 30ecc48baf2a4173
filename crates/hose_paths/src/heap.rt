// The maker of rows by a heap: what fell waits in a queue, the nearest first, until its links are
// followed.
ghost use Rattle.std.specs.Prelude.{◌≡◌, ◌⊎◌, ℕ, ◌+◌, ◌*◌, ◌/◌, ◌%◌, ◌^◌, ◌<◌, ◌≤◌, ◌↔◌, None, Some, IfOk, IsTrue, OnOk, length};
ghost use Rattle.std.specs.BinaryHeap.{heap_items, heap_len};
ghost use Rattle.hose_graph.specs.Network.{IsNetwork};
ghost use Rattle.hose_graph.specs.steps.Row.{HasBoundedDistances};
ghost use Rattle.hose_paths.specs.steps.Rows.{HasDistances};
ghost use Rattle.hose_paths.specs.steps.Table.{entry, IsFound, IsBounded, IsRootAlone, CannotLower, Lowers, SettlesTable, left_to_fall};
ghost use Rattle.hose_paths.specs.steps.Chain.{AreChainsOver};
ghost use Rattle.hose_paths.specs.steps.Queue.{IsQueued, IsSettledBut, Relaxes, key_of};

use crate::MadeRow;
use crate::chains::Chains;
use crate::entries::lower_from;
use crate::settling::{RowsBy, Settling, settled, start};
use hose_graph::Topology;
use hose_links::LinkSet;
use std::alloc::{AllocError, Global};
use std::cmp::Reverse;
use std::collections::BinaryHeap;

/// Makes each row by following the links of the nearest node first.
pub type HeapRows = RowsBy<ByHeap>;

/// A heap of what fell.
#[derive(Clone, Copy, Debug, Default)]
pub struct ByHeap;

impl Settling for ByHeap {
    fn settle(
        alloc: Global,
        top: &Topology,
        links: &LinkSet,
        dist: &mut [Option<u64>],
        root: u32,
    ) -> Result<(), AllocError> {
        let chains = Chains::new(alloc, top, links)?;
        settle_along(alloc, top, links, &chains, dist, root)
    }
}

/// The distances from a root over a set of links, as a row without tight links, found by a heap
/// along chains that are there: whoever wants several rows over one set makes its chains once.
pub fn distances_along(
    alloc: Global,
    top: &Topology,
    links: &LinkSet,
    chains: &Chains,
    root: u32,
) -> MadeRow
    requires places { length links.now ≡ length top.now.links }
    requires is_node { root < length top.now.nodes }
    requires chains { AreChainsOver top.now links.now chains.now }
    ensures distances { IfOk result (HasDistances top.now links.now root) }
    ensures bounded { IfOk result HasBoundedDistances }
{
    let mut dist = start(alloc, top, root)?;
    settle_along(alloc, top, links, chains, &mut dist, root)?;
    Ok(settled(alloc, top, links, root, dist))
}

// Lowers entries until no link of the set can, where at first the root alone has one.
fn settle_along(
    alloc: Global,
    top: &Topology,
    links: &LinkSet,
    chains: &Chains,
    dist: &mut [Option<u64>],
    root: u32,
) -> Result<(), AllocError>
    requires first { IsRootAlone top.now root dist.old }
    requires links { length links.now ≡ length top.now.links }
    requires chains { AreChainsOver top.now links.now chains.now }
    ensures { OnOk result (SettlesTable top.now links.now dist.old dist.new) }
{
    let mut queue: Queue = BinaryHeap::new(alloc);
    queue.push(Reverse(key(0, root)))?;
    while let Some(Reverse(lowest)) = queue.pop() {
        let node = node_in(lowest);
        let near = distance_in(lowest);
        if stands(dist, node, near) {
            follow_all(top, links, chains, dist, &mut queue, node, near)?;
        }
    }
    Ok(())
}

// Entries of nodes, the lowest first, each with its node in one number, which is faster to compare
// and to move than two.
type Queue = BinaryHeap<Reverse<u64>>;

// More than any node's number; a power of two is fastest.
const PLACES: u64 = 1024;

// An entry with its node.
fn key(distance: u64, node: u32) -> u64
    requires { key_of distance node < 2 ^ 64 }
    ensures { result ≡ key_of distance node }
{
    distance * PLACES + u64::from(node)
}

// The node in a key.
fn node_in(key: u64) -> u32
    ensures { result ≡ key % 1024 }
{
    (key % PLACES) as u32
}

// The entry in a key.
fn distance_in(key: u64) -> u64
    ensures { result ≡ key / 1024 }
{
    key / PLACES
}

// Whether this is the node's entry.
fn stands(dist: &[Option<u64>], node: u32, distance: u64) -> bool
    ensures { IsTrue result ↔ (entry dist.now node ≡ Some distance) }
{
    dist.get(node as usize) == Some(&Some(distance))
}

// Follows each link of the set that meets the node, of which this is the entry.
fn follow_all(
    top: &Topology,
    links: &LinkSet,
    chains: &Chains,
    dist: &mut [Option<u64>],
    queue: &mut Queue,
    node: u32,
    near: u64,
) -> Result<(), AllocError>
    requires network { IsNetwork top.now }
    requires places { length dist.old ≡ length top.now.nodes }
    requires links { length links.now ≡ length top.now.links }
    requires chains { AreChainsOver top.now links.now chains.now }
    requires bounded { IsBounded dist.old }
    requires node { node < length top.now.nodes }
    requires near { entry dist.old node ≡ Some near }
    requires settled { IsSettledBut top.now links.now dist.old (heap_items queue.old)
        node (length top.now.links) }
    ensures bounded { OnOk result (IsBounded dist.new) }
    ensures found { (start : ℕ) → IsFound top.now links.now start dist.old
        → OnOk result (IsFound top.now links.now start dist.new) }
    ensures settled { OnOk result
        (IsSettledBut top.now links.now dist.new (heap_items queue.new) 0 0) }
    ensures less { OnOk result (2 * left_to_fall dist.new + heap_len queue.new
        ≤ 2 * left_to_fall dist.old + heap_len queue.old) }
{
    let mut at = chains.last_of(top, links, node);
    while let Some(place) = at {
        let arc = chains.arc(top, links, node, place);
        follow(dist, queue, node, near, arc.to, arc.cost)?;
        at = arc.before;
    }
    Ok(())
}

// Lowers a node's entry to that of another, which is known, and the cost, where that is less, and
// puts it into the queue then.
fn follow(
    dist: &mut [Option<u64>],
    queue: &mut Queue,
    from: u32,
    near: u64,
    to: u32,
    cost: u64,
) -> Result<(), AllocError>
    requires near { entry dist.old from ≡ Some near }
    requires to { to < length dist.old }
    requires fits { key_of (near + cost) to < 2 ^ 64 }
    ensures follows { OnOk result
        (Relaxes dist.old (heap_items queue.old) dist.new (heap_items queue.new) from to cost) }
    ensures len { OnOk result ((heap_len queue.new ≡ heap_len queue.old) × (dist.new ≡ dist.old)
        ⊎ (heap_len queue.new ≡ heap_len queue.old + 1) × Lowers dist.old dist.new from to cost) }
{
    if let Some(far) = lower_from(dist, from, near, to, cost) {
        queue.push(Reverse(key(far, to)))?;
    }
    Ok(())
}
