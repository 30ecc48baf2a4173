// The root of a hose: the node from which it costs least.
ghost use Rattle.std.specs.Prelude.{◌≡◌, ◌≢◌, ℕ, ◌+◌, ◌-◌, ◌*◌, ◌<◌, ◌≤◌, ◌^◌, ◌↔◌, length, All, IfNone, IfOk, IfSome, IsTrue, OnOk};
ghost use Rattle.hose_graph.specs.Hose.{IsHose};
ghost use Rattle.hose_graph.specs.Network.{IsNetwork};
ghost use Rattle.hose_graph.specs.Row.{Distances, distance_of};
ghost use Rattle.hose_graph.specs.steps.Row.{HasBoundedDistances, IsWithinReach};
ghost use Rattle.hose_law.specs.steps.Plan.{AreNodes};
ghost use Rattle.hose_law.specs.Row.{IsRow};
ghost use Rattle.hose_paths.specs.steps.Chain.{AreChainsOver};
ghost use Rattle.hose_paths.specs.steps.Rows.{AreRows, HasDistances};
ghost use Rattle.hose_plan.specs.steps.Rooting.{AreLight, AreDistancesOver, AreWeights, IsBestRoot, heavier, most_share};
ghost use Rattle.hose_root.specs.steps.Choice.{weight_at};
ghost use Rattle.hose_root.specs.steps.Weight.{LeavesOut};

use hose_graph::{Endpoint, Hose, MOST_ENDS, MOST_NODES, MOST_RATE, Row, Topology};
use hose_links::LinkSet;
use hose_paths::{Chains, MadeRow, distances_along, row_of, with_tight_links};
use hose_root::choose;
use std::alloc::{AllocError, Global};

/// The root of a hose over a set of links; none where no node reaches all endpoints. It is as far
/// from an endpoint to a node as back, so the endpoints' distances give what the hose costs from
/// each node. It leaves these distances in `made`.
pub fn best_root(
    alloc: Global,
    top: &Topology,
    links: &LinkSet,
    hose: &Hose,
    chains: &Chains,
    made: &mut Vec<Row>,
) -> Result<Option<u32>, AllocError>
    requires places { length links.now ≡ length top.now.links }
    requires nodes { AreNodes top.now hose.now }
    requires chains { AreChainsOver top.now links.now chains.now }
    requires made { AreDistancesOver top.now links.now made.old.items }
    ensures root { IfOk result (IsBestRoot top.now links.now hose.now) }
    ensures made { OnOk result (AreDistancesOver top.now links.now made.new.items) }
    ensures network { IsNetwork top.now }
    ensures hose { IsHose hose.now }
{
    let ends = hose.ends();
    let mut weights = vec![in alloc; Some(0); top.nodes() as usize]?;
    for (node, rate) in ends {
        let row = distances_along(alloc, top, links, chains, *node)?;
        // One row shows that endpoints are apart, so a refusal makes no other.
        if leaves_out(&row, ends) {
            return Ok(None);
        }
        add_row(&mut weights, &row, *rate);
        made.push(row)?;
    }
    Ok(lightest(top, links, hose, &weights))
}

/// The root of a hose over a set of links, as `best_root` tells it, by rows that are kept.
pub fn best_root_of_kept(
    alloc: Global,
    top: &Topology,
    links: &LinkSet,
    hose: &Hose,
    kept: &[Row],
) -> Result<Option<u32>, AllocError>
    requires rows { AreRows top.now links.now kept.now }
    requires nodes { AreNodes top.now hose.now }
    ensures root { IfOk result (IsBestRoot top.now links.now hose.now) }
    ensures network { IsNetwork top.now }
    ensures hose { IsHose hose.now }
{
    let ends = hose.ends();
    let nodes = top.nodes() as usize;
    let mut weights = vec![in alloc; Some(0); nodes]?;
    for &(node, rate) in ends {
        add_row(&mut weights, row_of(top, links, kept, node), rate);
    }
    Ok(lightest(top, links, hose, &weights))
}

/// The row of a root, of which the distances may be there already.
pub fn root_row(
    alloc: Global,
    top: &Topology,
    links: &LinkSet,
    chains: &Chains,
    made: &[Row],
    root: u32,
) -> MadeRow
    requires places { length links.now ≡ length top.now.links }
    requires is_node { root < length top.now.nodes }
    requires chains { AreChainsOver top.now links.now chains.now }
    requires made { AreDistancesOver top.now links.now made.now }
    ensures { IfOk result (IsRow top.now links.now root) }
{
    let Some(row) = row_among(top, links, made, root) else {
        let far = distances_along(alloc, top, links, chains, root)?;
        return with_tight_links(alloc, top, links, &far);
    };
    with_tight_links(alloc, top, links, row)
}

// The distances from a root among some, where they are there.
fn row_among<'m>(top: &Topology, links: &LinkSet, made: &'m [Row], root: u32) -> Option<&'m Row>
    requires made { AreDistancesOver top.now links.now made.now }
    ensures found { IfSome result (λ row. HasDistances top.now links.now root row.now) }
    ensures none { IfNone result (All (λ (row : Distances). row.root ≢ root) made.now) }
{
    let Some(place) = made.iter().position(|row| row.root == root) else {
        return None;
    };
    Some(&made[place])
}

// Whether an endpoint has no distance in the row.
fn leaves_out(row: &Row, ends: &[Endpoint]) -> bool
    ensures { IsTrue result ↔ LeavesOut row.now ends.now }
{
    ends.iter().any(|end| distance(row, end.0).is_none())
}

// The distance of a node in the row; none for a number that is no node's.
fn distance(row: &Row, node: u32) -> Option<u64>
    ensures { result ≡ distance_of row.now node }
{
    *row.dist.get(node as usize)?
}

// The node of the least weight, which is the root; none where no node has a weight.
fn lightest(top: &Topology, links: &LinkSet, hose: &Hose, weights: &[Option<u64>]) -> Option<u32>
    requires weights { AreWeights top.now links.now hose.now weights.now }
    requires few { length weights.now ≤ MOST_NODES }
    ensures { IsBestRoot top.now links.now hose.now result }
{
    choose(weights)
}

// Adds to each node's weight what an endpoint of this rate costs from there, which is the root of
// the row.
fn add_row(weights: &mut [Option<u64>], row: &Row, rate: u64)
    requires places { length row.now.dist ≡ length weights.old }
    requires bounded { HasBoundedDistances row.now }
    requires rate { rate ≤ MOST_RATE }
    requires light { AreLight (MOST_ENDS - 1) weights.old }
    ensures places { length weights.new ≡ length weights.old }
    ensures light { (ends : ℕ) → AreLight ends weights.old → AreLight (ends + 1) weights.new }
    ensures each { (v : ℕ) → v < length weights.old
        → weight_at weights.new v ≡ heavier (weight_at weights.old v) rate (distance_of row.now v) }
{
    for node in 0..weights.len() {
        weights[node] = add(weights[node], rate, row.dist[node]);
    }
}

// A weight and that of an endpoint of this rate at this distance; none where one of both is none.
fn add(weight: Option<u64>, rate: u64, distance: Option<u64>) -> Option<u64>
    requires weight { IfSome weight (λ w. w ≤ (MOST_ENDS - 1) * most_share) }
    requires rate { rate ≤ MOST_RATE }
    requires distance { IsWithinReach distance }
    ensures { result ≡ heavier weight rate distance }
{
    Some(weight? + rate * distance?)
}
