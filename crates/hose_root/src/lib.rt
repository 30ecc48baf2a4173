//! Roots of trees: what a hose costs from a root, and which root costs least. The planner takes
//! `choose`. `weight` is not on the program's way today, since the planner adds up the endpoints'
//! rows in place of making a row for each root; it is there for who has the row of a root.
//!
//! ```
//! let weights = [weight(&row_of_a, &hose), weight(&row_of_b, &hose)];
//! let root = choose(&weights);
//! ```
#![tactic(auto)]

ghost use Rattle.std.specs.Prelude.{◌≡◌, ℕ, ◌<◌, ◌≤◌, ◌↔◌, Bool, List, None, All, IfSome, IsNone, IsTrue, MatchOption, length};
ghost use Rattle.hose_graph.specs.Hose.{node_of};
ghost use Rattle.hose_graph.specs.Network.{Network};
ghost use Rattle.hose_graph.specs.Row.{distance_of};
ghost use Rattle.hose_graph.specs.steps.Row.{HasBoundedDistances};
ghost use Rattle.hose_law.specs.CanonicalPlan.{IsWeight};
ghost use Rattle.hose_law.specs.Row.{IsRow};
ghost use Rattle.hose_root.specs.steps.Choice.{IsLowestLeast};
ghost use Rattle.hose_root.specs.steps.Weight.{LeavesOut, weight_of};

use hose_graph::{Hose, MOST_NODES, Row};

/// What the hose costs from the row's root, which only an embedding or a test asks: the sum of each
/// endpoint's rate times its distance. None where an endpoint has no distance.
pub fn weight(row: &Row, hose: &Hose) -> Option<u64>
    requires bounded { HasBoundedDistances row.now }
    requires nodes { All (λ end. node_of end < length row.now.dist) hose.now }
    ensures none { IsNone result ↔ LeavesOut row.now hose.now }
    ensures sum { IfSome result (λ weight. weight ≡ weight_of row.now hose.now) }
    ensures weight { (network : Network) (set : List Bool) → IsRow network set row.now.root row.now
        → MatchOption result
        ((weight : ℕ) → ¬ IsWeight network set row.now.root hose.now weight)
        (IsWeight network set row.now.root hose.now) }
{
    let mut weight = 0;
    for (node, rate) in hose.ends() {
        let distance = distance(row, *node)?;
        weight += *rate * distance;
    }
    Some(weight)
}

// The distance of a node in the row.
fn distance(row: &Row, node: u32) -> Option<u64>
    requires { node < length row.now.dist }
    ensures { result ≡ distance_of row.now node }
{
    row.dist[node as usize]
}

/// The lowest place of the least weight. None where no place has a weight.
pub fn choose(weights: &[Option<u64>]) -> Option<u32>
    requires { length weights.now ≤ MOST_NODES }
    ensures none { IsNone result ↔ All (λ weight. weight ≡ None) weights.now }
    ensures least { IfSome result (IsLowestLeast weights.now) }
{
    let mut best: Option<(u32, u64)> = None;
    for place in 0..weights.len() {
        if let Some(weight) = weights[place] {
            if is_less(weight, &best) {
                best = Some((place as u32, weight));
            }
        }
    }
    Some(best?.0)
}

// Whether a weight is less than the best so far.
fn is_less(weight: u64, best: &Option<(u32, u64)>) -> bool
    ensures { IsTrue result ↔ IfSome best.now (λ other. weight < other.1) }
{
    match best {
        Some((_, least)) => weight < *least,
        None => true,
    }
}
