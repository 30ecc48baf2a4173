// Whether two networks have the same rows.
ghost use Rattle.std.specs.Prelude.{◌↔◌, IsTrue};
ghost use Rattle.hose_paths.specs.steps.Alike.{AreCostAlike, JoinAtOneCost};

use hose_graph::{Link, Topology};

// Whether two networks have as many nodes, and links that join the same nodes at the same costs.
// Rows depend on nothing else, so names and capacities are not compared.
pub fn are_cost_alike(one: &Topology, other: &Topology) -> bool
    ensures { IsTrue result ↔ AreCostAlike one.now other.now }
{
    if one.nodes() != other.nodes() || one.links() != other.links() {
        return false;
    }
    for number in 0..one.links() {
        if !join_at_one_cost(&one.link(number), &other.link(number)) {
            return false;
        }
    }
    true
}

// Whether two links join the same nodes, which both name in one order, and cost the same.
fn join_at_one_cost(one: &Link, other: &Link) -> bool
    ensures { IsTrue result ↔ JoinAtOneCost one.now other.now }
{
    one.a == other.a && one.b == other.b && one.cost == other.cost
}
