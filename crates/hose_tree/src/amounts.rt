// Amounts on the links of a network: what they cost, and whether they fit beside loads.
ghost use Rattle.std.specs.Prelude.{◌≡◌, ◌<◌, ◌≤◌, ◌↔◌, All, IsTrue, length, slice_index};
ghost use Rattle.hose_graph.specs.Amounts.{amount_of};
ghost use Rattle.hose_law.specs.Decision.{Fits};
ghost use Rattle.hose_law.specs.Plan.{plan_cost};
ghost use Rattle.hose_law.specs.Room.{free_rates};
ghost use Rattle.hose_tree.specs.steps.Amounts.{AreOnLinks, AreWithinCapacities};

use hose_graph::{Amounts, MOST_AMOUNT, MOST_TREE_LINKS, Topology};

/// What amounts cost: the sum over their links of cost times amount. There are no more of them than
/// a tree has links, and none is more than a hose reserves on a link.
pub fn cost(top: &Topology, amounts: &Amounts) -> u64
    requires links { AreOnLinks top.now amounts.now }
    requires few { length amounts.now ≤ MOST_TREE_LINKS }
    requires amounts { All (λ pair. amount_of pair ≤ MOST_AMOUNT) amounts.now }
    ensures { result ≡ plan_cost top.now amounts.now }
{
    let mut sum = 0;
    for (link, amount) in amounts.pairs() {
        sum += top.link(*link).cost * *amount;
    }
    sum
}

/// Whether each amount is at most what its link has free: the link's capacity without the load
/// there. There is a load for each link of the topology, at most the link's capacity.
pub fn fits(top: &Topology, loads: &[u64], amounts: &Amounts) -> bool
    requires loads { AreWithinCapacities top.now loads.now }
    requires links { AreOnLinks top.now amounts.now }
    ensures { IsTrue result ↔ Fits (free_rates top.now loads.now) amounts.now }
{
    amounts
        .pairs()
        .iter()
        .all(|pair| pair.1 <= free_rate(top, loads, pair.0))
}

/// What a link has free: its capacity without the load there. There is a load for each link of the
/// topology, at most the link's capacity.
pub fn free_rate(top: &Topology, loads: &[u64], link: u32) -> u64
    requires loads { AreWithinCapacities top.now loads.now }
    requires link { link < length top.now.links }
    ensures { result ≡ slice_index (free_rates top.now loads.now) link }
{
    top.link(link).capacity - loads[link as usize]
}
