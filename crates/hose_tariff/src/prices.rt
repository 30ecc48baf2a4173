// Which costs a network is planned by, and the network with those of a tariff.
ghost use Rattle.std.specs.Prelude.{◌≡◌, ◌≤◌, ℕ, IfOk, OnOk, length, vec_capacity};
ghost use Rattle.hose_graph.specs.Network.{IsNetwork, Network};
ghost use Rattle.hose_tariff.specs.Fact.{IsPricedBy};
ghost use Rattle.hose_tariff.specs.steps.Rules.{AnswersCosts, with_costs};

use crate::tariff::{Rule, Tariff};
use hose_graph::{Link, Topology};
use std::alloc::{AllocError, Global};

/// The costs by which a network is planned.
pub trait Prices {
    /// What becomes of a network.
    ghost prices: { Self → Network → Network → Type 0 };

    /// The network with these costs.
    fn apply(&self, alloc: Global, top: Topology) -> Result<Topology, AllocError>
        ensures priced { IfOk result (prices self.now top) }
        ensures network { IfOk result IsNetwork };
}

/// The costs that the topology itself tells.
#[derive(Clone, Copy)]
pub struct OwnCosts;

impl Prices for OwnCosts {
    ghost prices = { λ _ network priced. priced ≡ network };

    fn apply(&self, _alloc: Global, top: Topology) -> Result<Topology, AllocError> {
        let _nodes = top.nodes();
        Ok(top)
    }
}

/// Those that the tariff makes of the lengths.
impl Prices for Tariff {
    ghost prices = { λ tariff. IsPricedBy (Rule.post tariff.rule) };

    fn apply(&self, alloc: Global, top: Topology) -> Result<Topology, AllocError> {
        price(alloc, &top, self)
    }
}

/// The network with the same nodes and links, each of which costs what the tariff's rule answers
/// for its length.
pub fn price(alloc: Global, top: &Topology, tariff: &Tariff) -> Result<Topology, AllocError>
    ensures priced { IfOk result (IsPricedBy (Rule.post tariff.now.rule) top.now) }
    ensures network { IfOk result (λ _. IsNetwork top.now) }
{
    let mut priced = Topology::new(alloc)?;
    for node in 0..top.nodes() {
        priced.push_node(top.name(node));
    }
    for number in 0..top.links() {
        let link = top.link(number);
        let cost = tariff.cost(link.length);
        priced.push_link(Link { cost, ..link });
    }
    Ok(priced)
}

/// Where the tariff's rule answers one cost for each length that a link can have, a network is
/// priced in one way.
pub fn law_one_network(tariff: &Tariff)
    ensures { (cost : ℕ → ℕ) → AnswersCosts (Rule.post tariff.now.rule) cost
        → (network priced : Network) → IsNetwork network
        → IsPricedBy (Rule.post tariff.now.rule) network priced
        → priced ≡ with_costs cost network }
{
    let _name = tariff.name();
}
