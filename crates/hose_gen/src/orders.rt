// The orders of customers, and their limits beside those of all networks.
ghost use Rattle.std.specs.Prelude.{◌≡◌, ◌++◌, ◌≤◌, ◌<◌, IfOk, OnOk, false, length};
ghost use Rattle.std.specs.List.{All, flat_map};
ghost use Rattle.hose_graph.specs.Hose.{IsEnd, node_of};
ghost use Rattle.hose_graph.specs.steps.Hose.{MakesHose};
ghost use Rattle.hose_graph.specs.steps.Naming.{AsksOf};
ghost use Rattle.hose_graph.specs.Network.{Network};
ghost use Rattle.hose_gen.specs.Draws.{draw};
ghost use Rattle.hose_gen.specs.Generated.{admission_at, customer_name, endpoint_at, first_ends, first_orders, free_node, has_node, orders_at, release_at};
ghost use Rattle.hose_gen.specs.Limits.{least_nodes, most_hoses};

use crate::draws::{Draws, numbered};
use hose_graph::{Command, Endpoint, Hose, LEAST_ENDS, MOST_NODES, Name};
use std::alloc::{AllocError, Global};

/// The least number of nodes: more than the five endpoints that a hose can have.
pub const LEAST_NODES: u32 = 6;

/// The greatest number of hoses.
pub const MOST_HOSES: u32 = 20_000;

/// Each of these constants is the literal that definitions cite.
pub fn law_limits()
    ensures least_nodes { LEAST_NODES ≡ least_nodes }
    ensures most_hoses { MOST_HOSES ≡ most_hoses }
{}

/// What is ordered for so many hoses on a network of so many nodes.
pub fn orders(
    alloc: Global,
    draws: &mut Draws,
    nodes: u32,
    hoses: u32,
) -> Result<Vec<(Name, Command)>, AllocError>
    requires enough { LEAST_NODES ≤ nodes }
    requires few { nodes ≤ MOST_NODES }
    requires hoses { hoses ≤ MOST_HOSES }
    ensures orders { IfOk result
        (λ orders. orders.items
        ≡ flat_map (λ made. made) (first_orders nodes draws.old.state hoses).0) }
    ensures asks { IfOk result (λ orders. (network : Network) → length network.nodes ≡ nodes
        → All (λ order. AsksOf network order.1) orders.items) }
{
    let mut orders = Vec::new(alloc);
    for hose in 0..hoses {
        add_orders(alloc, draws, nodes, hose, &mut orders)?;
    }
    Ok(orders)
}

// Adds what is ordered for a hose: its admission, and a release after each fifth one.
fn add_orders(
    alloc: Global,
    draws: &mut Draws,
    nodes: u32,
    hose: u32,
    orders: &mut Vec<(Name, Command)>,
) -> Result<(), AllocError>
    requires enough { LEAST_NODES ≤ nodes }
    requires few { nodes ≤ MOST_NODES }
    requires hoses { hose < MOST_HOSES }
    ensures orders { OnOk result
        (orders.new.items
        ≡ orders.old.items ++ (orders_at nodes hose draws.old.state).0) }
    ensures state { OnOk result
        (draws.new.state ≡ (orders_at nodes hose draws.old.state).1) }
    ensures asks { OnOk result ((network : Network) → length network.nodes ≡ nodes
        → All (λ order. AsksOf network order.1) orders.old.items
        → All (λ order. AsksOf network order.1) orders.new.items) }
{
    let admission = admission(alloc, draws, nodes)?;
    orders.push(admission)?;
    if hose % 5 != 4 {
        return Ok(());
    }
    orders.push(release(draws, hose))?;
    Ok(())
}

// A customer's command to admit a hose.
fn admission(alloc: Global, draws: &mut Draws, nodes: u32) -> Result<(Name, Command), AllocError>
    requires enough { LEAST_NODES ≤ nodes }
    requires few { nodes ≤ MOST_NODES }
    ensures order { IfOk result (λ order. order ≡ (admission_at nodes draws.old.state).0) }
    ensures state { OnOk result
        (draws.new.state ≡ (admission_at nodes draws.old.state).1) }
    ensures asks { IfOk result (λ order. (network : Network) → length network.nodes ≡ nodes
        → AsksOf network order.1) }
{
    let customer = draw_customer(draws);
    let count = LEAST_ENDS + draws.draw(4) as usize;
    let ends = draw_ends(alloc, draws, nodes, count)?;
    let hose = Hose::from_ends(alloc, &ends)?;
    Ok((customer, Command::Admit(hose)))
}

// A customer's command to release what an earlier one may have made, after a hose.
fn release(draws: &mut Draws, hose: u32) -> (Name, Command)
    requires { hose < MOST_HOSES }
    ensures order { result ≡ (release_at hose draws.old.state).0 }
    ensures state { draws.new.state ≡ (release_at hose draws.old.state).1 }
    ensures asks { (network : Network) → AsksOf network result.1 }
{
    let customer = draw_customer(draws);
    let id = 1 + u64::from(draws.draw(hose + 1));
    (customer, Command::Release(id))
}

// One of the customers.
fn draw_customer(draws: &mut Draws) -> Name
    ensures name { result ≡ customer_name (draw 8 draws.old.state).0 }
    ensures state { draws.new.state ≡ (draw 8 draws.old.state).1 }
{
    numbered(b'c', draws.draw(8))
}

// So many endpoints, in the order in which they are drawn.
fn draw_ends(
    alloc: Global,
    draws: &mut Draws,
    nodes: u32,
    count: usize,
) -> Result<Vec<Endpoint>, AllocError>
    requires enough { LEAST_NODES ≤ nodes }
    requires few { nodes ≤ MOST_NODES }
    requires counted { (LEAST_ENDS ≤ count) × (count < nodes) × (count ≤ 5) }
    ensures ends { IfOk result (λ ends. ends.items
        ≡ (first_ends nodes draws.old.state count).0) }
    ensures state { OnOk result
        (draws.new.state ≡ (first_ends nodes draws.old.state count).1) }
    ensures makes { IfOk result (λ ends. MakesHose ends.items) }
    ensures nodes { IfOk result (λ ends. All (λ end. node_of end < nodes) ends.items) }
{
    let mut ends = Vec::with_capacity(alloc, count)?;
    while ends.len() < count {
        let end = draw_end(draws, nodes, &ends);
        ends.push(end)?;
    }
    Ok(ends)
}

// An endpoint at a node at which none of those before it is.
fn draw_end(draws: &mut Draws, nodes: u32, ends: &[Endpoint]) -> Endpoint
    requires enough { LEAST_NODES ≤ nodes }
    requires few { nodes ≤ MOST_NODES }
    ensures end { result ≡ (endpoint_at nodes ends.now draws.old.state).0 }
    ensures state { draws.new.state ≡ (endpoint_at nodes ends.now draws.old.state).1 }
    ensures fits { IsEnd result }
    ensures within { node_of result < nodes }
    ensures free { length ends.now < nodes → has_node ends.now (node_of result) ≡ false }
{
    let node = draws.draw(nodes);
    let node = free_from(nodes, ends, node);
    (node, 1 + u64::from(draws.draw(20)))
}

// The first node of those from one on, round the network, at which no endpoint is.
fn free_from(nodes: u32, ends: &[Endpoint], first: u32) -> u32
    requires some { first < nodes }
    requires few { nodes ≤ MOST_NODES }
    ensures node { result ≡ free_node nodes ends.now first nodes }
    ensures below { result < nodes }
    ensures free { length ends.now < nodes → has_node ends.now result ≡ false }
{
    let mut node = first;
    let mut left = nodes;
    while left > 0 && is_taken(ends, node) {
        node = (node + 1) % nodes;
        left -= 1;
    }
    node
}

// Whether one of the endpoints is at the node.
fn is_taken(ends: &[Endpoint], node: u32) -> bool
    ensures { result ≡ has_node ends.now node }
{
    ends.iter().any(|end| end.0 == node)
}
