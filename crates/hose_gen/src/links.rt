// The nodes and links of a network.
ghost use Rattle.std.specs.Prelude.{◌≡◌, ◌≢◌, ◌+◌, ◌≤◌, ◌<◌, [], length};
ghost use Rattle.hose_graph.specs.Network.{IsLink, Network};
ghost use Rattle.hose_gen.specs.Generated.{first_links, further_link, joining_link, link_at, link_between, node_names};

use crate::draws::{Draws, numbered};
use crate::orders::LEAST_NODES;
use hose_graph::{Link, MOST_LINKS, MOST_NODES, Topology};

/// Adds so many nodes to an empty network.
pub fn add_nodes(top: &mut Topology, nodes: u32)
    requires empty { top.old ≡ record { nodes = []; links = [] } }
    requires few { nodes ≤ MOST_NODES }
    ensures { top.new ≡ record { nodes = node_names nodes; links = [] } }
{
    for node in 0..nodes {
        top.push_node(numbered(b'n', node));
    }
}

/// Adds so many links to a network of so many nodes.
pub fn add_links(top: &mut Topology, draws: &mut Draws, nodes: u32, links: u32)
    requires nodes { top.old ≡ record { nodes = node_names nodes; links = [] } }
    requires enough { LEAST_NODES ≤ nodes }
    requires few_nodes { nodes ≤ MOST_NODES }
    requires few_links { links ≤ MOST_LINKS }
    ensures added { top.new ≡ record {
      nodes = node_names nodes;
      links = (first_links nodes draws.old.state links).0;
    } }
    ensures state { draws.new.state ≡ (first_links nodes draws.old.state links).1 }
{
    for number in 0..links {
        let link = draw_link(draws, nodes, number);
        top.push_link(link);
    }
}

// The link of a number.
fn draw_link(draws: &mut Draws, nodes: u32, number: u32) -> Link
    requires enough { LEAST_NODES ≤ nodes }
    requires few { nodes ≤ MOST_NODES }
    ensures link { result ≡ (link_at nodes number draws.old.state).0 }
    ensures state { draws.new.state ≡ (link_at nodes number draws.old.state).1 }
    ensures is_link { (network : Network) → length network.nodes ≡ nodes
        → IsLink network result }
{
    if number < nodes - 1 {
        next_link(draws, number)
    } else {
        other_link(draws, nodes)
    }
}

// The link that joins the next node to one before it.
fn next_link(draws: &mut Draws, number: u32) -> Link
    requires { number + 1 < MOST_NODES }
    ensures link { result ≡ (joining_link number draws.old.state).0 }
    ensures state { draws.new.state ≡ (joining_link number draws.old.state).1 }
    ensures is_link { (network : Network) → number + 1 < length network.nodes
        → IsLink network result }
{
    let a = number + 1;
    let b = draws.draw(a);
    link_between(draws, a, b)
}

// A link between any two nodes.
fn other_link(draws: &mut Draws, nodes: u32) -> Link
    requires { LEAST_NODES ≤ nodes }
    ensures link { result ≡ (further_link nodes draws.old.state).0 }
    ensures state { draws.new.state ≡ (further_link nodes draws.old.state).1 }
    ensures is_link { (network : Network) → length network.nodes ≡ nodes
        → IsLink network result }
{
    let a = draws.draw(nodes);
    let drawn = draws.draw(nodes - 1);
    let b = if drawn >= a { drawn + 1 } else { drawn };
    link_between(draws, a, b)
}

// A link between two nodes, which costs as much as it is long.
fn link_between(draws: &mut Draws, a: u32, b: u32) -> Link
    ensures link { result ≡ (link_between a b draws.old.state).0 }
    ensures state { draws.new.state ≡ (link_between a b draws.old.state).1 }
    ensures is_link { (network : Network) → a < length network.nodes → b < length network.nodes
        → a ≢ b → IsLink network result }
{
    let capacity = 1000 + u64::from(draws.draw(9001));
    let length = 1 + u64::from(draws.draw(100));
    Link {
        a,
        b,
        capacity,
        length,
        cost: length,
    }
}
