//! Networks and scripts that four numbers make: a seed, and how many nodes, links and hoses there
//! are. The same numbers make the same network and the same script, on any machine, so that a run
//! can be compared with another one.
//!
//! ```
//! let made = generate(alloc, 7, 200, 600, 300)?;
//! ```
#![tactic(auto)]

ghost use Rattle.std.specs.Prelude.{◌≡◌, ◌+◌, ◌≤◌, IfOk};
ghost use Rattle.std.specs.List.{All};
ghost use Rattle.hose_graph.specs.steps.Naming.{AsksOf};
ghost use Rattle.hose_gen.specs.Generated.{generated_network, generated_script};

mod draws;
mod links;
mod orders;

use draws::Draws;
use hose_graph::{Command, MOST_LINKS, MOST_NODES, Name, Topology};
use links::{add_links, add_nodes};
use orders::orders;
pub use orders::{LEAST_NODES, MOST_HOSES, law_limits};
use std::alloc::{AllocError, Global};

/// What was generated.
#[derive(Drop)]
pub struct Generated {
    /// The network.
    pub top: Topology,
    /// The commands in order, each with its customer.
    pub script: Vec<(Name, Command)>,
}

/// The network and the script of a seed, with so many nodes, links and hoses. Each command names
/// nodes of the network alone.
pub fn generate(
    alloc: Global,
    seed: u64,
    nodes: u32,
    links: u32,
    hoses: u32,
) -> Result<Generated, AllocError>
    requires enough_nodes { LEAST_NODES ≤ nodes }
    requires few_nodes { nodes ≤ MOST_NODES }
    requires enough_links { nodes ≤ links + 1 }
    requires few_links { links ≤ MOST_LINKS }
    requires few_hoses { hoses ≤ MOST_HOSES }
    ensures made { IfOk result (λ made. (made.top ≡ generated_network seed nodes links)
        × (made.script.items ≡ generated_script seed nodes links hoses)) }
    ensures asks { IfOk result (λ made. All (λ order. AsksOf made.top order.1) made.script.items) }
{
    let mut draws = Draws { state: seed };
    let mut top = Topology::new(alloc)?;
    add_nodes(&mut top, nodes);
    add_links(&mut top, &mut draws, nodes, links);
    let script = orders(alloc, &mut draws, nodes, hoses)?;
    Ok(Generated { top, script })
}
