//! Trees of links: the one that joins a hose by shortest walks to the root of a row, what a hose
//! reserves on the links of any tree, what that costs, whether it fits beside loads, what a node
//! reaches, and whether amounts are a hose's on some tree. The planner stands on it; the ledger
//! uses `cost` to tell a network once more.
//!
//! ```
//! let tree = Tree::from_row(alloc, &top, &row, &hose)?;
//! let amounts = reservations(alloc, &tree, &hose)?;
//! if fits(&top, &loads, &amounts) {
//!     let cost = cost(&top, &amounts);
//! }
//! ```
#![tactic(auto)]

ghost use Rattle.std.specs.Prelude.{◌≡◌};
ghost use Rattle.hose_law.specs.Tree.{Growth, IsTree};
ghost use Rattle.hose_graph.specs.Network.{Network, IsNetwork};

mod amounts;
mod canonical;
mod judge;
mod matrix;
mod pairing;
mod reach;
mod reserve;
mod traffic;

pub use amounts::{cost, fits, free_rate};
pub use hose_graph::Step;
pub use judge::is_reservation;
pub use matrix::Matrix;
pub use pairing::heaviest;
pub use reach::reached;
pub use reserve::reservations;
use std::marker::Model;
pub use traffic::load;

/// A tree of links: a start node, and the steps by which it grows.
///
/// A contract sees it as a `Growth`.
#[derive(Debug, Drop)]
pub struct Tree {
    start: u32,
    steps: Vec<Step>,
}

impl Model for Tree {
    ghost use Rattle.hose_graph.specs.Network.{Network, IsNetwork};
    ghost use Rattle.hose_law.specs.Tree.{Growth, IsTree};

    ghost Value = { Growth };

    ghost view = { λ tree. record { start = tree.start; steps = tree.steps.items } };

    // It is a tree of some network.
    ghost invariant = { λ tree. (network : Network) × IsNetwork network
        × IsTree network (record { start = tree.start; steps = tree.steps.items }) };
}

impl Tree {
    /// The node from which it grows, which only an embedding or a test asks for.
    pub fn start(&self) -> u32
        ensures start { result ≡ self.now.start }
        ensures is_tree { (network : Network) × IsNetwork network × IsTree network self.now }
    {
        self.start
    }

    /// The steps, each after the one that leads to its old node.
    pub fn steps(&self) -> &[Step]
        ensures steps { result.now ≡ self.now.steps }
        ensures is_tree { (network : Network) × IsNetwork network × IsTree network self.now }
    {
        &self.steps
    }
}
