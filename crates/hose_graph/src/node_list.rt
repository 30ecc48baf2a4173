// Lists of nodes, as the side of a refusal.
ghost use Rattle.std.specs.Prelude.{◌≡◌, IfOk};
ghost use Rattle.std.specs.List.Sorted.{IsStrictlyIncreasing};

use std::alloc::{AllocError, Global};
use std::marker::Model;

/// Nodes in ascending order.
///
/// A contract sees it as the list of them.
#[derive(Debug, Drop)]
pub struct NodeList {
    nodes: Vec<u32>,
}

impl Model for NodeList {
    ghost use Rattle.std.specs.Prelude.{ℕ, List};
    ghost use Rattle.std.specs.List.Sorted.{IsStrictlyIncreasing};

    ghost Value = { List ℕ };

    ghost view = { λ list. list.nodes.items };

    ghost invariant = { λ list. IsStrictlyIncreasing list.nodes.items };
}

impl NodeList {
    /// The list of these nodes.
    pub fn build(alloc: Global, nodes: &[u32]) -> Result<NodeList, AllocError>
        requires { IsStrictlyIncreasing nodes.now }
        ensures { IfOk result (λ list. list ≡ nodes.now) }
    {
        Ok(NodeList {
            nodes: Vec::from_slice(alloc, nodes)?,
        })
    }

    /// The nodes in ascending order.
    pub fn nodes(&self) -> &[u32]
        ensures value { result.now ≡ self.now }
        ensures ascending { IsStrictlyIncreasing self.now }
    {
        &self.nodes
    }

    /// A copy of the list.
    pub fn copy(&self, alloc: Global) -> Result<NodeList, AllocError>
        ensures { IfOk result (λ list. list ≡ self.now) }
    {
        NodeList::build(alloc, self.nodes())
    }
}
