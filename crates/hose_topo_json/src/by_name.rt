// The nodes of a network by their names.
ghost use Rattle.std.specs.Prelude.{◌≡◌, ◌↔◌, ◌<◌, IfSome, IsSome, Some, Contains, length, slice_get};

use hose_graph::{Name, Topology};
use std::alloc::{AllocError, Global};
use std::collections::BTreeMap;

/// The nodes of a network by their names, for many names that are to be found.
#[derive(Drop)]
pub struct NodesByName {
    nodes: BTreeMap<Name, u32>,
}

impl NodesByName {
    /// The nodes that a network has.
    pub fn build(alloc: Global, top: &Topology) -> Result<NodesByName, AllocError> {
        let mut nodes = BTreeMap::new(alloc);
        for node in 0..top.nodes() {
            nodes.insert(top.name(node), node)?;
        }
        Ok(NodesByName { nodes })
    }

    /// The node of the network that has this name. The map only says where to look.
    pub fn find(&self, top: &Topology, name: &Name) -> Option<u32>
        ensures found { IsSome result ↔ Contains top.now.nodes name.now }
        ensures named { IfSome result (λ node. slice_get top.now.nodes node ≡ Some name.now) }
        ensures is_node { IfSome result (λ node. node < length top.now.nodes) }
    {
        if let Some(node) = self.likely(name) {
            if node < top.nodes() && top.name(node) == *name {
                return Some(node);
            }
        }
        top.find(name)
    }

    // The node of the network that was built with, which has this name.
    fn likely(&self, name: &Name) -> Option<u32> {
        self.nodes.get(name).copied()
    }
}
