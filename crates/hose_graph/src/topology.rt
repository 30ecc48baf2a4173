// Topologies: networks that grow, node by node and link by link, within the limits. Their links,
// and the steps of trees of these.
ghost use Rattle.std.specs.Prelude.{◌≡◌, ℕ, ◌<◌, ◌≤◌, ◌↔◌, List, [], ◌∷◌, ◌++◌, length, vec_capacity, Some, IsOk, IsErrOf, IsTrue, IsSome, IfSome, IfOk, OnOk, OnErr, Contains, slice_get};
ghost use Rattle.hose_graph.specs.Name.{IsName};
ghost use Rattle.hose_graph.specs.Network.{Network, IsInRange, IsLink, IsNetwork, HasNodeRoom, HasLinkRoom};

use crate::limits::{MOST_CAPACITY, MOST_COST, MOST_LENGTH, MOST_LINKS, MOST_NODES};
use crate::name::Name;
use std::alloc::{AllocError, Global};
use std::marker::Model;

/// A link of a network, which joins two nodes in both directions.
#[derive(Clone, Copy, Debug, PartialEq, Eq)]
pub struct Link {
    /// One of its nodes, by its number.
    pub a: u32,
    /// Its other node, by its number.
    pub b: u32,
    /// What may be reserved on it, for both directions together, in the customer's unit of
    /// bandwidth.
    pub capacity: u64,
    /// How long it is, in whatever unit the network is measured in. A tariff may make a cost of it.
    pub length: u64,
    /// What one reserved unit of bandwidth costs on it.
    pub cost: u64,
}

/// A step of a tree: a link that joins a node of the tree to one that it did not have.
#[derive(Clone, Copy, Debug, PartialEq, Eq)]
pub struct Step {
    /// The link's number.
    pub link: u32,
    /// The node that was there.
    pub old: u32,
    /// The node that the link leads to.
    pub new: u32,
}

/// Why a node or a link was not added to a topology.
#[derive(Clone, Copy, Debug, PartialEq, Eq)]
pub enum TopologyFault {
    /// There are as many as a topology can have.
    Many,
    /// A node has this name.
    Repeat,
    /// A node of the link isn't there, or a number of it is outside its limits.
    Range,
    /// The link joins a node to itself.
    Loop,
}

/// Nodes by name and links between them, numbered from 0 in the order in which they were added.
///
/// A contract sees it as a `Network`.
#[derive(Debug, Drop)]
pub struct Topology {
    names: Vec<Name>,
    links: Vec<Link>,
}

impl Model for Topology {
    ghost use Rattle.std.specs.Prelude.{◌≤◌, vec_capacity};
    ghost use Rattle.hose_graph.specs.Network.{Network, IsNetwork};
    ghost use Rattle.hose_graph.specs.declared.limits.TheConstants.{MOST_NODES, MOST_LINKS};

    ghost Value = { Network };

    ghost view = { λ top. record { nodes = top.names.items; links = top.links.items } };

    // There is room for the greatest topology from the start, so that adding takes no memory.
    ghost invariant = { λ top.
        IsNetwork (record { nodes = top.names.items; links = top.links.items })
        × (MOST_NODES ≤ vec_capacity top.names)
        × (MOST_LINKS ≤ vec_capacity top.links) };
}

impl Topology {
    /// A topology without a node or a link, with room for the greatest one.
    pub fn new(alloc: Global) -> Result<Topology, AllocError>
        ensures empty { IfOk result (λ top. top ≡ record { nodes = []; links = [] }) }
    {
        Ok(Topology {
            names: Vec::with_capacity(alloc, MOST_NODES as usize)?,
            links: Vec::with_capacity(alloc, MOST_LINKS as usize)?,
        })
    }

    /// Adds a node that there is room for and whose name is new, and gives its number.
    pub fn push_node(&mut self, name: Name) -> u32
        requires room { HasNodeRoom self.old }
        requires is_new { ¬ Contains self.old.nodes name }
        ensures number { result ≡ length self.old.nodes }
        ensures added { self.new ≡ record self.old { nodes = self.old.nodes ++ name ∷ [] } }
    {
        let node = self.nodes();
        // That these bytes are a name is told by the call that gives them.
        let _bytes = name.bytes();
        self.names.push_reserved(name);
        node
    }

    /// Adds a node as embeddings and tests do, which leave the tests that `push_node` asks of its
    /// caller to this call.
    pub fn add_node(&mut self, name: Name) -> Result<u32, TopologyFault>
        ensures number { IfOk result (λ node. node ≡ length self.old.nodes) }
        ensures added { OnOk result
            (self.new ≡ record self.old { nodes = self.old.nodes ++ name ∷ [] }) }

        // A name that is there already counts only where there is room.
        ensures many { IsErrOf result TopologyFault.Many ↔ (¬ HasNodeRoom self.old) }
        ensures repeat { IsErrOf result TopologyFault.Repeat
            ↔ (HasNodeRoom self.old × Contains self.old.nodes name) }
        ensures ok { IsOk result ↔ (HasNodeRoom self.old × (¬ Contains self.old.nodes name)) }
        ensures err { OnErr result (self.new ≡ self.old) }
    {
        if self.nodes() == MOST_NODES {
            return Err(TopologyFault::Many);
        }
        if self.find(&name).is_some() {
            return Err(TopologyFault::Repeat);
        }
        Ok(self.push_node(name))
    }

    /// Adds a link that there is room for and that the network can have, and gives its number.
    pub fn push_link(&mut self, link: Link) -> u32
        requires room { HasLinkRoom self.old }
        requires is_link { IsLink self.old link }
        ensures number { result ≡ length self.old.links }
        ensures added { self.new ≡ record self.old { links = self.old.links ++ link ∷ [] } }
    {
        let number = self.links();
        self.links.push_reserved(link);
        number
    }

    /// Adds a link as embeddings and tests do, which leave the tests that `push_link` asks of its
    /// caller to this call.
    pub fn add_link(&mut self, link: Link) -> Result<u32, TopologyFault>
        ensures number { IfOk result (λ number. number ≡ length self.old.links) }
        ensures added { OnOk result
            (self.new ≡ record self.old { links = self.old.links ++ link ∷ [] }) }
        ensures ok { IsOk result ↔ (HasLinkRoom self.old × IsLink self.old link) }
        ensures err { OnErr result (self.new ≡ self.old) }

        // Each refusal comes only where those before it do not.
        ensures many { IsErrOf result TopologyFault.Many ↔ (¬ HasLinkRoom self.old) }
        ensures range { IsErrOf result TopologyFault.Range
            ↔ (HasLinkRoom self.old × (¬ IsInRange self.old link)) }
        ensures loops { IsErrOf result TopologyFault.Loop
            ↔ (HasLinkRoom self.old × IsInRange self.old link × (link.a ≡ link.b)) }
    {
        if self.links() == MOST_LINKS {
            return Err(TopologyFault::Many);
        }
        if !self.is_in_range(&link) {
            return Err(TopologyFault::Range);
        }
        if link.a == link.b {
            return Err(TopologyFault::Loop);
        }
        Ok(self.push_link(link))
    }

    /// How many nodes there are.
    pub fn nodes(&self) -> u32
        ensures count { result ≡ length self.now.nodes }
        ensures network { IsNetwork self.now }
    {
        self.names.len() as u32
    }

    /// How many links there are.
    pub fn links(&self) -> u32
        ensures count { result ≡ length self.now.links }
        ensures network { IsNetwork self.now }
    {
        self.links.len() as u32
    }

    /// The name of a node.
    pub fn name(&self, node: u32) -> Name
        requires { node < length self.now.nodes }
        ensures { slice_get self.now.nodes node ≡ Some result }
    {
        self.names[node as usize]
    }

    /// A link by its number.
    pub fn link(&self, link: u32) -> Link
        requires { link < length self.now.links }
        ensures value { slice_get self.now.links link ≡ Some result }
        ensures is_link { IsLink self.now result }
    {
        self.links[link as usize]
    }

    /// The node that has this name.
    pub fn find(&self, name: &Name) -> Option<u32>
        ensures found { IsSome result ↔ Contains self.now.nodes name.now }
        ensures named { IfSome result (λ node. slice_get self.now.nodes node ≡ Some name.now) }
        ensures is_node { IfSome result (λ node. node < length self.now.nodes) }
        ensures is_name { IsName name.now }
    {
        let bytes = name.bytes();
        let place = self.names.iter().position(|other| other.bytes() == bytes)?;
        Some(place as u32)
    }

    /// A copy of the topology.
    pub fn copy(&self, alloc: Global) -> Result<Topology, AllocError>
        ensures { IfOk result (λ top. top ≡ self.now) }
    {
        let mut top = Topology::new(alloc)?;
        top.names.extend_from_slice(&self.names)?;
        top.links.extend_from_slice(&self.links)?;
        Ok(top)
    }

    /// Whether both have the same nodes and the same links, under the same numbers.
    pub fn same(&self, other: &Topology) -> bool
        ensures { IsTrue result ↔ (self.now ≡ other.now) }
    {
        self.names == other.names && self.links == other.links
    }

    // Whether the link's nodes are there and its numbers within the limits.
    fn is_in_range(&self, link: &Link) -> bool
        ensures { IsTrue result ↔ IsInRange self.now link.now }
    {
        let nodes = self.nodes();
        link.a < nodes
            && link.b < nodes
            && (1..=MOST_CAPACITY).contains(&link.capacity)
            && (1..=MOST_LENGTH).contains(&link.length)
            && (1..=MOST_COST).contains(&link.cost)
    }
}
