// Whether a network goes on from another one.
ghost use Rattle.std.specs.Prelude.{◌↔◌, IsTrue};
ghost use Rattle.hose_graph.specs.Network.{IsLinkOf, IsNodeOf};
ghost use Rattle.hose_move.specs.Changing.{IsFirstChange, JoinSame, HaveSameLink, HaveSameNode};

use hose_graph::{Link, Topology};

/// The first thing of a network that is not where it was.
#[derive(Clone, Copy, Debug, PartialEq, Eq)]
pub enum NetworkChange {
    /// The node of this number has another name, or there are fewer.
    Node(u32),
    /// The link of this number joins other nodes, or there are fewer.
    Link(u32),
}

/// The first change by which a network does not go on from an old one; none where it does: its
/// first nodes have the old ones' names, in order, and its first links join the same nodes, in
/// order. Nodes are looked at first. More may follow, and capacities, lengths and costs may be
/// others.
pub fn first_change(old: &Topology, new: &Topology) -> Option<NetworkChange>
    ensures { IsFirstChange old.now new.now result }
{
    for node in 0..old.nodes() {
        if !node_stays(old, new, node) {
            return Some(NetworkChange::Node(node));
        }
    }
    for link in 0..old.links() {
        if !link_stays(old, new, link) {
            return Some(NetworkChange::Link(link));
        }
    }
    None
}

// Whether a node of the old network has its name in the new one.
fn node_stays(old: &Topology, new: &Topology, node: u32) -> bool
    requires { IsNodeOf old.now node }
    ensures { IsTrue result ↔ HaveSameNode old.now new.now node }
{
    if node >= new.nodes() {
        return false;
    }
    let was = old.name(node);
    let is = new.name(node);
    was.bytes() == is.bytes()
}

// Whether a link of the old network joins the same nodes in the new one.
fn link_stays(old: &Topology, new: &Topology, link: u32) -> bool
    requires { IsLinkOf old.now link }
    ensures { IsTrue result ↔ HaveSameLink old.now new.now link }
{
    if link >= new.links() {
        return false;
    }
    join_same(&old.link(link), &new.link(link))
}

// Whether two links join the same nodes.
fn join_same(one: &Link, other: &Link) -> bool
    ensures { IsTrue result ↔ JoinSame one.now other.now }
{
    one.a == other.a && one.b == other.b || one.a == other.b && one.b == other.a
}
