// The canonical text of a topology and its digest.
ghost use Rattle.std.specs.Prelude.{◌≡◌, ℕ, ◌<◌, List, ◌++◌, codes, length};
ghost use Rattle.std.specs.List.{flat_map};
ghost use Rattle.sha2.specs.Sha256.{sha256};
ghost use Rattle.hose_io.specs.steps.Writing.{IsPut};
ghost use Rattle.hose_graph.specs.Network.{IsLink, name_of};
ghost use Rattle.hose_topo.specs.Canonical.{canonical_text, node_line, link_line};
ghost use Rattle.hose_topo.specs.TopologyText.{IsTopologyText};

use crate::pieces::{GatheringSink, Pieces};
use hose_graph::{Link, Topology};
use hose_io::{Failed, Gather, Sink};
use sha2::{Digest, Sha256};

/// Writes the canonical text of a topology, for tests and embeddings: its nodes, then its links, in
/// order, each link with its cost.
///
/// It takes no memory, and goes out in pieces of up to 4,096 bytes.
pub fn put_canonical<S: Sink>(sink: &mut S, top: &Topology) -> Result<(), Failed>
    requires some { 0 < length top.now.nodes }
    ensures put { IsPut S.Sink sink.old sink.new (canonical_text top.now) result }

    // Whatever follows the text, it is read as this topology.
    ensures reads { (rest : List ℕ) → IsTopologyText (canonical_text top.now ++ rest) top.now rest }
{
    let nodes = top.nodes();
    prove!(nodes > 0);
    let mut out = GatheringSink {
        gather: Gather::new(),
        sink,
    };
    add_canonical(&mut out, top);
    let GatheringSink { gather, sink } = out;
    gather.finish(sink)
}

/// The SHA-256 digest of the canonical text of a topology.
pub fn digest(top: &Topology) -> [u8; 32]
    ensures { result ≡ sha256 (canonical_text top.now) }
{
    let mut hasher = Sha256::new();
    add_canonical(&mut hasher, top);
    hasher.finalize()
}

// Adds the whole text.
fn add_canonical<P: Pieces>(pieces: &mut P, top: &Topology)
    ensures { P.adds pieces.old pieces.new (canonical_text top.now) }
{
    add_nodes(pieces, top);
    add_links(pieces, top);
    pieces.add(b"end\n");
}

// Adds the lines of the nodes.
fn add_nodes<P: Pieces>(pieces: &mut P, top: &Topology)
    ensures { P.adds pieces.old pieces.new (flat_map node_line top.now.nodes) }
{
    for node in 0..top.nodes() {
        pieces.add(b"node ");
        pieces.add(top.name(node).bytes());
        pieces.add(b"\n");
    }
}

// Adds the lines of the links.
fn add_links<P: Pieces>(pieces: &mut P, top: &Topology)
    ensures { P.adds pieces.old pieces.new (flat_map (link_line top.now) top.now.links) }
{
    for number in 0..top.links() {
        let link = top.link(number);
        add_link(pieces, top, &link);
    }
}

// Adds the line of a link.
fn add_link<P: Pieces>(pieces: &mut P, top: &Topology, link: &Link)
    requires { IsLink top.now link.now }
    ensures { P.adds pieces.old pieces.new (link_line top.now link.now) }
{
    add_ends(pieces, top, link);
    pieces.add(b" ");
    pieces.add_number(link.capacity);
    pieces.add(b" ");
    pieces.add_number(link.length);
    pieces.add(b" ");
    pieces.add_number(link.cost);
    pieces.add(b"\n");
}

// Adds the front of a link's line, up to the names of its nodes.
fn add_ends<P: Pieces>(pieces: &mut P, top: &Topology, link: &Link)
    requires { IsLink top.now link.now }
    ensures { P.adds pieces.old pieces.new
        (codes "link " ++ name_of top.now link.now.a
        ++ codes " " ++ name_of top.now link.now.b) }
{
    pieces.add(b"link ");
    pieces.add(top.name(link.a).bytes());
    pieces.add(b" ");
    pieces.add(top.name(link.b).bytes());
}
