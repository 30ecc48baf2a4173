// The texts of nodes, links, endpoints and amounts, which replies and audits share.
ghost use Rattle.std.specs.Prelude.{All, Some};
ghost use Rattle.std.specs.List.{flat_map};
ghost use Rattle.hose_io.specs.steps.Gather.{IsAdded};
ghost use Rattle.hose_graph.specs.Hose.{node_of};
ghost use Rattle.hose_graph.specs.Network.{IsNodeOf};
ghost use Rattle.hose_proto.specs.ReplyText.{end_text, link_text, node_text, pair_text};

use hose_graph::{Endpoint, Link, ReservedLink, Topology};
use hose_io::{Gather, Sink};

/// Adds the nodes of a link, and what it can carry and costs.
pub fn add_link<S: Sink>(gather: &mut Gather, sink: &mut S, top: &Topology, link: &Link)
    requires a { IsNodeOf top.now link.now.a }
    requires b { IsNodeOf top.now link.now.b }
    ensures { IsAdded S.Sink gather.old sink.old gather.new sink.new
        (link_text top.now (Some link.now)) }
{
    add_node(gather, sink, top, link.a);
    add_node(gather, sink, top, link.b);
    gather.add_numbered(sink, b" capacity ", link.capacity);
    gather.add_numbered(sink, b" cost ", link.cost);
}

/// Adds endpoints with their rates.
pub fn add_ends<S: Sink>(gather: &mut Gather, sink: &mut S, top: &Topology, ends: &[Endpoint])
    requires { All (λ end. IsNodeOf top.now (node_of end)) ends.now }
    ensures { IsAdded S.Sink gather.old sink.old gather.new sink.new
        (flat_map (end_text top.now) ends.now) }
{
    for end in ends {
        add_node(gather, sink, top, end.0);
        gather.add_numbered(sink, b":", end.1);
    }
}

// Adds the name of one node.
pub(crate) fn add_node<S: Sink>(gather: &mut Gather, sink: &mut S, top: &Topology, node: u32)
    requires { IsNodeOf top.now node }
    ensures { IsAdded S.Sink gather.old sink.old gather.new sink.new (node_text top.now node) }
{
    gather.add(sink, b" ");
    gather.add(sink, top.name(node).bytes());
}

/// Adds links with their amounts.
pub fn add_pairs<S: Sink>(gather: &mut Gather, sink: &mut S, pairs: &[ReservedLink])
    ensures { IsAdded S.Sink gather.old sink.old gather.new sink.new
        (flat_map pair_text pairs.now) }
{
    for pair in pairs {
        gather.add_numbered(sink, b" ", u64::from(pair.0));
        gather.add_numbered(sink, b":", pair.1);
    }
}
