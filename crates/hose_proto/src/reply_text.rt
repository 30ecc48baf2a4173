// The texts of replies on their way to a sink.
ghost use Rattle.std.specs.List.{flat_map};
ghost use Rattle.std.specs.Prelude.{◌≡◌, ◌≤◌, ◌++◌, ◌∷◌, [], ℕ, Bool, List, All, OnOk, codes, decimal, length, map};
ghost use Rattle.hose_io.specs.Count.{one_more};
ghost use Rattle.hose_io.specs.steps.Gather.{IsAdded};
ghost use Rattle.hose_io.specs.steps.Writing.{IsPut};
ghost use Rattle.hose_graph.specs.Amounts.{ReservedLink};
ghost use Rattle.hose_graph.specs.Hose.{Endpoint};
ghost use Rattle.hose_graph.specs.Network.{Network, IsNodeOf};
ghost use Rattle.hose_graph.specs.declared.command.Reply.TheVariants.{LinkState, Refused, Shown, Stale, Vpns};
ghost use Rattle.hose_proto.specs.ReplyWords.{pair_word, service_words};
ghost use Rattle.hose_proto.specs.ReplyText.{line_of, node_text, reply_text, spaced};
ghost use Rattle.hose_graph.specs.steps.Naming.{NamesPlaces};

use crate::pieces::{add_ends, add_link, add_node, add_pairs};
use hose_graph::{Amounts, NodeList, Reply, Topology, VpnList};
use hose_io::{Failed, GATHER_LIMIT, Gather, Sink};

/// Writes a reply as a line. A line of up to 4,096 bytes is given to the sink as one piece, and
/// none takes memory.
pub fn put_reply<S: Sink>(sink: &mut S, top: &Topology, reply: &Reply) -> Result<(), Failed>
    requires { NamesPlaces top.now reply.now }
    ensures put { IsPut S.Sink sink.old sink.new (line_of (reply_text top.now reply.now)) result }
    ensures one_piece { length (line_of (reply_text top.now reply.now)) ≤ GATHER_LIMIT
        → OnOk result (S.pieces sink.new ≡ one_more (S.pieces sink.old)) }
{
    let mut gather = Gather::new();
    add_reply(&mut gather, sink, top, reply);
    gather.add(sink, b"\n");
    gather.finish(sink)
}

// Adds the text of a reply.
fn add_reply<S: Sink>(gather: &mut Gather, sink: &mut S, top: &Topology, reply: &Reply)
    requires { NamesPlaces top.now reply.now }
    ensures { IsAdded S.Sink gather.old sink.old gather.new sink.new
        (reply_text top.now reply.now) }
{
    match reply {
        Reply::Admitted {
            id,
            cost,
            at,
            amounts,
        } => add_priced(gather, sink, b"admitted ", (*id, *cost, *at), amounts),
        Reply::Quoted {
            quote,
            cost,
            at,
            amounts,
        } => add_priced(gather, sink, b"quoted ", (*quote, *cost, *at), amounts),
        Reply::Refused { at, side } => add_refused(gather, sink, top, *at, side),
        Reply::Shown { .. } => add_shown(gather, sink, top, reply),
        Reply::Vpns { at, ids } => add_vpns(gather, sink, *at, ids),
        Reply::LinkState { .. } => add_state(gather, sink, top, reply),
        Reply::Welcome { at } => add_last(gather, sink, b"welcome at ", *at),
        Reply::Stale { seen, now } => add_stale(gather, sink, *seen, *now),
        Reply::Released { id, at } => add_at(gather, sink, b"released ", *id, *at),
        Reply::NoVpn { id, at } => add_at(gather, sink, b"no vpn ", *id, *at),
        Reply::NoQuote { quote, at } => add_at(gather, sink, b"no quote ", *quote, *at),
        Reply::TooMany { at } => add_last(gather, sink, b"too many quotes at ", *at),
        Reply::Newest { id, at } => add_at(gather, sink, b"newest ", *id, *at),
        Reply::Down { link, at } => add_at(gather, sink, b"down ", *link, *at),
        Reply::Up { link, at } => add_at(gather, sink, b"up ", *link, *at),
        Reply::Already { link, at } => add_at(gather, sink, b"already ", *link, *at),
        Reply::Denied { at } => add_last(gather, sink, b"denied at ", *at),
        Reply::Full { at } => add_last(gather, sink, b"full at ", *at),
        Reply::Spent { at } => add_last(gather, sink, b"spent at ", *at),
        Reply::Disk { at } => add_last(gather, sink, b"disk at ", *at),
        Reply::Memory => gather.add(sink, b"memory"),
        Reply::Bad { word } => add_last(gather, sink, b"bad ", *word),
        Reply::Long => gather.add(sink, b"long"),
        Reply::Bye => gather.add(sink, b"bye"),
    }
}

// Adds some words and the number after them, at the end of a line.
fn add_last<S: Sink>(gather: &mut Gather, sink: &mut S, words: &[u8], number: u64)
    ensures { IsAdded S.Sink gather.old sink.old gather.new sink.new
        (words.now ++ (decimal number ++ [])) }
{
    gather.add_numbered(sink, words, number);
}

// Adds some words and the number after them, and an epoch, at the end of a line.
fn add_at<S: Sink>(gather: &mut Gather, sink: &mut S, words: &[u8], number: u64, at: u64)
    ensures { IsAdded S.Sink gather.old sink.old gather.new sink.new
        (words.now ++ (decimal number ++ spaced (codes "at" ∷ decimal at ∷ []))) }
{
    gather.add_numbered(sink, words, number);
    gather.add_numbered(sink, b" at ", at);
}

// Adds the epoch of a quote, and the book's at the time of the take.
fn add_stale<S: Sink>(gather: &mut Gather, sink: &mut S, seen: u64, now: u64)
    ensures { (network : Network) → IsAdded S.Sink gather.old sink.old gather.new sink.new
        (reply_text network (Stale seen now)) }
{
    gather.add_numbered(sink, b"stale ", seen);
    gather.add_numbered(sink, b" ", now);
}

// Adds some words, a number, a cost and an epoch, and links with their amounts.
fn add_priced<S: Sink>(
    gather: &mut Gather,
    sink: &mut S,
    words: &[u8],
    costed: (u64, u64, u64),
    amounts: &Amounts,
)
    ensures { IsAdded S.Sink gather.old sink.old gather.new sink.new
        (words.now ++ (decimal costed.0 ++ spaced (codes "cost" ∷ decimal costed.1
        ∷ codes "at" ∷ decimal costed.2 ∷ codes "links" ∷ map pair_word amounts.now))) }
{
    let (id, cost, at) = costed;
    gather.add_numbered(sink, words, id);
    gather.add_numbered(sink, b" cost ", cost);
    gather.add_numbered(sink, b" at ", at);
    gather.add(sink, b" links");
    add_pairs(gather, sink, amounts.pairs());
}

// Adds that a hose is refused, and the side of its lowest endpoint.
fn add_refused<S: Sink>(gather: &mut Gather, sink: &mut S, top: &Topology, at: u64, side: &NodeList)
    requires { All (IsNodeOf top.now) side.now }
    ensures { IsAdded S.Sink gather.old sink.old gather.new sink.new
        (reply_text top.now (Refused at side.now)) }
{
    gather.add_numbered(sink, b"refused at ", at);
    gather.add(sink, b" side");
    add_side(gather, sink, top, side.nodes());
}

// Adds the number of a VPN, its cost and an epoch, the endpoints of its hose, and links with their
// amounts, where a VPN is shown.
fn add_shown<S: Sink>(gather: &mut Gather, sink: &mut S, top: &Topology, reply: &Reply)
    requires { NamesPlaces top.now reply.now }
    ensures { (id cost at : ℕ) (hose : List Endpoint) (amounts : List ReservedLink)
        → reply.now ≡ Shown id cost at hose amounts
        → IsAdded S.Sink gather.old sink.old gather.new sink.new (reply_text top.now reply.now) }
{
    let Reply::Shown {
        id,
        cost,
        at,
        hose,
        amounts,
    } = reply
    else {
        return;
    };
    gather.add_numbered(sink, b"vpn ", *id);
    add_at(gather, sink, b" cost ", *cost, *at);
    gather.add(sink, b" ends");
    add_ends(gather, sink, top, hose.ends());
    gather.add(sink, b" links");
    add_pairs(gather, sink, amounts.pairs());
}

// Adds the numbers of a customer's VPNs, and an epoch.
fn add_vpns<S: Sink>(gather: &mut Gather, sink: &mut S, at: u64, ids: &VpnList)
    ensures { (network : Network) → IsAdded S.Sink gather.old sink.old gather.new sink.new
        (reply_text network (Vpns at ids.now)) }
{
    gather.add(sink, b"vpns");
    add_ids(gather, sink, ids.ids());
    add_last(gather, sink, b" at ", at);
}

// Adds the numbers of VPNs.
fn add_ids<S: Sink>(gather: &mut Gather, sink: &mut S, ids: &[u64])
    ensures { IsAdded S.Sink gather.old sink.old gather.new sink.new
        (flat_map (λ id. codes " " ++ decimal id) ids.now) }
{
    for id in ids {
        gather.add_numbered(sink, b" ", *id);
    }
}

// Adds what there is to tell of a link: what is reserved on it, whether it is out of service, and
// an epoch, where a link is told.
fn add_state<S: Sink>(gather: &mut Gather, sink: &mut S, top: &Topology, reply: &Reply)
    requires { NamesPlaces top.now reply.now }
    ensures { (link load at : ℕ) (out : Bool) → reply.now ≡ LinkState link load out at
        → IsAdded S.Sink gather.old sink.old gather.new sink.new (reply_text top.now reply.now) }
{
    let Reply::LinkState {
        link,
        load,
        out,
        at,
    } = reply
    else {
        return;
    };
    // The call tells the proof that each network has few links, so that their numbers fit.
    let _links = top.links();
    gather.add_numbered(sink, b"link ", *link);
    add_link(gather, sink, top, &top.link(*link as u32));
    gather.add_numbered(sink, b" load ", *load);
    add_service(gather, sink, *out, *at);
}

// Adds whether a link is out of service, and an epoch.
fn add_service<S: Sink>(gather: &mut Gather, sink: &mut S, out: bool, at: u64)
    ensures { IsAdded S.Sink gather.old sink.old gather.new sink.new
        (spaced (service_words out at)) }
{
    if out {
        add_last(gather, sink, b" out at ", at);
    } else {
        add_last(gather, sink, b" at ", at);
    }
}

// Adds the names of a side's nodes.
fn add_side<S: Sink>(gather: &mut Gather, sink: &mut S, top: &Topology, nodes: &[u32])
    requires { All (IsNodeOf top.now) nodes.now }
    ensures { IsAdded S.Sink gather.old sink.old gather.new sink.new
        (flat_map (node_text top.now) nodes.now) }
{
    for node in nodes {
        add_node(gather, sink, top, *node);
    }
}
