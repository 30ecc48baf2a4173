// The certificate of a plan, written line by line.
ghost use Rattle.std.specs.Prelude.{◌≡◌, ◌++◌, ◌<◌, ◌≤◌, ℕ, All, MatchResult, decimal, length, map, unwrap_or};
ghost use Rattle.std.specs.List.{flat_map};
ghost use Rattle.hose_io.specs.Frame.{Stays};
ghost use Rattle.hose_io.specs.steps.Gather.{IsAdded};
ghost use Rattle.hose_graph.specs.Amounts.{amount_of};
ghost use Rattle.hose_graph.specs.Hose.{IsHose};
ghost use Rattle.hose_graph.specs.Network.{IsNetwork};
ghost use Rattle.hose_law.specs.CanonicalPlan.{IsCanonicalPlan};
ghost use Rattle.hose_law.specs.Plan.{plan_cost};
ghost use Rattle.hose_law.specs.steps.Plan.{AreNodes};
ghost use Rattle.hose_law.specs.Walk.{all_links};
ghost use Rattle.hose_tree.specs.steps.Amounts.{AreOnLinks};
ghost use Rattle.hose_proto.specs.ReplyText.{line_of};
ghost use Rattle.hose_cert.specs.CertLine.{cost_line, hose_line};
ghost use Rattle.hose_cert.specs.steps.Adding.{AddsRoots};
ghost use Rattle.hose_cert.specs.Written.{first_lines, numbers_of, root_lines, certificate_text};
ghost use Rattle.hose_cert.specs.steps.Written.{Writes, number_text, pieces_of, pot_text, use_text};

use crate::fault::ProveFault;
use crate::statement::LINE_NUMBERS;
use hose_graph::{Amounts, Endpoint, Hose, MOST_AMOUNT, MOST_TREE_LINKS, ReservedLink, Topology};
use hose_io::{Gather, Sink};
use hose_links::LinkSet;
use hose_paths::RowMaker;
use hose_proto::add_ends;
use hose_tree::cost;
use std::alloc::{AllocError, Global};

// A network, and the set of all its links.
#[derive(Clone, Copy)]
pub(crate) struct Linked<'a> {
    pub(crate) top: &'a Topology,
    pub(crate) links: &'a LinkSet,
}

// A hose, and what its plan reserves.
#[derive(Clone, Copy)]
pub(crate) struct Planned<'a> {
    pub(crate) hose: &'a Hose,
    pub(crate) amounts: &'a Amounts,
}

// The distances from a root, and the number that stands in place of each that is not there.
#[derive(Clone, Copy)]
struct RootNumbers<'a> {
    dist: &'a [Option<u64>],
    most: u64,
}

// Writes the certificate of the hose's plan over all links.
pub(crate) fn put_plan<S: Sink, R: RowMaker>(
    alloc: Global,
    sink: &mut S,
    linked: &Linked<'_>,
    planned: &Planned<'_>,
    rows: &mut R,
) -> Result<bool, ProveFault>
    requires network { IsNetwork linked.now.top.now }
    requires hose { IsHose planned.now.hose.now }
    requires nodes { AreNodes linked.now.top.now planned.now.hose.now }
    requires links { linked.now.links.now ≡ all_links linked.now.top.now }
    requires plan { IsCanonicalPlan linked.now.top.now (all_links linked.now.top.now)
        planned.now.hose.now planned.now.amounts.now }
    requires on_links { AreOnLinks linked.now.top.now planned.now.amounts.now }
    requires few { length planned.now.amounts.now ≤ MOST_TREE_LINKS }
    requires amounts { All (λ pair. amount_of pair ≤ MOST_AMOUNT) planned.now.amounts.now }
    ensures writes { Writes S.Sink linked.now.top.now planned.now.hose.now sink.old sink.new
        result }
    ensures stays { Stays (S.frame sink.old) (S.frame sink.new) }
{
    let top = linked.top;
    let amounts = planned.amounts;
    let cost = cost(top, amounts);
    let mut gather = Gather::new();
    add_first_lines(&mut gather, sink, top, planned.hose, amounts.pairs(), cost);
    if let Err(error) = add_roots(alloc, &mut gather, sink, linked, cost, rows) {
        // The lines that were made before are whole, and go out.
        gather.finish(sink)?;
        return Err(ProveFault::from(error));
    }
    gather.add(sink, b"end\n");
    gather.finish(sink)?;
    Ok(true)
}

// Adds the lines before those of the roots.
fn add_first_lines<S: Sink>(
    gather: &mut Gather,
    sink: &mut S,
    top: &Topology,
    hose: &Hose,
    pairs: &[ReservedLink],
    cost: u64,
)
    requires nodes { AreNodes top.now hose.now }
    requires cost { cost ≡ plan_cost top.now pairs.now }
    ensures { IsAdded S.Sink gather.old sink.old gather.new sink.new
        (certificate_text top.now (first_lines top.now hose.now pairs.now)) }
{
    gather.add_numbered(sink, b"cost ", cost);
    gather.add(sink, b"\n");
    add_hose(gather, sink, top, hose.ends());
    add_uses(gather, sink, pairs);
}

// Adds the line of the hose.
fn add_hose<S: Sink>(gather: &mut Gather, sink: &mut S, top: &Topology, ends: &[Endpoint])
    requires { AreNodes top.now ends.now }
    ensures { IsAdded S.Sink gather.old sink.old gather.new sink.new
        (line_of (pieces_of top.now (hose_line ends.now))) }
{
    gather.add(sink, b"hose");
    add_ends(gather, sink, top, ends);
    gather.add(sink, b"\n");
}

// Adds the lines of the links of the plan.
fn add_uses<S: Sink>(gather: &mut Gather, sink: &mut S, pairs: &[ReservedLink])
    ensures { IsAdded S.Sink gather.old sink.old gather.new sink.new
        (flat_map (λ pair. line_of (use_text pair)) pairs.now) }
{
    for pair in pairs {
        add_use(gather, sink, pair);
    }
}

// Adds the line of a link of the plan.
fn add_use<S: Sink>(gather: &mut Gather, sink: &mut S, pair: &ReservedLink)
    ensures { IsAdded S.Sink gather.old sink.old gather.new sink.new (line_of (use_text pair.now)) }
{
    gather.add_numbered(sink, b"use ", u64::from(pair.0));
    gather.add_numbered(sink, b" ", pair.1);
    gather.add(sink, b"\n");
}

// Adds the lines of all roots. Of each the row is made, and it is kept no longer than its lines
// take.
fn add_roots<S: Sink, R: RowMaker>(
    alloc: Global,
    gather: &mut Gather,
    sink: &mut S,
    linked: &Linked<'_>,
    most: u64,
    rows: &mut R,
) -> Result<(), AllocError>
    requires { linked.now.links.now ≡ all_links linked.now.top.now }
    ensures { MatchResult result
        (λ _. AddsRoots S.Sink linked.now.top.now most gather.old sink.old gather.new sink.new
        (length linked.now.top.now.nodes))
        (λ _. (made : ℕ) × (made ≤ length linked.now.top.now.nodes)
        × AddsRoots S.Sink linked.now.top.now most gather.old sink.old gather.new sink.new made) }
{
    let top = linked.top;
    for root in 0..top.nodes() {
        let row = rows.row(alloc, top, linked.links, root)?;
        let distances = RootNumbers {
            dist: &row.dist,
            most,
        };
        add_root(gather, sink, top, root, &distances);
    }
    Ok(())
}

// Adds the lines of a root, by its distances.
fn add_root<S: Sink>(
    gather: &mut Gather,
    sink: &mut S,
    top: &Topology,
    root: u32,
    distances: &RootNumbers<'_>,
)
    requires { length distances.now.dist.now ≡ length top.now.nodes }
    ensures { IsAdded S.Sink gather.old sink.old gather.new sink.new (certificate_text top.now
        (root_lines top.now root (numbers_of distances.now.most distances.now.dist.now))) }
{
    let nodes = top.nodes();
    let blocks = (nodes + (LINE_NUMBERS - 1)) / LINE_NUMBERS;
    for block in 0..blocks {
        let from = block * LINE_NUMBERS;
        let count = LINE_NUMBERS.min(nodes - from);
        let part = RootNumbers {
            dist: &distances.dist[from as usize..(from + count) as usize],
            most: distances.most,
        };
        add_block(gather, sink, root, from, &part);
    }
}

// Adds a line of a root, with these distances, which are those from a node on.
fn add_block<S: Sink>(
    gather: &mut Gather,
    sink: &mut S,
    root: u32,
    from: u32,
    distances: &RootNumbers<'_>,
)
    ensures { IsAdded S.Sink gather.old sink.old gather.new sink.new (line_of
        (pot_text root from (numbers_of distances.now.most distances.now.dist.now))) }
{
    gather.add_numbered(sink, b"pot ", u64::from(root));
    gather.add_numbered(sink, b" ", u64::from(from));
    add_numbers(gather, sink, distances.dist, distances.most);
    gather.add(sink, b"\n");
}

// Adds distances, and this number in place of each that is not there.
fn add_numbers<S: Sink>(gather: &mut Gather, sink: &mut S, dist: &[Option<u64>], most: u64)
    ensures { IsAdded S.Sink gather.old sink.old gather.new sink.new
        (flat_map number_text (numbers_of most dist.now)) }
{
    for distance in dist {
        gather.add_numbered(sink, b" ", distance.unwrap_or(most));
    }
}
