// The numbers of one root after the other, and how they are judged.
ghost use Rattle.std.specs.Prelude.{◌≡◌, ◌*◌, ◌+◌, ◌<◌, ◌≤◌, ◌↔◌, ℕ, All, IsTrue, length};
ghost use Rattle.hose_graph.specs.Hose.{node_of};
ghost use Rattle.hose_graph.specs.Network.{IsLinkOf, IsNetwork};
ghost use Rattle.hose_law.specs.steps.Plan.{AreNodes};
ghost use Rattle.hose_cert.specs.Rules.{DifferWithinCosts, others_of, weighed_by};
ghost use Rattle.hose_cert.specs.steps.Judging.{AreUpToMost, ChangesWithin, IsRootJudged, ChangesWithinKept};

use crate::statement::MOST_NUMBER;
use hose_graph::{Hose, Topology};
use hose_links::LinkSet;

/// The numbers of a root that were read so far, and what was found of those of the roots before it.
#[derive(Drop)]
pub struct Rows {
    /// The root.
    pub root: u32,
    /// Its numbers, from the first node on.
    pub row: Vec<u64>,
    /// Each root's number at itself is 0.
    pub starts: bool,
    /// Along no link that is not left out numbers change by more than its cost.
    pub changes: bool,
    /// By the numbers of each root the hose weighs enough.
    pub weighs: bool,
}

// Judges the numbers of the root, one for each node, and goes on to the next one.
pub(crate) fn judge_row(top: &Topology, cost: u64, hose: &Hose, without: &LinkSet, rows: &mut Rows)
    requires root { rows.old.root < length top.now.nodes }
    requires places { length rows.old.row.items ≡ length top.now.nodes }
    requires numbers { AreUpToMost rows.old.row.items }
    requires nodes { AreNodes top.now hose.now }
    requires links { length without.now ≡ length top.now.links }
    ensures { IsRootJudged top.now cost hose.now without.now rows.old rows.new }
{
    let row = rows.row.as_slice();
    let starts = row[rows.root as usize] == 0;
    let changes = change_within(top, without, row);
    let weighs = weight(hose, row) >= u128::from(cost);
    rows.starts = rows.starts && starts;
    rows.changes = rows.changes && changes;
    rows.weighs = rows.weighs && weighs;
    rows.root += 1;
    rows.row.clear();
}

// Whether along no link that is not left out numbers change by more than its cost.
fn change_within(top: &Topology, without: &LinkSet, row: &[u64]) -> bool
    requires places { length row.now ≡ length top.now.nodes }
    requires numbers { AreUpToMost row.now }
    requires links { length without.now ≡ length top.now.links }
    ensures within { IsTrue result ↔ DifferWithinCosts top.now (others_of without.now) row.now }
    ensures network { IsNetwork top.now }
{
    for link in 0..top.links() {
        if !is_kept(top, without, link, row) {
            return false;
        }
    }
    true
}

// Whether a link is left out, or along it numbers change by no more than its cost.
fn is_kept(top: &Topology, without: &LinkSet, link: u32, row: &[u64]) -> bool
    requires link { IsLinkOf top.now link }
    requires places { length row.now ≡ length top.now.nodes }
    requires numbers { AreUpToMost row.now }
    requires links { length without.now ≡ length top.now.links }
    ensures { IsTrue result ↔ ChangesWithinKept top.now without.now link row.now }
{
    if without.has(link) {
        return true;
    }
    changes_within(top, link, row)
}

// Whether along a link numbers change by no more than its cost.
fn changes_within(top: &Topology, link: u32, row: &[u64]) -> bool
    requires link { IsLinkOf top.now link }
    requires places { length row.now ≡ length top.now.nodes }
    requires numbers { AreUpToMost row.now }
    ensures { IsTrue result ↔ ChangesWithin top.now link row.now }
{
    let link = top.link(link);
    let a = row[link.a as usize];
    let b = row[link.b as usize];
    a <= b + link.cost && b <= a + link.cost
}

// What a hose weighs by the numbers of a root.
fn weight(hose: &Hose, row: &[u64]) -> u128
    requires numbers { AreUpToMost row.now }
    requires nodes { All (λ end. node_of end < length row.now) hose.now }
    ensures { result ≡ weighed_by row.now hose.now }
{
    let mut sum = 0;
    for (node, rate) in hose.ends() {
        sum += u128::from(*rate) * u128::from(row[*node as usize]);
    }
    sum
}
