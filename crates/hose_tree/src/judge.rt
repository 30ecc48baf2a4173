// Whether amounts are what a hose reserves on some tree, by taking one leaf after another off their
// links.
ghost use Rattle.std.specs.Prelude.{◌≡◌, ◌↔◌, ℕ, ◌+◌, ◌*◌, ◌<◌, ◌≤◌, [], All, Contains, length, IfSome, IsFalse, IsNone, IsTrue, OnSome, slice_index};
ghost use Rattle.hose_graph.specs.Network.{IsNetwork};
ghost use Rattle.hose_law.specs.Tree.{IsTreeReservation};
ghost use Rattle.hose_law.specs.Walk.{all_links};
ghost use Rattle.hose_tree.specs.steps.Peeling.{AreLeavesStill, HasNoLeafBelow, HasNodePlaces, HasRoom, HasSmallRoom, IsAddedAt, IsForestOf, IsLinked, IsNo, IsInSums, IsPossible, IsYes, KeepsQuestions, Question, StandsForQuestion, StandsForSome};

use crate::canonical::other_end;
use crate::reserve::{add_rates, move_rate};
use hose_graph::{
    Amounts, Hose, Link, MOST_ENDS, MOST_NODES, MOST_RATE, MOST_TREE_LINKS, ReservedLink, Step,
    Topology,
};

/// Whether amounts are what a hose reserves on some tree of the topology that joins it, each of at
/// least 1.
pub fn is_reservation(top: &Topology, hose: &Hose, amounts: &Amounts) -> bool
    ensures { IsTrue result
        ↔ IsTreeReservation top.now (all_links top.now) hose.now amounts.now }
{
    let total = hose.total();
    let pairs = amounts.pairs();
    let links = top.links();
    if pairs.len() > MOST_TREE_LINKS as usize || !are_possible(links, total, pairs) {
        return false;
    }
    let mut forest = Forest::new();
    forest.add_links(top, total, pairs);
    add_rates(&mut forest.rates, hose.ends());
    forest.is_one_tree(top, total)
}

// Whether each pair is of one of so many links, with an amount of at least 1 and at most the total.
fn are_possible(links: u32, total: u64, pairs: &[ReservedLink]) -> bool
    ensures { IsTrue result ↔ All (IsPossible links total) pairs.now }
{
    pairs.iter().all(|pair| is_possible(links, total, pair))
}

fn is_possible(links: u32, total: u64, pair: &ReservedLink) -> bool
    ensures { IsTrue result ↔ IsPossible links total pair.now }
{
    pair.0 < links && (1..=total).contains(&pair.1)
}

// A number for each node.
type Sums = [u64; MOST_NODES as usize];

// A small number for each node: links, or the sum of their numbers.
type SmallSums = [u32; MOST_NODES as usize];

// The links that are left, as sums at each node over the links that end there: how many they are,
// their numbers, and their amounts; the rates at each node; and how many links are left. At a node
// with one link these sums are that link's number and its amount.
//
// They stand in an order in which no two places of a node but the first are 4,096 bytes apart: such
// places are one to a processor at first, which waits where one is read after a write to the other.
#[derive(Drop)]
struct Forest {
    degrees: SmallSums,
    amounts: Sums,
    links: SmallSums,
    rates: Sums,
    left: u64,
}

impl Forest {
    fn new() -> Forest
        ensures { (network : _) → IsForestOf network [] [] result }
    {
        Forest {
            degrees: [0; MOST_NODES as usize],
            amounts: [0; MOST_NODES as usize],
            links: [0; MOST_NODES as usize],
            rates: [0; MOST_NODES as usize],
            left: 0,
        }
    }

    // Adds the links of pairs to a forest that has none.
    fn add_links(&mut self, top: &Topology, total: u64, pairs: &[ReservedLink])
        requires network { IsNetwork top.now }
        requires few { length pairs.now ≤ MOST_TREE_LINKS }
        requires possible { All (IsPossible (length top.now.links) total) pairs.now }
        requires total { total ≤ MOST_ENDS * MOST_RATE }
        requires none { IsForestOf top.now [] [] self.old }
        ensures { IsForestOf top.now [] pairs.now self.new }
    {
        for (number, amount) in pairs {
            self.add_link(&top.link(*number), *number, *amount);
        }
    }

    // Adds a link with its number and its amount.
    fn add_link(&mut self, link: &Link, number: u32, amount: u64)
        requires places { HasNodePlaces link.now }
        requires degrees { HasSmallRoom 1 self.old.degrees }
        requires links { HasSmallRoom number self.old.links }
        requires amounts { HasRoom amount self.old.amounts }
        requires left { self.old.left < MOST_TREE_LINKS }
        ensures { IsLinked link.now number amount self.old self.new }
    {
        add_small_at_ends(&mut self.degrees, link, 1);
        add_small_at_ends(&mut self.links, link, number);
        add_at_ends(&mut self.amounts, link, amount);
        self.left += 1;
    }

    // Takes a link away.
    fn take_link(&mut self, link: &Link, number: u32, amount: u64)
        requires places { HasNodePlaces link.now }
        requires degrees { IsInSums link.now 1 self.old.degrees }
        requires links { IsInSums link.now number self.old.links }
        requires amounts { IsInSums link.now amount self.old.amounts }
        requires left { 0 < self.old.left }
        ensures { IsLinked link.now number amount self.new self.old }
    {
        take_small_at_ends(&mut self.degrees, link, 1);
        take_small_at_ends(&mut self.links, link, number);
        take_at_ends(&mut self.amounts, link, amount);
        self.left -= 1;
    }

    // Whether leaves come off until no link is left, each along a link of which the amount is the
    // smaller side's rate sum.
    fn is_one_tree(&mut self, top: &Topology, total: u64) -> bool
        requires { StandsForSome top.now total self.old }
        ensures { (question : Question) → StandsForQuestion top.now total question self.old
            → (IsTrue result ↔ IsYes top.now question) }
    {
        self.peel(top, total) && self.is_bare(top, total)
    }

    // Takes off leaf after leaf, as long as there is one. False where an amount is not the smaller
    // side's rate sum.
    fn peel(&mut self, top: &Topology, total: u64) -> bool
        requires { StandsForSome top.now total self.old }
        ensures stands { IsTrue result → KeepsQuestions top.now total self.old self.new }
        ensures quiet { IsTrue result → HasNoLeafBelow (length top.now.nodes) self.new }
        ensures no { IsFalse result → IsNo top.now total self.old }
    {
        for node in 0..top.nodes() {
            if !self.peel_from(top, total, node) {
                return false;
            }
        }
        true
    }

    // Takes off this node, if it is a leaf, and then the node that its link led to, and so on.
    fn peel_from(&mut self, top: &Topology, total: u64, node: u32) -> bool
        requires stands { StandsForSome top.now total self.old }
        requires node { node < length top.now.nodes }
        requires quiet { HasNoLeafBelow node self.old }
        ensures stands { IsTrue result → KeepsQuestions top.now total self.old self.new }
        ensures quiet { IsTrue result → HasNoLeafBelow (node + 1) self.new }
        ensures no { IsFalse result → IsNo top.now total self.old }
    {
        let mut leaf = node;
        while self.degrees[leaf as usize] == 1 {
            let Some(other) = self.peel_leaf(top, total, leaf) else {
                return false;
            };
            leaf = other;
        }
        true
    }

    // Takes a leaf off with its link, along which its rate moves. Gives the link's other node, or
    // none where the link's amount is not the smaller side's rate sum.
    fn peel_leaf(&mut self, top: &Topology, total: u64, leaf: u32) -> Option<u32>
        requires stands { StandsForSome top.now total self.old }
        requires node { leaf < length top.now.nodes }
        requires leaf { slice_index self.old.degrees leaf ≡ 1 }
        ensures stands { OnSome result (KeepsQuestions top.now total self.old self.new) }
        ensures node { IfSome result (λ other. other < length top.now.nodes) }
        ensures leaves { IfSome result (λ other. AreLeavesStill leaf other self.old self.new) }
        ensures fewer { OnSome result (self.new.left < self.old.left) }
        ensures no { IsNone result → IsNo top.now total self.old }
    {
        let number = self.links[leaf as usize];
        let amount = self.amounts[leaf as usize];
        let rate = self.rates[leaf as usize];
        if amount != rate.min(total - rate) {
            return None;
        }
        let other = other_end(top, number, leaf);
        self.take_link(&top.link(number), number, amount);
        move_rate(
            &mut self.rates,
            &Step {
                link: number,
                old: other,
                new: leaf,
            },
        );
        Some(other)
    }

    // Whether no link is left, and the whole total is at one node.
    fn is_bare(&self, top: &Topology, total: u64) -> bool
        requires { HasNoLeafBelow (length top.now.nodes) self.now }
        ensures { (question : Question) → StandsForQuestion top.now total question self.now
            → (IsTrue result ↔ IsYes top.now question) }
    {
        self.left == 0 && has(&self.rates[..top.nodes() as usize], total)
    }
}

fn has(rates: &[u64], rate: u64) -> bool
    ensures { IsTrue result ↔ Contains rates.now rate }
{
    rates.contains(&rate)
}

// Adds a number at both nodes of a link.
fn add_at_ends(sums: &mut Sums, link: &Link, number: u64)
    requires places { HasNodePlaces link.now }
    requires room { HasRoom number sums.old }
    ensures { IsAddedAt link.now number sums.old sums.new }
{
    sums[link.a as usize] += number;
    sums[link.b as usize] += number;
}

// Takes a number away at both nodes of a link.
fn take_at_ends(sums: &mut Sums, link: &Link, number: u64)
    requires places { HasNodePlaces link.now }
    requires part { IsInSums link.now number sums.old }
    ensures { IsAddedAt link.now number sums.new sums.old }
{
    sums[link.a as usize] -= number;
    sums[link.b as usize] -= number;
}

// Adds a small number at both nodes of a link.
fn add_small_at_ends(sums: &mut SmallSums, link: &Link, number: u32)
    requires places { HasNodePlaces link.now }
    requires room { HasSmallRoom number sums.old }
    ensures { IsAddedAt link.now number sums.old sums.new }
{
    sums[link.a as usize] += number;
    sums[link.b as usize] += number;
}

// Takes a small number away at both nodes of a link.
fn take_small_at_ends(sums: &mut SmallSums, link: &Link, number: u32)
    requires places { HasNodePlaces link.now }
    requires part { IsInSums link.now number sums.old }
    ensures { IsAddedAt link.now number sums.new sums.old }
{
    sums[link.a as usize] -= number;
    sums[link.b as usize] -= number;
}
