//! What the words of provisioning mean: walks, trees, matrices, plans, books and histories, as
//! definitions that the contracts of every other crate cite, and laws about them. `specs/` has a
//! file for each word, and needs none of the code. A law is a function that takes no memory and
//! answers nothing; its clauses are what it says, and no program calls it. Lemmas that other crates
//! cite are public in `proofs/`.
//!
//! ```
//! law_sold(&top, 0, &entries);
//! ```
#![tactic(auto)]

ghost use Rattle.std.specs.Prelude.{◌≡◌, ◌↔◌, ℕ, ◌≤◌, List, length, take};
ghost use Rattle.hose_law.specs.Answer.{AreVpnsOf};
ghost use Rattle.hose_law.specs.Book.{IsOversold};
ghost use Rattle.hose_law.specs.Carries.{Carry};
ghost use Rattle.hose_law.specs.Cheapest.{amounts_cost};
ghost use Rattle.hose_law.specs.steps.Cheapest.{HasRootWithin};
ghost use Rattle.hose_law.specs.CanonicalPlan.{IsCanonicalPlan, IsRoot, IsWeight};
ghost use Rattle.hose_law.specs.Decision.{HaveEqualGrounds};
ghost use Rattle.hose_law.specs.steps.Decision.{HaveEqualDecisions};
ghost use Rattle.hose_law.specs.History.{IsSound, book_of};
ghost use Rattle.hose_law.specs.Live.{AreLiveUnreleased, StaysLive};
ghost use Rattle.hose_law.specs.steps.Live.{IsAdmission};
ghost use Rattle.hose_law.specs.steps.Once.{AdmitsOnce};
ghost use Rattle.hose_law.specs.Plan.{plan_cost};
ghost use Rattle.hose_law.specs.steps.Route.{AreSame, HaveSameRoutes};
ghost use Rattle.hose_law.specs.Recent.{Recent};
ghost use Rattle.hose_law.specs.steps.Tracks.{LoadsStay, ServiceStays, Tracks};
ghost use Rattle.hose_law.specs.Tree.{IsTree, IsTreeOver};
ghost use Rattle.hose_law.specs.steps.Tree.{growth};
ghost use Rattle.hose_law.specs.steps.VpnIds.{ids_of};

use hose_graph::{Amounts, Entry, Hose, Name, Step, Topology};

/// In a sound history no link is oversold, at any place.
pub fn law_sold(top: &Topology, e0: u64, h: &[Entry])
    requires { IsSound top.now e0 h.now }
    ensures { (place l : ℕ) → place ≤ length h.now
        → ¬ IsOversold top.now (book_of e0 (take place h.now)) l }
{}

/// The cost of a plan is the weight of its root.
pub fn law_weight(top: &Topology, links: &[bool], hose: &Hose, plan: &Amounts)
    requires { IsCanonicalPlan top.now links.now hose.now plan.now }
    ensures { (root : ℕ) × (weight : ℕ) × IsRoot top.now links.now hose.now root weight
        × (plan_cost top.now plan.now ≡ weight) }
{
    let _nodes = top.nodes();
}

/// Whatever amounts carry a hose on a tree over a set of links, some node that reaches all
/// endpoints over the set weighs no more than they cost. An amount is that of the step at its
/// place.
pub fn law_least(
    top: &Topology,
    links: &[bool],
    hose: &Hose,
    start: u32,
    steps: &[Step],
    amounts: &[u64],
)
    requires tree { IsTree top.now (growth start steps.now) }
    requires over { IsTreeOver links.now (growth start steps.now) }
    requires carry { Carry (growth start steps.now) hose.now amounts.now }
    ensures { HasRootWithin top.now links.now hose.now
        (amounts_cost top.now (growth start steps.now) amounts.now) }
{
    let _nodes = top.nodes();
}

/// From a root a hose has one weight at most.
pub fn law_one_weight(top: &Topology, links: &[bool], hose: &Hose, root: u32)
    ensures { (one other : ℕ) → IsWeight top.now links.now root hose.now one
        → IsWeight top.now links.now root hose.now other → one ≡ other }
{}

/// Two trees of the same nodes and links have the same routes: a route depends neither on the start
/// of a tree nor on the order of its steps.
pub fn law_routes(
    top: &Topology,
    start: u32,
    steps: &[Step],
    other_start: u32,
    other_steps: &[Step],
)
    requires tree { IsTree top.now (growth start steps.now) }
    requires other { IsTree top.now (growth other_start other_steps.now) }
    requires same { AreSame (growth start steps.now) (growth other_start other_steps.now) }
    ensures { HaveSameRoutes (growth start steps.now) (growth other_start other_steps.now) }
{}

/// A VPN is live and unchanged from its admission up to its own release.
pub fn law_lives(top: &Topology, e0: u64, h: &[Entry], k: u64)
    requires sound { IsSound top.now e0 h.now }
    requires admits { IsAdmission h.now k }
    ensures { StaysLive e0 h.now k }
{}

/// At each place of a sound history exactly those VPNs are live that were admitted before it and
/// that their own customers have not released since, each once and as it was admitted.
pub fn law_held(top: &Topology, e0: u64, h: &[Entry])
    requires { IsSound top.now e0 h.now }
    ensures { (place : ℕ) → place ≤ length h.now → AreLiveUnreleased e0 h.now place }
{}

/// The numbers of a customer's live VPNs, ascending, are those of the live VPNs that are the
/// customer's, in the order of their admission.
pub fn law_vpns(e0: u64, h: &[Entry], customer: &Name)
    ensures { (ids : List ℕ) → AreVpnsOf (book_of e0 h.now) customer.now ids
        ↔ (ids ≡ ids_of customer.now (book_of e0 h.now).live) }
{}

/// Of the admissions that a customer binds to one number, with no release of their VPNs between,
/// at most one is in a history.
pub fn law_once(top: &Topology, e0: u64, h: &[Entry], customer: &Name, known: u64)
    ensures { AdmitsOnce top.now e0 h.now customer.now known }
{}

/// Where a hose has equal grounds at two places of a history, it has equal decisions there.
pub fn law_grounds(top: &Topology, e0: u64, h: &[Entry], i: u64, j: u64, hose: &Hose)
    requires { HaveEqualGrounds top.now (book_of e0 (take i h.now)) (book_of e0 (take j h.now))
        hose.now }
    ensures { HaveEqualDecisions top.now (book_of e0 (take i h.now)) (book_of e0 (take j h.now))
        hose.now }
{}

/// Where changes of links track a history, each link's load stays, and whether it is out of
/// service, from each place at or above the floor on, unless a later change names the link.
pub fn law_tracks(e0: u64, h: &[Entry], floor: u64, changes: &[(u64, u32)])
    requires { Tracks e0 h.now (record { floor = floor; changes = changes.now }) }
    ensures loads { LoadsStay e0 h.now (record { floor = floor; changes = changes.now }) }
    ensures service { ServiceStays e0 h.now (record { floor = floor; changes = changes.now }) }
{}
