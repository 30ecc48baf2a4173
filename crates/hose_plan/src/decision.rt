// The decision on a hose, and its grounds.
ghost use Rattle.std.specs.Prelude.{◌≡◌, ◌↔◌, IfOk, IfSome, IsSomeAnd, IsTrue, false, length, replicate, true};
ghost use Rattle.hose_graph.specs.Hose.{IsHose};
ghost use Rattle.hose_graph.specs.Network.{IsNetwork};
ghost use Rattle.hose_law.specs.Decision.{Fits};
ghost use Rattle.hose_law.specs.steps.Plan.{AreNodes};
ghost use Rattle.hose_law.specs.Room.{Room, free_rates, safe_links};
ghost use Rattle.hose_plan.specs.steps.Planning.{AreGroundsOf, IsCheapestDecision, IsDecision, IsSoundDecision, NamesNodes, allowed_links, room_beside};
ghost use Rattle.hose_paths.specs.steps.Rows.{AreRows};
ghost use Rattle.hose_plan.specs.steps.Rooting.{IsPlanOver, MakesPlan};
ghost use Rattle.hose_tree.specs.steps.Amounts.{AreWithinCapacities, AreOnLinks};

use crate::canonical::{plan, plan_by_kept};
use hose_graph::{Amounts, Hose, NodeList, Row, Topology};
use hose_links::LinkSet;
use hose_paths::RowMaker;
use hose_tree::{cost, fits, free_rate, reached};
use std::alloc::{AllocError, Global};

/// What a decision rests on: equal grounds of one hose give equal decisions.
#[derive(Debug, Drop)]
pub struct Grounds {
    /// What the first plan reserves; none where no node reaches all endpoints.
    pub first: Option<Amounts>,
    /// Half of the hose's rates, rounded down, in the customer's unit of bandwidth.
    pub half: u64,
    /// Whether the first plan exists, and each of its amounts is at most what its link has free.
    pub first_fits: bool,
    /// The links in service that have half of the hose's rates free; no link where the first plan
    /// fits, since the others do not matter then.
    pub safe: LinkSet,
    /// The links in service, over which the first plan is made.
    pub service: LinkSet,
}

/// What is decided of a hose.
#[derive(Debug, Drop)]
pub enum Decision {
    /// It is admitted.
    Plan {
        /// What the decision rests on.
        grounds: Grounds,
        /// What is reserved on each link of its tree, in the customer's unit of bandwidth.
        amounts: Amounts,
        /// What that costs: the sum of each link's cost per unit times its amount.
        cost: u64,
    },
    /// It is refused: these are the nodes that its lowest-numbered endpoint reaches over the safe
    /// links.
    Refused {
        side: NodeList,
    },
}

/// Decides on a hose over the links in service of a topology and beside the loads of its links: the
/// first plan, over the links in service, where it fits, else the plan over the safe ones of them,
/// else a refusal. There is a place in service and a load for each link, the load at most the
/// link's capacity.
///
/// A plan carries all traffic within the hose's rates, and no amounts on any tree over the links
/// that are then allowed carry it at less cost. That is this project's own law, for one rate an
/// endpoint; the idea of a tree of shortest ways to one root is from "Provisioning a virtual
/// private network: a network design problem for multicommodity flow" (STOC 2001).
pub fn decide<R: RowMaker>(
    alloc: Global,
    top: &Topology,
    service: &LinkSet,
    loads: &[u64],
    hose: &Hose,
    rows: &mut R,
) -> Result<Decision, AllocError>
    requires service { length service.now ≡ length top.now.links }
    requires loads { AreWithinCapacities top.now loads.now }
    requires nodes { AreNodes top.now hose.now }
    ensures decision { IfOk result
        (IsDecision top.now (room_beside top.now service.now loads.now) hose.now) }
    ensures sound { IfOk result
        (IsSoundDecision top.now (room_beside top.now service.now loads.now) hose.now) }
    ensures cheapest { IfOk result
        (IsCheapestDecision top.now (room_beside top.now service.now loads.now) hose.now) }
    ensures names { IfOk result (NamesNodes top.now) }
    ensures hose { IfOk result (λ _. IsHose hose.now) }
{
    decide_with_rows(alloc, top, service, loads, hose, None, rows)
}

/// Decides as `decide` does. Where the rows of all nodes over the links in service are kept, they
/// are given, and the maker is asked for those over the safe links alone.
pub fn decide_with_rows<R: RowMaker>(
    alloc: Global,
    top: &Topology,
    service: &LinkSet,
    loads: &[u64],
    hose: &Hose,
    kept: Option<&[Row]>,
    rows: &mut R,
) -> Result<Decision, AllocError>
    requires service { length service.now ≡ length top.now.links }
    requires loads { AreWithinCapacities top.now loads.now }
    requires nodes { AreNodes top.now hose.now }
    requires kept { IfSome kept (λ rows. AreRows top.now service.now rows.now) }
    ensures decision { IfOk result
        (IsDecision top.now (room_beside top.now service.now loads.now) hose.now) }
    ensures sound { IfOk result
        (IsSoundDecision top.now (room_beside top.now service.now loads.now) hose.now) }
    ensures cheapest { IfOk result
        (IsCheapestDecision top.now (room_beside top.now service.now loads.now) hose.now) }
    ensures names { IfOk result (NamesNodes top.now) }
    ensures hose { IfOk result (λ _. IsHose hose.now) }
{
    let first = first_plan(alloc, top, service, hose, kept, rows)?;
    let grounds = grounds_of(alloc, top, service, loads, hose, first)?;
    let Some(amounts) = allowed_plan(alloc, top, hose, &grounds, rows)? else {
        let side = reached(alloc, top, &grounds.safe, hose.ends()[0].0)?;
        return Ok(Decision::Refused { side });
    };
    Ok(Decision::Plan {
        cost: cost(top, &amounts),
        grounds,
        amounts,
    })
}

// The plan over the links in service, by the rows that are kept, or else by the maker.
fn first_plan<R: RowMaker>(
    alloc: Global,
    top: &Topology,
    service: &LinkSet,
    hose: &Hose,
    kept: Option<&[Row]>,
    rows: &mut R,
) -> Result<Option<Amounts>, AllocError>
    requires service { length service.now ≡ length top.now.links }
    requires nodes { AreNodes top.now hose.now }
    requires kept { IfSome kept (λ rows. AreRows top.now service.now rows.now) }
    ensures { MakesPlan top.now service.now hose.now result }
{
    if let Some(kept) = kept {
        return plan_by_kept(alloc, top, service, hose, kept);
    }
    rows.expect(alloc, top, service);
    plan(alloc, top, service, hose, rows)
}

// The grounds of a decision on a hose with this first plan, or with none.
fn grounds_of(
    alloc: Global,
    top: &Topology,
    service: &LinkSet,
    loads: &[u64],
    hose: &Hose,
    first: Option<Amounts>,
) -> Result<Grounds, AllocError>
    requires network { IsNetwork top.now }
    requires service { length service.now ≡ length top.now.links }
    requires loads { AreWithinCapacities top.now loads.now }
    requires first { IsPlanOver top.now service.now hose.now first }
    requires links { IfSome first (AreOnLinks top.now) }
    ensures { IfOk result
        (AreGroundsOf top.now (room_beside top.now service.now loads.now) hose.now) }
{
    let first_fits = first_fits(top, loads, &first);
    let safe = safe_links(alloc, top, service, loads, hose, first_fits)?;
    let service = service.copy(alloc)?;
    Ok(Grounds {
        first,
        half: hose.total() / 2,
        first_fits,
        safe,
        service,
    })
}

// Whether there is a first plan, and it fits.
pub(crate) fn first_fits(top: &Topology, loads: &[u64], first: &Option<Amounts>) -> bool
    requires loads { AreWithinCapacities top.now loads.now }
    requires links { IfSome first.now (AreOnLinks top.now) }
    ensures { IsTrue result ↔ IsSomeAnd first.now (Fits (free_rates top.now loads.now)) }
{
    match first {
        Some(first) => fits(top, loads, first),
        None => false,
    }
}

// The links that are safe for a hose: those in service with half of its rates free. No link where
// its first plan fits.
fn safe_links(
    alloc: Global,
    top: &Topology,
    service: &LinkSet,
    loads: &[u64],
    hose: &Hose,
    first_fits: bool,
) -> Result<LinkSet, AllocError>
    requires service { length service.now ≡ length top.now.links }
    requires loads { AreWithinCapacities top.now loads.now }
    ensures none { first_fits ≡ true
        → IfOk result (λ links. links ≡ replicate (length top.now.links) false) }
    ensures links { first_fits ≡ false → IfOk result
        (λ links. links ≡ safe_links (room_beside top.now service.now loads.now) hose.now) }
{
    let mut links = LinkSet::new(alloc, top.links())?;
    if first_fits {
        return Ok(links);
    }
    let half = hose.total() / 2;
    links.fill_where(|link| service.has(link) && half <= free_rate(top, loads, link));
    Ok(links)
}

// The first plan where it fits, else the plan over the safe links, or none. A plan over the safe
// links always fits, so there is no second test.
fn allowed_plan<R: RowMaker>(
    alloc: Global,
    top: &Topology,
    hose: &Hose,
    grounds: &Grounds,
    rows: &mut R,
) -> Result<Option<Amounts>, AllocError>
    requires nodes { AreNodes top.now hose.now }
    requires places { length grounds.now.safe ≡ length top.now.links }
    ensures { (room : Room) → AreGroundsOf top.now room hose.now grounds.now
        → IfOk result (IsPlanOver top.now (allowed_links room grounds.now) hose.now) }
{
    if !grounds.first_fits {
        return plan(alloc, top, &grounds.safe, hose, rows);
    }
    match &grounds.first {
        Some(first) => Ok(Some(first.copy(alloc)?)),
        None => Ok(None),
    }
}
