// What was read of a certificate so far, and the line that comes next.
ghost use Rattle.std.specs.Prelude.{◌≡◌, ◌<◌, ◌≤◌, ◌↔◌, ℕ, [], Any, IfErr, IfOk, IfSome, IsTrue, MatchOption, length};
ghost use Rattle.hose_graph.specs.Amounts.{link_of};
ghost use Rattle.hose_graph.specs.Network.{Network, IsNetwork};
ghost use Rattle.hose_cert.specs.CertLine.{cost_line, end_line, hose_line, pot_line, use_line, without_line};
ghost use Rattle.hose_cert.specs.steps.CertLine.{statement_line};
ghost use Rattle.hose_cert.specs.steps.Draft.{IsBodySomehow, IsSaid, IsWholeIf, StandsSomehow, TakesInto, TakesCertLine};
ghost use Rattle.hose_cert.specs.steps.Following.{MayBeCost, MayBeHose, MayLeaveOut, MayNumber, MayUse};

use crate::fault::CertFault;
use crate::rows::{Rows, judge_row};
use crate::statement::{Pot, Statement};
use hose_graph::{Hose, MOST_TREE_LINKS, ReservedLink, Topology};
use hose_links::LinkSet;
use std::alloc::Global;

/// What was read of a certificate so far.
#[derive(Drop)]
pub enum Draft {
    Start,
    Cost(u64),
    Body(Body),
}

/// What was read up to the line of the hose or a later one.
#[derive(Drop)]
pub struct Body {
    pub cost: u64,
    pub hose: Hose,
    pub last: Last,
    pub pairs: Vec<ReservedLink>,
    pub without: LinkSet,
    pub rows: Rows,
}

/// The last line.
#[derive(Clone, Copy, Debug)]
pub enum Last {
    Hose,
    Use(u32),
    Without(u32),
    Pot,
    End,
}

// The draft with one line more, or none where no certificate goes on so.
pub(crate) fn take_line(
    alloc: Global,
    top: &Topology,
    draft: Draft,
    told: Statement,
) -> Result<Option<Draft>, CertFault>
    requires stands { StandsSomehow top.now draft }
    requires said { IsSaid top.now (statement_line told) }
    ensures takes { IfOk result (TakesCertLine top.now draft (statement_line told)) }
    ensures memory { IfErr result (λ fault. fault ≡ CertFault.Memory) }
{
    match draft {
        Draft::Start => Ok(take_cost(top, told)),
        Draft::Cost(cost) => take_hose(alloc, top, cost, told),
        Draft::Body(body) => Ok(take_into(top, body, told)?.map(Draft::Body)),
    }
}

// What a statement of the cost says.
fn as_cost(told: Statement) -> Option<u64>
    ensures { MatchOption result ((network : Network) → MayBeCost network (statement_line told) → ⊥)
        (λ cost. statement_line told ≡ cost_line cost) }
{
    match told {
        Statement::Cost(cost) => Some(cost),
        Statement::Hose(_) => None,
        Statement::Use(_) => None,
        Statement::Without(_) => None,
        Statement::Pot(_) => None,
        Statement::End => None,
    }
}

// What a statement of the hose says.
fn as_hose(told: Statement) -> Option<Hose>
    ensures { MatchOption result ((network : Network) (cost : ℕ)
        → MayBeHose network cost (statement_line told) → ⊥)
        (λ hose. statement_line told ≡ hose_line hose) }
{
    match told {
        Statement::Hose(hose) => Some(hose),
        Statement::Cost(_) => None,
        Statement::Use(_) => None,
        Statement::Without(_) => None,
        Statement::Pot(_) => None,
        Statement::End => None,
    }
}

// The draft of nothing with one line more.
fn take_cost(top: &Topology, told: Statement) -> Option<Draft>
    requires { IsSaid top.now (statement_line told) }
    ensures { TakesCertLine top.now Draft.Start (statement_line told) result }
{
    let Some(cost) = as_cost(told) else {
        return None;
    };
    Some(Draft::Cost(cost))
}

// The draft of a cost with one line more.
fn take_hose(
    alloc: Global,
    top: &Topology,
    cost: u64,
    told: Statement,
) -> Result<Option<Draft>, CertFault>
    requires stands { StandsSomehow top.now (Draft.Cost cost) }
    requires said { IsSaid top.now (statement_line told) }
    ensures takes { IfOk result (TakesCertLine top.now (Draft.Cost cost) (statement_line told)) }
    ensures memory { IfErr result (λ fault. fault ≡ CertFault.Memory) }
{
    let Some(hose) = as_hose(told) else {
        return Ok(None);
    };
    let without = LinkSet::new(alloc, top.links())?;
    Ok(Some(Draft::Body(Body {
        cost,
        hose,
        last: Last::Hose,
        pairs: Vec::new(alloc),
        without,
        rows: Rows {
            root: 0,
            row: Vec::new(alloc),
            starts: true,
            changes: true,
            weighs: true,
        },
    })))
}

// What was read with one line more.
fn take_into(top: &Topology, body: Body, told: Statement) -> Result<Option<Body>, CertFault>
    requires stands { IsBodySomehow top.now body }
    requires said { IsSaid top.now (statement_line told) }
    ensures takes { IfOk result (TakesInto top.now body (statement_line told)) }
    ensures memory { IfErr result (λ fault. fault ≡ CertFault.Memory) }
{
    match told {
        Statement::Cost(_) => Ok(None),
        Statement::Hose(_) => Ok(None),
        Statement::Use(pair) => take_use(top, body, pair),
        Statement::Without(link) => Ok(take_without(top, body, link)),
        Statement::Pot(pot) => take_pot(top, body, pot),
        Statement::End => Ok(take_end(top, body)),
    }
}

// What was read with one line more, which is of the plan.
fn take_use(top: &Topology, body: Body, pair: ReservedLink) -> Result<Option<Body>, CertFault>
    requires stands { IsBodySomehow top.now body }
    requires said { IsSaid top.now (use_line pair) }
    ensures takes { IfOk result (TakesInto top.now body (use_line pair)) }
    ensures memory { IfErr result (λ fault. fault ≡ CertFault.Memory) }
{
    let mut body = body;
    if !may_use(body.last, pair.0) {
        return Ok(None);
    }
    if body.pairs.len() >= MOST_TREE_LINKS as usize {
        return Ok(None);
    }
    body.pairs.push(pair)?;
    body.last = Last::Use(pair.0);
    Ok(Some(body))
}

// What was read with one line more, which is of a link that was left out.
fn take_without(top: &Topology, body: Body, link: u32) -> Option<Body>
    requires stands { IsBodySomehow top.now body }
    requires said { IsSaid top.now (without_line link) }
    ensures { TakesInto top.now body (without_line link) result }
{
    let mut body = body;
    if !may_leave_out(body.last, link) {
        return None;
    }
    if has_link(&body.pairs, link) {
        return None;
    }
    body.without.put(link);
    body.last = Last::Without(link);
    Some(body)
}

// What was read with one line more, which is of numbers.
fn take_pot(top: &Topology, body: Body, pot: Pot) -> Result<Option<Body>, CertFault>
    requires stands { IsBodySomehow top.now body }
    requires said { IsSaid top.now (pot_line pot.root pot.from pot.numbers.items) }
    ensures takes { IfOk result
        (TakesInto top.now body (pot_line pot.root pot.from pot.numbers.items)) }
    ensures memory { IfErr result (λ fault. fault ≡ CertFault.Memory) }
{
    let mut body = body;
    if !may_number(body.last) {
        return Ok(None);
    }
    if pot.root != body.rows.root {
        return Ok(None);
    }
    if pot.from as usize != body.rows.row.len() {
        return Ok(None);
    }
    body.rows.row.extend_from_slice(&pot.numbers)?;
    body.last = Last::Pot;
    if body.rows.row.len() < top.nodes() as usize {
        return Ok(Some(body));
    }
    judge_row(top, body.cost, &body.hose, &body.without, &mut body.rows);
    Ok(Some(body))
}

// What was read with one line more, which ends it.
fn take_end(top: &Topology, body: Body) -> Option<Body>
    requires stands { IsBodySomehow top.now body }
    ensures { TakesInto top.now body end_line result }
{
    let mut body = body;
    if !is_pot(body.last) {
        return None;
    }
    if body.rows.root != top.nodes() {
        return None;
    }
    if body.rows.row.len() > 0 {
        return None;
    }
    body.last = Last::End;
    Some(body)
}

// Whether a line of the plan may come, with this link.
fn may_use(last: Last, link: u32) -> bool
    ensures { IsTrue result ↔ MayUse last link }
{
    match last {
        Last::Hose => true,
        Last::Use(earlier) => earlier < link,
        Last::Without(_) => false,
        Last::Pot => false,
        Last::End => false,
    }
}

// Whether a line may come that leaves out this link.
fn may_leave_out(last: Last, link: u32) -> bool
    ensures { IsTrue result ↔ MayLeaveOut last link }
{
    match last {
        Last::Hose => false,
        Last::Use(_) => true,
        Last::Without(earlier) => earlier < link,
        Last::Pot => false,
        Last::End => false,
    }
}

// Whether a line of numbers may come.
fn may_number(last: Last) -> bool
    ensures { IsTrue result ↔ MayNumber last }
{
    match last {
        Last::Hose => false,
        Last::Use(_) => true,
        Last::Without(_) => true,
        Last::Pot => true,
        Last::End => false,
    }
}

// Whether the last line was one of numbers.
fn is_pot(last: Last) -> bool
    ensures { IsTrue result ↔ (last ≡ Last.Pot) }
{
    match last {
        Last::Hose => false,
        Last::Use(_) => false,
        Last::Without(_) => false,
        Last::Pot => true,
        Last::End => false,
    }
}

// Whether one of the amounts is on the link.
fn has_link(pairs: &[ReservedLink], link: u32) -> bool
    ensures { IsTrue result ↔ Any (λ pair. link_of pair ≡ link) pairs.now }
{
    pairs.iter().any(|pair| pair.0 == link)
}

impl Draft {
    // The whole certificate, if it is one.
    pub(crate) fn whole(self, top: &Topology) -> Option<Body>
        requires { StandsSomehow top.now self }
        ensures { IsWholeIf top.now self result }
    {
        match self {
            Draft::Start => None,
            Draft::Cost(_) => None,
            Draft::Body(body) => if_ended(top, body),
        }
    }
}

// What was read, where its end was.
fn if_ended(top: &Topology, body: Body) -> Option<Body>
    requires { IsBodySomehow top.now body }
    ensures { IsWholeIf top.now (Draft.Body body) result }
{
    match body.last {
        Last::Hose => None,
        Last::Use(_) => None,
        Last::Without(_) => None,
        Last::Pot => None,
        Last::End => Some(body),
    }
}
