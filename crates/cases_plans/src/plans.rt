// Rows, roots, trees, sides and decisions.
ghost use Rattle.std.specs.Prelude.{◌≡◌, ◌<◌, ◌≤◌, ◌↔◌, [], ◌∷◌, Bool, List, All, length};
ghost use Rattle.std.specs.Prelude.{IfOk, IsSome, IsTrue, slice_index};
ghost use Rattle.hose_graph.specs.Hose.{node_of};
ghost use Rattle.hose_graph.specs.Row.{distance_of};
ghost use Rattle.hose_graph.specs.steps.Row.{HasBoundedDistances};
ghost use Rattle.hose_law.specs.steps.Plan.{AreNodes};
ghost use Rattle.hose_law.specs.Row.{IsRow};
ghost use Rattle.hose_law.specs.Tree.{JoinsHose};
ghost use Rattle.hose_law.specs.Walk.{capacity_of};
ghost use Rattle.hose_tree.specs.steps.Amounts.{AreWithinCapacities};

use cases_common::{CaseText, Trouble, first, hose, numbers};
use hose_graph::{Amounts, Hose, Row, Topology};
use hose_links::LinkSet;
use hose_paths::{PlainRows, RowMaker};
use hose_plan::{Decision, decide, grounds_hold};
use hose_root::{choose, weight};
use hose_tree::{Tree, cost, fits, reached, reservations};
use std::alloc::{AllocError, Global};

// The row of a root over all links.
fn row_from(alloc: Global, top: &Topology, root: u32) -> Result<Row, AllocError>
    requires { root < length top.now.nodes }
    ensures row { IfOk result (λ row. (set : List Bool) × IsRow top.now set row.root row) }
    ensures bounded { IfOk result HasBoundedDistances }
{
    let links = service(alloc, top, &[])?;
    PlainRows::new().row(alloc, top, &links, root)
}

// The row of a root that the network has.
fn row_of(alloc: Global, top: &Topology, root: u32) -> Result<Row, Trouble>
    ensures row { IfOk result (λ row. (set : List Bool) × IsRow top.now set row.root row) }
    ensures bounded { IfOk result HasBoundedDistances }
{
    if root >= top.nodes() {
        return Err(Trouble::Word);
    }
    Ok(row_from(alloc, top, root)?)
}

// Whether each endpoint has a distance.
fn reaches(row: &Row, hose: &Hose) -> bool
    ensures { IsTrue result → All (λ end. IsSome (distance_of row.now (node_of end))) hose.now }
{
    hose.ends().iter().all(|end| has_distance(row, end.0))
}

fn has_distance(row: &Row, node: u32) -> bool
    ensures { IsTrue result → IsSome (distance_of row.now node) }
{
    (node as usize) < row.dist.len() && row.dist[node as usize].is_some()
}

/// The distances from a root, and the links to it.
pub fn tell_row(top: &Topology, root: u32, told: &mut CaseText) -> Result<(), Trouble> {
    let alloc = told.alloc();
    let row = row_of(alloc, top, root)?;
    told.add(format!(in alloc; "{:?} {:?}", row.dist, row.tight));
    Ok(())
}

// Whether each endpoint has a place in the row.
fn has_places(row: &Row, hose: &Hose) -> bool
    ensures { IsTrue result → All (λ end. node_of end < length row.now.dist) hose.now }
{
    let nodes = row.dist.len();
    hose.ends().iter().all(|end| (end.0 as usize) < nodes)
}

/// What a hose costs from a root.
pub fn tell_weight(
    top: &Topology,
    root: u32,
    hose: &Hose,
    told: &mut CaseText,
) -> Result<(), Trouble> {
    let row = row_of(told.alloc(), top, root)?;
    if !has_places(&row, hose) {
        return Err(Trouble::Word);
    }
    told.show(&weight(&row, hose));
    Ok(())
}

/// The root that is chosen of these weights; a word that is no number is none.
pub fn tell_chosen(words: &str, told: &mut CaseText) -> Result<(), Trouble> {
    let weights = weights_of(told.alloc(), words)?;
    if weights.len() > 512 {
        return Err(Trouble::Word);
    }
    told.show(&choose(&weights));
    Ok(())
}

fn weights_of(alloc: Global, words: &str) -> Result<Vec<Option<u64>>, AllocError> {
    let mut weights = Vec::new(alloc);
    for word in words.split_whitespace() {
        weights.push(word.parse().ok())?;
    }
    Ok(weights)
}

/// The tree of a root's row that joins a hose.
pub fn tree_from(alloc: Global, top: &Topology, root: u32, hose: &Hose) -> Result<Tree, Trouble>
    ensures { IfOk result (λ tree. JoinsHose tree hose.now) }
{
    let row = row_of(alloc, top, root)?;
    if !reaches(&row, hose) {
        return Err(Trouble::Word);
    }
    let tree = Tree::from_row(alloc, top, &row, hose)?;
    Ok(tree)
}

/// What a hose reserves on a tree, and the links of that tree.
pub fn tell_tree(tree: &Tree, hose: &Hose, told: &mut CaseText) -> Result<(), Trouble>
    requires { JoinsHose tree.now hose.now }
{
    told.show(tree);
    told.put("\n");
    told.show(&reservations(told.alloc(), tree, hose)?);
    Ok(())
}

/// What 3, 4 and 5 cost on the first links, and whether they fit beside these loads.
pub fn tell_fitting(top: &Topology, loads: &[u64], told: &mut CaseText) -> Result<(), Trouble> {
    if top.links() != 3 || !are_carried(top, loads) {
        return Err(Trouble::Word);
    }
    let alloc = told.alloc();
    let amounts = first_amounts(alloc)?;
    let (cost, fits) = (cost(top, &amounts), fits(top, loads, &amounts));
    told.add(format!(in alloc; "{cost} {fits}"));
    Ok(())
}

// Amounts of 3, 4 and 5 on the first links.
fn first_amounts(alloc: Global) -> Result<Amounts, AllocError>
    ensures { IfOk result (λ amounts. amounts ≡ (0, 3) ∷ (1, 4) ∷ (2, 5) ∷ []) }
{
    Amounts::build(alloc, &[(0, 3), (1, 4), (2, 5)])
}

/// What the first node reaches over the first link alone.
pub fn tell_reached(top: &Topology, told: &mut CaseText) -> Result<(), Trouble> {
    if top.nodes() == 0 || top.links() == 0 {
        return Err(Trouble::Word);
    }
    let links = first_link(told.alloc(), top)?;
    told.show(&reached(told.alloc(), top, &links, 0)?);
    Ok(())
}

fn first_link(alloc: Global, top: &Topology) -> Result<LinkSet, AllocError>
    requires { 0 < length top.now.links }
    ensures { IfOk result (λ links. length links ≡ length top.now.links) }
{
    let mut links = LinkSet::new(alloc, top.links())?;
    links.put(0);
    Ok(links)
}

// Whether there are as many loads as links, each at most its link's capacity.
fn are_carried(top: &Topology, loads: &[u64]) -> bool
    ensures { IsTrue result → AreWithinCapacities top.now loads.now }
{
    if loads.len() != top.links() as usize {
        return false;
    }
    for link in 0..top.links() {
        if !is_carried(top, loads, link) {
            return false;
        }
    }
    true
}

// Whether the load of a link is at most its capacity.
fn is_carried(top: &Topology, loads: &[u64], link: u32) -> bool
    requires places { length loads.now ≡ length top.now.links }
    requires link { link < length top.now.links }
    ensures { IsTrue result ↔ slice_index loads.now link ≤ capacity_of top.now link }
{
    loads[link as usize] <= top.link(link).capacity
}

// The links in service where those of these numbers are out.
fn service(alloc: Global, top: &Topology, out: &[u64]) -> Result<LinkSet, AllocError>
    ensures { IfOk result (λ links. length links ≡ length top.now.links) }
{
    let mut links = LinkSet::new(alloc, top.links())?;
    links.fill_where(|link| !out.contains(&u64::from(link)));
    Ok(links)
}

// The links in service, and the load of each link.
#[derive(Drop)]
struct State {
    service: LinkSet,
    loads: Vec<u64>,
}

// A state by the words of the loads, and of the links that are out: none where there is no word.
fn state_of(alloc: Global, top: &Topology, out: &str, loads: &str) -> Result<State, Trouble>
    ensures service { IfOk result (λ state. length state.service ≡ length top.now.links) }
    ensures loads { IfOk result (λ state. AreWithinCapacities top.now state.loads.items) }
{
    let loads = loads_of(alloc, top, loads)?;
    let service = service_but(alloc, top, out)?;
    Ok(State { service, loads })
}

// The links in service where those of these words are out.
fn service_but(alloc: Global, top: &Topology, out: &str) -> Result<LinkSet, Trouble>
    ensures { IfOk result (λ links. length links ≡ length top.now.links) }
{
    if out.is_empty() {
        return Ok(service(alloc, top, &[])?);
    }
    let out = numbers(alloc, out)?;
    Ok(service(alloc, top, &out)?)
}

fn loads_of(alloc: Global, top: &Topology, words: &str) -> Result<Vec<u64>, Trouble>
    ensures { IfOk result (λ loads. AreWithinCapacities top.now loads.items) }
{
    let loads = numbers(alloc, words)?;
    if !are_carried(top, &loads) {
        return Err(Trouble::Word);
    }
    Ok(loads)
}

/// What is decided of a hose beside some loads, and whether the grounds of that hold beside others,
/// with all links in service. The line has the loads, the others, and the hose.
pub fn tell_decided(top: &Topology, line: &str, told: &mut CaseText) -> Result<(), Trouble> {
    tell_over(top, ["", ""], line, told)
}

/// What is decided of a hose over the links in service, and whether the grounds of that hold over
/// others. The line has the numbers of the links that are out, of those that are out then, and what
/// `tell_decided` has.
pub fn tell_served(top: &Topology, line: &str, told: &mut CaseText) -> Result<(), Trouble> {
    let (out, rest) = first(line);
    let (later, line) = first(rest);
    tell_over(top, [out, later], line, told)
}

// The same, where the words of the links that are out, now and later, do not stand in the line.
fn tell_over(
    top: &Topology,
    out: [&str; 2],
    line: &str,
    told: &mut CaseText,
) -> Result<(), Trouble> {
    let (loads, rest) = first(line);
    let (later, line) = first(rest);
    let hose = hose(told.alloc(), top, line)?;
    tell_between(top, &hose, out, [loads, later], told)
}

fn tell_between(
    top: &Topology,
    hose: &Hose,
    out: [&str; 2],
    loads: [&str; 2],
    told: &mut CaseText,
) -> Result<(), Trouble>
    requires { AreNodes top.now hose.now }
{
    let now = state_of(told.alloc(), top, out[0], loads[0])?;
    tell_later(top, hose, &now, out[1], loads[1], told)
}

fn tell_later(
    top: &Topology,
    hose: &Hose,
    now: &State,
    out: &str,
    loads: &str,
    told: &mut CaseText,
) -> Result<(), Trouble>
    requires nodes { AreNodes top.now hose.now }
    requires service { length now.now.service ≡ length top.now.links }
    requires loads_now { AreWithinCapacities top.now now.now.loads.items }
{
    let then = state_of(told.alloc(), top, out, loads)?;
    told.add(decided_at(told.alloc(), top, now, &then, hose));
    Ok(())
}

// What is decided of a hose in a state, and whether the grounds of that hold in a later one.
fn decided_at(
    alloc: Global,
    top: &Topology,
    now: &State,
    then: &State,
    hose: &Hose,
) -> Result<String, AllocError>
    requires service { length now.now.service ≡ length top.now.links }
    requires loads { AreWithinCapacities top.now now.now.loads.items }
    requires later_service { length then.now.service ≡ length top.now.links }
    requires later_loads { AreWithinCapacities top.now then.now.loads.items }
    requires nodes { AreNodes top.now hose.now }
{
    let rows = &mut PlainRows::new();
    let decision = decide(alloc, top, &now.service, &now.loads, hose, rows)?;
    match &decision {
        Decision::Plan {
            grounds,
            amounts,
            cost,
        } => {
            let holds = grounds_hold(top, &then.service, &then.loads, grounds);
            let fits = grounds.first_fits;
            format!(in alloc; "{amounts:?} cost {cost}, first fits {fits}, holds {holds}")
        }
        Decision::Refused { side } => format!(in alloc; "refused, {side:?}"),
    }
}
