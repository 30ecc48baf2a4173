// Link sets, hoses, networks, names, and copies of values.
use cases_common::{CaseText, Trouble, debugged, name};
use hose_graph::{Amounts, Endpoint, Entry, Hose, HoseFault, Link, NodeList, Topology};
use hose_links::LinkSet;
use std::alloc::{AllocError, Global};
use std::fmt::Debug;

fn of_three(links: &LinkSet) -> [bool; 3] {
    if links.len() != 3 {
        return [false; 3];
    }
    [links.has(0), links.has(1), links.has(2)]
}

/// Three links at first, with one put, filled but for that, as copied then, and with one cleared;
/// and whether the copy is the same before that and after it.
pub fn tell_links(told: &mut CaseText) -> Result<(), Trouble> {
    tell_steps(&mut LinkSet::new(told.alloc(), 3)?, told)
}

fn tell_steps(links: &mut LinkSet, told: &mut CaseText) -> Result<(), Trouble> {
    if links.len() != 3 {
        return Err(Trouble::Word);
    }
    let at_first = of_three(links);
    links.put(1);
    let one_put = of_three(links);
    links.fill_where(|link| link != 1);
    let filled = of_three(links);
    let copy = links.copy(told.alloc())?;
    let is_same = links.same(&copy);
    links.clear(0);
    told.show(&[at_first, one_put, filled, of_three(&copy), of_three(links)]);
    tell_same(told, is_same);
    tell_same(told, links.same(&copy));
    Ok(())
}

fn tell_same(told: &mut CaseText, is_same: bool) {
    told.put(if is_same { " true" } else { " false" });
}

/// A hose of these endpoints, with its total, and its copy; or why it is refused.
pub fn tell_hose(words: &str, told: &mut CaseText) -> Result<(), Trouble> {
    let ends = endpoints(told.alloc(), words)?;
    match Hose::build(told.alloc(), &ends) {
        Ok(hose) => tell_with_copy(&hose, told)?,
        Err(HoseFault::Memory) => told.add(Err(AllocError)),
        Err(fault) => told.show(&fault),
    }
    Ok(())
}

fn endpoints(alloc: Global, words: &str) -> Result<Vec<Endpoint>, Trouble> {
    let mut ends = Vec::new(alloc);
    add_endpoints(&mut ends, words)?;
    Ok(ends)
}

fn add_endpoints(ends: &mut Vec<Endpoint>, words: &str) -> Result<(), Trouble> {
    for word in words.split_whitespace() {
        ends.push(endpoint(word)?)?;
    }
    Ok(())
}

fn endpoint(word: &str) -> Result<Endpoint, Trouble> {
    let (node, rate) = word.split_once(':').unwrap_or((word, ""));
    match (node.parse(), rate.parse()) {
        (Ok(node), Ok(rate)) => Ok((node, rate)),
        _ => Err(Trouble::Word),
    }
}

fn tell_with_copy(hose: &Hose, told: &mut CaseText) -> Result<(), AllocError> {
    let copy = hose.copy(told.alloc())?;
    told.show(&[(hose.ends(), hose.total()), (copy.ends(), copy.total())]);
    Ok(())
}

/// What comes of a node, of the same again, of a link from a node to itself, and of one of these
/// without capacity, at an empty network.
pub fn tell_refusals(told: &mut CaseText) -> Result<(), Trouble> {
    let node = name("a")?;
    let alloc = told.alloc();
    let mut top = Topology::new(alloc)?;
    let added = [top.add_node(node), top.add_node(node)];
    let links = [top.add_link(loop_of(1)), top.add_link(loop_of(0))];
    told.add(format!(in alloc; "{added:?} {links:?}"));
    Ok(())
}

fn loop_of(capacity: u64) -> Link {
    Link {
        a: 0,
        b: 0,
        capacity,
        length: 1,
        cost: 1,
    }
}

/// Whether words are names, and whether these are the same.
pub fn tell_names(words: &str, told: &mut CaseText) {
    let (one, other) = words.split_once(' ').unwrap_or((words, ""));
    let (one, other) = (name(one).ok(), name(other).ok());
    let is_same = one == other;
    let alloc = told.alloc();
    told.add(format!(in alloc; "{} {} {is_same}", one.is_some(), other.is_some()));
}

/// Copies of amounts and of a list of nodes, and whether copies of an entry and of a network are
/// printed alike.
pub fn tell_copies(top: &Topology, told: &mut CaseText) -> Result<(), Trouble> {
    told.show(&copied_amounts(told.alloc())?);
    told.put("\n");
    told.show(&copied_nodes(told.alloc())?);
    told.put("\nthe entry ");
    told.show(&is_alike(told.alloc(), &admission(told.alloc())?)?);
    told.put(", the network ");
    told.show(&is_network_alike(told.alloc(), top)?);
    Ok(())
}

fn copied_amounts(alloc: Global) -> Result<Amounts, AllocError> {
    let amounts = Amounts::build(alloc, &[(0, 3), (2, 5)])?;
    amounts.copy(alloc)
}

fn copied_nodes(alloc: Global) -> Result<NodeList, AllocError> {
    let nodes = NodeList::build(alloc, &[0, 2])?;
    nodes.copy(alloc)
}

fn is_alike(alloc: Global, entry: &Entry) -> Result<bool, AllocError> {
    let copy = entry.copy(alloc)?;
    are_alike(alloc, entry, &copy)
}

fn is_network_alike(alloc: Global, top: &Topology) -> Result<bool, AllocError> {
    let copy = top.copy(alloc)?;
    are_alike(alloc, top, &copy)
}

fn are_alike<T: Debug>(alloc: Global, one: &T, other: &T) -> Result<bool, AllocError> {
    let one = debugged(alloc, one)?;
    let other = debugged(alloc, other)?;
    Ok(one == other)
}

// The admission of a hose of three endpoints.
fn admission(alloc: Global) -> Result<Entry, Trouble> {
    Ok(Entry::Admit {
        customer: name("acme")?,
        hose: Hose::build(alloc, &[(0, 3), (1, 4), (2, 5)])?,
        amounts: Amounts::build(alloc, &[(0, 3), (1, 4), (2, 5)])?,
    })
}
