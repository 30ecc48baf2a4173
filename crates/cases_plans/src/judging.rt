// Whether amounts are what a hose reserves on some tree.
use cases_common::{CaseText, Trouble, first, number, shown};
use hose_graph::{Amounts, Hose, Topology};
use hose_tree::is_reservation;
use std::alloc::{AllocError, Global};

/// Whether amounts are what a hose reserves, of the ends and links of a reply.
pub fn tell_judged(top: &Topology, words: &str, told: &mut CaseText) -> Result<(), Trouble> {
    let (hose, amounts) = shown(told.alloc(), top, words)?;
    told.show(&is_reservation(top, &hose, &amounts));
    Ok(())
}

/// Whether amounts are what a hose reserves, of the hose of the first node and another one, of 3
/// each, and of amounts that no reply tells: none, one, one too many, and one on a link that is not
/// there.
pub fn tell_reserved(top: &Topology, words: &str, told: &mut CaseText) -> Result<(), Trouble> {
    let (node, links) = first(words);
    let links = number(links)?;
    let hose = hose_with(told.alloc(), number(node)?)?;
    tell_reserved_by(top, &hose, links, told)
}

fn tell_reserved_by(
    top: &Topology,
    hose: &Hose,
    links: u64,
    told: &mut CaseText,
) -> Result<(), Trouble> {
    let amounts = amounts_of(told.alloc(), links)?;
    told.show(&is_reservation(top, hose, &amounts));
    Ok(())
}

fn hose_with(alloc: Global, node: u64) -> Result<Hose, Trouble> {
    let Ok(node) = u32::try_from(node) else {
        return Err(Trouble::Word);
    };
    Ok(Hose::build(alloc, &[(0, 3), (node, 3)])?)
}

fn amounts_of(alloc: Global, links: u64) -> Result<Amounts, AllocError> {
    match links {
        0 => Amounts::build(alloc, &[]),
        1 => Amounts::build(alloc, &[(0, 3)]),
        2 => Amounts::build(alloc, &[(0, 3), (1, 3), (2, 0)]),
        _ => Amounts::build(alloc, &[(0, 3), (1, 3), (3, 3)]),
    }
}
