// Calls by their names, of which the program prints what comes.
ghost use Rattle.hose_law.specs.Tree.{JoinsHose};

use crate::{books, cores, judging, plans, quotes, traffic};
use cases_common::{Calls, CaseCall, CaseText, Trouble, first, hose, named, number, numbers};
use hose_book::{Book, Plain};
use hose_graph::{Hose, Topology};
use hose_tree::Tree;

/// The calls of this program.
pub struct PlanCalls;

impl Calls for PlanCalls {
    fn tell(call: CaseCall<'_>, told: &mut CaseText) -> Result<(), Trouble> {
        match call.name {
            "book" => books::tell_steps(call, told),
            "core" => cores::tell_answers(call, "acme", told),
            "operator" => cores::tell_answers(call, "operator", told),
            "choose" => plans::tell_chosen(call.words, told),
            "quotes" => quotes::tell_held(told),
            "admit" | "take" | "release" | "service" => tell_of_book(call, told),
            _ => {
                let top = named(told.alloc(), call.network)?;
                tell_of_network(&top, call, told)
            }
        }
    }
}

// A call at the new book of a network.
fn tell_of_book(call: CaseCall<'_>, told: &mut CaseText) -> Result<(), Trouble> {
    let alloc = told.alloc();
    let book = Book::new(alloc, named(alloc, call.network)?)?;
    tell_at_once(&mut Plain { book }, call, told)
}

fn tell_at_once(books: &mut Plain, call: CaseCall<'_>, told: &mut CaseText) -> Result<(), Trouble> {
    match call.name {
        "admit" => cores::tell_admission(books, call.words, told),
        "take" => cores::tell_take(books, call.words, told),
        "release" => cores::tell_release(books, call.words, told),
        _ => cores::tell_services(books, call.words, told),
    }
}

// A call that takes a network.
fn tell_of_network(top: &Topology, call: CaseCall<'_>, told: &mut CaseText) -> Result<(), Trouble> {
    match call.name {
        "judge" => judging::tell_judged(top, call.words, told),
        "reserve" => judging::tell_reserved(top, call.words, told),
        "decide" => plans::tell_decided(top, call.words, told),
        "served" => plans::tell_served(top, call.words, told),
        "reach" => plans::tell_reached(top, told),
        "fit" => {
            let loads = numbers(told.alloc(), call.words)?;
            plans::tell_fitting(top, &loads, told)
        }
        _ => tell_of_root(top, call, told),
    }
}

// A call that takes a network, a root, and mostly a hose.
fn tell_of_root(top: &Topology, call: CaseCall<'_>, told: &mut CaseText) -> Result<(), Trouble> {
    let (root, line) = first(call.words);
    let root = number(root)?.min(511) as u32;
    if call.name == "row" {
        return plans::tell_row(top, root, told);
    }
    let hose = hose(told.alloc(), top, line)?;
    tell_of_hose(top, root, &hose, call.name, told)
}

// A call that takes a network, a root and a hose.
fn tell_of_hose(
    top: &Topology,
    root: u32,
    hose: &Hose,
    name: &str,
    told: &mut CaseText,
) -> Result<(), Trouble> {
    if name == "weight" {
        return plans::tell_weight(top, root, hose, told);
    }
    let tree = plans::tree_from(told.alloc(), top, root, hose)?;
    tell_of_tree(top, &tree, hose, name, told)
}

// A call that takes a network's tree and the hose that it joins.
fn tell_of_tree(
    top: &Topology,
    tree: &Tree,
    hose: &Hose,
    name: &str,
    told: &mut CaseText,
) -> Result<(), Trouble>
    requires { JoinsHose tree.now hose.now }
{
    match name {
        "tree" => plans::tell_tree(tree, hose, told),
        "heaviest" => traffic::tell_heaviest(top, tree, hose, true, told),
        "attain" => traffic::tell_heaviest(top, tree, hose, false, told),
        _ => Err(Trouble::Word),
    }
}
