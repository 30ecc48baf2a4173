// The lists of replies, read from words.
ghost use Rattle.std.specs.Prelude.{◌≡◌, ◌↔◌, ◌++◌, [], ◌∷◌, decimal, IfSome, IfNone, IsTrue};
ghost use Rattle.std.specs.List.Sorted.{IsStrictlyIncreasing};
ghost use Rattle.hose_words.specs.Numbers.{Fits64};
ghost use Rattle.hose_graph.specs.Ascending.{IsAscending, firsts};
ghost use Rattle.hose_graph.specs.Network.{IsNetwork, IsNodeOf, name_of};
ghost use Rattle.hose_proto.specs.Places.{end_word};
ghost use Rattle.hose_replies.specs.steps.Reading.{IsNextEnd, IsNextItem};
ghost use Rattle.hose_proto.specs.steps.Reading.{TellsNone};
ghost use Rattle.hose_proto.specs.ReplyWords.{pair_word};
ghost use Rattle.hose_replies.specs.steps.Fields.{the_amounts, the_ends, the_nodes, the_numbers, AreAmounts, AreEnds, AreNumbers, IsAmountOf, IsSide};

use crate::fields::LineFields;
use crate::until::read_until;
use hose_graph::{
    Amounts, Endpoint, Hose, LEAST_ENDS, MOST_ENDS, Name, NodeList, ReservedLink, Topology, VpnList,
};
use hose_proto::{Items, Read, endpoint, link_number, number_told, parts, read_items};
use hose_words::{Cursor, number};
use std::alloc::Global;
use std::marker::PhantomData;

// Amounts on links, to the end of the line.
pub(crate) struct TheAmounts;

impl LineFields for TheAmounts {
    type FieldValues = Amounts;

    ghost fields = { the_amounts };

    ghost values = { λ amounts. amounts };

    fn read(alloc: Global, top: &Topology, words: &mut Cursor<'_>) -> Read<Self::FieldValues> {
        let pairs = read_items::<AscendingPairs>(alloc, top, 1, words)?;
        let amounts = Amounts::build(alloc, &pairs)?;
        Ok(amounts)
    }
}

// Nodes by their names, to the end of the line.
pub(crate) struct TheNodes;

impl LineFields for TheNodes {
    type FieldValues = NodeList;

    ghost fields = { the_nodes };

    ghost values = { λ side. side };

    fn read(alloc: Global, top: &Topology, words: &mut Cursor<'_>) -> Read<Self::FieldValues> {
        let nodes = read_items::<AscendingNodes>(alloc, top, 1, words)?;
        let side = NodeList::build(alloc, &nodes)?;
        Ok(side)
    }
}

// The endpoints of a hose, and `links` after them.
pub(crate) struct TheEnds<T> {
    fields: PhantomData<T>,
}

impl<T: LineFields> LineFields for TheEnds<T> {
    type FieldValues = (Hose, T::FieldValues);

    ghost fields = { the_ends T.fields };

    ghost values = { λ told. (told.0, T.values told.1) };

    fn read(alloc: Global, top: &Topology, words: &mut Cursor<'_>) -> Read<Self::FieldValues> {
        let ends = read_until::<AscendingEnds>(alloc, top, LEAST_ENDS, b"links", words)?;
        let hose = Hose::from_ends(alloc, &ends)?;
        let rest = T::read(alloc, top, words)?;
        Ok((hose, rest))
    }
}

// The numbers of VPNs, and `at` after them.
pub(crate) struct TheNumbers<T> {
    fields: PhantomData<T>,
}

impl<T: LineFields> LineFields for TheNumbers<T> {
    type FieldValues = (VpnList, T::FieldValues);

    ghost fields = { the_numbers T.fields };

    ghost values = { λ told. (told.0, T.values told.1) };

    fn read(alloc: Global, top: &Topology, words: &mut Cursor<'_>) -> Read<Self::FieldValues> {
        let ids = read_until::<AscendingNumbers>(alloc, top, 0, b"at", words)?;
        let ids = VpnList::from_vec(ids);
        let rest = T::read(alloc, top, words)?;
        Ok((ids, rest))
    }
}

// Amounts on links, in ascending order of links.
struct AscendingPairs;

impl Items for AscendingPairs {
    type ListItem = ReservedLink;

    ghost word_of = { λ _. pair_word };

    ghost fine = { AreAmounts };

    ghost may_come = { λ network. IsNextItem firsts (IsAmountOf network) };

    // The amount that a word tells, where its link comes after those of the others.
    fn next(top: &Topology, pairs: &[ReservedLink], word: &[u8]) -> Option<ReservedLink> {
        let (link, amount) = parts(word)?;
        let Some(link) = link_number(top, link) else {
            return None;
        };
        let Some(amount) = number(amount, u64::MAX) else {
            return None;
        };
        if comes_after(pairs, (link, amount)) {
            Some((link, amount))
        } else {
            None
        }
    }
}

// Nodes in ascending order.
struct AscendingNodes;

impl Items for AscendingNodes {
    type ListItem = u32;

    ghost word_of = { name_of };

    ghost fine = { IsSide };

    ghost may_come = { λ network. IsNextItem (λ nodes. nodes) (IsNodeOf network) };

    fn next(top: &Topology, nodes: &[u32], word: &[u8]) -> Option<u32> {
        node_after(top, nodes, word)
    }
}

// The node that a word names, where it comes after the others.
fn node_after(top: &Topology, nodes: &[u32], word: &[u8]) -> Option<u32>
    requires ascending { IsStrictlyIncreasing nodes.now }
    requires network { IsNetwork top.now }
    ensures some { IfSome result (λ node. (word.now ≡ name_of top.now node)
        × IsNextItem (λ nodes. nodes) (IsNodeOf top.now) nodes.now node) }
    ensures none { IfNone result (TellsNone (name_of top.now)
        (IsNextItem (λ nodes. nodes) (IsNodeOf top.now) nodes.now) word.now) }
{
    let node = top.find(&Name::read(word)?)?;
    match nodes.last() {
        Some(last) if *last >= node => None,
        _ => Some(node),
    }
}

// Endpoints in ascending order of nodes.
struct AscendingEnds;

impl Items for AscendingEnds {
    type ListItem = Endpoint;

    ghost word_of = { end_word };

    ghost fine = { AreEnds };

    ghost may_come = { IsNextEnd };

    // The endpoint that a word tells, where its node comes after those of the others and there is
    // room for one more.
    fn next(top: &Topology, ends: &[Endpoint], word: &[u8]) -> Option<Endpoint> {
        let Some(end) = endpoint(top, word) else {
            return None;
        };
        if ends.len() >= MOST_ENDS {
            return None;
        }
        if comes_after(ends, end) {
            Some(end)
        } else {
            None
        }
    }
}

// Whether a pair may come after those that ascend by their first numbers.
fn comes_after(pairs: &[(u32, u64)], pair: (u32, u64)) -> bool
    requires { IsAscending pairs.now }
    ensures { IsTrue result ↔ IsAscending (pairs.now ++ pair ∷ []) }
{
    match pairs.last() {
        Some(last) => last.0 < pair.0,
        None => true,
    }
}

// Numbers in ascending order.
struct AscendingNumbers;

impl Items for AscendingNumbers {
    type ListItem = u64;

    ghost word_of = { λ _. decimal };

    ghost fine = { λ _. AreNumbers };

    ghost may_come = { λ _. IsNextItem (λ numbers. numbers) Fits64 };

    // The number that a word tells, where it comes after the others.
    fn next(_top: &Topology, numbers: &[u64], word: &[u8]) -> Option<u64> {
        let told = number_told(word)?;
        match numbers.last() {
            Some(last) if *last >= told => None,
            _ => Some(told),
        }
    }
}
