// Lists read from words, item by item to the end of the line.
ghost use Rattle.std.specs.Prelude.{◌≡◌, ℕ, ◌≤◌, List, [], length, map, IfOk, IfErr, IfSome, IfNone};
ghost use Rattle.hose_words.specs.steps.Cursor.{IsWrong, Took};
ghost use Rattle.hose_words.specs.steps.Form.{list};
ghost use Rattle.hose_graph.specs.Network.{Network, IsNetwork};
ghost use Rattle.hose_proto.specs.steps.Reading.{EndsList, IsFaultOf, ListGoesOn, TellsNext};

use crate::fault::Read;
use hose_graph::Topology;
use hose_words::{Cursor, WrongWord};
use std::alloc::Global;

/// What the words of a list tell, item by item.
pub trait Items {
    /// An item, which is small enough to be copied.
    type ListItem: Copy;

    // The word of an item.
    ghost word_of: { Network → Self.ListItem → List ℕ };

    // Items that may stand in a list.
    ghost fine: { Network → List Self.ListItem → Type 0 };

    // An item that may come after others.
    ghost may_come: { Network → List Self.ListItem → Self.ListItem → Type 0 };

    /// The item that a word tells, where it may come after the others.
    fn next(top: &Topology, items: &[Self::ListItem], word: &[u8]) -> Option<Self::ListItem>
        requires network { IsNetwork top.now }
        requires so_far { fine top.now items.now }
        ensures { TellsNext (word_of top.now) (may_come top.now items.now) word.now result };
}

/// The items of a list of so many at least, to the end of the line.
pub fn read_items<L: Items>(
    alloc: Global,
    top: &Topology,
    least: usize,
    words: &mut Cursor<'_>,
) -> Read<Vec<L::ListItem>>
    requires network { IsNetwork top.now }
    requires none { L.fine top.now [] }
    requires goes_on { (items : List L.ListItem) → L.fine top.now items
        → ListGoesOn (L.word_of top.now) (L.fine top.now) (L.may_come top.now items) items }
    ensures told { IfOk result (λ items. words.old.left ≡ map (L.word_of top.now) items.items) }
    ensures fine { IfOk result (λ items. L.fine top.now items.items) }
    ensures enough { IfOk result (λ items. least ≤ length items.items) }
    ensures bad { IfErr result
        (IsFaultOf (list (L.word_of top.now) (L.fine top.now) least) words.old) }
{
    let mut items = Vec::new(alloc);
    while let Some(item) = next_item::<L>(top, &items, least, words)? {
        items.push(item)?;
    }
    Ok(items)
}

// The item that the next word tells, or none where the line ends.
fn next_item<L: Items>(
    top: &Topology,
    items: &[L::ListItem],
    least: usize,
    words: &mut Cursor<'_>,
) -> Result<Option<L::ListItem>, WrongWord>
    requires network { IsNetwork top.now }
    requires so_far { L.fine top.now items.now }
    ensures next { IfOk result (λ next. IfSome next (λ item.
        Took words.old words.new (L.word_of top.now item)
        × L.may_come top.now items.now item)) }
    ensures last { IfOk result (λ next. IfNone next
        ((words.old.left ≡ []) × (least ≤ length items.now))) }
    ensures wrong { IfErr result (λ wrong. EndsList (L.word_of top.now)
        (L.may_come top.now items.now) least items.now words.old wrong.number) }
{
    let wrong = words.wrong();
    match words.next() {
        None if items.len() < least => Err(wrong),
        None => Ok(None),
        Some(word) => match L::next(top, items, word) {
            None => Err(wrong),
            item => Ok(item),
        },
    }
}
