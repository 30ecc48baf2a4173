// Lists read from words, item by item to a word that ends them.
ghost use Rattle.std.specs.Prelude.{◌≡◌, ◌≢◌, ◌↔◌, ℕ, ◌≤◌, List, [], ◌∷◌, ◌++◌, All, length, map, IfOk, OnOk, IfErr, IfSome, IfNone, IsTrue};
ghost use Rattle.hose_words.specs.steps.Cursor.{IsWrong, Took};
ghost use Rattle.hose_words.specs.steps.Form.{until};
ghost use Rattle.hose_graph.specs.Network.{IsNetwork};
ghost use Rattle.hose_proto.specs.steps.Reading.{IsFaultOf, ListGoesOn};
ghost use Rattle.hose_replies.specs.steps.Fields.{Fields, form_of};
ghost use Rattle.hose_replies.specs.steps.Reading.{MissesUntil};

use hose_graph::Topology;
use hose_proto::{Items, Read};
use hose_words::{Cursor, WrongWord};
use std::alloc::Global;

// The items of a list of so many at least, up to the word that ends it, and that word.
pub(crate) fn read_until<L: Items>(
    alloc: Global,
    top: &Topology,
    least: usize,
    last: &[u8],
    words: &mut Cursor<'_>,
) -> Read<Vec<L::ListItem>>
    requires network { IsNetwork top.now }
    requires none { L.fine top.now [] }
    requires goes_on { (items : List L.ListItem) → L.fine top.now items
        → ListGoesOn (L.word_of top.now) (L.fine top.now) (L.may_come top.now items) items }
    requires apart { (items : List L.ListItem) → L.fine top.now items
        → All (λ word. word ≢ last.now) (map (L.word_of top.now) items) }
    ensures told { IfOk result (λ items. words.old.left
        ≡ map (L.word_of top.now) items.items ++ last.now ∷ words.new.left) }
    ensures fine { IfOk result (λ items. L.fine top.now items.items) }
    ensures enough { IfOk result (λ items. least ≤ length items.items) }
    ensures later { OnOk result ((rest : Fields) (place : ℕ)
        → IsWrong (form_of top.now rest) words.new place
        → IsWrong (until (L.word_of top.now) (L.fine top.now) least last.now
        (form_of top.now rest)) words.old place) }
    ensures bad { IfErr result (λ fault. (rest : Fields)
        → IsFaultOf (until (L.word_of top.now) (L.fine top.now) least last.now
        (form_of top.now rest)) words.old fault) }
{
    let mut items = Vec::new(alloc);
    while let Some(item) = next_until::<L>(top, &items, least, last, words)? {
        items.push(item)?;
    }
    Ok(items)
}

// The item that the next word tells, or none where that is the word that ends the list.
fn next_until<L: Items>(
    top: &Topology,
    items: &[L::ListItem],
    least: usize,
    last: &[u8],
    words: &mut Cursor<'_>,
) -> Result<Option<L::ListItem>, WrongWord>
    requires network { IsNetwork top.now }
    requires so_far { L.fine top.now items.now }
    ensures next { IfOk result (λ next. IfSome next (λ item.
        Took words.old words.new (L.word_of top.now item)
        × L.may_come top.now items.now item)) }
    ensures ended { IfOk result (λ next. IfNone next
        (Took words.old words.new last.now × (least ≤ length items.now))) }
    ensures wrong { IfErr result (λ wrong. MissesUntil (L.word_of top.now)
        (L.may_come top.now items.now) least last.now items.now words.old wrong.number) }
{
    let wrong = words.wrong();
    let Some(word) = words.next() else {
        return Err(wrong);
    };
    if ends(items.len() >= least, word, last) {
        return Ok(None);
    }
    match L::next(top, items, word) {
        None => Err(wrong),
        item => Ok(item),
    }
}

// Whether a word ends a list, which it does only where there are enough items.
fn ends(enough: bool, word: &[u8], last: &[u8]) -> bool
    ensures { IsTrue result ↔ (word.now ≡ last.now) × IsTrue enough }
{
    if enough { word == last } else { false }
}
