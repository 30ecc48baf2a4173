// The fields of a line as types, each of which is read with those that follow it.
ghost use Rattle.std.specs.Prelude.{◌≡◌, ◌<◌, ℕ, List, codes, length, slice_get, IfOk, OnOk, IfErr};
ghost use Rattle.hose_words.specs.steps.Cursor.{Took, TookAll, Misses, IsWrong};
ghost use Rattle.hose_words.specs.steps.Form.{anything, these};
ghost use Rattle.hose_graph.specs.Network.{IsNetwork, name_of};
ghost use Rattle.hose_replies.specs.steps.Fields.{Fields, Values, a_link, a_link_told, a_missing, a_number, a_service, a_word, no_more, FieldsTell};
ghost use Rattle.hose_proto.specs.ReplyWords.{words_of_link};
ghost use Rattle.hose_replies.specs.steps.Reading.{FailsAt};

use crate::head::{MISSING, Missing, SERVICES, Service};
use hose_graph::Topology;
use hose_proto::{Read, next_choice, read_link_number};
use hose_words::{Cursor, WrongWord};
use std::alloc::Global;
use std::marker::PhantomData;

// The fields that may stand from some word of a line on.
pub(crate) trait LineFields {
    // What they tell.
    type FieldValues;

    ghost fields: { Fields };

    ghost values: { Self.FieldValues → Values fields };

    // What the words to come tell, to the end of the line.
    fn read(alloc: Global, top: &Topology, words: &mut Cursor<'_>) -> Read<Self::FieldValues>
        requires { IsNetwork top.now }
        ensures ok { IfOk result (λ told. FieldsTell top.now fields (values told) words.old.left) }
        ensures fault { IfErr result (FailsAt top.now fields words.old) };
}

// Nothing more.
pub(crate) struct NoMore;

impl LineFields for NoMore {
    type FieldValues = ();

    ghost fields = { no_more };

    ghost values = { λ _. tt };

    fn read(_alloc: Global, _top: &Topology, words: &mut Cursor<'_>) -> Read<Self::FieldValues> {
        words.finish()?;
        Ok(())
    }
}

// A word that is known.
pub(crate) trait KnownWord {
    ghost word: { List ℕ };

    fn word() -> &'static [u8]
        ensures { result.now ≡ word };
}

pub(crate) struct Word<W, T> {
    fields: PhantomData<(W, T)>,
}

impl<W: KnownWord, T: LineFields> LineFields for Word<W, T> {
    type FieldValues = T::FieldValues;

    ghost fields = { a_word W.word T.fields };

    ghost values = { T.values };

    fn read(alloc: Global, top: &Topology, words: &mut Cursor<'_>) -> Read<Self::FieldValues> {
        words.expect(W::word())?;
        let rest = T::read(alloc, top, words)?;
        Ok(rest)
    }
}

// A number that 64 bits hold.
pub(crate) struct Number<T> {
    fields: PhantomData<T>,
}

impl<T: LineFields> LineFields for Number<T> {
    type FieldValues = (u64, T::FieldValues);

    ghost fields = { a_number T.fields };

    ghost values = { λ told. (told.0, T.values told.1) };

    fn read(alloc: Global, top: &Topology, words: &mut Cursor<'_>) -> Read<Self::FieldValues> {
        let number = words.number()?;
        let rest = T::read(alloc, top, words)?;
        Ok((number, rest))
    }
}

// The number of a link.
pub(crate) struct LinkNumber<T> {
    fields: PhantomData<T>,
}

impl<T: LineFields> LineFields for LinkNumber<T> {
    type FieldValues = (u64, T::FieldValues);

    ghost fields = { a_link T.fields };

    ghost values = { λ told. (told.0, T.values told.1) };

    fn read(alloc: Global, top: &Topology, words: &mut Cursor<'_>) -> Read<Self::FieldValues> {
        let link = read_link_number(top, words)?;
        let rest = T::read(alloc, top, words)?;
        Ok((u64::from(link), rest))
    }
}

// The number of a link, and what the topology tells of the link.
pub(crate) struct LinkTold<T> {
    fields: PhantomData<T>,
}

impl<T: LineFields> LineFields for LinkTold<T> {
    type FieldValues = (u64, T::FieldValues);

    ghost fields = { a_link_told T.fields };

    ghost values = { λ told. (told.0, T.values told.1) };

    fn read(alloc: Global, top: &Topology, words: &mut Cursor<'_>) -> Read<Self::FieldValues> {
        let link = read_link_number(top, words)?;
        expect_link(top, link, words)?;
        let rest = T::read(alloc, top, words)?;
        Ok((u64::from(link), rest))
    }
}

// Passes over the next words, which have to be what the topology tells of this link.
fn expect_link(top: &Topology, link: u32, words: &mut Cursor<'_>) -> Result<(), WrongWord>
    requires { link < length top.now.links }
    ensures ok { OnOk result
        (TookAll words.old words.new (words_of_link top.now (slice_get top.now.links link))) }
    ensures wrong { IfErr result (λ wrong. IsWrong
        (these (words_of_link top.now (slice_get top.now.links link)) anything)
        words.old wrong.number) }
{
    let link = top.link(link);
    expect_node(top, link.a, words)?;
    expect_node(top, link.b, words)?;
    words.expect(b"capacity")?;
    words.expect_number(link.capacity)?;
    words.expect(b"cost")?;
    words.expect_number(link.cost)?;
    Ok(())
}

// Passes over the next word, which has to be the name of this node.
fn expect_node(top: &Topology, node: u32, words: &mut Cursor<'_>) -> Result<(), WrongWord>
    requires { node < length top.now.nodes }
    ensures ok { OnOk result (Took words.old words.new (name_of top.now node)) }
    ensures wrong { IfErr result
        (λ wrong. Misses (λ word. word ≡ name_of top.now node) words.old wrong.number) }
{
    words.expect(top.name(node).bytes())
}

// What there is none of.
pub(crate) struct NoSuch<T> {
    fields: PhantomData<T>,
}

impl<T: LineFields> LineFields for NoSuch<T> {
    type FieldValues = (Missing, T::FieldValues);

    ghost fields = { a_missing T.fields };

    ghost values = { λ told. (told.0, T.values told.1) };

    fn read(alloc: Global, top: &Topology, words: &mut Cursor<'_>) -> Read<Self::FieldValues> {
        let missing = next_choice(words, &MISSING)?;
        let rest = T::read(alloc, top, words)?;
        Ok((missing, rest))
    }
}

// Whether a link is out of service, and `at`.
pub(crate) struct InService<T> {
    fields: PhantomData<T>,
}

impl<T: LineFields> LineFields for InService<T> {
    type FieldValues = (bool, T::FieldValues);

    ghost fields = { a_service T.fields };

    ghost values = { λ told. (told.0, T.values told.1) };

    fn read(alloc: Global, top: &Topology, words: &mut Cursor<'_>) -> Read<Self::FieldValues> {
        let service = next_choice(words, &SERVICES)?;
        match service {
            Service::Out => {
                let rest = Word::<AtWord, T>::read(alloc, top, words)?;
                Ok((true, rest))
            }
            Service::At => {
                let rest = T::read(alloc, top, words)?;
                Ok((false, rest))
            }
        }
    }
}

// The words that are known.

pub(crate) struct AtWord;

impl KnownWord for AtWord {
    ghost word = { codes "at" };

    fn word() -> &'static [u8] {
        b"at"
    }
}

pub(crate) struct CostWord;

impl KnownWord for CostWord {
    ghost word = { codes "cost" };

    fn word() -> &'static [u8] {
        b"cost"
    }
}

pub(crate) struct LoadWord;

impl KnownWord for LoadWord {
    ghost word = { codes "load" };

    fn word() -> &'static [u8] {
        b"load"
    }
}

pub(crate) struct LinksWord;

impl KnownWord for LinksWord {
    ghost word = { codes "links" };

    fn word() -> &'static [u8] {
        b"links"
    }
}

pub(crate) struct EndsWord;

impl KnownWord for EndsWord {
    ghost word = { codes "ends" };

    fn word() -> &'static [u8] {
        b"ends"
    }
}

pub(crate) struct SideWord;

impl KnownWord for SideWord {
    ghost word = { codes "side" };

    fn word() -> &'static [u8] {
        b"side"
    }
}

pub(crate) struct ManyWord;

impl KnownWord for ManyWord {
    ghost word = { codes "many" };

    fn word() -> &'static [u8] {
        b"many"
    }
}

pub(crate) struct QuotesWord;

impl KnownWord for QuotesWord {
    ghost word = { codes "quotes" };

    fn word() -> &'static [u8] {
        b"quotes"
    }
}
