// The words of a line, one after the other, with their numbers.
ghost use Rattle.std.specs.Prelude.{◌≡◌, ◌≤◌, ℕ, ◌+◌, List, [], drop, length, IfOk, OnOk, IfErr, IfSome, IfNone, decimal};
ghost use Rattle.hose_words.specs.Words.{words_of, IsFirst, IsChoice};
ghost use Rattle.hose_words.specs.steps.Form.{finish, Each, TellsNumber};
ghost use Rattle.hose_words.specs.Numbers.{Fits64, IsWithin};
ghost use Rattle.hose_words.specs.steps.Cursor.{Took, Misses, IsWrong};

use crate::words::{first_word, number};
use std::marker::Model;

/// A word of a line that is missing or not allowed, by its number in the line, counted from 1.
#[derive(Clone, Copy, Debug, PartialEq, Eq)]
pub struct WrongWord {
    /// One more than the words of the line where it ends too early.
    pub number: u64,
}

/// One of some words that each mean something else, as those that begin a line.
pub trait Keyword: Copy {
    /// The word of each of them.
    ghost word_of: { Self → List ℕ };

    /// The one that a word is.
    fn of(word: &[u8]) -> Option<Self>
        ensures some { IfSome result (λ keyword. word.now ≡ word_of keyword) }
        ensures none { IfNone result ((keyword : Self) → word.now ≡ word_of keyword → ⊥) };
}

/// The words of a line that are still to come, and how many came.
///
/// Each call that wants a word of some kind tells the number of the word where it is missing or not
/// of that kind, so that `?` hands on the first word of a line that is not allowed. Nothing is said
/// of where the cursor stands after that.
///
/// ```
/// let mut words = Cursor::new(line);
/// words.expect(b"show")?;
/// let id = words.number()?;
/// words.finish()?;
/// ```
#[derive(Drop)]
pub struct Cursor<'a> {
    rest: &'a [u8],
    read: u64,
}

impl<'a> Model for Cursor<'a> {
    ghost use Rattle.std.specs.Prelude.{◌+◌, ◌^◌, ◌≤◌, length};
    ghost use Rattle.hose_words.specs.Words.{words_of};
    ghost use Rattle.hose_words.specs.steps.Cursor.{Position};

    ghost Value = { Position };

    ghost view = { λ cursor. record { left = words_of cursor.rest.now; read = cursor.read } };

    // So the number of each word that may come fits.
    ghost invariant = { λ cursor. cursor.read + length (words_of cursor.rest.now) ≤ 2 ^ 63 };
}

impl<'a> Cursor<'a> {
    /// At the first word of a line.
    pub fn new(line: &'a [u8]) -> Cursor<'a>
        ensures { result ≡ record { left = words_of line.now; read = 0 } }
    {
        Cursor {
            rest: line,
            read: 0,
        }
    }

    /// The next word.
    pub fn next(&mut self) -> Option<&'a [u8]>
        ensures some { IfSome result (λ word. Took self.old self.new word.now) }
        ensures none { IfNone result (self.old.left ≡ []) }
        ensures stays { IfNone result (self.new ≡ self.old) }
    {
        let Some((word, rest)) = first_word(self.rest) else {
            return None;
        };
        self.rest = rest;
        self.read += 1;
        Some(word)
    }

    /// The next word, which stays to come.
    pub fn peek(&self) -> Option<&'a [u8]>
        ensures some { IfSome result (λ word. IsFirst (λ first. first ≡ word.now) self.now.left) }
        ensures none { IfNone result (self.now.left ≡ []) }
    {
        let Some((word, _)) = first_word(self.rest) else {
            return None;
        };
        Some(word)
    }

    /// Passes over words.
    pub fn skip(&mut self, count: u64)
        requires { count ≤ length self.old.left }
        ensures { self.new
            ≡ record { left = drop count self.old.left; read = self.old.read + count } }
    {
        for _ in 0..count {
            self.next();
        }
    }

    /// What tells that the next word is missing or not allowed.
    pub fn wrong(&self) -> WrongWord
        ensures { result.number ≡ self.now.read + 1 }
    {
        WrongWord {
            number: self.read + 1,
        }
    }

    /// Passes over the next word, which has to be this one.
    pub fn expect(&mut self, known: &[u8]) -> Result<(), WrongWord>
        ensures ok { OnOk result (Took self.old self.new known.now) }
        ensures wrong { IfErr result
            (λ wrong. Misses (λ word. word ≡ known.now) self.old wrong.number) }
    {
        let wrong = self.wrong();
        let Some(word) = self.next() else {
            return Err(wrong);
        };
        if word == known { Ok(()) } else { Err(wrong) }
    }

    /// The one of some words that the next word is.
    pub fn keyword<K: Keyword>(&mut self) -> Result<K, WrongWord>
        ensures ok { IfOk result (λ keyword. Took self.old self.new (K.word_of keyword)) }
        ensures wrong { IfErr result
            (λ wrong. Misses (IsChoice Each K.word_of) self.old wrong.number) }
    {
        let wrong = self.wrong();
        let Some(word) = self.next() else {
            return Err(wrong);
        };
        let Some(keyword) = K::of(word) else {
            return Err(wrong);
        };
        Ok(keyword)
    }

    /// The number that the next word tells.
    pub fn number(&mut self) -> Result<u64, WrongWord>
        ensures ok { IfOk result (λ value. Took self.old self.new (decimal value)) }
        ensures small { IfOk result Fits64 }
        ensures wrong { IfErr result
            (λ wrong. Misses (TellsNumber Fits64) self.old wrong.number) }
    {
        let wrong = self.wrong();
        let Some(word) = self.next() else {
            return Err(wrong);
        };
        let Some(value) = number(word, u64::MAX) else {
            return Err(wrong);
        };
        Ok(value)
    }

    /// The number that the next word tells, which has to be from the least to the most.
    pub fn number_within(&mut self, least: u64, most: u64) -> Result<u64, WrongWord>
        ensures ok { IfOk result (λ value. Took self.old self.new (decimal value)) }
        ensures within { IfOk result (IsWithin least most) }
        ensures wrong { IfErr result
            (λ wrong. Misses (TellsNumber (IsWithin least most)) self.old wrong.number) }
    {
        let wrong = self.wrong();
        let value = self.number()?;
        if least <= value && value <= most {
            Ok(value)
        } else {
            Err(wrong)
        }
    }

    /// Passes over the next word, which has to tell this number.
    pub fn expect_number(&mut self, value: u64) -> Result<(), WrongWord>
        ensures ok { OnOk result (Took self.old self.new (decimal value)) }
        ensures wrong { IfErr result
            (λ wrong. Misses (λ word. word ≡ decimal value) self.old wrong.number) }
    {
        let wrong = self.wrong();
        if self.number()? == value {
            Ok(())
        } else {
            Err(wrong)
        }
    }

    /// Makes sure that no word is to come.
    pub fn finish(&mut self) -> Result<(), WrongWord>
        ensures ok { OnOk result (self.old.left ≡ []) }
        ensures stays { OnOk result (self.new ≡ self.old) }
        ensures wrong { IfErr result (λ wrong. IsWrong finish self.old wrong.number) }
    {
        let wrong = self.wrong();
        match self.next() {
            None => Ok(()),
            Some(_) => Err(wrong),
        }
    }
}
