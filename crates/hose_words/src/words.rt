// A line cut into words, and the numbers that words tell.
ghost use Rattle.std.specs.Prelude.{◌≡◌, ◌==◌, ◌≤◌, ℕ, [], ◌∷◌, length, IfSome, IfNone};
ghost use Rattle.std.specs.Iterator.{YieldsFirstRef, item_count};
ghost use Rattle.std.specs.List.{position_or_len};
ghost use Rattle.hose_words.specs.steps.Number.{IsNumber};
ghost use Rattle.hose_words.specs.Words.{words_of};

use std::marker::Model;
use std::str;

const SPACE: u8 = b' ';

/// The words of a line that are still to come, of which contracts see the list.
#[derive(Clone, Debug, Drop)]
pub struct Words<'a> {
    rest: &'a [u8],
}

impl<'a> Model for Words<'a> {
    ghost use Rattle.std.specs.Prelude.{ℕ, List};
    ghost use Rattle.hose_words.specs.Words.{words_of};

    ghost Value = { List (List ℕ) };

    ghost view = { λ words. words_of words.rest.now };
}

/// The words of a line.
pub fn split(line: &[u8]) -> Words<'_>
    ensures { result ≡ words_of line.now }
{
    Words { rest: line }
}

impl<'a> Iterator for Words<'a> {
    type Item = &'a [u8];

    ghost next_gives = { YieldsFirstRef (λ words. words) };

    ghost remaining = { item_count (λ words. words) };

    fn next(&mut self) -> Option<&'a [u8]> {
        let (word, rest) = first_word(self.rest)?;
        self.rest = rest;
        Some(word)
    }
}

// The first word and what follows it, where there is a word.
pub(crate) fn first_word(bytes: &[u8]) -> Option<(&[u8], &[u8])>
    ensures word { IfSome result
        (λ parts. words_of bytes.now ≡ parts.0.now ∷ words_of parts.1.now) }
    ensures none { IfNone result (words_of bytes.now ≡ []) }
{
    let mut rest = bytes;
    loop {
        let len = len_before(rest, SPACE);
        if len > 0 {
            return Some(rest.split_at(len));
        }
        if rest.is_empty() {
            return None;
        }
        rest = &rest[1..];
    }
}

// How many bytes stand before the first that is this one.
pub(crate) fn len_before(bytes: &[u8], byte: u8) -> usize
    ensures place { result ≡ position_or_len (λ other. other == byte) bytes.now }
    ensures bound { result ≤ length bytes.now }
{
    for len in 0..bytes.len() {
        if bytes[len] == byte {
            return len;
        }
    }
    bytes.len()
}

/// The value of a decimal without a sign and without a zero in front, where it is at most `max`.
pub fn number(bytes: &[u8], max: u64) -> Option<u64>
    ensures value { IfSome result (λ n. IsNumber bytes.now n × n ≤ max) }
    ensures none { IfNone result ((n : ℕ) → n ≤ max → IsNumber bytes.now n → ⊥) }
{
    if let [b'+', ..] | [b'0', _, ..] = bytes {
        return None;
    }
    let Ok(text) = str::from_utf8(bytes) else {
        return None;
    };
    let value = text.parse::<u64>().ok()?;
    (value <= max).then_some(value)
}
