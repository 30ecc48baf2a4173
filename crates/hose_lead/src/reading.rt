// The answers of a follower, read.
ghost use Rattle.std.specs.Prelude.{◌≡◌, ◌++◌, ◌∷◌, ◌↔◌, ◌<◌, ◌≤◌, ◌^◌, [], IfSome, IsTrue, codes, decimal, length};
ghost use Rattle.hex.specs.Hex.{encode_lower};
ghost use Rattle.hose_follow.specs.Answers.{offered_text};

use crate::history::VALUE_BYTES;
use hose_follow::Offered;
use hose_words::number;

// The number of digits of a chain value.
const DIGITS: usize = 2 * VALUE_BYTES;

/// The answer of a line, where it is one.
pub fn read_answer(line: &[u8]) -> Option<Offered>
    ensures { IfSome result (λ answer. line.now ≡ offered_text answer) }
{
    if let Some(n) = number_after(b"have ", line) {
        return Some(Offered::Have { n });
    }
    if let Some(n) = number_after(b"want ", line) {
        return Some(Offered::Want { n });
    }
    if let Some(at) = number_after(b"disk at ", line) {
        return Some(Offered::Disk { at });
    }
    if let Some(epoch) = number_after(b"unsound ", line) {
        return Some(Offered::Unsound { epoch });
    }
    if is_same(line, b"memory") {
        return Some(Offered::Memory);
    }
    read_differs(rest_after(b"differs at ", line)?)
}

// The number that follows these words in a line, where they stand at its front.
fn number_after(words: &[u8], line: &[u8]) -> Option<u64>
    ensures { IfSome result (λ told. line.now ≡ words.now ++ decimal told) }
{
    let rest = rest_after(words, line)?;
    number(rest, u64::MAX)
}

// What follows these words in a line, where they stand at its front.
fn rest_after<'a>(words: &[u8], line: &'a [u8]) -> Option<&'a [u8]>
    ensures { IfSome result (λ rest. line.now ≡ words.now ++ rest.now) }
{
    if line.len() < words.len() {
        return None;
    }
    let (front, rest) = line.split_at(words.len());
    if !is_same(front, words) {
        return None;
    }
    Some(rest)
}

// The answer with two chain values of what follows its first words, where it is one.
fn read_differs(rest: &[u8]) -> Option<Offered>
    ensures { IfSome result
        (λ answer. codes "differs at " ++ rest.now ≡ offered_text answer) }
{
    let len = rest.len().checked_sub(2 * (1 + DIGITS))?;
    let (word, values) = rest.split_at(len);
    let (first, second) = values.split_at(1 + DIGITS);
    Some(Offered::Differs {
        at: number(word, u64::MAX)?,
        own: read_value(first)?,
        given: read_value(second)?,
    })
}

// The chain value of a space and its digits, where it is one.
fn read_value(word: &[u8]) -> Option<[u8; VALUE_BYTES]>
    ensures { IfSome result (λ value. word.now ≡ codes " " ++ encode_lower value) }
{
    let digits = rest_after(b" ", word)?;
    let mut value = [0; VALUE_BYTES];
    hex::decode_to_slice(digits, &mut value).ok()?;
    // Capital letters are no answer's.
    let mut lower = [0; DIGITS];
    hex::encode_to_slice(value.as_slice(), &mut lower).ok()?;
    is_same(digits, &lower).then_some(value)
}

/// Whether two strings of bytes are the same.
pub fn is_same(one: &[u8], other: &[u8]) -> bool
    ensures { IsTrue result ↔ (one.now ≡ other.now) }
{
    one == other
}
