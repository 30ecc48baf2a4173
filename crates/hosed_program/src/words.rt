// The words that the program is run with, as texts.
ghost use Rattle.std.specs.Prelude.{◌≡◌, ◌<◌, ◌≤◌, IfNone, IfOk, IfSome, Err, IsNone, IsSomeAnd, length, map, take};
ghost use Rattle.std.specs.Str.{IsUtf8};
ghost use Rattle.std.specs.String.{string_bytes};
ghost use Rattle.hosed_program.specs.Given.{AreTextsOf};

use crate::given::Given;
use std::alloc::{AllocError, Global};
use std::env::FillError;

// Every word that the program takes is shorter.
const LONGEST_WORD: usize = 4_096;

// What stands for a word that is not a text, or too long: no word that is allowed is empty.
const NO_WORD: &str = "";

/// The words after the program's name, all of them.
pub fn program_words<G: Given>(given: &G, alloc: Global) -> Result<Vec<String>, AllocError>
    ensures { IfOk result (λ words. IfSome (G.words given.now) (λ all.
        length all < usize.MAX → AreTextsOf all (map string_bytes words.items))) }
{
    let mut words = Vec::new(alloc);
    let mut bytes = [0; LONGEST_WORD];
    for place in 0..usize::MAX {
        let filled = given.word(place, &mut bytes);
        let Some(word) = word_of(filled, &bytes) else {
            return Ok(words);
        };
        words.push(String::from_str(alloc, word)?)?;
    }
    Ok(words)
}

// The word that stands at the front of these bytes, so many as were filled.
fn word_of(filled: Result<usize, FillError>, bytes: &[u8]) -> Option<&str>
    requires { IfOk filled (λ count. count ≤ length bytes.now) }
    ensures text { IfOk filled (λ count. IsUtf8 (take count bytes.now)
        → IsSomeAnd result (λ word. word.now ≡ take count bytes.now)) }
    ensures no_text { IfOk filled (λ count. (¬ IsUtf8 (take count bytes.now))
        → IsSomeAnd result (λ word. word.now ≡ NO_WORD.now)) }
    ensures too_long { filled ≡ Err FillError.TooLong
        → IsSomeAnd result (λ word. word.now ≡ NO_WORD.now) }
    ensures none { filled ≡ Err FillError.NotPresent → IsNone result }
    ensures ends { IfNone result (filled ≡ Err FillError.NotPresent) }
{
    match filled {
        Ok(count) => Some(str::from_utf8(&bytes[..count]).unwrap_or(NO_WORD)),
        Err(FillError::TooLong) => Some(NO_WORD),
        Err(FillError::NotPresent) => None,
    }
}
