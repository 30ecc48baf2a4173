// Words of endpoints, by their form alone.
ghost use Rattle.std.specs.Prelude.{◌≡◌, ◌↔◌, ◌+◌, ◌≤◌, Any, IfErr, IfNone, IfOk, IfSome, IsTrue, length, map};
ghost use Rattle.std.specs.String.{string_bytes};
ghost use Rattle.hose_words.specs.steps.Cursor.{IsWrong};
ghost use Rattle.hose_proto.specs.EndWords.{name_in};
ghost use Rattle.hose_proto.specs.steps.EndWords.{AreEndWords, IsNewEndWord, end_words_form};
ghost use Rattle.hosed_requests.specs.steps.ProgramWords.{at_word};

use hose_graph::{LEAST_ENDS, MOST_ENDS};
use hose_proto::{name_and_rate, name_before_colon};

/// The words from this one on, counted from 1, where they are those of the endpoints of a hose;
/// else the number of the first that is not allowed.
pub fn ends_at(words: &[String], at: u64) -> Result<&[String], u64>
    requires some { 1 ≤ at }
    requires there { at ≤ length words.now + 1 }
    ensures ok { IfOk result (λ ends.
        map string_bytes ends.now ≡ (at_word at (map string_bytes words.now)).left) }
    ensures are { IfOk result (λ ends. AreEndWords (map string_bytes ends.now)) }
    ensures wrong { IfErr result
        (IsWrong end_words_form (at_word at (map string_bytes words.now))) }
{
    let ends = &words[at as usize - 1..];
    match wrong_end(ends) {
        None => Ok(ends),
        Some(place) => Err(at + place),
    }
}

// The place of the first of these words that is not allowed, counted from 0; that after the last
// one where there are too few.
fn wrong_end(ends: &[String]) -> Option<u64>
    ensures some { IfSome result
        (λ place. IsWrong end_words_form (at_word 1 (map string_bytes ends.now)) (place + 1)) }
    ensures within { IfSome result (λ place. place ≤ length ends.now) }
    ensures none { IfNone result (AreEndWords (map string_bytes ends.now)) }
{
    let mut place = 0;
    while place < ends.len() {
        if !is_new_end(&ends[..place], &ends[place]) {
            return Some(place as u64);
        }
        place += 1;
    }
    if place < LEAST_ENDS {
        Some(place as u64)
    } else {
        None
    }
}

// Whether a word may come after others, as one more endpoint of a hose.
fn is_new_end(earlier: &[String], word: &str) -> bool
    ensures { IsTrue result ↔ IsNewEndWord (map string_bytes earlier.now) word.now }
{
    let Some((name, _)) = name_and_rate(word.as_bytes()) else {
        return false;
    };
    earlier.len() < MOST_ENDS && !has_name(earlier, name.bytes())
}

// Whether one of the words has the name.
fn has_name(ends: &[String], name: &[u8]) -> bool
    ensures { IsTrue result ↔ Any (λ end. name_in (string_bytes end) ≡ name.now) ends.now }
{
    for place in 0..ends.len() {
        if is_named(&ends[place], name) {
            return true;
        }
    }
    false
}

// Whether a word has the name.
fn is_named(word: &str, name: &[u8]) -> bool
    ensures { IsTrue result ↔ (name_in word.now ≡ name.now) }
{
    name_before_colon(word.as_bytes()) == name
}
