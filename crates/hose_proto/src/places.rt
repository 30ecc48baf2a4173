// Words that name something of a network, and the parts of words.
ghost use Rattle.std.specs.Prelude.{◌≡◌, ◌++◌, ◌∷◌, ℕ, decimal, Contains, IfOk, IfErr, IfSome, IfNone, Some};
ghost use Rattle.hose_words.specs.steps.Cursor.{Took, Misses};
ghost use Rattle.hose_words.specs.Numbers.{Fits64};
ghost use Rattle.hose_words.specs.Words.{IsChoice};
ghost use Rattle.hose_graph.specs.Hose.{Endpoint};
ghost use Rattle.hose_graph.specs.Limit.{IsUpTo};
ghost use Rattle.hose_graph.specs.Name.{IsName};
ghost use Rattle.hose_graph.specs.Network.{IsNetwork, IsLinkOf};
ghost use Rattle.hose_graph.specs.declared.limits.TheConstants.{MOST_RATE};
ghost use Rattle.hose_proto.specs.EndWords.{IsEndWord, name_in, named_rate};
ghost use Rattle.hose_proto.specs.Places.{end_word};
ghost use Rattle.hose_proto.specs.steps.Places.{IsEndOf};

use hose_graph::{Endpoint, MOST_RATE, Name, Topology};
use hose_words::{Cursor, WrongWord, number};

/// The name that the next word is.
pub fn read_name(words: &mut Cursor<'_>) -> Result<Name, WrongWord>
    ensures ok { IfOk result (λ name. Took words.old words.new name) }
    ensures is_name { IfOk result IsName }
    ensures wrong { IfErr result (λ wrong. Misses IsName words.old wrong.number) }
{
    let wrong = words.wrong();
    let Some(word) = words.next() else {
        return Err(wrong);
    };
    let Some(name) = Name::read(word) else {
        return Err(wrong);
    };
    Ok(name)
}

/// The link whose number the next word tells.
pub fn read_link_number(top: &Topology, words: &mut Cursor<'_>) -> Result<u32, WrongWord>
    ensures ok { IfOk result (λ link. Took words.old words.new (decimal link)) }
    ensures is_link { IfOk result (IsLinkOf top.now) }
    ensures wrong { IfErr result
        (λ wrong. Misses (IsChoice (IsLinkOf top.now) decimal) words.old wrong.number) }
{
    let wrong = words.wrong();
    let Some(word) = words.next() else {
        return Err(wrong);
    };
    let Some(link) = link_number(top, word) else {
        return Err(wrong);
    };
    Ok(link)
}

/// The link whose number a word tells.
pub fn link_number(top: &Topology, word: &[u8]) -> Option<u32>
    ensures told { IfSome result (λ link. word.now ≡ decimal link) }
    ensures is_link { IfSome result (IsLinkOf top.now) }
    ensures none { IfNone result ((link : ℕ)
        → word.now ≡ decimal link → IsLinkOf top.now link → ⊥) }
{
    let links = u64::from(top.links());
    let Some(link) = number(word, u64::MAX) else {
        return None;
    };
    if link < links {
        Some(link as u32)
    } else {
        None
    }
}

/// The number that a word tells.
pub fn number_told(word: &[u8]) -> Option<u64>
    ensures told { IfSome result (λ value. (word.now ≡ decimal value) × Fits64 value) }
    ensures only { (value : ℕ) → word.now ≡ decimal value → Fits64 value → result ≡ Some value }
{
    number(word, u64::MAX)
}

/// The endpoint that a word spells.
pub fn endpoint(top: &Topology, word: &[u8]) -> Option<Endpoint>
    requires { IsNetwork top.now }
    ensures spelled { IfSome result (λ end. word.now ≡ end_word top.now end) }
    ensures is_end { IfSome result (IsEndOf top.now) }
    ensures none { IfNone result ((end : Endpoint)
        → word.now ≡ end_word top.now end → IsEndOf top.now end → ⊥) }
{
    let (name, rate) = name_and_rate(word)?;
    let node = top.find(&name)?;
    Some((node, rate))
}

/// The name and the rate that the word of an endpoint has, whatever nodes there are. A rate is in
/// the customer's unit of bandwidth.
pub fn name_and_rate(word: &[u8]) -> Option<(Name, u64)>
    ensures spelled { IfSome result (λ end. word.now ≡ named_rate end.0 end.1) }
    ensures is_name { IfSome result (λ end. IsName end.0) }
    ensures is_rate { IfSome result (λ end. IsUpTo MOST_RATE end.1) }
    ensures none { IfNone result (¬ IsEndWord word.now) }
{
    let (name, rate) = parts(word)?;
    let rate = number(rate, MOST_RATE)?;
    let name = Name::read(name)?;
    (rate > 0).then_some((name, rate))
}

/// What stands before a word's first colon: of the word of an endpoint, its name.
pub fn name_before_colon(word: &[u8]) -> &[u8]
    ensures { result.now ≡ name_in word.now }
{
    match parts(word) {
        Some((name, _)) => name,
        None => word,
    }
}

/// What stands before a word's first colon, and what stands after it.
pub fn parts(word: &[u8]) -> Option<(&[u8], &[u8])>
    ensures spelled { IfSome result (λ parts. word.now ≡ parts.0.now ++ 58 ∷ parts.1.now) }
    ensures first { IfSome result (λ parts. ¬ Contains parts.0.now 58) }
    ensures none { IfNone result (¬ Contains word.now 58) }
{
    let colon = word.iter().position(|byte| *byte == b':')?;
    Some((&word[..colon], &word[colon + 1..]))
}
