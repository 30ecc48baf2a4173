// A line of a certificate, read from its words.
ghost use Rattle.std.specs.Prelude.{◌≡◌, ◌≤◌, ◌↔◌, ℕ, List, [], ◌∷◌, IfErr, IfOk, IfNone, IfSome, IsTrue, MatchOption, decimal, length};
ghost use Rattle.hose_graph.specs.Network.{Network, IsNetwork};
ghost use Rattle.hose_cert.specs.steps.CertLine.{AreWordsOf, IsSpaced, SaysLine};
ghost use Rattle.hose_cert.specs.steps.Reading.{AreNumberWords, IsFrom, IsLineTold, IsToldAfter};

use crate::fault::CertFault;
use crate::statement::{KINDS, LINE_NUMBERS, MOST_NUMBER, Pot, Statement, StatementKind};
use hose_graph::{MOST_AMOUNT, Topology};
use hose_proto::{ReadFault, next_choice, read_hose};
use hose_words::Cursor;
use std::alloc::Global;

// What words tell, where they are those of a certificate.
type Parsed<T> = Result<Option<T>, CertFault>;

// What a line says, where it is one of a certificate.
pub(crate) fn read_line(alloc: Global, top: &Topology, line: &[u8]) -> Parsed<Statement>
    requires { IsNetwork top.now }
    ensures told { IfOk result (IsLineTold (SaysLine top.now line.now)) }
    ensures memory { IfErr result (λ fault. fault ≡ CertFault.Memory) }
{
    if !is_spaced(line) {
        return Ok(None);
    }
    let mut words = Cursor::new(line);
    read_words(alloc, top, &mut words)
}

// Whether one space stands between each two words, and none elsewhere.
fn is_spaced(line: &[u8]) -> bool
    ensures { IsTrue result ↔ IsSpaced line.now }
{
    line.split(|byte| *byte == b' ')
        .all(|part| !part.is_empty())
}

// What the words of a line say.
fn read_words(alloc: Global, top: &Topology, words: &mut Cursor<'_>) -> Parsed<Statement>
    requires { IsNetwork top.now }
    ensures told { IfOk result (IsLineTold (AreWordsOf top.now words.old.left)) }
    ensures memory { IfErr result (λ fault. fault ≡ CertFault.Memory) }
{
    let Ok(kind) = next_choice(words, &KINDS) else {
        return Ok(None);
    };
    match kind {
        StatementKind::Cost => Ok(read_cost(words)),
        StatementKind::Hose => read_ends(alloc, top, words),
        StatementKind::Use => Ok(read_use(top, words)),
        StatementKind::Without => Ok(read_without(top, words)),
        StatementKind::Pot => read_pot(alloc, top, words),
        StatementKind::End => Ok(read_end(words)),
    }
}

// The words after `cost`.
fn read_cost(words: &mut Cursor<'_>) -> Option<Statement>
    ensures { (network : Network) → IsToldAfter network StatementKind.Cost words.old.left result }
{
    let Some(cost) = last_number(words, 0, MOST_NUMBER + 1) else {
        return None;
    };
    Some(Statement::Cost(cost))
}

// The words after `hose`.
fn read_ends(alloc: Global, top: &Topology, words: &mut Cursor<'_>) -> Parsed<Statement>
    requires { IsNetwork top.now }
    ensures told { IfOk result (IsToldAfter top.now StatementKind.Hose words.old.left) }
    ensures memory { IfErr result (λ fault. fault ≡ CertFault.Memory) }
{
    match read_hose(alloc, top, words) {
        Ok(hose) => Ok(Some(Statement::Hose(hose))),
        Err(ReadFault::Bad { .. }) => Ok(None),
        Err(ReadFault::Memory) => Err(CertFault::Memory),
    }
}

// The words after `use`.
fn read_use(top: &Topology, words: &mut Cursor<'_>) -> Option<Statement>
    ensures { IsToldAfter top.now StatementKind.Use words.old.left result }
{
    let Some(link) = next_number(words, 0, u64::from(top.links())) else {
        return None;
    };
    let Some(amount) = last_number(words, 1, MOST_AMOUNT + 1) else {
        return None;
    };
    Some(Statement::Use((link as u32, amount)))
}

// The word after `without`.
fn read_without(top: &Topology, words: &mut Cursor<'_>) -> Option<Statement>
    ensures { IsToldAfter top.now StatementKind.Without words.old.left result }
{
    let Some(link) = last_number(words, 0, u64::from(top.links())) else {
        return None;
    };
    Some(Statement::Without(link as u32))
}

// The words after `pot`.
fn read_pot(alloc: Global, top: &Topology, words: &mut Cursor<'_>) -> Parsed<Statement>
    ensures told { IfOk result (IsToldAfter top.now StatementKind.Pot words.old.left) }
    ensures memory { IfErr result (λ fault. fault ≡ CertFault.Memory) }
{
    let nodes = top.nodes();
    let Some(root) = next_number(words, 0, u64::from(nodes)) else {
        return Ok(None);
    };
    let Some(from) = next_number(words, 0, u64::from(nodes)) else {
        return Ok(None);
    };
    let from = from as u32;
    let count = LINE_NUMBERS.min(nodes - from);
    let Some(numbers) = read_numbers(alloc, count as usize, words)? else {
        return Ok(None);
    };
    Ok(Some(Statement::Pot(Pot {
        root: root as u32,
        from,
        numbers,
    })))
}

// Nothing after `end`.
fn read_end(words: &Cursor<'_>) -> Option<Statement>
    ensures { (network : Network) → IsToldAfter network StatementKind.End words.now.left result }
{
    if is_over(words) {
        Some(Statement::End)
    } else {
        None
    }
}

// So many numbers, up to the end of the line.
fn read_numbers(alloc: Global, count: usize, words: &mut Cursor<'_>) -> Parsed<Vec<u64>>
    ensures told { IfOk result (λ told. MatchOption told
        ((numbers : List ℕ) → AreNumberWords count words.old.left numbers → ⊥)
        (λ numbers. AreNumberWords count words.old.left numbers.items)) }
    ensures memory { IfErr result (λ fault. fault ≡ CertFault.Memory) }
{
    let mut numbers = Vec::new(alloc);
    while numbers.len() < count {
        let Some(number) = next_number(words, 0, MOST_NUMBER + 1) else {
            return Ok(None);
        };
        numbers.push(number)?;
    }
    if is_over(words) {
        Ok(Some(numbers))
    } else {
        Ok(None)
    }
}

// The number that the last word tells, from the least to below the end.
fn last_number(words: &mut Cursor<'_>, least: u64, end: u64) -> Option<u64>
    ensures some { IfSome result
        (λ number. (words.old.left ≡ decimal number ∷ []) × IsFrom least end number) }
    ensures none { IfNone result ((number : ℕ)
        → words.old.left ≡ decimal number ∷ [] → IsFrom least end number → ⊥) }
{
    let number = next_number(words, least, end)?;
    if is_over(words) { Some(number) } else { None }
}

// The number that the next word tells, from the least to below the end.
fn next_number(words: &mut Cursor<'_>, least: u64, end: u64) -> Option<u64>
    ensures some { IfSome result
        (λ number. (words.old.left ≡ decimal number ∷ words.new.left) × IsFrom least end number) }
    ensures none { IfNone result ((number : ℕ) (rest : List (List ℕ))
        → words.old.left ≡ decimal number ∷ rest → IsFrom least end number → ⊥) }
{
    let Ok(number) = words.number() else {
        return None;
    };
    if least <= number && number < end {
        Some(number)
    } else {
        None
    }
}

// Whether no word is to come.
fn is_over(words: &Cursor<'_>) -> bool
    ensures { IsTrue result ↔ (words.now.left ≡ []) }
{
    words.peek().is_none()
}
