// What a case is on, and what comes of it.
use crate::change::{BytesChange, Range};
use crate::names::BytesByName;
use crate::stores::{StoreCase, StoreFact};
use crate::{cabinets, disks, entries, stores};
use cases_common::{CaseText, Trouble, first};
use std::alloc::Global;

/// What is asked of a case: its first word, and the rest, whose words may name bytes.
#[derive(Clone, Copy)]
pub struct AskedCase<'a> {
    names: &'a BytesByName,
    word: &'a str,
    rest: &'a str,
}

impl<'a> AskedCase<'a> {
    pub fn read(names: &'a BytesByName, line: &'a str) -> AskedCase<'a> {
        let (word, rest) = first(line);
        AskedCase { names, word, rest }
    }
}

/// Tells what comes of a case. Answers whether that is none of the outcomes that are wanted, which
/// `|` parts.
pub fn tell_other(
    asked: AskedCase<'_>,
    wanted: &str,
    told: &mut CaseText,
) -> Result<bool, Trouble> {
    match asked.word {
        "cut" => tell_other_of(asked, BytesChange::Cut, wanted, told),
        "turn" => tell_other_of(asked, BytesChange::Turn, wanted, told),
        "every" => stores::tell_other_left(store_case(asked), wanted, told),
        _ => {
            tell_outcome(asked, told)?;
            is_other(told, wanted)
        }
    }
}

/// Whether what is told is none of the outcomes that are wanted.
pub fn is_other(told: &CaseText, wanted: &str) -> Result<bool, Trouble> {
    let got = told.told()?;
    for one in wanted.split(" | ") {
        if got == one {
            return Ok(false);
        }
    }
    Ok(true)
}

fn tell_outcome(asked: AskedCase<'_>, told: &mut CaseText) -> Result<(), Trouble> {
    match asked.word {
        "disk" => disks::tell_outcome(asked.rest, told),
        "cabinet" => cabinets::tell_outcome(asked.rest, told),
        "entry" | "text" | "store" | "chain" => tell_given(asked, told),
        word => tell_store(word, store_case(asked), told),
    }
}

fn tell_given(asked: AskedCase<'_>, told: &mut CaseText) -> Result<(), Trouble> {
    let given = Given::read(told.alloc(), asked)?;
    tell_outcome_of(&given, &given.bytes, told)
}

fn store_case(asked: AskedCase<'_>) -> StoreCase<'_> {
    let (network, words) = first(asked.rest);
    StoreCase {
        names: asked.names,
        network,
        words,
    }
}

// What comes of a store on which entries are committed, or of one that was refused.
fn tell_store(word: &str, case: StoreCase<'_>, told: &mut CaseText) -> Result<(), Trouble> {
    match word {
        "commits" => stores::tell_commits(case, told),
        "left" => stores::tell_left(case, told),
        "again" => tell_again(case, told),
        _ => Err(Trouble::Word),
    }
}

fn tell_again(case: StoreCase<'_>, told: &mut CaseText) -> Result<(), Trouble> {
    let (second, words) = first(case.words);
    let bytes = case.names.bytes(told.alloc(), words)?;
    stores::tell_again(case.network, second, &bytes, told)
}

// Bytes, of which it is asked what comes of them.
#[derive(Drop)]
struct Given<'a> {
    word: &'a str,
    // The name of the network, where they are those of a journal.
    network: &'a str,
    bytes: Vec<u8>,
}

impl<'a> Given<'a> {
    // The bytes for which the words of a case stand.
    fn read(alloc: Global, asked: AskedCase<'a>) -> Result<Given<'a>, Trouble> {
        let is_journal = asked.word == "store" || asked.word == "chain";
        let (network, words) = if is_journal {
            first(asked.rest)
        } else {
            ("", asked.rest)
        };
        Ok(Given {
            word: asked.word,
            network,
            bytes: asked.names.bytes(alloc, words)?,
        })
    }
}

// Tells the first outcome that is none of those wanted, where the bytes are changed by each number
// of a range. Answers whether there is one.
fn tell_other_of(
    asked: AskedCase<'_>,
    change: BytesChange,
    wanted: &str,
    told: &mut CaseText,
) -> Result<bool, Trouble> {
    let (range, line) = first(asked.rest);
    let range = Range::read(range)?;
    let given = Given::read(told.alloc(), AskedCase::read(asked.names, line))?;
    tell_other_in(&given, change, range, wanted, told)
}

fn tell_other_in(
    given: &Given<'_>,
    change: BytesChange,
    range: Range,
    wanted: &str,
    told: &mut CaseText,
) -> Result<bool, Trouble> {
    for number in range.from..range.to {
        tell_changed(given, change, number, told)?;
        if is_other(told, wanted)? {
            let alloc = told.alloc();
            told.add(format!(in alloc; " by {number}"));
            return Ok(true);
        }
    }
    Ok(false)
}

fn tell_changed(
    given: &Given<'_>,
    change: BytesChange,
    number: u64,
    told: &mut CaseText,
) -> Result<(), Trouble> {
    told.clear();
    let bytes = change.made(told.alloc(), &given.bytes, number)?;
    tell_outcome_of(given, &bytes, told)
}

// What comes of these bytes in place of those that are given.
fn tell_outcome_of(given: &Given<'_>, bytes: &[u8], told: &mut CaseText) -> Result<(), Trouble> {
    match given.word {
        "entry" => entries::tell_verdict(bytes, told),
        "text" => entries::tell_text(bytes, told),
        "store" => stores::tell_found(given.network, bytes, StoreFact::Book, told),
        "chain" => stores::tell_found(given.network, bytes, StoreFact::Chain, told),
        _ => Err(Trouble::Word),
    }
}
