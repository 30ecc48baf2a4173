// Lines of a file, and their words: parts, numbers, names, bytes, and calls and stops of a disk.
use crate::trouble::Trouble;
use hose_disk::{DiskCall, Pick};
use hose_graph::Name;
use std::alloc::{AllocError, Global};

/// What a stop may leave of bytes that no sync made durable.
pub const STOP_PICKS: [Pick; 5] = [
    Pick::Kept,
    Pick::Lost,
    Pick::Fill(0),
    Pick::Fill(1),
    Pick::Fill(255),
];

/// The lines of a file that are neither empty nor begin with `#`.
pub fn cases_of(alloc: Global, text: &str) -> Result<Vec<&str>, AllocError> {
    let mut cases = Vec::new(alloc);
    for line in text.lines() {
        if !line.is_empty() && !line.starts_with('#') {
            cases.push(line)?;
        }
    }
    Ok(cases)
}

/// The first word of a line, and the rest.
pub fn first(line: &str) -> (&str, &str) {
    line.split_once(' ').unwrap_or((line, ""))
}

/// The name that a word is.
pub fn name(word: &str) -> Result<Name, Trouble> {
    Name::read(word.as_bytes()).ok_or(Trouble::Word)
}

/// The number that a word is.
pub fn number(word: &str) -> Result<u64, Trouble> {
    word.parse().ok().ok_or(Trouble::Word)
}

/// The numbers between commas.
pub fn numbers(alloc: Global, words: &str) -> Result<Vec<u64>, Trouble> {
    let mut found = Vec::new(alloc);
    for word in words.split(',') {
        found.push(number(word)?)?;
    }
    Ok(found)
}

/// The bytes of these hexadecimal digits.
pub fn from_hex(alloc: Global, digits: &str) -> Result<Vec<u8>, Trouble> {
    hex::decode(alloc, digits).ok().ok_or(Trouble::Word)
}

/// The kind of a disk's calls that a word is.
pub fn disk_call(word: &str) -> Option<DiskCall> {
    match word {
        "len" => Some(DiskCall::Len),
        "read" => Some(DiskCall::Read),
        "write" => Some(DiskCall::Write),
        "cut" => Some(DiskCall::Cut),
        "sync" => Some(DiskCall::Sync),
        _ => None,
    }
}
