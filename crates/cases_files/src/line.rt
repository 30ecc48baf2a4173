// The lines of a case file.
use crate::pattern::{Pattern, number};
use crate::trouble::CaseTrouble;
use cases_common::first;

/// Where the bytes of a line go.
#[derive(Clone, Copy)]
pub enum CasePlace {
    /// To the input.
    Input,
    /// To the output.
    Output,
    /// To the text `t` of the cabinet.
    Text,
    /// To the text `u` of the cabinet.
    NewText,
    /// To what the connection of this number gives.
    Says(u64),
    /// To what the connection of this number is given.
    Told(u64),
    /// To the audit of the book of this number.
    Book(u64),
}

/// What a line of a case file says.
#[derive(Clone, Copy)]
pub enum CaseLine<'a> {
    /// An empty line, or a comment.
    Nothing,
    /// The name of the case that begins here.
    Case(&'a str),
    /// Bytes, and where they go.
    Bytes(CasePlace, Pattern<'a>),
    /// Any other word, and what stands after it, which are read where they are used.
    Setting(&'a str, &'a str),
}

impl<'a> CaseLine<'a> {
    /// What this line says.
    pub fn read(line: &'a str) -> Result<CaseLine<'a>, CaseTrouble> {
        if line.is_empty() || line.starts_with('#') {
            return Ok(CaseLine::Nothing);
        }
        match place_of(line) {
            Some((place, rest)) => Ok(CaseLine::Bytes(place, Pattern::read(rest)?)),
            None => Ok(CaseLine::by_word(line)),
        }
    }

    fn by_word(line: &'a str) -> CaseLine<'a> {
        let (word, rest) = first(line);
        if word == "case" {
            return CaseLine::Case(rest);
        }
        CaseLine::Setting(word, rest)
    }
}

// Where the bytes of a line go that begins with a mark, or a number and a mark, and what stands
// after the mark.
fn place_of(line: &str) -> Option<(CasePlace, &str)> {
    if let Some(rest) = line.strip_prefix('<') {
        return Some((CasePlace::Input, rest));
    }
    if let Some(rest) = line.strip_prefix('>') {
        return Some((CasePlace::Output, rest));
    }
    if let Some(rest) = line.strip_prefix('=') {
        return Some((CasePlace::Text, rest));
    }
    if let Some(rest) = line.strip_prefix('+') {
        return Some((CasePlace::NewText, rest));
    }
    numbered_place(line)
}

fn numbered_place(line: &str) -> Option<(CasePlace, &str)> {
    if let Some((connection, rest)) = numbered(line, '<') {
        return Some((CasePlace::Says(connection), rest));
    }
    if let Some((connection, rest)) = numbered(line, '>') {
        return Some((CasePlace::Told(connection), rest));
    }
    let (book, rest) = numbered(line, '|')?;
    Some((CasePlace::Book(book), rest))
}

// The number before a mark, where the line begins with one, and what stands after the mark.
fn numbered(line: &str, mark: char) -> Option<(u64, &str)> {
    let (digits, rest) = line.split_once(mark)?;
    Some((number(digits).ok()?, rest))
}
