// A line of bytes by a short rule: how often it comes, whether a line feed ends it, and what stands
// in braces.
use crate::trouble::{BAD_BRACE, CaseTrouble, NO_NUMBER};
use cases_common::first;
use itoa::Buffer;

/// A gap in a line of what must come: any text of a byte or more may stand there.
pub const GAP: &str = "{..}";

/// What stands after `<`, `>` or `=` in a case file.
#[derive(Clone, Copy)]
pub struct Pattern<'a> {
    times: u64,
    ends_line: bool,
    text: &'a str,
}

impl<'a> Pattern<'a> {
    /// Reads ` TEXT`, `20001 TEXT`, `. TEXT` or `20001. TEXT`. The text may be left out, and
    /// then the space before it too.
    pub fn read(rest: &'a str) -> Result<Pattern<'a>, CaseTrouble> {
        let (rule, text) = first(rest);
        let times = rule.strip_suffix('.');
        Ok(Pattern {
            times: times_of(times.unwrap_or(rule))?,
            ends_line: times.is_none(),
            text,
        })
    }

    /// Adds the bytes that it stands for.
    pub fn add_to(&self, bytes: &mut Vec<u8>) -> Result<(), CaseTrouble> {
        for nth in 0..self.times {
            add_once(bytes, self.text, nth)?;
            if self.ends_line {
                bytes.push(b'\n')?;
            }
        }
        Ok(())
    }
}

fn times_of(digits: &str) -> Result<u64, CaseTrouble> {
    if digits.is_empty() {
        return Ok(1);
    }
    number(digits)
}

/// The number that these digits write.
pub fn number(digits: &str) -> Result<u64, CaseTrouble> {
    digits.parse().ok().ok_or(CaseTrouble::Case(NO_NUMBER))
}

// Adds the text as it stands at its `nth` time, counted from 0.
fn add_once(bytes: &mut Vec<u8>, text: &str, nth: u64) -> Result<(), CaseTrouble> {
    let mut parts = text.split('{');
    if let Some(plain) = parts.next() {
        bytes.extend_from_slice(plain.as_bytes())?;
    }
    for part in parts {
        let Some((mark, plain)) = part.split_once('}') else {
            return Err(CaseTrouble::Case(BAD_BRACE));
        };
        add_mark(bytes, mark, nth)?;
        bytes.extend_from_slice(plain.as_bytes())?;
    }
    Ok(())
}

// Adds what stands in braces.
fn add_mark(bytes: &mut Vec<u8>, mark: &str, nth: u64) -> Result<(), CaseTrouble> {
    match mark {
        "s" => bytes.push(b' ')?,
        "t" => bytes.push(b'\t')?,
        "r" => bytes.push(b'\r')?,
        "o" => bytes.push(b'{')?,
        "c" => bytes.push(b'}')?,
        ".." => bytes.extend_from_slice(GAP.as_bytes())?,
        mark => match mark.strip_prefix('b') {
            Some(byte) => bytes.push(byte.parse().ok().ok_or(CaseTrouble::Case(BAD_BRACE))?)?,
            None => add_count(bytes, mark, nth)?,
        },
    }
    Ok(())
}

// Adds a number, which each further time is one more.
fn add_count(bytes: &mut Vec<u8>, first: &str, nth: u64) -> Result<(), CaseTrouble> {
    let first = number(first).ok().ok_or(CaseTrouble::Case(BAD_BRACE))?;
    let count = first.saturating_add(nth);
    bytes.extend_from_slice(Buffer::new().format(count).as_bytes())?;
    Ok(())
}
