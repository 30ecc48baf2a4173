// Bytes that a file names, and words that stand for bytes.
use crate::change::Range;
use cases_common::{Trouble, first, from_hex, number};
use std::alloc::Global;

#[derive(Drop)]
struct NamedBytes {
    name: String,
    bytes: Vec<u8>,
}

/// The bytes that the lines so far have named.
#[derive(Drop)]
pub struct BytesByName {
    all: Vec<NamedBytes>,
}

impl BytesByName {
    pub fn new(alloc: Global) -> BytesByName {
        BytesByName {
            all: Vec::new(alloc),
        }
    }

    /// Adds a name and its bytes, as `NAME WORD ..` says them.
    pub fn define(&mut self, alloc: Global, line: &str) -> Result<(), Trouble> {
        let (name, words) = first(line);
        let bytes = self.bytes(alloc, words)?;
        let name = String::from_str(alloc, name)?;
        self.all.push(NamedBytes { name, bytes })?;
        Ok(())
    }

    /// The bytes that have this name.
    pub fn get(&self, name: &str) -> Option<&[u8]> {
        for named in &self.all {
            if named.name.as_str() == name {
                return Some(&named.bytes);
            }
        }
        None
    }

    /// The bytes for which these words stand.
    pub fn bytes(&self, alloc: Global, words: &str) -> Result<Vec<u8>, Trouble> {
        let mut bytes = Vec::new(alloc);
        for word in words.split_whitespace() {
            self.add(alloc, &mut bytes, word)?;
        }
        Ok(bytes)
    }

    fn add(&self, alloc: Global, bytes: &mut Vec<u8>, word: &str) -> Result<(), Trouble> {
        if let Some(rest) = word.strip_prefix('@') {
            let (place, digits) = rest.split_once(':').ok_or(Trouble::Word)?;
            write_over(bytes, number(place)?, &from_hex(alloc, digits)?);
        } else if let Some((range, digits)) = word.split_once(':') {
            add_numbered(bytes, Range::read(range)?, &from_hex(alloc, digits)?)?;
        } else if let Some(named) = self.get(word) {
            bytes.extend_from_slice(named)?;
        } else {
            bytes.extend_from_slice(&from_hex(alloc, word)?)?;
        }
        Ok(())
    }
}

fn write_over(bytes: &mut [u8], place: u64, written: &[u8]) {
    let mut at = place as usize;
    for byte in written {
        if let Some(old) = bytes.get_mut(at) {
            *old = *byte;
        }
        at = at.saturating_add(1);
    }
}

// For each number its two bytes, and these after them.
fn add_numbered(bytes: &mut Vec<u8>, range: Range, rest: &[u8]) -> Result<(), Trouble> {
    for number in range.from..range.to {
        bytes.extend_from_slice(&((number % 65_536) as u16).to_be_bytes())?;
        bytes.extend_from_slice(rest)?;
    }
    Ok(())
}
