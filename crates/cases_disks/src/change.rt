// What is changed in the bytes of a case, once for each number of a range.
use cases_common::{Trouble, number};
use std::alloc::{AllocError, Global};

/// The numbers from one up to another, which is none of them.
#[derive(Clone, Copy)]
pub struct Range {
    pub from: u64,
    pub to: u64,
}

impl Range {
    /// Reads `FROM..TO`.
    pub fn read(word: &str) -> Result<Range, Trouble> {
        let (from, to) = word.split_once("..").ok_or(Trouble::Word)?;
        Ok(Range {
            from: number(from)?,
            to: number(to)?,
        })
    }
}

/// What a number of a case does to its bytes.
#[derive(Clone, Copy)]
pub enum BytesChange {
    /// Only so many are left.
    Cut,
    /// The bit of this number is turned, counted from the lowest of the first byte.
    Turn,
}

impl BytesChange {
    pub fn made(self, alloc: Global, bytes: &[u8], number: u64) -> Result<Vec<u8>, AllocError> {
        let mut changed = Vec::from_slice(alloc, bytes)?;
        match self {
            BytesChange::Cut => changed.truncate(number as usize),
            BytesChange::Turn => turn(&mut changed, number),
        }
        Ok(changed)
    }
}

fn turn(bytes: &mut [u8], number: u64) {
    if let Some(byte) = bytes.get_mut((number / 8) as usize) {
        *byte ^= 1u8 << (number % 8);
    }
}
