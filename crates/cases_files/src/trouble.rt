// What is wrong with a file of cases, and why the program stops.
use std::alloc::AllocError;
use std::io;
use thiserror::Error;

// What is wrong with a line or a file. A variant for each would have a proof for each.
pub const NO_SUCH_LINE: &str = "the line begins with no word that a case file knows";

pub const NO_NUMBER: &str = "a number is wanted";

pub const BAD_BRACE: &str =
    "a brace holds s, t, r, o, c, .., b and a byte, or a number to count up from, and is closed";

pub const ZERO: &str = "a piece has one byte at least, and calls are counted from 1";

pub const BAD_DIGITS: &str = "bytes are written in pairs of hexadecimal digits";

pub const NO_SUCH_CALL: &str = "a call of a disk is len, read, write, cut or sync";

pub const NO_SUCH_CONNECTION: &str = "connections are counted from 1, and begin in order";

pub const NO_SUCH_BOOK: &str = "books are counted from 1, and begin in order";

pub const NOTHING_TO_COMPARE: &str = "the case says nothing of status, output, what is taken, \
    what is left or what a connection is given";

pub const NO_CASE: &str = "the file has no case";

/// What is wrong with a line of a case file, or why a case could not be run.
#[derive(Debug, Drop, Error)]
pub enum CaseTrouble {
    #[error("{0}")]
    Case(&'static str),
    #[error("no memory")]
    Memory(#[from(alloc)] AllocError),
    #[error("{0}")]
    System(#[from] io::Error),
}

impl CaseTrouble {
    /// The case has a text that is no network, or a journal that is none of its.
    pub fn opening() -> CaseTrouble {
        CaseTrouble::Case("the text is no network, or the journal none of its")
    }

    /// The store of the case was not closed.
    pub fn close() -> CaseTrouble {
        CaseTrouble::Case("the store is not closed")
    }
}
