// How far a connection to a follower is.
use crate::history::VALUE_BYTES;

/// How far a connection to a follower is.
#[derive(Clone, Copy, Debug, PartialEq, Eq)]
pub enum Stage {
    /// Nothing was asked.
    Unasked,
    /// The follower is asked how many entries it has.
    AskedEpoch,
    /// It has told so many.
    ToldEpoch { start: u64 },
    /// It is asked for the chain value of so many.
    AskedValue { start: u64 },
    /// It began with so many entries of the history, and those up to a number are handed out.
    Following { start: u64, upto: u64 },
    /// It is not followed on.
    Ended { why: Ending },
}

/// Why a follower is not followed on.
#[derive(Clone, Copy, Debug, PartialEq, Eq)]
pub enum Ending {
    /// It has more entries than the history: so many.
    Ahead {
        count: u64,
    },
    /// Its first so many entries are others: its chain value, and that of the history.
    Other {
        count: u64,
        own: [u8; VALUE_BYTES],
        ours: [u8; VALUE_BYTES],
    },
    /// What follows the first so many entries is not at hand any more.
    Gone {
        count: u64,
    },
    /// Its disk fails: it has so many entries.
    Disk {
        count: u64,
    },
    /// It has too little memory.
    Memory,
    /// It answers what no follower of this history answers there.
    Stranger,
}
