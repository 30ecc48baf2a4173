// Why a line was not read.
ghost use Rattle.std.specs.Prelude.{◌≡◌};
ghost use Rattle.hose_proto.specs.declared.fault.ReadFault.TheVariants.{Bad, Memory};

use hose_words::WrongWord;
use std::alloc::{AllocError, AllocFailed};

/// Why a line was not read.
#[derive(Clone, Copy, Debug, PartialEq, Eq)]
pub enum ReadFault {
    /// The first word that is not allowed, by its number in the line, counted from 1. One more than
    /// the words where the line ends too early.
    Bad { word: u64 },
    /// There was too little memory.
    Memory,
}

/// What was read of a line, or why it was not.
pub type Read<T> = Result<T, ReadFault>;

impl<T: Drop> From<AllocFailed<T>> for ReadFault {
    ghost from_gives = { λ _ fault. fault ≡ Memory };

    fn from(_failed: AllocFailed<T>) -> ReadFault {
        ReadFault::Memory
    }
}

impl From<AllocError> for ReadFault {
    ghost from_gives = { λ _ fault. fault ≡ Memory };

    fn from(_error: AllocError) -> ReadFault {
        ReadFault::Memory
    }
}

impl From<WrongWord> for ReadFault {
    ghost from_gives = { λ wrong fault. fault ≡ Bad wrong.number };

    fn from(wrong: WrongWord) -> ReadFault {
        ReadFault::Bad { word: wrong.number }
    }
}
