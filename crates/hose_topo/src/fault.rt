// Why no topology was read.
ghost use Rattle.std.specs.Prelude.{◌≡◌};
ghost use Rattle.hose_topo.specs.declared.fault.TopoFault.TheVariants.{Memory};
ghost use Rattle.hose_topo.specs.steps.Reading.{fault_of};

use hose_words::LineFault;
use std::alloc::AllocError;
use thiserror::Error;

/// Why no topology was read.
#[derive(Clone, Copy, Debug, Error, PartialEq, Eq)]
pub enum TopoFault {
    /// The text is not that of a topology. The first word that is not allowed is told by its line
    /// and its number in it, both counted from 1. The word is 0 where the line has more than 4096
    /// bytes, and one more than its words where it ends too early. Where the text ends before the
    /// line `end`, it is word 1 of the line after the last.
    #[error("line {line}: word {word} is not allowed")]
    At { line: u64, word: u64 },
    /// A call of the source failed.
    #[error("the source failed")]
    Read,
    /// The source gave more than 1 GiB.
    #[error("the text is too long")]
    TooLong,
    /// There was too little memory.
    #[error("there is too little memory")]
    Memory,
}

impl From<AllocError> for TopoFault {
    ghost from_gives = { λ _ fault. fault ≡ Memory };

    fn from(_error: AllocError) -> TopoFault {
        TopoFault::Memory
    }
}

impl From<LineFault> for TopoFault {
    ghost from_gives = { λ line fault. fault ≡ fault_of line };

    fn from(fault: LineFault) -> TopoFault {
        match fault {
            LineFault::Read => TopoFault::Read,
            LineFault::TooLong => TopoFault::TooLong,
        }
    }
}
