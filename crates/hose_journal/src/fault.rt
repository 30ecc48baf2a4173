// Why a journal is not opened, or read no further.
ghost use Rattle.std.specs.Prelude.{◌≡◌};
ghost use Rattle.hose_journal.specs.declared.fault.JournalFault.TheVariants.{Disk, Memory};

use crate::layout::DIGEST_BYTES;
use hose_disk::Failed;
use std::alloc::AllocError;
use thiserror::Error;

/// Why a journal is not opened, or read no further.
#[derive(Clone, Copy, Debug, Error, PartialEq, Eq)]
pub enum JournalFault {
    /// The disk failed.
    #[error("the disk failed")]
    Disk,
    /// The journal is that of another topology.
    #[error("the journal is of another topology")]
    Other {
        /// The digest that it keeps.
        kept: [u8; DIGEST_BYTES],
        /// The digest that was given.
        given: [u8; DIGEST_BYTES],
    },
    /// What stands at this place can not be read.
    #[error("the journal is damaged at byte {at}")]
    Damaged {
        at: u64,
    },
    /// There was too little memory.
    #[error("there is too little memory")]
    Memory,
}

impl From<Failed> for JournalFault {
    ghost from_gives = { λ _ fault. fault ≡ Disk };

    fn from(_error: Failed) -> JournalFault {
        JournalFault::Disk
    }
}

impl From<AllocError> for JournalFault {
    ghost from_gives = { λ _ fault. fault ≡ Memory };

    fn from(_error: AllocError) -> JournalFault {
        JournalFault::Memory
    }
}
