// Why a store is not opened.
ghost use Rattle.std.specs.Prelude.{◌≡◌};
ghost use Rattle.hose_store.specs.steps.Faults.{store_fault};

use hose_journal::JournalFault;
use thiserror::Error;

/// Why a store is not opened. Its variants are those of a journal's fault, and it is a type of its
/// own: here damage is also an entry that the book does not take, and who opens a store names no
/// journal.
#[derive(Clone, Copy, Debug, Error, PartialEq, Eq)]
pub enum StoreFault {
    /// The disk failed.
    #[error("the disk failed")]
    Disk,
    /// The journal is that of another topology.
    #[error("the journal is of another topology")]
    Other {
        /// The digest that it keeps.
        kept: [u8; 32],
        /// The digest of the topology that was given.
        given: [u8; 32],
    },
    /// At this place no whole entry can be read, or one that the book does not take.
    #[error("the journal is damaged at byte {at}")]
    Damaged {
        at: u64,
    },
    /// There was too little memory.
    #[error("there is too little memory")]
    Memory,
}

impl From<JournalFault> for StoreFault {
    ghost from_gives = { λ fault result. result ≡ store_fault fault };

    fn from(fault: JournalFault) -> StoreFault {
        match fault {
            JournalFault::Disk => StoreFault::Disk,
            JournalFault::Other { kept, given } => StoreFault::Other { kept, given },
            JournalFault::Damaged { at } => StoreFault::Damaged { at },
            JournalFault::Memory => StoreFault::Memory,
        }
    }
}
