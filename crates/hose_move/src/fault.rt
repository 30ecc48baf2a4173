// Why entries were not all moved.
use hose_store::StoreFault;

/// Why not all entries were moved into a journal.
#[derive(Clone, Copy, Debug, PartialEq, Eq)]
pub enum MoveFault {
    /// The journal is not opened, or read no further; no entry was added.
    Store(StoreFault),
    /// The journal has another entry of this epoch than it should have, or one too many; no entry
    /// was added.
    Differs { epoch: u64 },
    /// The entry of this epoch is not sound on the network, at the book of those before it, which
    /// the journal has.
    Unsound { epoch: u64 },
    /// The disk failed as an entry was added.
    Disk,
    /// There was too little memory for an entry.
    Memory,
}
