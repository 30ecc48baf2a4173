//! A journal of a book's entries on a disk. A stop at any moment leaves an image that stands for
//! the entries that were acknowledged, or for those and one more: the one that was being written,
//! or the one in doubt, whose append has failed.
//!
//! A record is readable only after an open gate, and its gate is opened by a write of its own, once
//! the record is on the disk. So an append makes four calls on the disk, and takes no memory.
//!
//! There are two versions. In the second one each record has the chain value of the list with its
//! entry, so that a byte that decayed is found, and two journals are compared by one value. A
//! journal of the first version is sealed before it is added to: a seal is no entry, has the chain
//! value of those before it, and records from it on are of the second version.
//!
//! ```
//! let mut reading = open(alloc, disk, digest).map_err(|refused| refused.0)?;
//! while let Some(entry) = reading.next()? {
//!     apply(&entry);
//! }
//! let mut journal = reading.finish();
//! if !journal.sealed() {
//!     journal.seal()?;
//! }
//! journal.append(&ready(alloc, &entry)?)?;
//! ```
#![tactic(auto)]

mod beginning;
mod chaining;
mod fault;
mod journal;
mod layout;
mod opening;
mod part;
mod piece;
mod prepared;
mod reading;
mod steps;

pub use chaining::law_chain;
pub use fault::JournalFault;
pub use journal::{Journal, ready};
pub use layout::law_layout;
pub use opening::open;
pub use prepared::Ready;
pub use reading::{Reading, law_one_list};
