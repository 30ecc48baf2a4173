//! The book of a network on a disk. A stop at any moment leaves a journal from which the book comes
//! back with every entry whose commit answered `Done`, in order, and at most one more: the one that
//! was being written, or the one in doubt, whose commit answered `Disk`.
//!
//! Opening trusts a journal for nothing: each entry is judged by the book of those before it. A
//! journal of the first version is then sealed, so that what is added has chain values.
//!
//! ```
//! let mut store = Store::open(alloc, disk, topology).map_err(|refused| refused.0)?;
//! let ready = Store::<D>::prepare(alloc, &entry)?;
//! match store.commit(entry, ready) {
//!     Committed::Done => {}
//!     Committed::Disk => eprintln!(rt; "not entered")?,
//! }
//! let (closed, disk, book) = store.close();
//! ```
#![tactic(auto)]

mod closing;
mod fault;
mod laws;
mod recovery;
mod replay;
mod sealing;
mod store;

pub use fault::StoreFault;
pub use laws::{Decided, Premises, law_closed, law_one_meaning, law_opened, law_run, law_spelled};
pub use replay::Replay;
pub use store::Store;
