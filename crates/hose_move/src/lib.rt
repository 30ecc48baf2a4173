//! A journal that is moved to another network: its entries, the first of them, or what is live of
//! it, are committed to a journal of the other network as they stand, so that each VPN keeps its
//! tree and what is reserved for it. For the program's commands, which read the old journal, put it
//! back and move what it states into the new one.
//!
//! ```
//! if let Some(change) = first_change(&old, &new) {
//!     return Err(Refused::Network(change));
//! }
//! let (stated, disk) = read_journal(alloc, disk, &old, Scope::All);
//! let (moved, new_disk) = move_into(alloc, new_disk, &new, &stated?.entries);
//! println!(rt; "moved, and {} live", moved?)?;
//! ```
#![tactic(auto)]

mod begun;
mod changing;
mod collecting;
mod committing;
mod comparing;
mod fault;
mod laws;
mod live;
mod moving;
mod stating;

pub use changing::{NetworkChange, first_change};
pub use fault::MoveFault;
pub use laws::{law_complete, law_live_sound, law_renumbered};
pub use moving::move_into;
pub use stating::{Scope, Stated, read_journal};
