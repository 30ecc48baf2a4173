//! The leader's side of a connection to a follower, as a state of bytes: what came of it is taken
//! in, and what is to be sent on it is handed out. There is no socket, no clock and no thread here.
//!
//! A follower is asked how many entries it has and for its chain value, and compared with the
//! history. Then it is handed out what it lacks, and each entry as it comes. It is heard to have
//! entries by its `have` alone, and only after the comparison on the same connection.
//!
//! ```
//! let mut standby = Standby::new(alloc);
//! loop {
//!     standby.fill(&history)?;
//!     let count = socket.write(standby.unsent())?;
//!     standby.was_sent(count);
//!     let piece = socket.read(&mut room)?;
//!     standby.take_in(&history, piece);
//!     if let Some(count) = standby.heard() {
//!         release_replies(count);
//!     }
//! }
//! ```
#![tactic(auto)]

mod coming;
mod history;
mod laws;
mod leading;
mod led_store;
mod packet;
mod reading;
mod recent;
mod stage;

pub use history::{History, VALUE_BYTES};
pub use laws::{law_handed, law_longer, law_told};
pub use leading::{ROOM_BYTES, Standby};
pub use led_store::{LedReady, LedStore};
pub use recent::RecentPackets;
pub use stage::{Ending, Stage};
