//! A standby follower of a leader's journal: the leader's entries are sent as packets, over a link
//! that may lose, repeat and reorder them, and offered to a store that keeps a copy of the book.
//!
//! A packet tells the epoch after its entry and the chain value before it, so a follower takes it
//! only where it is the next one of its own history. Each answer says how far the follower is: what
//! it has it never loses, and the leader's side begins again from there.
//!
//! ```
//! match offer(alloc, &mut store, epoch, chain, body) {
//!     Offered::Have { n } => eprintln!(rt; "up to {n}")?,
//!     Offered::Want { n } => eprintln!(rt; "send from {n} on")?,
//!     refused => eprintln!(rt; "{refused:?}")?,
//! }
//! ```
#![tactic(auto)]

mod answers;
mod buffer;
mod following;
mod laws;
mod offering;
mod packet;
mod shipping;

pub use answers::{Offered, put_answer};
pub use following::{FollowEnd, INPUT_LIMIT, follow, law_limit};
pub use laws::{Sound, law_asking, law_following, law_offered, law_one_split};
pub use offering::offer;
pub use packet::law_layout;
pub use shipping::{ShipFault, ship};
