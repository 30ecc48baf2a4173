//! Who answers the lines of many connections by one book: each connection is a session of its own.
//!
//! The first line of a connection is `hello NAME`, and is answered `welcome at N`. Who may greet is
//! said by the rule of the door: another name is a word that is not allowed there, `bad 2`. After a
//! first line that is no greeting no line of the connection is answered. Later lines are commands,
//! without the customer's name, and `bye`, which ends the session. What is quoted is the session's
//! own, and ends with it.
//!
//! Two lines more are the operator's alone, and any other customer is told `denied at N`. `end` is
//! answered `ending at N`, and then no line of anyone is answered; `figures` is answered by one
//! line of what was counted since the start.
//!
//! Each order, and each reply that tells a failure, is told to a log.
//!
//! Where replies wait for a standby, it is handed out what it lacks of the history, and heard to
//! have entries, by the bytes of one link to it at a time. Where it is required, each reply waits
//! until it answered what it was sent behind the line, and has what stood then.
//!
//! ```
//! let doors = vec![in alloc; DoorRule::AnyButOperator]?;
//! let mut clerk = Clerk::new(alloc, core, RowsInAdvance::new(), doors, NoLog, None);
//! host(rt, alloc, &mut network, &mut clerk);
//! let books = clerk.into_books();
//! ```
#![tactic(auto)]

mod clerk;
mod desk;
mod doors;
mod fence;
mod figures;
mod linking;
mod log_lines;
mod own_words;
mod replies;
mod sessions;
mod tally;
mod times;

pub use clerk::Clerk;
pub use desk::Desk;
pub use doors::DoorRule;
pub use fence::{Fence, Mark};
pub use figures::Figures;
pub use linking::{LinkNotes, StandbyAt};
pub use replies::HostReply;
pub use sessions::{Client, Session};
pub use tally::Tally;
pub use times::Times;
