//! One customer's session: lines of an input, each answered by a line of an output, over a book
//! that many sessions share.
//!
//! The first line is `hello NAME` and is answered `welcome at N`; each later line is a command and
//! has one reply; `bye` ends the session. What is answered is a transcript along the one history of
//! the shared book, whose places never go back.
//!
//! ```
//! let context = Context { rt, alloc, gate: &PlainGate };
//! let session = Session { context: &context, shared: &shared, number: 1 };
//! let rows = &mut PlainRows::new();
//! let (end, pass) = serve_session(session, &mut source, &mut sink, pass, rows);
//! ```
#![tactic(auto)]

mod conversation;
mod ending;
mod phase;
mod session;

pub use ending::SessionEnd;
pub use session::{Session, serve_session};
