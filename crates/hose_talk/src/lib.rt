//! Talks: the lines of an input, each answered by a reply that is out before the next line is asked
//! for.
//!
//! Who answers the lines is a trait, `Answers`, and `converse` is the loop over those that a reader
//! is to give; `hold_talk` is one over a whole input:
//!
//! ```
//! let end = hold_talk(&mut sheet, source, sink)?;
//! ```
//!
//! What a line says, and what lines and their replies come to together, is told by whoever answers
//! them; the loop says how the talk ended, what was taken of the input, and what is out.
#![tactic(auto)]

mod answers;
mod talking;

pub use answers::Answers;
pub use talking::{TalkEnd, TalkFault, converse, hold_talk};
