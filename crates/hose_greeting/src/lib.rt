//! The lines of a session: `hello NAME` first, commands after it, and `bye` last.
//!
//! ```
//! let name = greeting_of(line)?;
//! if is_bye(text) { return Reply::Bye; }
//! ```
//!
//! What a first line says and what a later one says is defined here, for all who hold sessions.
#![tactic(auto)]

mod reading;

pub use reading::{greeting_of, is_bye};
