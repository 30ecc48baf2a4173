//! The log of a host: a line for each thing that it did, which a thread of its own writes, so that
//! who tells it waits for nobody.
//!
//! ```
//! let mut log = ErrorLog::begin(rt, alloc, rt.stderr());
//! log.tell(b"acme", b"release 1", b"released 1 at 2");   // acme "release 1" released 1 at 2
//! log.end();
//! ```
#![tactic(auto)]

mod error_log;
mod spelling;
mod telling;
mod writer;

pub use error_log::ErrorLog;
pub use telling::{Log, NoLog};
