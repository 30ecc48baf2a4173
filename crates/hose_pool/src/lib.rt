//! What the sessions of a server share besides the book: rows that several workers make at once,
//! and the points at which a session may be made to wait.
//!
//! ```
//! let rows = all_rows(rt, alloc, &top, &links, 4)?;
//! let table = table_of_all(rt, alloc, &top, 4)?;
//!
//! let mut maker = PoolRows::new(rt, 4);
//! let row = maker.row(alloc, &top, &links, root)?;
//! ```
#![tactic(auto)]

mod pool;
mod rows;

pub use pool::PoolRows;
pub use rows::{MOST_WORKERS, all_rows, law_limit, table_of_all};

/// A point that a session passes, with the session's number.
#[derive(Debug, Clone, Copy, PartialEq, Eq)]
pub enum Point {
    /// A hose was planned beside a copy of the loads, and is not admitted yet.
    Planned { session: u64 },
    /// The line of a reply is out.
    Answered { session: u64 },
}

/// What a session calls at each point. It may wait there for another session.
pub trait Gate {
    fn at(&self, point: Point);
}

/// The gate of a server: it does nothing.
#[derive(Debug, Clone, Copy)]
pub struct PlainGate;

impl Gate for PlainGate {
    fn at(&self, _point: Point) {}
}
