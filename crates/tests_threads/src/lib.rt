//! Tests of what threads do at once: the lock with one history, plans that are made outside of the
//! lock of a shared book, and the rows that several workers make.
//!
//! One use of a lock is checked without the tests, so that a wrong one is refused.
#![tactic(auto)]

mod passes;
#[cfg(test)]
mod shared;
#[cfg(test)]
mod stale;
#[cfg(test)]
mod turn;
#[cfg(test)]
mod workers;
