//! Topologies in JSON, as an operator's own tools write them.
//!
//! ```
//! let top = read_json(alloc, bytes)?;
//! ```
//!
//! The text is an object. Its member `nodes` is an array of names, and its member `links` an array
//! of objects with the members `a`, `b`, `capacity`, `length` and, where it is not the length,
//! `cost`. Other members are passed over.
#![tactic(auto)]

mod by_name;
mod links;
mod member;
mod nodes;
mod reading;

pub use reading::{JsonFault, read_json};
