//! The workers of a server. Each accepts one connection of a door after another and serves its
//! session, along a pass of its own over the book that all of them share.
//!
//! ```
//! let crew = Crew::<_, N>::new(alloc, 4, 200)?;       // four workers, for 200 connections
//! let context = Context { rt, alloc, gate: &PlainGate };
//! let work = Work { context, shared: &shared };
//! let CrewEnd { accepting, pass, door } = crew.serve(work, pass, door, Blank::new(4));
//! ```
#![tactic(auto)]

mod crew;
mod desk;
mod hand;

pub use crew::{Crew, CrewEnd};
pub use desk::DoorStart;
pub use hand::Work;
pub use hose_shared::Context;
