//! A host as one call: many connections to doors, whose lines are answered by the book of a journal
//! until the operator ends it.
//!
//! ```
//! let doors = HostDoors { operator: None, words: &words[3..], first: 4, standby: None };
//! let request = HostRequest { topology: "star.txt", journal: "orders.journal", doors };
//! let mut ports = Ports::new(rt);
//! let why = host_by_names(&rt, alloc, &OwnCosts, request, outside, &mut ports, log);
//! ```
#![tactic(auto)]

mod hosting;
mod opening;
mod reading;
mod why;

pub use hosting::{HostEnd, HostRequest, NotHosted, host_by_names};
pub use opening::{GuardedDoor, HostDoors, Opened, StandbyPlan, opened_as};
pub use why::HostWhy;
