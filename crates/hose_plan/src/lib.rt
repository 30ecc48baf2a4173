//! The planner: whether a hose is admitted over the links in service of a network and beside the
//! loads that it carries, with which plan and at which cost, and on which grounds; and whether the
//! grounds still hold over other links and beside other loads.
//!
//! ```
//! match decide(alloc, &top, &service, &loads, &hose, &mut PlainRows::new())? {
//!     Decision::Plan { amounts, cost, .. } => reserve(amounts, cost),
//!     Decision::Refused { side } => refuse(side),
//! }
//! ```
#![tactic(auto)]

mod canonical;
mod decision;
mod holding;
mod root;
mod since;

pub use canonical::plan;
pub use decision::{Decision, Grounds, decide, decide_with_rows};
pub use holding::grounds_hold;
pub use since::grounds_hold_since;
