//! A lock whose value stands for a list of entries, and the one history that this list becomes.
//!
//! Many threads change one value, one after another. Each has a `Pass`, takes the value by `lock`,
//! changes it, says by `count` which entry its list has gained, and gives it back by `unlock`. For
//! any number of passes there is one list, the history, for which the value stands whenever no pass
//! has the turn. A pass knows a beginning of it, the places in it of the entries that the pass
//! counted, and how many faults its turns have met. The history exists in contracts and proofs
//! alone: no code keeps the list.
//!
//! ```
//! let (turn, mut pass) = Turn::new(alloc, store)?;
//! let other = turn.split(&mut pass);     // for another thread
//! let mut held = turn.lock(rt, pass);
//! held.value_mut().admit(&entry);
//! turn.count(&mut held, Snapshot::of(&entry));
//! let mut pass = turn.unlock(held);
//! turn.join(&mut pass, other);
//! let store = turn.close(pass);
//! ```
//!
//! Nothing is claimed of progress: not that a turn comes, nor when, nor to whom first.
#![tactic(auto)]

mod bells;
mod pass;
mod rule;
mod turn;
mod view;

pub use pass::{ALL_SHARES, Held, Pass, law_limit};
pub use turn::Turn;
pub use view::{HoldsHistory, Origin};
