//! One book on a disk for many callers at once: each quotes, takes, admits, releases and asks along
//! a pass of its own, and what all of them are told is one history. The operator takes links out of
//! service and puts them back in the same way.
//!
//! A plan is made outside of the lock, over a copy of the links in service and beside one of the
//! loads; what joins the book is decided under it, where nothing is planned and no memory is taken.
//!
//! ```
//! let (shared, mut pass) = Shared::<_, AnyStore>::new(alloc, store)?;
//! let other = shared.split(&mut pass);      // for another thread
//! let context = Context { rt, alloc, gate: &PlainGate };
//! let caller = Caller { context: &context, session: 1, customer: &customer };
//! let (reply, mut pass) = shared.admit(&caller, pass, hose, &mut PlainRows::new());
//! shared.join(&mut pass, other);
//! let (closed, disk, book) = shared.close(pass).close();
//! ```
#![tactic(auto)]

mod admitting;
mod asking;
mod caller;
mod entering;
mod kept;
mod planning;
mod quoting;
mod seat;
mod shared;

pub use caller::{Caller, Context};
pub use kept::{AnyStore, Begun, Kept};
pub use seat::Seat;
pub use shared::Shared;
