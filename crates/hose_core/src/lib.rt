//! A book with the quotes of its customers: each command is one step of the sequential book, at the
//! history that the book stands for.
//!
//! ```
//! let mut core = Core::new(alloc, Plain { book: Book::new(alloc, topology)? });
//! let reply = core.step(alloc, &customer, Command::Quote(hose), &mut PlainRows::new());
//! ```
//!
//! `admit_now`, `take_now`, `release_now`, `service_now`, `show_now`, `vpns_now` and `link_now` do
//! so to books that are kept by others, as under a lock: a take, a release and an order of the
//! operator take no memory there, since all of it is in their claim. What is quoted can be planned
//! outside of it, by `plan_beside`, and so can what is admitted: `newest_now` tells there whether
//! the admission may be decided, and `admit_claimed_now` then takes its plan.
#![tactic(auto)]

mod admitting;
mod bound;
mod by_customer;
mod claim;
mod entering;
mod planning;
mod quotes;
mod releasing;
mod service;
mod stepping;
mod taking;
mod telling;

pub use admitting::{Admission, admit_claimed_now, admit_now, admit_with_rows};
pub use bound::newest_now;
pub use by_customer::QuotesByCustomer;
pub use claim::{Claim, ReleaseClaim, ServiceClaim, claim_release, claim_service, claim_take};
pub use planning::{BookView, plan_beside};
pub use quotes::{Quote, Quotes};
pub use releasing::release_now;
pub use service::service_now;
pub use stepping::Core;
pub use taking::take_now;
pub use telling::{link_now, show_now, vpns_now};
