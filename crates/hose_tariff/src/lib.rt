//! Tariffs: what a unit of bandwidth costs on a link, by a rule of the link's length. A network is
//! priced by one before anything is planned on it. The caller makes the rules, whatever they are,
//! and each is kept beside the bounds that its answers have.
//!
//! ```
//! let rule = Box::new(alloc, |length: u64| length)?;
//! let tariff = Tariff::new(name, 0, 1, rule);
//! let priced = price(alloc, &top, &tariff)?;
//! ```
#![tactic(auto)]

mod prices;
mod tariff;

pub use prices::{OwnCosts, Prices, law_one_network, price};
pub use tariff::{Rule, Tariff, find};
