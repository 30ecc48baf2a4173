//! Entries of a book as bytes, for a journal of them. Each entry of the format has one spelling,
//! and no spelling begins another.
//!
//! ```
//! let bytes = encode(alloc, &entry)?;
//! let same = decode(alloc, &bytes)?;
//! ```
#![tactic(auto)]

mod fields;
mod limits;
mod reading;
mod writing;

pub use fields::{number_of_four, number_of_two};
pub use limits::{CodecFault, MOST_PAIRS, MOST_SPELLING, law_limits};
pub use reading::decode;
pub use writing::encode;
