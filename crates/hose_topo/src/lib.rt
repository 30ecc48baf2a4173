//! The text of a topology, both ways: reading one, writing the canonical one, and the digest of
//! that.
//!
//! ```
//! let mut lines = LineReader::new(source);
//! let top = read(alloc, &mut lines)?;
//! put_canonical(&mut sink, &top)?;
//! ```
#![tactic(auto)]

mod canonical;
mod fault;
mod line;
mod pieces;
mod reading;

pub use canonical::{digest, put_canonical};
pub use fault::TopoFault;
pub use reading::read;
