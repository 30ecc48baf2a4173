//! A host of many connections, in one thread.
#![tactic(auto)]

mod answers;
mod coming;
mod ending;
mod hosting;
mod lines;
mod linking;
mod places;
mod seat;
mod sending;
mod serving;

pub use answers::HostAnswers;
pub use hosting::{PIECE, host, turn};
pub use places::Places;
pub use seat::Seat;
