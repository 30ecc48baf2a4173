//! What came of a case beside what its file says: the streams, the cabinet and the door in memory
//! that one is run over, and a line for each thing that is not as it says. What runs a case is not
//! here: `cases_program` hands it in. It promises nothing.
#![tactic(auto)]

mod comparison;
mod customers;
mod outcome;
mod places;
mod running;
mod stage;
mod stops;
mod streams;
mod wanted;

pub use customers::{Asking, Hearing, customer};
pub use outcome::{Outcome, outcome_of_two};
pub use running::{Runs, run_files};
pub use stage::{CaseStage, disk_of, ends_of, network_of, outcome_of, peer_ends, stage_of};
pub use streams::{CaseEnds, LongSource, NarrowSink};
