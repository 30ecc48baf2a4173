//! What files of cases say: the cases of a file, what must come of each, and why a file is refused.
//! `cases_stage` runs them, and compares what comes of them. It promises nothing. The file
//! `data/README.md` of `cases_program` describes the files.
#![tactic(auto)]

mod case;
mod file;
mod line;
mod pattern;
mod trouble;

pub use case::{
    Call, Case, CaseConnection, CaseDoor, CaseInput, CaseJournal, CaseMove, CaseOutput, CasePiece,
    CaseStop, Wanted,
};
pub use file::{FileRefusal, read_cases};
pub use pattern::GAP;
pub use trouble::CaseTrouble;
