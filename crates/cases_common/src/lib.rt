//! What the programs of cases have in common: the lines of a file that say something, words,
//! numbers and bytes, networks by their names, what is told of a case, and why such a program
//! stops. It promises nothing.
#![tactic(auto)]

mod case_text;
mod networks;
mod running;
mod trouble;
mod words;

pub use case_text::{CaseText, debugged};
pub use networks::{hose, named, network, shown};
pub use running::{Calls, CaseCall, ended, run_calls};
pub use trouble::Trouble;
pub use words::{STOP_PICKS, cases_of, disk_call, first, from_hex, name, number, numbers};
