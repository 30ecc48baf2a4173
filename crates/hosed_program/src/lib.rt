//! What the program does with its words: a text about itself, or the server's one call; and why
//! that ended, as a sentence. The program hands it the real streams, files and port, and cases of
//! `cases_program` hand `program` those in memory:
//!
//! ```
//! let tariffs = tariffs(alloc, by_flat, by_hops, by_long)?;
//! let context = Context { rt: &rt, alloc, gate: &PlainGate };
//! let mut world = OwnedOutside { input, output, cabinet, door };
//! let mut host = HostOutside { doors, threads, errors };
//! let hints = Hints { rt: &rt, unread: &unread };
//! let status = start(context, hints, &SystemWords { env: &rt }, &tariffs, &mut world, &mut host);
//! ```
#![tactic(auto)]

mod choice;
mod given;
mod hosting;
mod known;
mod reasons;
mod rules;
mod starting;
mod texts;
mod watched;
mod words;

pub use choice::{OwnedOutside, TextOrCommand, program};
pub use given::{Given, ListedWords, SystemWords};
pub use hosed::{Context, Ended};
pub use hosting::{HostEnded, HostOutside, host_ended};
pub use known::{Hints, Known, Troubled};
pub use rules::{flat, hops, long, tariffs};
pub use starting::{no_memory, start};
pub use texts::{HELP, VERSION};
pub use watched::Watched;
pub use words::program_words;
