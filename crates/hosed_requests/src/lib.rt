//! What the words of the program ask for: each command's request, or the first word that is not
//! allowed; what the words name, for whoever tells why it ended; and the costs that a tariff makes.
//! `hosed` does what they say, and `hosed_program` where they are those of a host:
//!
//! ```
//! match request_of(&words, &tariffs) {
//!     Ok(request) => do_request(alloc, request, &tariffs, outside),
//!     Err(wrong) => end(Err(Fault::Words(wrong)), output),
//! }
//! ```
#![tactic(auto)]

mod chosen;
mod end_words;
mod host_line;
mod naming;
mod verb;
mod words;

pub use chosen::{ChosenCosts, costs_of};
pub use host_line::{HostWords, MOST_PATIENCE, StandbyWords, asks_to_host, host_words};
pub use naming::{NamedByWords, named_of, server_named};
pub use verb::{ProgramVerb, asks_to_serve};
pub use words::{
    MOST_CONNECTIONS, OfJournal, OfTopology, Request, ServeRequest, request_of, serve_of,
};
