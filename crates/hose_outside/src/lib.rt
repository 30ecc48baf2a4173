//! What the program's commands share: what is beside a command (`Outside`: what it reads, what it
//! writes, and the files that it can reach), the network that the text of a topology tells
//! (`read_topology`), the store on the journal of a name (`open_journal` takes its disk out of the
//! cabinet, `close_journal` puts it back), the book that it holds told as a text (`tell`), and why
//! a command ended, with its last line (`Why`, `end`). Who does a command stands on it, and what
//! reads the program's words:
//!
//! ```
//! let topology = read_topology(alloc, &OwnCosts, "star.txt", cabinet)?;
//! let store = open_journal::<C, Decided>(alloc, "orders.journal", topology, cabinet)?;
//! let (closing, book) = close_journal(store, cabinet);
//! let why = tell(&book, first_fault(Ok(()), closing), output);
//! ```
#![tactic(auto)]

mod asked;
mod cabinet_text;
mod fault;
mod journal;
mod json_text;
mod move_stop;
mod notation;
mod outside;
mod reading;
mod telling;
mod why;

pub use asked::{Move, Sizes};
pub use fault::{Fault, put_numbered};
pub use journal::{close_journal, first_fault, open_journal, open_store};
pub use json_text::JSON_LIMIT;
pub use move_stop::MoveStop;
pub use notation::{Notation, Refusal};
pub use outside::Outside;
pub use reading::{Names, read_topology};
pub use telling::tell;
pub use why::{Why, end};
