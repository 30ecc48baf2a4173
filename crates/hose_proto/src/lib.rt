//! Commands and replies as lines of words: reading a command, and writing a reply, which
//! `hose_replies` reads again.
//!
//! ```
//! let command = read_command(alloc, &topology, b"acme show 7", 1)?;
//! put_reply(&mut sink, &topology, &reply)?;
//! ```
#![tactic(auto)]

mod choices;
mod command;
mod fault;
mod lists;
mod pieces;
mod places;
mod reply_text;
mod verb;

pub use choices::{next_choice, with_word};
pub use command::{read_command, read_command_at, read_hose};
pub use fault::{Read, ReadFault};
pub use lists::{Items, read_items};
pub use pieces::{add_ends, add_link, add_pairs};
pub use places::{
    endpoint, link_number, name_and_rate, name_before_colon, number_told, parts, read_link_number,
    read_name,
};
pub use reply_text::put_reply;
