//! The types that the whole of `hosed` speaks of: networks and their names, hoses, amounts reserved
//! on links, commands, replies, and the entries of a book. Each is valid by its own invariant, and
//! contracts see it as plain lists and records.
//!
//! ```
//! let mut top = Topology::new(alloc)?;
//! let a = top.add_node(Name::read(b"a").ok_or(NoName)?)?;
//! let b = top.add_node(Name::read(b"b").ok_or(NoName)?)?;
//! top.add_link(Link { a, b, capacity: 10, length: 1, cost: 1 })?;
//! let hose = Hose::build(alloc, &[(a, 3), (b, 4)])?;
//! ```
#![tactic(auto)]

mod amounts;
mod command;
mod entry;
mod hose;
mod limits;
mod name;
mod node_list;
mod row;
mod topology;
mod vpn_list;

pub use amounts::{Amounts, ReservedLink};
pub use command::{Command, Reply};
pub use entry::{Entry, Vpn};
pub use hose::{Endpoint, Hose, HoseFault};
pub use limits::{
    LEAST_ENDS, MOST_AMOUNT, MOST_CAPACITY, MOST_COST, MOST_DISTANCE, MOST_ENDS, MOST_EPOCH,
    MOST_LENGTH, MOST_LINKS, MOST_LIVE, MOST_NAME_BYTES, MOST_NODES, MOST_QUOTES, MOST_RATE,
    MOST_TREE_LINKS, law_limits,
};
pub use name::{Name, OPERATOR};
pub use node_list::NodeList;
pub use row::Row;
pub use topology::{Link, Step, Topology, TopologyFault};
pub use vpn_list::VpnList;
