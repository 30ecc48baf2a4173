//! The doors of a host, as the program's words name them: a port, the path of a socket, or the path
//! of a socket with the one name that may be said there.
//!
//! ```
//! let door = door_of("run/hosed/acme=acme");   // Some(HostDoor::Bound("run/hosed/acme", acme))
//! ```
#![tactic(auto)]

mod door;

pub use door::{HostDoor, MOST_DOORS, Opening, door_of, doors_named, is_socket_path, opening_of};
