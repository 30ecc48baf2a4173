//! The network of a host over the system's sockets: doors at ports of this machine and at paths of
//! Unix sockets, and the connections that come to them, by readiness of their descriptors.
//!
//! ```
//! let mut doors = Ports::new(rt);
//! let addresses = [Address::Port(7000), Address::Path("run/hosed/acme")];
//! let mut network = doors.open(alloc, &addresses)?;
//! host(&rt, alloc, &mut network, &mut answers);
//! doors.close(network);
//! ```
#![tactic(auto)]

mod board;
mod door;
mod ports;
mod sockets;
mod stream;

pub use ports::Ports;
pub use sockets::Sockets;
