//! Connections of the network, as a door that customers come to.
//!
//! ```
//! let mut door = TcpDoor::new(rt);
//! door.open(7000)?;                      // at 127.0.0.1
//! if let Some((input, mut output)) = door.accept()? {
//!     write_all(&mut output, b"ready\n")?;
//!     door.back(TcpDoor::<N>::done(input, output));
//! }
//! ```
#![tactic(auto)]

mod arrival;
mod tcp_door;

pub use tcp_door::{READ_SECONDS, TcpDone, TcpDoor, WRITE_SECONDS};
