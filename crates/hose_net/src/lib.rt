//! The connections of a network, which one thread holds, and the stories of who serves them.
#![tactic(auto)]

mod connections;
mod doors;
mod hold;
mod mem_connections;
mod mem_doors;

pub use connections::{Connections, Pause, Ready};
pub use doors::{Address, DoorTrouble, Doors, DoorsFault};
pub use hold::{Hold, Parting};
pub use mem_connections::{Act, Happened, MemConnections};
pub use mem_doors::{DoorsEvent, KeptAddress, MemDoors};
