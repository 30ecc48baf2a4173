// What a host keeps of all its connections.
ghost use Rattle.std.specs.Prelude.{◌≡◌, [], false};

use crate::Seat;
use std::alloc::Global;

/// What a host keeps of all its connections, by their places: a seat for each, the places where no
/// one is, how much a reply may need that is sent, and how many have come. And what it keeps of its
/// link to a standby: whether it is open, for how many seconds it is told that the host goes on
/// alone, and whether one was ever opened.
#[derive(Drop)]
pub struct Places {
    pub seats: Vec<Seat>,
    pub free: Vec<usize>,
    pub heard: u64,
    pub came: u64,
    pub opened: bool,
    pub seconds: u64,
    pub begun: bool,
}

impl Places {
    /// Places of which there is none yet.
    pub fn new(alloc: Global) -> Places
        ensures seats { result.seats.items ≡ [] }
        ensures heard { result.heard ≡ 0 }
        ensures closed { result.opened ≡ false }
    {
        Places {
            seats: Vec::new(alloc),
            free: Vec::new(alloc),
            heard: 0,
            came: 0,
            opened: false,
            seconds: 0,
            begun: false,
        }
    }
}
