// Doors of this machine, which become a network as they are opened.
ghost use Rattle.std.specs.Prelude.{⊤};

use crate::sockets::Sockets;
use hose_net::{Address, Doors, DoorsFault};
use std::alloc::Global;
use std::fs::Files;
use std::net::Net;
use std::time::Clock;

/// Ports at 127.0.0.1, which only this machine's own programs reach, and sockets of the file
/// system, which are guarded by the folder that they are in. A path where a socket lies that nobody
/// serves is taken over; one that is served, or anything else, is left alone.
#[derive(Drop)]
pub struct Ports<N> {
    rt: N,
}

impl<N> Ports<N> {
    pub fn new(rt: N) -> Ports<N> {
        Ports { rt }
    }
}

impl<N: Files + Net + Clock + Copy + Drop> Doors for Ports<N> {
    type Network = Sockets<N>;

    ghost opens = { λ _ _ _ _. ⊤ };

    ghost refuses = { λ _ _ _ _. ⊤ };

    ghost closes = { λ _ _ _. ⊤ };

    fn open(&mut self, alloc: Global, addresses: &[Address<'_>]) -> Result<Sockets<N>, DoorsFault> {
        Sockets::open(self.rt, alloc, addresses)
    }

    fn close(&mut self, network: Sockets<N>) {
        network.shut()
    }
}
