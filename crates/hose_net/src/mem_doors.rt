// Doors in memory, to which the connections of a script come, and which keep what was done.
ghost use Rattle.std.specs.Prelude.{◌≡◌, ◌<◌, [], true, IfNone, IfOk, IfSome, Some, map};
ghost use Rattle.hose_net.specs.steps.MemDoors.{Closed, Notes, Opened, done_of, where_kept, where_of};
ghost use Rattle.hose_net.specs.steps.MemTrace.{happening_of};

use crate::mem_connections::{Act, Happened, MemConnections};
use crate::{Address, DoorTrouble, Doors, DoorsFault};
use std::alloc::{AllocError, Global};
use std::collections::VecDeque;
use std::marker::Model;

/// Where a door was opened.
#[derive(Drop)]
pub enum KeptAddress {
    Port(u16),
    Path(String),
}

/// What was done with doors.
#[derive(Drop)]
pub enum DoorsEvent {
    /// They were opened at these addresses.
    Opened(Vec<KeptAddress>),
    /// They were not opened.
    Refused(DoorsFault),
    /// They were closed, after all of this had happened.
    Closed(Vec<Happened>),
}

/// Doors in memory, to which the connections of a script come once. One of them may be shut, by its
/// place among those that are opened. Where no memory was left to keep what was done, they tell
/// nothing of it.
#[derive(Drop)]
pub struct MemDoors {
    alloc: Global,
    acts: VecDeque<Act>,
    room: usize,
    shut: Option<(usize, DoorTrouble)>,
    done: Vec<DoorsEvent>,
    whole: bool,
}

impl Model for MemDoors {
    ghost use Rattle.std.specs.Prelude.{map};
    ghost use Rattle.hose_net.specs.steps.MemDoors.{DoorsTrace, done_of};

    ghost Value = { DoorsTrace };

    ghost view = { λ doors. record {
      done = map done_of doors.done.items;
      whole = doors.whole;
      shut = doors.shut;
    } };
}

impl MemDoors {
    /// Doors to which connections come that do these acts and take `room` bytes at a time.
    pub fn new(
        alloc: Global,
        acts: VecDeque<Act>,
        room: usize,
        shut: Option<(usize, DoorTrouble)>,
    ) -> MemDoors
        ensures { result ≡ record { done = []; whole = true; shut = shut } }
    {
        MemDoors {
            alloc,
            acts,
            room,
            shut,
            done: Vec::new(alloc),
            whole: true,
        }
    }

    /// What was done.
    pub fn done(&self) -> &[DoorsEvent] {
        &self.done
    }

    // Which of so many doors is shut, if one is.
    fn shut_among(&self, count: usize) -> Option<(usize, DoorTrouble)>
        ensures { IfSome result (λ shut. (shut.0 < count) × (self.now.shut ≡ Some shut)) }
    {
        match self.shut {
            Some(shut) if shut.0 < count => Some(shut),
            _ => None,
        }
    }

    // Keeps what was done.
    fn keep(&mut self, event: DoorsEvent)
        ensures { Notes self.old self.new (done_of event) }
    {
        if self.done.push(event).is_err() {
            self.whole = false;
        }
    }

    fn keep_opened(&mut self, addresses: &[Address<'_>])
        ensures { Notes self.old self.new (Opened (map where_of addresses.now)) }
    {
        match kept(self.alloc, addresses) {
            Ok(addresses) => self.keep(DoorsEvent::Opened(addresses)),
            Err(_) => self.whole = false,
        }
    }
}

// Addresses, as they are kept.
fn kept(alloc: Global, addresses: &[Address<'_>]) -> Result<Vec<KeptAddress>, AllocError>
    ensures { IfOk result (λ kept. map where_kept kept.items ≡ map where_of addresses.now) }
{
    let mut kept = Vec::new(alloc);
    for place in 0..addresses.len() {
        kept.push(kept_one(alloc, addresses[place])?)?;
    }
    Ok(kept)
}

fn kept_one(alloc: Global, address: Address<'_>) -> Result<KeptAddress, AllocError>
    ensures { IfOk result (λ kept. where_kept kept ≡ where_of address.entry) }
{
    match address {
        Address::Port(port) => Ok(KeptAddress::Port(port)),
        Address::Path(path) => Ok(KeptAddress::Path(String::from_str(alloc, path)?)),
    }
}

impl Doors for MemDoors {
    ghost use Rattle.std.specs.Prelude.{◌≡◌, [], true, map};
    ghost use Rattle.hose_net.specs.steps.MemDoors.{Closed, IsShutAt, Notes, Opened, Refused, where_of};

    type Network = MemConnections;

    ghost opens = { λ old addresses network new. (network ≡ record { trace = []; whole = true })
        × Notes old new (Opened (map where_of addresses)) };

    ghost refuses = { λ old addresses fault new. IsShutAt old.shut fault
        × Notes old new (Refused fault) };

    ghost closes = { λ old network new. Notes old new (Closed network.trace) };

    fn open(
        &mut self,
        alloc: Global,
        addresses: &[Address<'_>],
    ) -> Result<MemConnections, DoorsFault> {
        if let Some((place, trouble)) = self.shut_among(addresses.len()) {
            let fault = DoorsFault::Door(place, trouble);
            self.keep(DoorsEvent::Refused(fault));
            return Err(fault);
        }
        self.keep_opened(addresses);
        let acts = std::mem::replace(&mut self.acts, VecDeque::new(alloc));
        Ok(MemConnections::new(alloc, acts, self.room))
    }

    fn close(&mut self, network: MemConnections) {
        if !network.is_whole() {
            self.whole = false;
        }
        self.keep(DoorsEvent::Closed(network.into_happened()));
    }
}
