// What is to be sent at a link.
ghost use Rattle.std.specs.Prelude.{◌≡◌, ◌≤◌, [], drop, length};

use std::alloc::Global;
use std::marker::Model;

/// Bytes that are to be sent, of which some are sent.
#[derive(Drop)]
pub struct Outgoing {
    bytes: Vec<u8>,
    sent: usize,
}

impl Model for Outgoing {
    ghost use Rattle.std.specs.Prelude.{ℕ, List, ◌≤◌, drop, length};

    ghost Value = { List ℕ };

    ghost view = { λ outgoing. drop outgoing.sent outgoing.bytes.items };

    ghost invariant = { λ outgoing. outgoing.sent ≤ length outgoing.bytes.items };
}

impl Outgoing {
    pub fn new(alloc: Global) -> Outgoing {
        Outgoing {
            bytes: Vec::new(alloc),
            sent: 0,
        }
    }

    /// Adds bytes, as far as there is memory for them.
    pub fn add(&mut self, bytes: &[u8]) {
        let _ = self.bytes.extend_from_slice(bytes);
    }

    pub fn unsent(&self) -> &[u8]
        ensures { result.now ≡ self.now }
    {
        &self.bytes[self.sent..]
    }

    pub fn was_sent(&mut self, count: usize)
        requires { count ≤ length self.old }
        ensures { self.new ≡ drop count self.old }
    {
        self.sent += count;
    }
}
