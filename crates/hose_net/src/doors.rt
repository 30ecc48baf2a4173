// The doors of a network, which are opened all at once.
ghost use Rattle.std.specs.Prelude.{List, IfErr, IfOk, length};

use crate::connections::Connections;
use std::alloc::Global;

/// Where a door is.
#[derive(Clone, Copy, Debug)]
pub enum Address<'a> {
    /// A port of this machine, 1 to 65,535, at 127.0.0.1.
    Port(u16),
    /// The path of a Unix socket, which has a `/` and at most 107 bytes.
    Path(&'a str),
}

/// Why a door cannot be opened, as the system tells it.
#[derive(Clone, Copy, Debug, PartialEq, Eq)]
pub enum DoorTrouble {
    /// Another program serves there.
    Served,
    /// Rights are missing.
    NotAllowed,
    /// The folder that it is to be in is not there.
    NoFolder,
    /// A file lies there that is no socket.
    NoSocket,
    /// Anything else.
    Other,
}

/// Why doors were not opened.
#[derive(Clone, Copy, Debug, PartialEq, Eq)]
pub enum DoorsFault {
    /// The door at this place of the list, from 0 on, cannot be opened, and why.
    Door(usize, DoorTrouble),
    /// Memory, or what the system needs to wait for connections, is wanting.
    Memory,
}

/// Doors that can be opened, all at once.
pub trait Doors {
    ghost use Rattle.hose_net.specs.declared.doors.Address.{Address};
    ghost use Rattle.hose_net.specs.declared.doors.DoorsFault.{DoorsFault};
    ghost use Rattle.hose_net.specs.Doors.{IsAmong};

    /// The connections that come to them.
    type Network: Connections;

    /// Doors of these addresses were opened so, this network is what came of it, at which nothing
    /// has happened yet, and these are the doors then.
    ghost opens: { Self → List Address → Self.Network → Self → Type 0 };

    /// Doors of these addresses could not be opened for this reason, and these are the doors then.
    ghost refuses: { Self → List Address → DoorsFault → Self → Type 0 };

    /// A network was given up, and these are the doors then.
    ghost closes: { Self → Self.Network → Self → Type 0 };

    /// Opens a door at each address, all or none: what was opened before the first that cannot be
    /// is closed again. Door number k of the network is the one of the k-th address, from 0 on.
    fn open(
        &mut self,
        alloc: Global,
        addresses: &[Address<'_>],
    ) -> Result<Self::Network, DoorsFault>
        ensures opened { IfOk result (λ network. opens self.old addresses.now network self.new) }
        ensures refused { IfErr result (λ fault. refuses self.old addresses.now fault self.new) }
        ensures among { IfErr result (IsAmong (length addresses.now)) };

    /// An orderly end: nobody comes any more, and sockets of one's own are taken away.
    fn close(&mut self, network: Self::Network)
        ensures { closes self.old network self.new };
}
