// Why a host ended.
ghost use Rattle.std.specs.Prelude.{◌≡◌};
ghost use Rattle.hosed_host.specs.HostWhy.{host_status};

use hose_net::DoorTrouble;
use hose_outside::Why;

/// Why a host ended.
#[derive(Clone, Copy, Debug, PartialEq, Eq)]
pub enum HostWhy {
    /// As every command may end.
    Ended(Why),
    /// The door that the word of this number names could not be opened, and why.
    Door(u64, DoorTrouble),
    /// Nothing was heard of the standby for as long as was said, and no reply is told without it.
    StandbyGone,
    /// The standby has so many entries, more than the journal.
    StandbyAhead(u64),
}

impl HostWhy {
    /// The status with which the program ends.
    pub fn status(self) -> u8
        ensures { result ≡ host_status self }
    {
        match self {
            HostWhy::Ended(why) => why.status(),
            HostWhy::Door(_, _) => 9,
            HostWhy::StandbyGone => 16,
            HostWhy::StandbyAhead(_) => 17,
        }
    }
}
