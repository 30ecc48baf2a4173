// A door over a port of the network.
ghost use Rattle.std.specs.Prelude.{◌≡◌, ◌≤◌, false, true, None, Some, IfOk, IsErr, IsFalse, IsSome, MatchOption, MatchResult};
ghost use Rattle.hose_io.specs.steps.Connections.{Accepts, AreAccounted, AreUsedUp, IsConnection};
ghost use Rattle.hose_io.specs.Count.{one_more};
ghost use Rattle.hose_io.specs.Frame.{Met, Rose};
ghost use Rattle.hose_io.specs.steps.StdState.{untold_stream, untold_text};
ghost use Rattle.std.specs.Duration.{as_nanos};
ghost use Rattle.hose_door.specs.steps.Limits.{door_address, read_seconds, write_seconds};
ghost use Rattle.hose_door.specs.steps.TcpState.{nanos_of, new_door, tcp_frame, std_sink, std_source, untold_connections};

use crate::arrival::{accept_from, in_two, listen};
use hose_io::{Door, Failed, StdSink, StdSource};
use std::io;
use std::marker::Model;
use std::net::{Ipv4Addr, Net, TcpListener, TcpStream};
use std::rt::Clock;
use std::time::Duration;

/// For how many seconds a peer may say nothing.
pub const READ_SECONDS: u64 = 600;

/// For how many seconds a peer may take nothing of what it is told.
pub const WRITE_SECONDS: u64 = 60;

/// A connection that was closed.
#[derive(Debug, Drop)]
pub struct TcpDone;

/// A port at 127.0.0.1, which only this machine's own programs reach. Connections come without end.
/// A read fails where the peer says nothing for too long, and a write where it takes nothing for
/// too long.
///
/// It tells nothing, and nothing is proved of what comes and goes: that is up to the system, and is
/// tried by tests.
#[derive(Drop)]
pub struct TcpDoor<N> {
    rt: N,
    read_timeout: Duration,
    write_timeout: Duration,
    address: Option<Ipv4Addr>,
    port: Option<u16>,
    listener: Option<TcpListener>,
    faults: u64,
}

impl<N> Model for TcpDoor<N> {
    ghost use Rattle.std.specs.Prelude.{is_some, option_map};
    ghost use Rattle.std.specs.Duration.{as_nanos};
    ghost use Rattle.std.specs.Net.Addr.{ipv4_octets};
    ghost use Rattle.hose_door.specs.steps.TcpState.{TcpState};

    ghost Value = { TcpState };

    ghost view = { λ door. record {
      faults = door.faults;
      address = option_map ipv4_octets door.address;
      port = door.port;
      listens = is_some door.listener;
      patience = record {
        read = as_nanos door.read_timeout;
        write = as_nanos door.write_timeout;
      };
    } };
}

impl<N: Net<Listener = TcpListener, Stream = TcpStream> + Send + Drop> TcpDoor<N> {
    /// It listens once it is opened, at 127.0.0.1. Its peers have `READ_SECONDS` and
    /// `WRITE_SECONDS`.
    pub fn new(rt: N) -> TcpDoor<N>
        ensures { result ≡ new_door (record {
          read = nanos_of read_seconds;
          write = nanos_of write_seconds;
        }) }
    {
        let read_timeout = Duration::from_secs(READ_SECONDS);
        let write_timeout = Duration::from_secs(WRITE_SECONDS);
        TcpDoor::with_timeouts(rt, read_timeout, write_timeout)
    }

    /// A door as `new` makes it, but with these timeouts, of which neither may be zero.
    pub fn with_timeouts(rt: N, read_timeout: Duration, write_timeout: Duration) -> TcpDoor<N>
        ensures { result ≡ new_door (record {
          read = as_nanos read_timeout;
          write = as_nanos write_timeout;
        }) }
    {
        TcpDoor {
            rt,
            read_timeout,
            write_timeout,
            address: None,
            port: None,
            listener: None,
            faults: 0,
        }
    }
}

impl<N> TcpDoor<N> {
    /// How many calls have failed.
    pub fn faults(&self) -> u64
        ensures { result ≡ self.now.faults }
    {
        self.faults
    }

    // Counts a call that failed.
    fn fault(&mut self) -> Failed
        ensures after { self.new ≡ record self.old { faults = one_more self.old.faults } }
        ensures rose { Rose (tcp_frame self.old) (tcp_frame self.new) }
        ensures never_falls { self.old.faults ≤ self.new.faults }
    {
        self.faults = self.faults.saturating_add(1);
        Failed
    }
}

impl<N: Clock> TcpDoor<N> {
    // Accepts a connection, as a stream to be read and one to be written.
    fn accept_ends(&self) -> io::Result<(TcpStream, TcpStream)>
        ensures { IsFalse self.now.listens → IsErr result }
    {
        let stream = accept_from(&self.rt, self.listener.as_ref())?;
        stream.set_read_timeout(Some(self.read_timeout))?;
        stream.set_write_timeout(Some(self.write_timeout))?;
        in_two(&self.rt, stream)
    }
}

impl<N: Net<Listener = TcpListener, Stream = TcpStream> + Clock + Drop> Door for TcpDoor<N> {
    ghost use Rattle.hose_door.specs.steps.TcpState.{tcp_frame, untold_connection, untold_connections};

    type In = StdSource<TcpStream>;

    type Out = StdSink<TcpStream>;

    type Done = TcpDone;

    ghost frame = { tcp_frame };

    ghost opened_at = { λ door. door.port };

    ghost told = { λ _. untold_connections };

    ghost came_to = { λ _. untold_connection };

    fn open(&mut self, port: u16) -> Result<(), Failed>
        ensures told { untold_connections ≡ untold_connections }
        ensures accounted { AreAccounted untold_connections }
        ensures met { Met (tcp_frame self.old) (tcp_frame self.new) result }
        ensures port { MatchResult result
            (λ _. self.new.port ≡ Some port)
            (λ _. self.new.port ≡ self.old.port) }

        ensures address { MatchResult result
            (λ _. self.new.address ≡ Some door_address)
            (λ _. self.new.address ≡ self.old.address) }
        ensures listens { MatchResult result
            (λ _. self.new.listens ≡ true)
            (λ _. self.new.listens ≡ self.old.listens) }
        ensures patience { self.new.patience ≡ self.old.patience }
    {
        let address = Ipv4Addr::LOCALHOST;
        let Ok(listener) = listen(&self.rt, address, port) else {
            return Err(self.fault());
        };
        self.address = Some(address);
        self.port = Some(port);
        self.listener = Some(listener);
        Ok(())
    }

    fn accept(&mut self) -> Result<Option<(StdSource<TcpStream>, StdSink<TcpStream>)>, Failed>
        ensures accepted { MatchResult result
            (λ found. MatchOption found
            (AreUsedUp untold_connections × (untold_connections ≡ untold_connections))
            (λ ends. IsConnection std_source std_sink ends.0 ends.1
            × Accepts untold_connections untold_connections untold_stream untold_text 0))
            (λ _. untold_connections ≡ untold_connections) }
        ensures accounted { AreAccounted untold_connections }
        ensures met { Met (tcp_frame self.old) (tcp_frame self.new) result }
        ensures port { self.new.port ≡ self.old.port }

        ensures never_ends { IfOk result (λ found. IsSome found) }
        ensures unopened { IsFalse self.old.listens → IsErr result }
        ensures stays { self.new ≡ record self.old { faults = self.new.faults } }
    {
        let Ok((input, output)) = self.accept_ends() else {
            return Err(self.fault());
        };
        Ok(Some((StdSource::new(input), StdSink::new(output))))
    }

    // The system refuses a peer of which no accept was told yet, and each that comes later.
    fn close(&mut self)
        ensures told { untold_connections ≡ untold_connections }
        ensures frame { tcp_frame self.new ≡ tcp_frame self.old }
        ensures port { self.new.port ≡ self.old.port }

        ensures after { self.new ≡ record self.old { listens = false } }
    {
        self.listener = None;
    }

    // Both streams are dropped here, and with the last of them the system closes the connection. A
    // peer that sent more than was read may see it reset.
    fn done(_input: StdSource<TcpStream>, _output: StdSink<TcpStream>) -> TcpDone {
        TcpDone
    }

    fn back(&mut self, _done: TcpDone) {}
}

#[cfg(test)]
mod tests {
    use super::*;
    use std::net::SocketAddr;
    use std::test::Fail;

    // Opens a door at the first of some ports that is free, and says which.
    fn open_somewhere<N: Net<Listener = TcpListener, Stream = TcpStream> + Clock + Drop>(
        door: &mut TcpDoor<N>,
    ) -> Option<u16> {
        for port in 47_100..47_200 {
            if door.open(port).is_ok() {
                return Some(port);
            }
        }
        None
    }

    // No clause of the system's calls says what they do with an address and a limit. A door on all
    // addresses would be reached at 127.0.0.2 too.
    #[test]
    fn the_system_has_its_address_and_its_limits(rt: HostRuntime) -> Result<(), Fail> {
        let mut door = TcpDoor::new(rt);
        let port = open_somewhere(&mut door).ok_or("no free port")?;
        let listener = door.listener.as_ref().ok_or("no listener")?;
        let address = listener.local_addr()?;
        assert!(rt; address == SocketAddr::from((Ipv4Addr::new(127, 0, 0, 1), port)));
        assert!(rt; TcpStream::connect(&rt, (Ipv4Addr::new(127, 0, 0, 2), port)).is_err());
        let _peer = TcpStream::connect(&rt, (Ipv4Addr::new(127, 0, 0, 1), port))?;
        let (input, output) = door.accept_ends()?;
        assert!(rt; input.read_timeout()? == Some(Duration::from_secs(600)));
        assert!(rt; output.write_timeout()? == Some(Duration::from_secs(60)));
        Ok(())
    }
}
