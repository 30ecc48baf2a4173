// A door: a port of this machine, or a socket of the file system.
ghost use Rattle.std.specs.Prelude.{ℕ, ◌<◌};
ghost use Rattle.hose_net.specs.Doors.{IsAmong};

use crate::stream::Stream;
use hose_net::{Address, DoorTrouble, DoorsFault};
use mio::net::{TcpListener, UnixListener, UnixStream};
use mio::{Interest, Registry, Token};
use std::alloc::Global;
use std::fs::{Files, Metadata};
use std::io::ErrorKind;
use std::net::{Ipv4Addr, Net, SocketAddr, SocketAddrV4};
use std::os::unix::fs::{FileTypeExt, MetadataExt};
use std::{fs, io};

#[derive(Drop)]
enum Listener {
    Tcp(TcpListener),
    Unix(UnixListener),
}

// The file of a socket, by which it is told from one that another program put in its place. Its
// number is given to no other file as long as the socket is open.
#[derive(Drop)]
struct SocketFile {
    path: String,
    device: u64,
    number: u64,
}

#[derive(Drop)]
pub struct Door {
    listener: Listener,
    file: Option<SocketFile>,
}

impl Door {
    /// Listens at an address.
    pub fn open<N: Files + Net>(rt: &N, alloc: Global, address: Address<'_>) -> io::Result<Door> {
        match address {
            Address::Port(port) => open_port(rt, port),
            Address::Path(path) => open_path(rt, alloc, path),
        }
    }

    pub fn register(&mut self, registry: &Registry, token: Token) -> io::Result<()> {
        match &mut self.listener {
            Listener::Tcp(listener) => registry.register(listener, token, Interest::READABLE),
            Listener::Unix(listener) => registry.register(listener, token, Interest::READABLE),
        }
    }

    /// The next connection, or `WouldBlock` where none waits.
    ///
    /// A reply goes out whole, so it is not to wait for more to be sent with it. Where the system
    /// does not grant that, replies come later, and are the same: this is no fault.
    pub fn accept(&self) -> io::Result<Stream> {
        match &self.listener {
            Listener::Tcp(listener) => {
                let (stream, _) = listener.accept()?;
                let _ = stream.set_nodelay(true);
                Ok(Stream::Tcp(stream))
            }
            Listener::Unix(listener) => {
                let (stream, _) = listener.accept()?;
                Ok(Stream::Unix(stream))
            }
        }
    }

    /// Takes the file of the socket away, where it is still this socket's. It is asked while the
    /// socket is open.
    pub fn take_file_away<N: Files>(&self, rt: &N) {
        let Some(file) = &self.file else {
            return;
        };
        if is_still(rt, file) {
            let _ = fs::remove_file(rt, file.path.as_str());
        }
    }
}

fn is_still<N: Files>(rt: &N, file: &SocketFile) -> bool {
    match fs::symlink_metadata(rt, file.path.as_str()) {
        Ok(lies) => is_same(&lies, file.device, file.number),
        Err(_) => false,
    }
}

fn is_same(lies: &Metadata, device: u64, number: u64) -> bool {
    let same_device = lies.dev() == device;
    same_device && lies.ino() == number
}

/// Why doors are not opened, where the opening of the one at a place failed so.
pub fn fault_at(place: usize, kind: ErrorKind) -> DoorsFault
    ensures { (count : ℕ) → place < count → IsAmong count result }
{
    let trouble = match kind {
        ErrorKind::OutOfMemory => return DoorsFault::Memory,
        ErrorKind::AddrInUse => DoorTrouble::Served,
        ErrorKind::PermissionDenied => DoorTrouble::NotAllowed,
        ErrorKind::NotFound | ErrorKind::NotADirectory => DoorTrouble::NoFolder,
        ErrorKind::AlreadyExists => DoorTrouble::NoSocket,
        _ => DoorTrouble::Other,
    };
    DoorsFault::Door(place, trouble)
}

fn open_port<N: Net>(rt: &N, port: u16) -> io::Result<Door> {
    let address = SocketAddr::V4(SocketAddrV4::new(Ipv4Addr::LOCALHOST, port));
    let listener = TcpListener::bind(rt, address)?;
    Ok(Door {
        listener: Listener::Tcp(listener),
        file: None,
    })
}

fn open_path<N: Files + Net>(rt: &N, alloc: Global, path: &str) -> io::Result<Door> {
    let kept = String::from_str(alloc, path)?;
    let listener = bind_path(rt, path)?;
    let lies = fs::symlink_metadata(rt, path)?;
    Ok(Door {
        listener: Listener::Unix(listener),
        file: Some(SocketFile {
            path: kept,
            device: lies.dev(),
            number: lies.ino(),
        }),
    })
}

// Takes a path over where a socket lies that nobody serves. Whatever else lies there is left alone.
fn bind_path<N: Files + Net>(rt: &N, path: &str) -> io::Result<UnixListener> {
    match UnixListener::bind(rt, path) {
        Err(error) if error.kind() == ErrorKind::AddrInUse => {}
        answer => return answer,
    }
    let left = fs::symlink_metadata(rt, path)?;
    if !left.file_type().is_socket() {
        return Err(ErrorKind::AlreadyExists.into());
    }
    if is_served(rt, path) {
        return Err(ErrorKind::AddrInUse.into());
    }
    // Another program may have taken it over in the meantime.
    let lies = fs::symlink_metadata(rt, path)?;
    if !is_same(&lies, left.dev(), left.ino()) {
        return Err(ErrorKind::AddrInUse.into());
    }
    fs::remove_file(rt, path)?;
    UnixListener::bind(rt, path)
}

// Whether a connection to the socket is anything but refused. It does not wait for one.
fn is_served<N: Net>(rt: &N, path: &str) -> bool {
    match UnixStream::connect(rt, path) {
        Err(error) => error.kind() != ErrorKind::ConnectionRefused,
        Ok(_) => true,
    }
}
