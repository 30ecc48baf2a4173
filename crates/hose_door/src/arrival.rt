// Listening at a port, and the connections that arrive there.
ghost use Rattle.std.specs.Prelude.{◌≡◌, ◌↔◌, ◌⊎◌, IsErr, IsNone, IsTrue};
ghost use Rattle.std.specs.IoError.{error_kind};

use std::io::ErrorKind;
use std::net::{Ipv4Addr, Net, TcpListener, TcpStream};
use std::os::fd::AsRawFd;
use std::rt::Clock;
use std::time::Duration;
use std::{io, thread};

// The greatest descriptor of a standard stream.
const STANDARD_END: i32 = 2;

// A call that failed for want of something is made again after a pause, for ten seconds.
const PAUSE_MILLIS: u64 = 100;

const MOST_PAUSES: u32 = 100;

// Errors of Linux that pass: no descriptor or no memory is left, or what accept(2) says to take for
// a connection that has not arrived, which is what the protocol and the network report.
const PASSING: [i32; 12] = [
    23, // ENFILE
    24, // EMFILE
    12, // ENOMEM
    105, // ENOBUFS
    71, // EPROTO
    100, // ENETDOWN
    92, // ENOPROTOOPT
    112, // EHOSTDOWN
    64, // ENONET
    113, // EHOSTUNREACH
    95, // EOPNOTSUPP
    101, // ENETUNREACH
];

/// Listens at a port of an address, by a descriptor above those of the standard streams.
pub fn listen<N: Net<Listener = TcpListener, Stream = TcpStream>>(
    rt: &N,
    address: Ipv4Addr,
    port: u16,
) -> io::Result<TcpListener> {
    let listener = TcpListener::bind(rt, (address, port))?;
    if listener.as_raw_fd() > STANDARD_END {
        return Ok(listener);
    }
    listener.try_clone()
}

/// Waits for a connection. An accept that was interrupted, or whose peer was gone already, is made
/// again.
pub fn accept_from<N: Clock>(rt: &N, listener: Option<&TcpListener>) -> io::Result<TcpStream>
    ensures { IsNone listener.entry → IsErr result }
{
    let Some(listener) = listener else {
        return Err(ErrorKind::NotConnected.into());
    };
    let mut pauses = 0;
    for _ in 0..u64::MAX {
        match listener.accept() {
            Ok((stream, _)) => return Ok(stream),
            Err(error) if is_no_arrival(&error) => {}
            Err(error) if pauses < MOST_PAUSES && is_passing(&error) => {
                pauses += 1;
                pause(rt);
            }
            Err(error) => return Err(error),
        }
    }
    Err(ErrorKind::Interrupted.into())
}

/// A stream to be read and one to be written, both by descriptors above those of the standard
/// streams.
///
/// A reply is small and goes out whole, so it is not to wait for more to be sent with it. Where the
/// system does not grant that, replies come later, and are the same: this is no fault.
pub fn in_two<N: Clock>(rt: &N, stream: TcpStream) -> io::Result<(TcpStream, TcpStream)> {
    let _ = stream.set_nodelay(true);
    let input = second(rt, &stream)?;
    if stream.as_raw_fd() > STANDARD_END {
        return Ok((input, stream));
    }
    let output = second(rt, &stream)?;
    Ok((input, output))
}

// Another descriptor of the stream, which is above those of the standard streams.
fn second<N: Clock>(rt: &N, stream: &TcpStream) -> io::Result<TcpStream> {
    for _ in 0..MOST_PAUSES {
        match stream.try_clone() {
            Err(error) if is_passing(&error) => pause(rt),
            answer => return answer,
        }
    }
    stream.try_clone()
}

fn pause<N: Clock>(rt: &N) {
    thread::sleep(rt, Duration::from_millis(PAUSE_MILLIS));
}

// Whether an accept that failed so may succeed when it is made again at once.
fn is_no_arrival(error: &io::Error) -> bool
    ensures { IsTrue result
        ↔ ((error_kind error.now ≡ ErrorKind.Interrupted)
        ⊎ (error_kind error.now ≡ ErrorKind.ConnectionAborted)) }
{
    matches!(
        error.kind(),
        ErrorKind::Interrupted | ErrorKind::ConnectionAborted
    )
}

// Whether a call that failed so may succeed when it is made again later.
fn is_passing(error: &io::Error) -> bool {
    match error.raw_os_error() {
        Some(number) => PASSING.contains(&number),
        None => false,
    }
}
