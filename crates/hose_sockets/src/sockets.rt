// A network over the system's sockets.
ghost use Rattle.std.specs.Prelude.{⊤, IfErr, length};
ghost use Rattle.hose_net.specs.Doors.{IsAmong};

use crate::board::{Board, link_token, place_token};
use crate::door::{Door, fault_at};
use crate::stream::Stream;
use hose_net::{Address, Connections, DoorsFault, Pause, Ready};
use mio::net::UnixStream;
use mio::{Events, Poll};
use std::alloc::Global;
use std::fs::Files;
use std::io;
use std::io::ErrorKind;
use std::net::Net;
use std::os::fd::AsRawFd;
use std::time::{Clock, Duration, Instant};

// How many events one wait gives at most.
const EVENTS: usize = 1_024;

// The greatest descriptor of a standard stream, and how many there are.
const STANDARD_END: i32 = 2;

const STANDARD: usize = 3;

// After so many milliseconds who was put off at a door is let in, if that can be.
const PAUSE_MILLIS: u64 = 100;

// For so many milliseconds what is left is written before the end.
const END_MILLIS: u64 = 2_000;

const SECOND_MILLIS: u64 = 1_000;

/// Doors that are open, and the connections that came by them. A connection is found ended or
/// failed by the call that meets it, and no other is the worse for it.
///
/// It tells nothing, and nothing is proved of what comes and goes: that is up to the system, and is
/// tried by scripts. Who is at a path of the file system is guarded by the folder of that path.
#[derive(Drop)]
pub struct Sockets<N> {
    rt: N,
    poll: Poll,
    events: Events,
    board: Board,
    // When doors at which someone was put off are told again.
    retry: Option<Instant>,
    // The host ends, and is to stop at this time, or at once where no clock tells it.
    ends: bool,
    end: Option<Instant>,
    // The link to a standby, when the next second will have passed, and when the standby is late.
    link: Option<Stream>,
    second: Option<Instant>,
    late: Option<Instant>,
    // What keeps the descriptors of standard streams that are closed from being a connection's.
    _kept: Vec<Poll>,
}

impl<N: Files + Net + Clock + Drop> Sockets<N> {
    /// Opens doors, which have the numbers from 0 on. Where one cannot be opened, none is.
    pub fn open(rt: N, alloc: Global, addresses: &[Address<'_>]) -> Result<Sockets<N>, DoorsFault>
        ensures { IfErr result (IsAmong (length addresses.now)) }
    {
        let Ok(mut network) = Sockets::new(rt, alloc) else {
            return Err(DoorsFault::Memory);
        };
        for place in 0..addresses.len() {
            if let Err(error) = network.open_door(alloc, addresses[place]) {
                let fault = fault_at(place, error.kind());
                network.shut();
                return Err(fault);
            }
        }
        Ok(network)
    }

    fn new(rt: N, alloc: Global) -> io::Result<Sockets<N>> {
        let mut kept = Vec::new(alloc);
        let mut poll = Poll::new(&rt)?;
        for _ in 0..STANDARD {
            if poll.as_raw_fd() > STANDARD_END {
                break;
            }
            let higher = Poll::new(&rt)?;
            kept.push(std::mem::replace(&mut poll, higher))?;
        }
        Ok(Sockets {
            rt,
            poll,
            events: Events::with_capacity(alloc, EVENTS)?,
            board: Board::new(alloc),
            retry: None,
            ends: false,
            end: None,
            link: None,
            second: None,
            late: None,
            _kept: kept,
        })
    }

    fn open_door(&mut self, alloc: Global, address: Address<'_>) -> io::Result<()> {
        let mut door = Door::open(&self.rt, alloc, address)?;
        let registered = door.register(self.poll.registry(), self.board.next_token());
        if let Err(error) = registered {
            door.take_file_away(&self.rt);
            return Err(error);
        }
        self.board.add_door(door)?;
        Ok(())
    }

    /// Takes away the files of its own sockets, and closes all doors and connections.
    pub fn shut(self) {
        self.board.take_files_away(&self.rt);
    }
}

impl<N: Clock> Sockets<N> {
    // For how long to wait at most.
    fn patience(&self) -> Option<Duration> {
        if self.board.has_next() {
            return Some(Duration::ZERO);
        }
        let waiting = sooner(
            &self.rt,
            self.retry,
            sooner(&self.rt, self.second, self.late),
        );
        let time = self.end.or(waiting)?;
        Some(left(&self.rt, time))
    }

    // Asks the system what is ready, and waits for that where nothing is known.
    fn ask(&mut self) -> io::Result<()> {
        let patience = self.patience();
        self.poll.poll(&mut self.events, patience)?;
        for event in self.events.iter() {
            self.board.note(event);
        }
        if is_past(&self.rt, self.retry) {
            self.retry = None;
            self.board.knock();
        }
        self.look_at_the_clock();
        self.board.turn();
        Ok(())
    }

    // Tells that a second has passed, and that the standby is late, where that is so.
    fn look_at_the_clock(&mut self) {
        if is_past(&self.rt, self.second) {
            self.second = after(&self.rt, SECOND_MILLIS);
            self.board.tell_second();
        }
        if is_past(&self.rt, self.late) && self.board.tell_late() {
            self.late = None;
        }
    }

    fn is_over(&self) -> bool {
        match self.end {
            Some(end) => left(&self.rt, end).is_zero(),
            None => self.ends,
        }
    }

    fn take(&mut self, door: usize, place: usize) -> io::Result<bool> {
        let Some(opened) = self.board.door(door) else {
            return Ok(false);
        };
        let mut stream = opened.accept()?;
        stream.register(self.poll.registry(), place_token(place))?;
        let came = self.board.seat(place, stream)?;
        self.board.tell_door(door);
        Ok(came)
    }
}

// How long it is from now to a time. A clock that cannot be read tells that it is there.
fn left<N: Clock>(rt: &N, time: Instant) -> Duration {
    match Instant::now(rt) {
        Ok(now) => time.saturating_duration_since(now),
        Err(_) => Duration::ZERO,
    }
}

// Whether a time is there.
fn is_past<N: Clock>(rt: &N, time: Option<Instant>) -> bool {
    match time {
        Some(time) => left(rt, time).is_zero(),
        None => false,
    }
}

// The sooner of two times.
fn sooner<N: Clock>(rt: &N, one: Option<Instant>, other: Option<Instant>) -> Option<Instant> {
    let (Some(first), Some(second)) = (one, other) else {
        return one.or(other);
    };
    if left(rt, second) < left(rt, first) {
        other
    } else {
        one
    }
}

fn after<N: Clock>(rt: &N, millis: u64) -> Option<Instant> {
    let now = Instant::now(rt).ok()?;
    now.checked_add(Duration::from_millis(millis))
}

// Whether an accept that failed so is to be made again at once.
fn is_no_arrival(error: &io::Error) -> bool {
    matches!(
        error.kind(),
        ErrorKind::Interrupted | ErrorKind::ConnectionAborted
    )
}

impl<N: Net + Clock + Drop> Connections for Sockets<N> {
    ghost did = { λ _ _ _. ⊤ };

    ghost saw = { λ _ _ _ _. ⊤ };

    // Where the system cannot be asked any more, the host is to stop.
    fn next(&mut self) -> Ready {
        for _ in 0..u64::MAX {
            if self.is_over() {
                return Ready::Stop;
            }
            match self.board.take() {
                // Something was heard since: the standby is late at another time.
                Some(Ready::Late) if self.late.is_some() => {}
                Some(ready) => return ready,
                None => {
                    if self.ask().is_err() {
                        return Ready::Stop;
                    }
                }
            }
        }
        Ready::Stop
    }

    fn accept(&mut self, door: usize, place: usize) -> bool {
        match self.take(door, place) {
            Ok(came) => came,
            Err(error) => {
                if is_no_arrival(&error) {
                    self.board.tell_door(door);
                } else if error.kind() != ErrorKind::WouldBlock {
                    self.put_off(door);
                }
                false
            }
        }
    }

    fn put_off(&mut self, door: usize) {
        self.board.put_off(door);
        if self.retry.is_none() {
            self.retry = after(&self.rt, PAUSE_MILLIS);
        }
    }

    fn ask_again(&mut self, place: usize) {
        self.board.tell_again(place);
    }

    fn read(&mut self, place: usize, into: &mut [u8]) -> Result<usize, Pause> {
        let Some(stream) = self.board.stream_mut(place) else {
            return Err(Pause::Over);
        };
        match stream.read_piece(into) {
            Ok(0) => Err(Pause::Over),
            Ok(count) => {
                self.board.was_read(place, count == into.len());
                Ok(count)
            }
            Err(error) => {
                self.board.was_read(place, false);
                Err(self.pause_at(place, &error))
            }
        }
    }

    fn write<B>(&mut self, place: usize, bytes: &[u8], _kept: &B) -> Result<usize, Pause> {
        let Some(stream) = self.board.stream_mut(place) else {
            return Err(Pause::Over);
        };
        match stream.write_piece(bytes) {
            Ok(0) => Err(Pause::Over),
            Ok(count) => Ok(count),
            Err(error) => Err(self.pause_at(place, &error)),
        }
    }

    fn end_soon(&mut self) {
        self.ends = true;
        self.end = after(&self.rt, END_MILLIS);
    }

    fn close(&mut self, place: usize) {
        self.board.unseat(place);
        self.board.knock();
    }

    fn open_link(&mut self, path: &str) -> bool {
        self.link = self.linked(path).ok();
        self.link.is_some()
    }

    fn read_link(&mut self, into: &mut [u8]) -> Result<usize, Pause> {
        let Some(link) = self.link.as_mut() else {
            return Err(Pause::Over);
        };
        match link.read_piece(into) {
            Ok(0) => Err(Pause::Over),
            Ok(count) => {
                // What is left is told once by the system.
                self.board.tell_link();
                Ok(count)
            }
            Err(error) => Err(self.pause_of_link(&error)),
        }
    }

    fn write_link<B>(&mut self, bytes: &[u8], _kept: &B) -> Result<usize, Pause> {
        let Some(link) = self.link.as_mut() else {
            return Err(Pause::Over);
        };
        match link.write_piece(bytes) {
            Ok(0) => Err(Pause::Over),
            Ok(count) => Ok(count),
            Err(error) => Err(self.pause_of_link(&error)),
        }
    }

    fn close_link(&mut self) {
        self.link = None;
    }

    fn expect(&mut self, seconds: u64) {
        self.late = after(&self.rt, seconds.saturating_mul(SECOND_MILLIS));
        if self.second.is_none() {
            self.second = after(&self.rt, SECOND_MILLIS);
        }
    }
}

impl<N: Net> Sockets<N> {
    fn linked(&mut self, path: &str) -> io::Result<Stream> {
        let mut link = Stream::Unix(UnixStream::connect(&self.rt, path)?);
        link.register(self.poll.registry(), link_token())?;
        Ok(link)
    }
}

impl<N> Sockets<N> {
    // Why a call failed. One that was interrupted is made again.
    fn pause_at(&mut self, place: usize, error: &io::Error) -> Pause {
        match error.kind() {
            ErrorKind::WouldBlock => Pause::NotNow,
            ErrorKind::Interrupted => {
                self.board.tell_place(place);
                Pause::NotNow
            }
            _ => Pause::Over,
        }
    }

    // Why a call on the link failed.
    fn pause_of_link(&mut self, error: &io::Error) -> Pause {
        match error.kind() {
            ErrorKind::WouldBlock => Pause::NotNow,
            ErrorKind::Interrupted => {
                self.board.tell_link();
                Pause::NotNow
            }
            _ => Pause::Over,
        }
    }
}
