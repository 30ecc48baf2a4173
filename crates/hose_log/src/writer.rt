// The thread that writes a log.
use rtrb::Consumer;
use std::alloc::Global;
use std::io::{ErrorKind, Write};
use std::sync::atomic::{AtomicBool, AtomicU64, Ordering};
use std::sync::{Arc, Wait};
use std::thread;
use std::thread::Parker;
use std::time::{Clock, Duration};

// For so many milliseconds an output that has no room is left alone.
const NO_ROOM_MILLIS: u64 = 10;

/// What who tells and who writes have in common beside the ring.
#[derive(Drop)]
pub struct Shared {
    pub parker: Parker,
    // How many lines found no room in the ring.
    pub lost: AtomicU64,
    // How many were taken out of the ring and could not be written.
    pub unwritten: AtomicU64,
    // No line is told any more, and all were written.
    pub ends: AtomicBool,
    pub is_ended: AtomicBool,
}

impl Shared {
    pub fn new() -> Shared {
        Shared {
            parker: Parker::new(),
            lost: AtomicU64::new(0),
            unwritten: AtomicU64::new(0),
            ends: AtomicBool::new(false),
            is_ended: AtomicBool::new(false),
        }
    }
}

/// What takes lines out of the ring and writes them.
#[derive(Drop)]
pub struct Writer<W> {
    pub ring: Consumer<u8, Global>,
    pub shared: Arc<Shared, Global>,
    pub output: W,
    // What was taken out of the ring.
    pub piece: Vec<u8>,
    // How many lost lines were told of.
    pub told: u64,
    // What was written last is no whole line.
    pub is_torn: bool,
}

impl<W: Write + Drop> Writer<W> {
    /// Writes lines until no more are told.
    pub fn run<R: Wait + Clock>(mut self, rt: &R) {
        for _ in rt.forever() {
            let ends = self.shared.ends.load(Ordering::SeqCst);
            let count = self.ring.pop_partial_slice(self.piece.as_mut_slice());
            if count > 0 {
                self.write_piece(rt, count);
            } else if ends {
                break;
            } else {
                self.tell_lost(rt);
                self.shared.parker.park(rt);
            }
        }
        self.shared.is_ended.store(true, Ordering::SeqCst);
    }

    // Lost lines are told of between whole lines.
    fn write_piece<R: Clock>(&mut self, rt: &R, count: usize) {
        let Some(piece) = self.piece.get(..count) else {
            return;
        };
        let is_whole = piece.last() == Some(&b'\n');
        if self.is_torn {
            self.is_torn = write_bytes(rt, &mut self.output, b"\n") < 1;
        }
        let written = write_bytes(rt, &mut self.output, piece);
        if written < piece.len() {
            self.is_torn = true;
            let unwritten = lines_after(piece, written);
            self.shared.unwritten.fetch_add(unwritten, Ordering::SeqCst);
        } else if is_whole {
            self.tell_lost(rt);
        }
    }

    fn tell_lost<R: Clock>(&mut self, rt: &R) {
        let lost = self.shared.lost.load(Ordering::SeqCst);
        let new = lost.saturating_sub(self.told);
        if new == 0 {
            return;
        }
        let mut number = itoa::Buffer::new();
        write_bytes(rt, &mut self.output, number.format(new).as_bytes());
        write_bytes(rt, &mut self.output, b" lines of the log were lost\n");
        self.told = lost;
    }
}

// How many lines end after so many bytes.
fn lines_after(piece: &[u8], written: usize) -> u64 {
    let mut lines = 0u64;
    for byte in piece.iter().skip(written) {
        if *byte == b'\n' {
            lines = lines.saturating_add(1);
        }
    }
    lines
}

// Writes from the front of bytes as many as can be, and says how many. It waits for an output that
// has no room.
fn write_bytes<R: Clock, W: Write>(rt: &R, output: &mut W, bytes: &[u8]) -> usize {
    let mut written = 0;
    for _ in 0..u64::MAX {
        let rest = match bytes.get(written..) {
            Some(rest) if !rest.is_empty() => rest,
            _ => break,
        };
        match output.write(rest) {
            Ok(0) => break,
            Ok(count) => written = written.saturating_add(count),
            Err(error) => match error.kind() {
                ErrorKind::Interrupted => {}
                ErrorKind::WouldBlock => {
                    thread::sleep(rt, Duration::from_millis(NO_ROOM_MILLIS));
                }
                _ => break,
            },
        }
    }
    written
}
