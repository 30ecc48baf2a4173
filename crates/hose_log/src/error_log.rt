// A log that a thread of its own writes.
use crate::spelling::spell;
use crate::telling::Log;
use crate::writer::{Shared, Writer};
use rtrb::{Producer, RingBuffer};
use std::alloc::{AllocError, Global};
use std::io::Write;
use std::sync::atomic::Ordering;
use std::sync::{Arc, Wait};
use std::thread;
use std::thread::Threads;
use std::time::{Clock, Duration, Instant};

// How many bytes wait to be written at most, and how many of them are written at once.
const RING: usize = 1 << 20;

const PIECE: usize = 1 << 16;

// A line that is longer is lost.
const LINE: usize = 1 << 14;

// At the end the thread is waited for so many times so many milliseconds.
const LAST_WAITS: u32 = 500;

const LAST_MILLIS: u64 = 2;

const NANOS: u64 = 1_000_000_000;

// What is shared with the thread that writes.
#[derive(Drop)]
struct Begun {
    ring: Producer<u8, Global>,
    shared: Arc<Shared, Global>,
}

/// A log that a thread of its own writes: to standard error, as a rule. Lines wait in a ring of one
/// mebibyte. Those that find no room there are lost, which is told once there is; so are those
/// longer than 16 KiB, and all where there is no memory or no thread to be had.
#[derive(Drop)]
pub struct ErrorLog<R> {
    rt: R,
    // Whose nanoseconds are counted from here on.
    since: Option<Instant>,
    begun: Option<Begun>,
    line: Vec<u8>,
    lost: u64,
    // It is told nothing, so it loses nothing.
    is_silent: bool,
}

impl<R: Threads + Wait + Clock + Copy + Drop + Send + 'static> ErrorLog<R> {
    /// Begins the thread that writes.
    pub fn begin<W: Write + Drop + Send + 'static>(rt: R, alloc: Global, output: W) -> ErrorLog<R> {
        ErrorLog {
            rt,
            since: Instant::now(&rt).ok(),
            begun: begin(rt, alloc, output).ok(),
            line: Vec::new(alloc),
            lost: 0,
            is_silent: false,
        }
    }
}

impl<R: Clock> ErrorLog<R> {
    /// A log that is not written, for who wants none: nothing counts as lost.
    pub fn silent(rt: R, alloc: Global) -> ErrorLog<R> {
        ErrorLog {
            since: Instant::now(&rt).ok(),
            rt,
            begun: None,
            line: Vec::new(alloc),
            lost: 0,
            is_silent: true,
        }
    }
}

impl<R> ErrorLog<R> {
    // Counts a line that is lost, and has the thread tell of it.
    fn lose(&mut self) {
        self.lost = self.lost.saturating_add(1);
        if let Some(begun) = &self.begun {
            begun.shared.lost.store(self.lost, Ordering::SeqCst);
            begun.shared.parker.unpark();
        }
    }

    // Whether the line found room.
    fn hand_on(&mut self) -> bool {
        let Some(begun) = &mut self.begun else {
            return false;
        };
        if self.line.len() > LINE {
            return false;
        }
        if begun.ring.push_entire_slice(self.line.as_slice()).is_err() {
            return false;
        }
        begun.shared.parker.unpark();
        true
    }
}

fn begin<
    R: Threads + Wait + Clock + Copy + Drop + Send + 'static,
    W: Write + Drop + Send + 'static,
>(rt: R, alloc: Global, output: W) -> Result<Begun, AllocError> {
    let (producer, consumer) = RingBuffer::new(alloc, RING)?;
    let shared = Arc::new(alloc, Shared::new())?;
    let writer = Writer {
        ring: consumer,
        shared: Arc::try_clone(&shared)?,
        output,
        piece: vec![in alloc; 0u8; PIECE]?,
        told: 0,
        is_torn: false,
    };
    let _running = thread::spawn(&rt, move || writer.run(&rt))?;
    Ok(Begun {
        ring: producer,
        shared,
    })
}

impl<R: Clock + Drop> Log for ErrorLog<R> {
    fn tell(&mut self, customer: &[u8], line: &[u8], reply: &[u8]) {
        if self.is_silent {
            return;
        }
        self.line.clear();
        let spelled = spell(&mut self.line, customer, line, reply);
        if spelled.is_err() || !self.hand_on() {
            self.lose();
        }
    }

    fn lost(&self) -> u64 {
        let unwritten = match &self.begun {
            Some(begun) => begun.shared.unwritten.load(Ordering::SeqCst),
            None => 0,
        };
        self.lost.saturating_add(unwritten)
    }

    fn nanos(&self) -> u64 {
        let (Some(since), Ok(now)) = (self.since, Instant::now(&self.rt)) else {
            return 0;
        };
        let past = now.saturating_duration_since(since);
        let nanos = u64::from(past.subsec_nanos());
        past.as_secs().saturating_mul(NANOS).saturating_add(nanos)
    }

    fn end(&mut self) {
        let Some(begun) = &self.begun else {
            return;
        };
        begun.shared.ends.store(true, Ordering::SeqCst);
        begun.shared.parker.unpark();
        for _ in 0..LAST_WAITS {
            if begun.shared.is_ended.load(Ordering::SeqCst) {
                return;
            }
            thread::sleep(&self.rt, Duration::from_millis(LAST_MILLIS));
        }
    }
}
