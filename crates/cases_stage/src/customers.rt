// A customer who releases what it is told is admitted.
ghost use Rattle.std.specs.Prelude.{◌≡◌, ◌<◌, ◌≤◌, IfOk, None, length};

use crate::streams::CaseEnds;
use hose_io::{Failed, MemSink, MemSource, Sink, Source};
use hose_words::Cursor;
use std::alloc::{AllocError, Global};
use std::cell::Cell;

/// The ends of a customer who keeps what it is told, and admits and releases so often.
pub fn customer<'a>(
    alloc: Global,
    told: &'a Cell<u64>,
    times: u64,
) -> Result<CaseEnds<Asking<'a>, Hearing<'a>>, AllocError> {
    let source = Asking::new(alloc, told, times)?;
    let stored = MemSink::new(alloc)?;
    Ok(CaseEnds {
        source,
        sink: Hearing { stored, told },
    })
}

/// A sink that keeps the number of the VPN that was admitted last.
#[derive(Drop)]
pub struct Hearing<'a> {
    stored: MemSink,
    told: &'a Cell<u64>,
}

impl Hearing<'_> {
    /// What was given.
    pub fn bytes(&self) -> &[u8] {
        self.stored.bytes()
    }
}

impl Sink for Hearing<'_> {
    ghost use Rattle.hose_io.specs.steps.SinkState.{mem_sink_frame};

    ghost frame = { λ s. mem_sink_frame s.stored };

    ghost content = { λ _. None };

    ghost pieces = { λ s. s.stored.pieces };

    fn put(&mut self, bytes: &[u8]) -> Result<usize, Failed> {
        let count = self.stored.put(bytes)?;
        if let Some(id) = admitted(bytes) {
            self.told.set(id);
        }
        Ok(count)
    }
}

// The number of the VPN that a reply says is admitted.
fn admitted(reply: &[u8]) -> Option<u64> {
    let mut words = Cursor::new(reply);
    words.expect(b"admitted").ok()?;
    words.number().ok()
}

/// A source that gives a greeting, and then by turns an admission and the release of what was
/// admitted last. Each line is made when the source is asked for it.
#[derive(Drop)]
pub struct Asking<'a> {
    alloc: Global,
    told: &'a Cell<u64>,
    line: MemSource,
    // How many lines there are after the greeting, and how many of them are given.
    lines: u64,
    given: u64,
    faults: u64,
}

impl<'a> Asking<'a> {
    fn new(alloc: Global, told: &'a Cell<u64>, times: u64) -> Result<Asking<'a>, AllocError> {
        Ok(Asking {
            alloc,
            told,
            line: MemSource::new(alloc, b"hello acme\n", 4_096)?,
            lines: times.saturating_mul(2),
            given: 0,
            faults: 0,
        })
    }

    // Gives the rest of a line, or the next one.
    fn give(&mut self, into: &mut [u8]) -> Result<usize, Failed>
        requires { 0 < length into.old }
        ensures room { IfOk result (λ count. count ≤ length into.new) }
        ensures faults { self.new.faults ≡ self.old.faults }
    {
        if self.line.left().is_empty() && self.given < self.lines {
            let Ok(line) = self.next_line() else {
                return Err(Failed);
            };
            self.line = line;
            self.given += 1;
        }
        self.line.take(into)
    }

    fn next_line(&self) -> Result<MemSource, AllocError> {
        if self.given % 2 == 0 {
            return MemSource::new(self.alloc, b"admit a:1 b:1\n", 4_096);
        }
        let told = self.told.get();
        let line = format!(in self.alloc; "release {told}\n")?;
        MemSource::new(self.alloc, line.as_bytes(), 4_096)
    }
}

impl Source for Asking<'_> {
    ghost use Rattle.std.specs.Prelude.{[]};
    ghost use Rattle.hose_io.specs.Frame.{Frame};

    ghost frame = { λ s. record { faults = s.faults; number = 0; loan = [] } };

    ghost content = { λ _. None };

    fn take(&mut self, into: &mut [u8]) -> Result<usize, Failed> {
        let given = self.give(into);
        if given.is_err() {
            self.faults = self.faults.saturating_add(1);
        }
        given
    }
}
