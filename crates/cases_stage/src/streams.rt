// The streams of a case: those in memory, with more bytes than are stored, and in pieces.
ghost use Rattle.std.specs.Prelude.{◌≤◌, None};

use cases_files::CasePiece;
use hose_io::{Failed, MemSink, MemSource, Sink, Source};

/// The two ends of a session.
#[derive(Drop)]
pub struct CaseEnds<S: Source, O: Sink> {
    pub source: S,
    pub sink: O,
}

/// A source in memory, and after its bytes a text again and again, as long as bytes are left.
#[derive(Drop)]
pub struct LongSource {
    stored: MemSource,
    piece: CasePiece,
    again: Vec<u8>,
    place: usize,
    more: u64,
    given: u64,
}

impl LongSource {
    /// The bytes of `stored`, and then so many of `again`.
    pub fn new(stored: MemSource, piece: CasePiece, again: Vec<u8>, more: u64) -> LongSource {
        LongSource {
            stored,
            piece,
            again,
            place: 0,
            more,
            given: 0,
        }
    }

    /// How many bytes were taken.
    pub fn taken(&self) -> u64 {
        self.given
    }
}

impl Source for LongSource {
    ghost use Rattle.hose_io.specs.steps.SourceState.{mem_source_frame};

    ghost frame = { λ s. mem_source_frame s.stored };

    ghost content = { λ _. None };

    fn take(&mut self, into: &mut [u8]) -> Result<usize, Failed> {
        let mut count = self.stored.take(into)?;
        if count == 0 {
            let start = if self.place < self.again.len() {
                self.place
            } else {
                0
            };
            let rest = &self.again[start..];
            let most = rest.len().min(into.len());
            count = (most as u64).min(self.piece.bytes).min(self.more) as usize;
            into[..count].copy_from_slice(&rest[..count]);
            self.place = start + count;
            self.more -= count as u64;
        }
        self.given = self.given.saturating_add(count as u64);
        Ok(count)
    }
}

/// A sink in memory that takes a piece in a call.
#[derive(Drop)]
pub struct NarrowSink {
    stored: MemSink,
    piece: CasePiece,
    // How many calls took all that they were given.
    pieces: u64,
}

impl NarrowSink {
    /// The sink, which takes so many bytes at most in a call.
    pub fn new(stored: MemSink, piece: CasePiece) -> NarrowSink {
        NarrowSink {
            stored,
            piece,
            pieces: 0,
        }
    }

    /// What was given.
    pub fn bytes(&self) -> &[u8] {
        self.stored.bytes()
    }
}

impl Sink for NarrowSink {
    ghost use Rattle.hose_io.specs.steps.SinkState.{mem_sink_frame};

    ghost frame = { λ s. mem_sink_frame s.stored };

    ghost content = { λ _. None };

    ghost pieces = { λ s. s.pieces };

    fn put(&mut self, bytes: &[u8]) -> Result<usize, Failed> {
        let most = (bytes.len() as u64).min(self.piece.bytes) as usize;
        let count = self.stored.put(&bytes[..most])?;
        if count == bytes.len() {
            self.pieces = self.pieces.saturating_add(1);
        }
        Ok(count)
    }
}
