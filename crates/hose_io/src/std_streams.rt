// Sources and sinks over std's readers and writers. They tell nothing of content, but what the
// reader or the writer tells of itself is passed on.
ghost use Rattle.std.specs.Prelude.{◌≡◌, ◌<◌, ◌≤◌, Ok, IfOk, MatchResult, length, take};
ghost use Rattle.std.specs.Io.KnownBytes.{ReadConsumes, WriteAppends};
ghost use Rattle.hose_io.specs.steps.Count.{pieces_after};
ghost use Rattle.hose_io.specs.Frame.{Met};
ghost use Rattle.hose_io.specs.Stream.{Gives, Grows, IsAtEnd};
ghost use Rattle.hose_io.specs.steps.StdState.{source_frame, sink_frame, untold_stream, untold_text};

use crate::{Failed, Sink, Source};
use std::io::{ErrorKind, Read, Write};
use std::marker::Model;

/// A source over a reader of std. What it gives is not told.
#[derive(Drop)]
pub struct StdSource<R> {
    reader: R,
    faults: u64,
}

impl<R> Model for StdSource<R> {
    ghost use Rattle.hose_io.specs.steps.StdState.{StdSourceState};

    ghost Value = { StdSourceState R };

    ghost view = { λ s. record { reader = s.reader; faults = s.faults } };
}

impl<R: Read + Drop> StdSource<R> {
    /// A source that has not failed. Its number is 0.
    pub fn new(reader: R) -> StdSource<R>
        ensures { result ≡ record { reader = reader; faults = 0 } }
    {
        StdSource { reader, faults: 0 }
    }
}

impl<R: Read + Drop> Source for StdSource<R> {
    ghost use Rattle.hose_io.specs.steps.StdState.{source_frame, untold_stream};

    ghost frame = { source_frame };

    ghost content = { λ _. untold_stream };

    // A read that was interrupted is tried again.
    fn take(&mut self, into: &mut [u8]) -> Result<usize, Failed>
        requires { 0 < length into.old }
        ensures room { IfOk result (λ k. k ≤ length into.new) }
        ensures taken { MatchResult result
            (λ k. Gives untold_stream untold_stream (take k into.new))
            (λ _. untold_stream ≡ untold_stream) }
        ensures none_only_at_end { result ≡ Ok 0 → IsAtEnd untold_stream }
        ensures met { Met (source_frame self.old) (source_frame self.new) result }

        // Where the reader tells its bytes, these were read: none only at its end, and none where
        // it failed.
        ensures reads { ReadConsumes
            (R.remaining self.old.reader) (R.remaining self.new.reader) result into.new }
    {
        for _ in 0..u64::MAX {
            match self.reader.read(into) {
                Ok(count) => return Ok(count),
                Err(error) if error.kind() == ErrorKind::Interrupted => {}
                Err(_) => break,
            }
        }
        self.faults = self.faults.saturating_add(1);
        Err(Failed)
    }
}

/// A sink over a writer of std. What it was given is not told.
#[derive(Drop)]
pub struct StdSink<W> {
    writer: W,
    faults: u64,
    pieces: u64,
}

impl<W> Model for StdSink<W> {
    ghost use Rattle.hose_io.specs.steps.StdState.{StdSinkState};

    ghost Value = { StdSinkState W };

    ghost view = { λ s. record { writer = s.writer; faults = s.faults; pieces = s.pieces } };
}

impl<W: Write + Drop> StdSink<W> {
    /// A sink that has not failed. Its number is 0.
    pub fn new(writer: W) -> StdSink<W>
        ensures { result ≡ record { writer = writer; faults = 0; pieces = 0 } }
    {
        StdSink {
            writer,
            faults: 0,
            pieces: 0,
        }
    }
}

impl<W: Write + Drop> Sink for StdSink<W> {
    ghost use Rattle.hose_io.specs.steps.StdState.{sink_frame, untold_text};

    ghost frame = { sink_frame };

    ghost content = { λ _. untold_text };

    ghost pieces = { λ s. s.pieces };

    // A write that was interrupted is tried again. A writer that takes nothing is a failure here.
    fn put(&mut self, bytes: &[u8]) -> Result<usize, Failed>
        requires { 0 < length bytes.now }
        ensures some { IfOk result (λ k. 0 < k) }
        ensures room { IfOk result (λ k. k ≤ length bytes.now) }
        ensures appended { MatchResult result
            (λ k. Grows untold_text untold_text (take k bytes.now))
            (λ _. untold_text ≡ untold_text) }
        ensures pieces { MatchResult result
            (λ k. self.new.pieces ≡ pieces_after self.old.pieces k (length bytes.now))
            (λ _. self.new.pieces ≡ self.old.pieces) }
        ensures met { Met (sink_frame self.old) (sink_frame self.new) result }

        // Where the writer tells its bytes, these were written, and none where it failed.
        ensures writes { WriteAppends
            (W.contents self.old.writer) (W.contents self.new.writer) result bytes.now }
    {
        for _ in 0..u64::MAX {
            match self.writer.write(bytes) {
                Ok(0) => break,
                Ok(count) => {
                    self.count_piece(count, bytes.len());
                    return Ok(count);
                }
                Err(error) if error.kind() == ErrorKind::Interrupted => {}
                Err(_) => break,
            }
        }
        self.faults = self.faults.saturating_add(1);
        Err(Failed)
    }
}

impl<W> StdSink<W> {
    fn count_piece(&mut self, took: usize, given: usize)
        ensures { self.new ≡ record self.old {
          pieces = pieces_after self.old.pieces took given;
        } }
    {
        if took == given {
            self.pieces = self.pieces.saturating_add(1);
        }
    }
}
