// The bytes that were taken of a source and not yet given in a line.
ghost use Rattle.std.specs.Prelude.{◌≡◌, ◌<◌, ◌≤◌, [], length};
ghost use Rattle.std.specs.Bool.{MatchBool};
ghost use Rattle.std.specs.List.{position};
ghost use Rattle.hose_io.specs.steps.Filling.{IsFilled};
ghost use Rattle.hose_words.specs.steps.Buffer.{CutsLine};

use crate::lines::PENDING_LIMIT;
use crate::words::len_before;
use hose_io::{Failed, Source, take_after};
use std::marker::Model;

const LINE_FEED: u8 = b'\n';

// `bytes[start..end]` is pending, of which the first `searched` bytes are no line feeds, and
// `bytes[line_start..line_end]` is the line that was cut off last.
#[derive(Drop)]
pub(crate) struct PendingBytes {
    bytes: [u8; PENDING_LIMIT],
    line_start: usize,
    line_end: usize,
    start: usize,
    end: usize,
    searched: usize,
}

impl Model for PendingBytes {
    ghost use Rattle.std.specs.Prelude.{◌-◌, slice_range};
    ghost use Rattle.hose_words.specs.steps.Buffer.{LineBuffer};
    ghost use Rattle.hose_words.specs.declared.lines.TheConstants.{PENDING_LIMIT};

    ghost Value = { LineBuffer };

    ghost use Rattle.hose_words.specs.steps.BufferInside.{IsInOrder};

    ghost view = { λ buffer. record {
      line = slice_range buffer.bytes buffer.line_start buffer.line_end;
      pending = slice_range buffer.bytes buffer.start buffer.end;
      room = PENDING_LIMIT - buffer.end;
    } };

    ghost invariant = { IsInOrder };
}

impl PendingBytes {
    pub(crate) fn new() -> PendingBytes
        ensures { result.pending ≡ [] }
    {
        PendingBytes {
            bytes: [0; PENDING_LIMIT],
            line_start: 0,
            line_end: 0,
            start: 0,
            end: 0,
            searched: 0,
        }
    }

    pub(crate) fn line(&self) -> &[u8]
        ensures { result.now ≡ self.now.line }
    {
        &self.bytes[self.line_start..self.line_end]
    }

    // How many bytes are pending.
    pub(crate) fn len(&self) -> usize
        ensures count { result ≡ length self.now.pending }
        ensures limit { result ≤ PENDING_LIMIT }
    {
        self.end - self.start
    }

    // Cuts off the first line that is pending whole, where there is one.
    pub(crate) fn cut_line(&mut self) -> bool
        ensures { CutsLine result self.old.pending self.new.line self.new.pending }
    {
        let fresh = &self.bytes[self.start + self.searched..self.end];
        let len = self.searched + len_before(fresh, LINE_FEED);
        if self.start + len == self.end {
            self.searched = len;
            return false;
        }
        self.line_start = self.start;
        self.line_end = self.start + len;
        self.start = self.line_end + 1;
        self.searched = 0;
        true
    }

    // Cuts off all that is pending, as the last line.
    pub(crate) fn cut_rest(&mut self)
        ensures line { self.new.line ≡ self.old.pending }
        ensures pending { self.new.pending ≡ [] }
    {
        self.line_start = self.start;
        self.line_end = self.end;
        self.start = self.end;
        self.searched = 0;
    }

    // Moves what is pending to the front, where no room is left after it.
    pub(crate) fn make_room(&mut self)
        requires { length self.old.pending < PENDING_LIMIT }
        ensures pending { self.new.pending ≡ self.old.pending }
        ensures room { 0 < self.new.room }
    {
        if self.end < PENDING_LIMIT {
            return;
        }
        self.bytes.copy_within(self.start..self.end, 0);
        self.line_start = 0;
        self.line_end = 0;
        self.end -= self.start;
        self.start = 0;
    }

    // Takes at most `most` bytes of the source, after those that are pending.
    pub(crate) fn fill<S: Source>(&mut self, source: &mut S, most: usize) -> Result<usize, Failed>
        requires some { 0 < most }
        requires room { 0 < self.old.room }
        ensures { IsFilled S.Source source.old source.new self.old.pending self.new.pending most
            result }
    {
        let most = most.min(PENDING_LIMIT - self.end);
        let taken = take_after(source, &mut self.bytes, self.end, most);
        self.end += taken.unwrap_or(0);
        taken
    }
}
