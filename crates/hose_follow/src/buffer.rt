// Bytes that were taken of a source and belong to no packet yet that was answered.
ghost use Rattle.std.specs.Prelude.{◌≡◌, ◌+◌, ◌-◌, ◌<◌, ◌≤◌, [], drop, length, IfOk};
ghost use Rattle.std.specs.List.{slice_range};
ghost use Rattle.hose_io.specs.steps.Filling.{IsFilled};

use hose_io::{Failed, Source, take_after};
use std::alloc::{AllocError, Global};
use std::marker::Model;

/// The number of bytes that a follower keeps of its input.
pub const ROOM_BYTES: usize = 65_536;

/// Bytes in a room of a fixed size: those from `start` up to `end` are pending.
#[derive(Drop)]
pub struct Buffer {
    bytes: Vec<u8>,
    start: usize,
    end: usize,
}

impl Model for Buffer {
    ghost use Rattle.std.specs.Prelude.{◌-◌};
    ghost use Rattle.std.specs.List.{slice_range};
    ghost use Rattle.hose_follow.specs.steps.BufferInside.{ArePlacesInOrder};
    ghost use Rattle.hose_follow.specs.steps.Buffered.{BufferState};
    ghost use Rattle.hose_follow.specs.declared.buffer.TheConstants.{ROOM_BYTES};

    ghost Value = { BufferState };

    ghost view = { λ buffer. record {
      pending = slice_range buffer.bytes.items buffer.start buffer.end;
      room = ROOM_BYTES - buffer.end;
    } };

    ghost invariant = { ArePlacesInOrder };
}

impl Buffer {
    /// An empty one.
    pub fn new(alloc: Global) -> Result<Buffer, AllocError>
        ensures { IfOk result (λ buffer. buffer.pending ≡ []) }
    {
        Ok(Buffer {
            bytes: Vec::from_elem(alloc, 0, ROOM_BYTES)?,
            start: 0,
            end: 0,
        })
    }

    /// The bytes that are pending.
    pub fn pending(&self) -> &[u8]
        ensures { result.now ≡ self.now.pending }
    {
        &self.bytes[self.start..self.end]
    }

    /// Drops so many bytes from the front.
    pub fn pass(&mut self, count: usize)
        requires { count ≤ length self.old.pending }
        ensures { self.new.pending ≡ drop count self.old.pending }
    {
        self.start += count;
    }

    /// Moves what is pending to the front.
    pub fn make_room(&mut self)
        requires { length self.old.pending < ROOM_BYTES }
        ensures pending { self.new.pending ≡ self.old.pending }
        ensures room { 0 < self.new.room }
    {
        self.bytes.copy_within(self.start..self.end, 0);
        self.end -= self.start;
        self.start = 0;
    }

    /// Takes at most `most` bytes of the source, after those that are pending.
    pub fn fill<S: Source>(&mut self, source: &mut S, most: usize) -> Result<usize, Failed>
        requires some { 0 < most }
        requires room { 0 < self.old.room }
        ensures { IsFilled S.Source source.old source.new self.old.pending self.new.pending most
            result }
    {
        let most = most.min(ROOM_BYTES - self.end);
        let taken = take_after(source, &mut self.bytes, self.end, most);
        self.end += taken.unwrap_or(0);
        taken
    }
}
