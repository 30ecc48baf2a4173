// A whole text on its way to a sink: at once, or gathered so that it goes out in few pieces.
ghost use Rattle.std.specs.Prelude.{◌≡◌, ◌≢◌, ◌+◌, ◌≤◌, ℕ, IsFalse, List, [], ◌++◌, OnOk, IsOk, OnErr, decimal, false, length, take};
ghost use Rattle.hose_io.specs.Count.{one_more};
ghost use Rattle.hose_io.specs.Frame.{Met};
ghost use Rattle.hose_io.specs.steps.Gather.{GoesOut, IsAdded, IsFinished};
ghost use Rattle.hose_io.specs.Writing.{GrowsInPart};
ghost use Rattle.hose_io.specs.steps.Writing.{IsPut};

use crate::{Failed, Sink};
use itoa::Buffer;
use std::marker::Model;

/// How many bytes a gatherer holds at most.
pub const GATHER_LIMIT: usize = 4_096;

/// A text on its way to a sink, gathered so that it goes out in few pieces. It takes no heap
/// memory.
///
/// Where the sink fails it is broken: what it held is lost, what is added from then on is dropped,
/// and `finish` answers `Failed`. What it holds goes out with `finish`, and is lost without.
#[derive(Drop)]
pub struct Gather {
    buffer: [u8; GATHER_LIMIT],
    len: usize,
    broke: bool,
}

impl Model for Gather {
    ghost use Rattle.std.specs.Prelude.{◌≤◌, take};
    ghost use Rattle.hose_io.specs.steps.Gather.{Gathered};

    ghost Value = { Gathered };

    ghost view = { λ g. record { held = take g.len g.buffer; broke = g.broke } };

    ghost invariant = { λ g. g.len ≤ 4096 };
}

impl Gather {
    /// It holds nothing, and is not broken.
    pub fn new() -> Gather
        ensures { result ≡ record { held = []; broke = false } }
    {
        Gather {
            buffer: [0; GATHER_LIMIT],
            len: 0,
            broke: false,
        }
    }

    /// Adds `bytes` to the text. They are only kept where there is room for them.
    pub fn add<S: Sink>(&mut self, sink: &mut S, bytes: &[u8])
        ensures { IsAdded S.Sink self.old sink.old self.new sink.new bytes.now }
    {
        if self.broke {
            return;
        }
        if bytes.len() > GATHER_LIMIT - self.len {
            self.broke = self.spill(sink, bytes).is_err();
            return;
        }
        let end = self.len + bytes.len();
        self.buffer[self.len..end].copy_from_slice(bytes);
        self.len = end;
    }

    /// Adds a number in decimal.
    pub fn add_number<S: Sink>(&mut self, sink: &mut S, number: u64)
        ensures { IsAdded S.Sink self.old sink.old self.new sink.new (decimal number) }
    {
        let mut buffer = Buffer::new();
        self.add(sink, buffer.format(number).as_bytes());
    }

    /// Adds some words and the number after them.
    pub fn add_numbered<S: Sink>(&mut self, sink: &mut S, words: &[u8], number: u64)
        ensures { IsAdded S.Sink self.old sink.old self.new sink.new (words.now ++ decimal number) }
    {
        self.add(sink, words);
        let mut buffer = Buffer::new();
        self.add(sink, buffer.format(number).as_bytes());
    }

    /// Gives all that it holds to the sink. Fails where the sink fails, now or before.
    pub fn finish<S: Sink>(mut self, sink: &mut S) -> Result<(), Failed>
        ensures { IsFinished S.Sink self sink.old sink.new result }
    {
        if self.broke {
            return Err(Failed);
        }
        self.flush(sink)
    }

    // Adds `bytes`, for which there is no room: what it holds goes out before them.
    fn spill<S: Sink>(&mut self, sink: &mut S, bytes: &[u8]) -> Result<(), Failed>
        ensures ok { OnOk result (GoesOut (S.content sink.old) (S.content sink.new)
            (self.old.held ++ bytes.now) self.new.held) }
        ensures err { OnErr result
            (GrowsInPart (S.content sink.old) (S.content sink.new) (self.old.held ++ bytes.now)) }
        ensures broke { self.new.broke ≡ self.old.broke }
        ensures met { Met (S.frame sink.old) (S.frame sink.new) result }
    {
        self.flush(sink)?;
        if bytes.len() > GATHER_LIMIT {
            return write_all(sink, bytes);
        }
        self.buffer[..bytes.len()].copy_from_slice(bytes);
        self.len = bytes.len();
        Ok(())
    }

    // Gives all that it holds to the sink. It then holds nothing, also where the sink failed.
    fn flush<S: Sink>(&mut self, sink: &mut S) -> Result<(), Failed>
        ensures put { IsPut S.Sink sink.old sink.new self.old.held result }
        ensures one_piece { self.old.held ≢ []
            → OnOk result (S.pieces sink.new ≡ one_more (S.pieces sink.old)) }
        ensures emptied { self.new ≡ record self.old { held = [] } }
    {
        let held = self.len;
        self.len = 0;
        write_all(sink, &self.buffer[..held])
    }
}

/// Appends all of `bytes`, as one piece: each call of the sink is given all that is left.
pub fn write_all<S: Sink>(sink: &mut S, bytes: &[u8]) -> Result<(), Failed>
    ensures put { IsPut S.Sink sink.old sink.new bytes.now result }
    ensures one_piece { bytes.now ≢ []
        → OnOk result (S.pieces sink.new ≡ one_more (S.pieces sink.old)) }
    ensures calls_none { bytes.now ≡ [] → sink.new ≡ sink.old }
{
    let mut written = 0;
    while written < bytes.len() {
        written += sink.put(&bytes[written..])?;
    }
    Ok(())
}
