// A source read line by line.
ghost use Rattle.std.specs.Prelude.{◌≡◌, ◌≤◌, [], None, false, length};
ghost use Rattle.std.specs.Borrow.{sem};
ghost use Rattle.std.specs.Io.BufRead.{Rests};
ghost use Rattle.hose_words.specs.Limits.{input_limit, line_limit};

use crate::intake::LineIntake;
use hose_io::Source;
use std::marker::Model;

/// How many bytes a line that is shown has at most, without its line feed.
pub const LINE_LIMIT: usize = 4_096;

/// How many bytes a reader of lines takes at most; one more is too many. It is 1 GiB.
pub const INPUT_LIMIT: u64 = 1 << 30;

/// How many bytes may be pending in a reader of lines at most: two of the longest lines that are
/// shown, so that bytes are moved seldom.
pub const PENDING_LIMIT: usize = 8_192;

/// Each of these constants is the literal that definitions cite.
pub fn law_limits()
    ensures line_limit { LINE_LIMIT ≡ line_limit }
    ensures input_limit { INPUT_LIMIT ≡ input_limit }
{}

/// A line, without its line feed.
#[derive(Clone, Copy, Debug, PartialEq, Eq)]
pub enum Line<'a> {
    /// A line of at most 4,096 bytes.
    Text(&'a [u8]),
    /// A longer line. It was passed over, to its end.
    Long,
}

/// Why no more lines come. Each later call answers the same.
#[derive(Clone, Copy, Debug, PartialEq, Eq)]
pub enum LineFault {
    /// A call of the source failed.
    Read,
    /// The source gave more than 1 GiB.
    TooLong,
}

/// Reads a source line by line. A line ends at a line feed, and the last one may end with the
/// input.
///
/// It takes no memory beside its own. It takes bytes only where no whole line is pending, and asks
/// a source that has met its end no more.
#[derive(Drop)]
pub struct LineReader<S: Source> {
    source: S,
    intake: LineIntake,
}

impl<S: Source> Model for LineReader<S> {
    ghost use Rattle.std.specs.Bool.{OnTrue};
    ghost use Rattle.hose_io.specs.Stream.{IsAtEnd};
    ghost use Rattle.hose_words.specs.steps.Lines.{Reader};
    ghost use Rattle.hose_words.specs.steps.Intake.{reader_of};

    ghost Value = { Reader S };

    ghost view = { λ reader. reader_of reader.source reader.intake };

    ghost invariant = { λ reader. OnTrue reader.intake.ended (IsAtEnd (S.content reader.source)) };
}

impl<S: Source> LineReader<S> {
    ghost use Rattle.hose_words.specs.steps.Lines.{IsNext};
    ghost use Rattle.hose_words.specs.contracts.lines.LineReader.{the_row};

    /// A reader that has taken nothing.
    pub fn new(source: S) -> LineReader<S>
        ensures { result ≡ record {
          source = source;
          pending = [];
          taken = 0;
          fault = None;
          ended = false;
        } }
    {
        LineReader {
            source,
            intake: LineIntake::new(),
        }
    }

    /// The next line, or `None` at the end of the input.
    pub fn next(&mut self) -> Result<Option<Line<'_>>, LineFault>
        ensures* after { sem 𝓛 (Rests (the_row S.row S.Source) self.entry
            (λ new. IsNext S.Source self.old new result)) }
    {
        let found = self.intake.advance(&mut self.source)?;
        Ok(self.intake.shown(found))
    }

    /// How many bytes were taken and belong to no line yet that was given, but for the front of a
    /// long line, which was dropped.
    pub fn pending(&self) -> usize
        ensures count { result ≡ length self.now.pending }
        ensures limit { result ≤ PENDING_LIMIT }
    {
        self.intake.pending()
    }

    /// The source. It goes on after the bytes that were taken.
    pub fn into_source(self) -> S
        ensures { result ≡ self.source }
    {
        self.source
    }
}
