// What a reader of lines keeps beside its source: the bytes that it took, and how far it may go on.
ghost use Rattle.std.specs.Prelude.{◌≡◌, ◌^◌, ◌<◌, ◌≤◌, [], length, None, IsFalse};
ghost use Rattle.std.specs.Bool.{OnTrue};
ghost use Rattle.hose_io.specs.Stream.{IsAtEnd};
ghost use Rattle.hose_words.specs.steps.Buffer.{CutsLine};
ghost use Rattle.hose_words.specs.steps.Intake.{reader_of, found_of, found_at_end, ShowsFound, FindsNext, DropsLong, IsIntake};

use crate::buffer::PendingBytes;
use crate::lines::{INPUT_LIMIT, LINE_LIMIT, Line, LineFault, PENDING_LIMIT};
use hose_io::{Failed, Source};
use std::marker::Model;

// What a search for the next line came to. The bytes of a text are those that were cut off last.
#[derive(Clone, Copy, Debug)]
pub(crate) enum FoundLine {
    End,
    Long,
    Text,
}

#[derive(Drop)]
pub(crate) struct LineIntake {
    buffer: PendingBytes,
    taken: u64,
    fault: Option<LineFault>,
    is_ended: bool,
}

impl Model for LineIntake {
    ghost use Rattle.std.specs.Prelude.{◌≡◌, ◌+◌, ◌^◌, ◌<◌, ◌≤◌, ◌↔◌, Some};
    ghost use Rattle.hose_words.specs.declared.lines.LineFault.TheVariants.{TooLong};
    ghost use Rattle.hose_words.specs.steps.Kept.{ReaderState};
    ghost use Rattle.hose_words.specs.declared.lines.TheConstants.{INPUT_LIMIT};

    ghost Value = { ReaderState };

    ghost view = { λ intake. record {
      line = intake.buffer.line;
      pending = intake.buffer.pending;
      taken = intake.taken;
      fault = intake.fault;
      ended = intake.is_ended;
    } };

    ghost invariant = { λ intake. (intake.taken ≤ INPUT_LIMIT + 1)
        × ((intake.fault ≡ Some TooLong) ↔ (INPUT_LIMIT < intake.taken)) };
}

impl LineIntake {
    pub(crate) fn new() -> LineIntake
        ensures pending { result.pending ≡ [] }
        ensures taken { result.taken ≡ 0 }
        ensures fault { result.fault ≡ None }
        ensures ended { IsFalse result.ended }
    {
        LineIntake {
            buffer: PendingBytes::new(),
            taken: 0,
            fault: None,
            is_ended: false,
        }
    }

    // Finds the next line, and takes what it needs for that.
    pub(crate) fn advance<S: Source>(&mut self, source: &mut S) -> Result<FoundLine, LineFault>
        requires at_end { OnTrue self.old.ended (IsAtEnd (S.content source.old)) }
        ensures next { FindsNext S.Source (reader_of source.old self.old)
            (reader_of source.new self.new) self.new.line result }
        ensures at_end { OnTrue self.new.ended (IsAtEnd (S.content source.new)) }
    {
        if let Some(fault) = self.fault {
            return Err(fault);
        }
        let mut is_long = false;
        loop {
            if self.cut_line() {
                return Ok(self.found(is_long));
            }
            is_long = self.drop_long(is_long);
            if !self.take_more(source)? {
                self.cut_rest();
                return Ok(self.last(is_long));
            }
        }
    }

    pub(crate) fn shown(&self, found: FoundLine) -> Option<Line<'_>>
        ensures { ShowsFound found self.now.line result }
    {
        match found {
            FoundLine::End => None,
            FoundLine::Long => Some(Line::Long),
            FoundLine::Text => Some(Line::Text(self.buffer.line())),
        }
    }

    // How many bytes are pending.
    pub(crate) fn pending(&self) -> usize
        ensures count { result ≡ length self.now.pending }
        ensures limit { result ≤ PENDING_LIMIT }
    {
        self.buffer.len()
    }

    fn cut_line(&mut self) -> bool
        ensures cuts { CutsLine result self.old.pending self.new.line self.new.pending }
        ensures taken { self.new.taken ≡ self.old.taken }
        ensures fault { self.new.fault ≡ self.old.fault }
        ensures ended { self.new.ended ≡ self.old.ended }
    {
        self.buffer.cut_line()
    }

    fn cut_rest(&mut self)
        ensures { self.new ≡ record self.old { line = self.old.pending; pending = [] } }
    {
        self.buffer.cut_rest();
    }

    // Drops what is pending, where it is too long to be shown.
    fn drop_long(&mut self, is_long: bool) -> bool
        ensures drops { DropsLong is_long result self.old.pending self.new.pending }
        ensures taken { self.new.taken ≡ self.old.taken }
        ensures fault { self.new.fault ≡ self.old.fault }
        ensures ended { self.new.ended ≡ self.old.ended }
    {
        if self.buffer.len() <= LINE_LIMIT {
            return is_long;
        }
        self.buffer.cut_rest();
        true
    }

    fn found(&self, is_long: bool) -> FoundLine
        ensures { result ≡ found_of is_long self.now.line }
    {
        if is_long || self.buffer.line().len() > LINE_LIMIT {
            FoundLine::Long
        } else {
            FoundLine::Text
        }
    }

    fn last(&self, is_long: bool) -> FoundLine
        ensures { result ≡ found_at_end is_long self.now.line }
    {
        if !is_long && self.buffer.line().is_empty() {
            FoundLine::End
        } else {
            self.found(is_long)
        }
    }

    // Takes more of the source. `false` says that it met its end, now or before: it is not asked
    // again.
    fn take_more<S: Source>(&mut self, source: &mut S) -> Result<bool, LineFault>
        requires room { length self.old.pending ≤ LINE_LIMIT }
        requires fault { self.old.fault ≡ None }
        requires at_end { OnTrue self.old.ended (IsAtEnd (S.content source.old)) }
        ensures { IsIntake S.Source (reader_of source.old self.old)
            (reader_of source.new self.new) result }
    {
        if self.is_ended {
            return Ok(false);
        }
        if self.taken >= INPUT_LIMIT {
            return self.take_past_limit(source);
        }
        self.buffer.make_room();
        match self
            .buffer
            .fill(source, (INPUT_LIMIT - self.taken) as usize)
        {
            Ok(0) => {
                self.is_ended = true;
                Ok(false)
            }
            Ok(count) => {
                self.taken += count as u64;
                Ok(true)
            }
            Err(Failed) => {
                self.fault = Some(LineFault::Read);
                Err(LineFault::Read)
            }
        }
    }

    // Where a reader took all that it may, one byte more is too many.
    fn take_past_limit<S: Source>(&mut self, source: &mut S) -> Result<bool, LineFault>
        requires limit { self.old.taken ≡ INPUT_LIMIT }
        requires fault { self.old.fault ≡ None }
        requires before_end { IsFalse self.old.ended }
        ensures { IsIntake S.Source (reader_of source.old self.old)
            (reader_of source.new self.new) result }
    {
        let mut byte = [0];
        match source.take(&mut byte) {
            Ok(0) => {
                self.is_ended = true;
                Ok(false)
            }
            Ok(_) => {
                self.taken += 1;
                self.fault = Some(LineFault::TooLong);
                Err(LineFault::TooLong)
            }
            Err(Failed) => {
                self.fault = Some(LineFault::Read);
                Err(LineFault::Read)
            }
        }
    }
}
