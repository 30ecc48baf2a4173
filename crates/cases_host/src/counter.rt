// Who numbers the lines of many connections.
ghost use Rattle.std.specs.Prelude.{◌≡◌, ℕ, List, Option, ⊤};
ghost use Rattle.cases_host.specs.steps.Numbers.{Numbering, is_new_at, is_over_at, stage_at, text_of};

use crate::outgoing::Outgoing;
use hose_host::HostAnswers;
use hose_io::{Failed, Sink, write_all};
use hose_net::Hold;
use hose_words::Line;
use itoa::Buffer;
use std::alloc::{AllocError, Global};
use std::marker::Model;

/// How many places it knows.
const PLACES: usize = 300;

// How many bytes `fill` adds to a reply.
const FILLING: usize = 4_000;

/// What is known of who is at a place.
#[derive(Clone, Copy, Debug, PartialEq, Eq)]
pub enum Stage {
    New,
    Known,
    Over,
}

/// The text of a reply, where there was memory for it.
#[derive(Drop)]
pub struct Numbered {
    text: Option<Vec<u8>>,
}

impl Model for Numbered {
    ghost use Rattle.std.specs.Prelude.{ℕ, List, Option, option_map};

    ghost Value = { Option (List ℕ) };

    ghost view = { λ reply. option_map (λ text. text.items) reply.text };
}

/// It answers each line by its number, the place and the door, a `+` at a connection's first line,
/// and the line; `fill` with 4,000 bytes more. After `bye` a connection is over, after `end` all
/// are. At the first 300 places alone it knows who is new there. A standby is sent `hello`, the
/// last number where that is new, and `?` where it is asked for a sign of life; it says `have N`,
/// and the link is of no use after `bye`. Once a link was opened lines wait, unless the host is
/// alone.
#[derive(Drop)]
pub struct Counter {
    alloc: Global,
    count: u64,
    stages: Vec<Stage>,
    ended: bool,
    standby: Option<String>,
    unsent: Outgoing,
    told: u64,
    heard: Option<u64>,
    bye: bool,
    waits: bool,
}

impl Model for Counter {
    ghost use Rattle.std.specs.Prelude.{option_map};
    ghost use Rattle.std.specs.String.{string_bytes};
    ghost use Rattle.cases_host.specs.steps.Numbers.{Numbering};

    ghost Value = { Numbering };

    ghost view = { λ counter. record {
      count = counter.count;
      stages = counter.stages.items;
      ended = counter.ended;
      standby = option_map (λ path. string_bytes path) counter.standby;
      unsent = counter.unsent;
      waits = counter.waits;
    } };
}

impl Counter {
    /// One that may have a standby.
    pub fn new(alloc: Global, standby: Option<String>) -> Result<Counter, AllocError> {
        let mut stages = Vec::new(alloc);
        for _ in 0..PLACES {
            stages.push(Stage::Known)?;
        }
        Ok(Counter {
            alloc,
            count: 0,
            stages,
            ended: false,
            standby,
            unsent: Outgoing::new(alloc),
            told: 0,
            heard: None,
            bye: false,
            waits: false,
        })
    }

    // Takes in a line of the standby.
    fn take_answer(&mut self, line: &str)
        ensures { self.new ≡ self.old }
    {
        match line.strip_prefix("have ") {
            Some(number) => self.heard = number.parse().ok(),
            None => self.bye = line == "bye",
        }
    }

    // What is known of who is at a place.
    fn stage(&self, place: usize) -> Stage
        ensures { result ≡ stage_at self.now.stages place }
    {
        match self.stages.get(place) {
            Some(stage) => *stage,
            None => Stage::Known,
        }
    }
}

impl HostAnswers for Counter {
    type Reply = Numbered;

    type Kept = u64;

    ghost use Rattle.std.specs.Prelude.{ℕ, List, Option, true, ⊤};
    ghost use Rattle.cases_host.specs.steps.Numbers.{is_new_at, is_over_at, stage_at, text_of};

    ghost said = { ⊤ };

    ghost subject = { Option (List ℕ) };

    ghost about = { λ counter. counter.standby };

    ghost says = { λ _ _ _ _ _. ⊤ };

    ghost text = { λ _ reply. text_of reply };

    ghost origin = { ⊤ };

    ghost standby_at = { λ standby. standby };

    ghost goes_alone = { λ _. true };

    ghost comes = { λ _ _ _ _. ⊤ };

    ghost leads = { λ _ _ _ _. ⊤ };

    ghost is_ahead = { λ _ _ _ _. ⊤ };

    ghost stands = { λ _ _ _. ⊤ };

    ghost fits = { λ _. ⊤ };

    ghost can_put = { λ _ _. ⊤ };

    ghost is_new = { λ counter place. is_new_at (stage_at counter.stages place) };

    ghost over = { λ counter place. is_over_at (stage_at counter.stages place) };

    ghost ends = { λ counter. counter.ended };

    ghost waits = { λ counter. counter.waits };

    ghost count = { λ counter. counter.count };

    ghost unsent = { λ counter. counter.unsent };

    fn begin(&mut self, _door: usize, place: usize) -> Result<(), AllocError> {
        if place >= self.stages.len() {
            return Err(AllocError);
        }
        self.stages[place] = Stage::New;
        Ok(())
    }

    fn leave(&mut self, place: usize) {
        if place < self.stages.len() {
            self.stages[place] = Stage::Known;
        }
    }

    fn answer(&mut self, place: usize, door: usize, line: Line<'_>) -> Numbered {
        let is_first = self.stage(place) == Stage::New;
        self.count = self.count.saturating_add(1);
        let stage = if is_word(line, b"bye") {
            Stage::Over
        } else {
            Stage::Known
        };
        if place < self.stages.len() {
            self.stages[place] = stage;
        }
        self.ended = is_word(line, b"end");
        Numbered {
            text: number_line(self.alloc, self.count, place, door, is_first, line).ok(),
        }
    }

    fn put<O: Sink>(&self, output: &mut O, reply: &Numbered) -> Result<(), Failed> {
        match &reply.text {
            Some(text) => write_all(output, text),
            None => write_all(output, b"no memory\n"),
        }
    }

    fn kept(&self) -> &u64 {
        &self.count
    }

    fn counted(&self) -> u64 {
        self.count
    }

    fn is_over(&self, place: usize) -> bool {
        self.stage(place) == Stage::Over
    }

    fn is_ending(&self) -> bool {
        self.ended
    }

    fn waits(&self) -> bool {
        self.waits
    }

    fn standby(&self) -> Option<&str> {
        match &self.standby {
            Some(path) => Some(path.as_str()),
            None => None,
        }
    }

    fn may_go_alone(&self) -> bool {
        true
    }

    fn patience(&self) -> (u64, u64) {
        (60, 10)
    }

    fn link_opened(&mut self, alone: bool) {
        self.waits = !alone;
        self.unsent = Outgoing::new(self.alloc);
        self.unsent.add(b"hello\n");
        self.told = 0;
        self.heard = None;
        self.bye = false;
    }

    fn go_on(&mut self) {
        self.waits = false;
    }

    fn take_in(&mut self, bytes: &[u8]) {
        let text = std::str::from_utf8(bytes).unwrap_or("");
        self.take_answer(text.strip_suffix("\n").unwrap_or(text));
    }

    fn gather(&mut self, asks: bool) {
        if asks {
            self.unsent.add(b"?\n");
        }
        if self.told == self.count {
            return;
        }
        self.told = self.count;
        let mut buffer = Buffer::new();
        self.unsent.add(buffer.format(self.count).as_bytes());
        self.unsent.add(b"\n");
    }

    fn unsent(&self) -> &[u8] {
        self.unsent.unsent()
    }

    fn was_sent(&mut self, sent: usize) {
        self.unsent.was_sent(sent);
    }

    fn heard(&self) -> Option<u64> {
        match self.heard {
            Some(heard) => {
                if heard > self.count {
                    return None;
                }
                Some(heard)
            }
            None => None,
        }
    }

    fn is_news(&self) -> bool {
        self.heard == Some(self.count)
    }

    fn ahead(&self) -> Option<u64> {
        match self.heard {
            Some(heard) => {
                if heard > self.count {
                    return Some(heard);
                }
                None
            }
            None => None,
        }
    }

    fn is_link_over(&self) -> bool {
        self.bye
    }

    fn tell_hold(&mut self, _hold: Hold) {}
}

fn is_word(line: Line<'_>, word: &[u8]) -> bool {
    match line {
        Line::Text(bytes) => bytes == word,
        Line::Long => false,
    }
}

fn number_line(
    alloc: Global,
    number: u64,
    place: usize,
    door: usize,
    is_first: bool,
    line: Line<'_>,
) -> Result<Vec<u8>, AllocError> {
    let mut buffer = Buffer::new();
    let mut text = Vec::new(alloc);
    text.extend_from_slice(buffer.format(number).as_bytes())?;
    text.extend_from_slice(b" at ")?;
    text.extend_from_slice(buffer.format(place).as_bytes())?;
    text.extend_from_slice(b" by ")?;
    text.extend_from_slice(buffer.format(door).as_bytes())?;
    text.extend_from_slice(if is_first { b"+: " } else { b" : " })?;
    text.extend_from_slice(match line {
        Line::Text(bytes) => bytes,
        Line::Long => b"(long)",
    })?;
    if is_word(line, b"fill") {
        text.extend_from_slice(&[b'x'; FILLING])?;
    }
    text.extend_from_slice(b"\n")?;
    Ok(text)
}
