// What a host keeps of a connection.
ghost use Rattle.std.specs.Prelude.{◌≡◌, ◌<◌, ◌≤◌, ℕ, List, [], ◌++◌, ◌∷◌, true, false, drop, length, MatchOption};
ghost use Rattle.hose_words.specs.steps.Lines.{Shows};
ghost use Rattle.hose_host.specs.steps.Seats.{Holds, IsSaid, Releases, emptied, fresh_seat, with_text};
ghost use Rattle.hose_net.specs.Story.{AwaitsMore};

use hose_words::{LINE_LIMIT, Line};
use std::alloc::Global;
use std::collections::VecDeque;
use std::marker::Model;
use std::mem;

/// How many bytes a buffer keeps room for once it is empty.
const ROOM: usize = 1_024;

/// What a host keeps of a connection: the bytes of the line that is coming, those of a piece that
/// it has not looked at, and those that are to be sent. Where no memory was left for them, it is
/// given up.
#[derive(Drop)]
pub struct Seat {
    alloc: Global,
    door: usize,
    since: u64,
    silent: bool,
    ended: bool,
    input: Vec<u8>,
    long: bool,
    kept: Vec<u8>,
    looked: usize,
    output: Vec<u8>,
    sent: usize,
    later: VecDeque<Waiting>,
    held: usize,
    lost: bool,
}

/// A text that is to be sent once so much was heard.
#[derive(Drop)]
pub struct Waiting {
    needs: u64,
    text: Vec<u8>,
}

impl Model for Waiting {
    ghost use Rattle.hose_host.specs.steps.Seats.{Held};

    ghost Value = { Held };

    ghost view = { λ waiting. record { needs = waiting.needs; text = waiting.text.items } };
}

impl Model for Seat {
    ghost use Rattle.std.specs.Prelude.{◌≤◌, drop, length};
    ghost use Rattle.hose_host.specs.steps.Seats.{SeatState};

    ghost Value = { SeatState };

    ghost view = { λ seat. record {
      door = seat.door;
      input = seat.input.items;
      long = seat.long;
      kept = drop seat.looked seat.kept.items;
      output = drop seat.sent seat.output.items;
      later = seat.later.items;
      lost = seat.lost;
    } };

    ghost invariant = { λ seat. (seat.sent ≤ length seat.output.items)
        × (seat.looked ≤ length seat.kept.items) };
}

impl Seat {
    /// A seat of who came by this door as so many had come.
    pub fn new(alloc: Global, door: usize, since: u64) -> Seat
        ensures { result ≡ fresh_seat door }
    {
        Seat {
            alloc,
            door,
            since,
            silent: true,
            ended: false,
            input: Vec::new(alloc),
            long: false,
            kept: Vec::new(alloc),
            looked: 0,
            output: Vec::new(alloc),
            sent: 0,
            later: VecDeque::new(alloc),
            held: 0,
            lost: false,
        }
    }

    /// A seat where no one is.
    pub fn vacant(alloc: Global) -> Seat
        ensures { result ≡ record (fresh_seat 0) { lost = true } }
    {
        let mut seat = Seat::new(alloc, 0, 0);
        seat.lose();
        seat
    }

    /// Where it takes its memory from.
    pub fn alloc(&self) -> Global {
        self.alloc
    }

    /// Whether nothing is to be sent, now or later, to who has it.
    pub fn is_out(&self) -> bool {
        self.lost || (self.sent == self.output.len() && self.later.is_empty())
    }

    /// Whether it is given up.
    pub fn is_lost(&self) -> bool
        ensures { result ≡ self.now.lost }
    {
        self.lost
    }

    /// Gives it up.
    pub fn lose(&mut self)
        ensures { self.new ≡ record self.old { lost = true } }
    {
        self.lost = true;
    }

    /// The door by which who has it came.
    pub fn door(&self) -> usize
        ensures { result ≡ self.now.door }
    {
        self.door
    }

    /// Whether who has it came by this door and has given no line yet.
    pub fn is_silent_at(&self, door: usize) -> bool {
        !self.lost && self.silent && self.door == door
    }

    /// How many had come as who has it came.
    pub fn since(&self) -> u64 {
        self.since
    }

    /// Takes in bytes of a line.
    pub fn take_in(&mut self, bytes: &[u8])
        ensures holds { (held : List ℕ) → Holds self.old held → self.new.lost ≡ false
            → Holds self.new (held ++ bytes.now) }
        ensures lost { self.new.lost ≡ false → self.old.lost ≡ false }
        ensures output { self.new.output ≡ self.old.output }
        ensures later { self.new.later ≡ self.old.later }
        ensures door { self.new.door ≡ self.old.door }
        ensures kept { self.new.kept ≡ self.old.kept }
    {
        if self.long {
            return;
        }
        if self.input.len() > LINE_LIMIT || bytes.len() > LINE_LIMIT - self.input.len() {
            self.input.clear();
            self.long = true;
            return;
        }
        if self.input.extend_from_slice(bytes).is_err() {
            self.lost = true;
        }
    }

    /// Whether bytes are kept that are not looked at yet.
    pub fn has_kept(&self) -> bool
        ensures none { result ≡ false → self.now.kept ≡ [] }
        ensures some { result ≡ true → 0 < length self.now.kept }
    {
        self.looked < self.kept.len()
    }

    /// Takes out the piece of which bytes are kept, and says how many of it are looked at.
    pub fn take_kept(&mut self) -> (Vec<u8>, usize)
        ensures kept { drop result.1 (result.0).items ≡ self.old.kept }
        ensures bound { result.1 ≤ length (result.0).items }
        ensures rest { self.new ≡ record self.old { kept = [] } }
    {
        let looked = self.looked;
        self.looked = 0;
        (mem::replace(&mut self.kept, Vec::new(self.alloc)), looked)
    }

    /// Keeps what is left of a piece, of which so many bytes are looked at.
    pub fn keep_rest(&mut self, piece: Vec<u8>, looked: usize)
        requires { looked ≤ length piece.items }
        ensures { self.new ≡ record self.old { kept = drop looked piece.items } }
    {
        if looked == piece.len() {
            self.kept = Vec::new(self.alloc);
            self.looked = 0;
            return;
        }
        self.kept = piece;
        self.looked = looked;
    }

    /// Keeps bytes that are not looked at yet.
    pub fn keep(&mut self, bytes: &[u8])
        ensures { self.new.lost ≡ false → self.new ≡ record self.old { kept = bytes.now } }
    {
        self.kept.clear();
        self.looked = 0;
        if self.kept.extend_from_slice(bytes).is_err() {
            self.lost = true;
        }
    }

    /// Whether who has it gives no more bytes.
    pub fn has_ended(&self) -> bool {
        self.ended
    }

    /// Who has it gives no more bytes.
    pub fn end(&mut self)
        ensures { self.new ≡ self.old }
    {
        self.ended = true;
    }

    /// The line, which is whole.
    pub fn line(&self) -> Line<'_>
        ensures { (held : List ℕ) → Holds self.now held → Shows result held }
    {
        if self.long {
            return Line::Long;
        }
        Line::Text(&self.input)
    }

    /// Lets go of the line.
    pub fn clear_line(&mut self)
        ensures { self.new ≡ emptied self.old }
    {
        let input = mem::replace(&mut self.input, Vec::new(self.alloc));
        self.input = cleared(self.alloc, input);
        self.long = false;
        self.silent = false;
    }

    /// How many texts wait.
    pub fn waiting(&self) -> usize {
        self.later.len()
    }

    /// How many bytes are to be sent, with those that wait.
    pub fn size(&self) -> usize {
        self.held.saturating_add(self.output.len() - self.sent)
    }

    /// Takes in a text that is to be sent once so much was heard, where this was heard.
    pub fn say(&mut self, heard: u64, needs: u64, text: &[u8])
        ensures { self.new.lost ≡ false → IsSaid heard needs text.now self.old self.new }
    {
        if self.later.is_empty() && needs <= heard {
            self.append(text);
            return;
        }
        self.held_more(text.len());
        let Ok(text) = Vec::from_slice(self.alloc, text) else {
            self.lost = true;
            return;
        };
        if self.later.push_back(Waiting { needs, text }).is_err() {
            self.lost = true;
        }
    }

    fn append(&mut self, text: &[u8])
        ensures text { self.new.lost ≡ false → self.new ≡ with_text self.old text.now }
        ensures later { self.new.later ≡ self.old.later }
    {
        if self.output.extend_from_slice(text).is_err() {
            self.lost = true;
        }
    }

    /// Releases the first text that waits, where so much was heard, and says whether it did.
    pub fn release(&mut self, heard: u64) -> bool
        ensures { Releases heard self.old self.new result }
    {
        let Some(waiting) = self.next_waiting(heard) else {
            return false;
        };
        self.append(&waiting.text);
        self.held_less(waiting.text.len());
        true
    }

    fn held_less(&mut self, len: usize)
        ensures { self.new ≡ self.old }
    {
        self.held = self.held.saturating_sub(len);
    }

    fn held_more(&mut self, len: usize)
        ensures { self.new ≡ self.old }
    {
        self.held = self.held.saturating_add(len);
    }

    // Takes out the first text that waits, where so much was heard.
    fn next_waiting(&mut self, heard: u64) -> Option<Waiting>
        ensures later { MatchOption result
            ((self.new.later ≡ self.old.later)
            × AwaitsMore (λ held. held.needs) heard self.new.later)
            (λ waiting. (self.old.later ≡ waiting ∷ self.new.later) × (waiting.needs ≤ heard)) }
        ensures rest { self.new ≡ record self.old { later = self.new.later } }
    {
        let first = self.later.front()?;
        if first.needs > heard {
            return None;
        }
        self.later.pop_front()
    }

    /// What is to be sent.
    pub fn unsent(&self) -> &[u8]
        ensures { result.now ≡ self.now.output }
    {
        &self.output[self.sent..]
    }

    /// So many bytes were sent.
    pub fn was_sent(&mut self, count: usize)
        requires { count ≤ length self.old.output }
        ensures { self.new ≡ record self.old { output = drop count self.old.output } }
    {
        self.sent += count;
        if self.sent == self.output.len() {
            let output = mem::replace(&mut self.output, Vec::new(self.alloc));
            self.output = cleared(self.alloc, output);
            self.sent = 0;
        }
    }
}

// A buffer with nothing in it, which has no more room than is kept for one.
fn cleared(alloc: Global, mut buffer: Vec<u8>) -> Vec<u8>
    ensures { result.items ≡ [] }
{
    if buffer.len() > ROOM {
        return Vec::new(alloc);
    }
    buffer.clear();
    buffer
}
