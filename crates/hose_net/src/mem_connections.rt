// Connections in memory, which a script drives and which keep all that happened.
ghost use Rattle.std.specs.Prelude.{◌≡◌, ◌<◌, ◌≤◌, List, [], ◌∷◌, ◌++◌, true, length, map, take, IfOk, IfSome, MatchResult};
ghost use Rattle.std.specs.Bool.{MatchBool};
ghost use Rattle.std.specs.String.{string_bytes};
ghost use Rattle.hose_net.specs.Happening.{Came, Closed, Gave, Got, Late, Left, Linked, Opened, Sent, Stopped, Took};
ghost use Rattle.hose_net.specs.steps.MemTrace.{Trace, happening_of};
ghost use Rattle.hose_net.specs.steps.Told.{told_by};

use crate::{Connections, Pause, Ready};
use std::alloc::Global;
use std::collections::VecDeque;
use std::marker::Model;

/// What a script has come next.
#[derive(Drop)]
pub enum Act {
    /// Someone comes to this door.
    Comes(usize),
    /// The connection at a place gives these bytes, of which those are lost for which a reader has
    /// no room.
    Gives(usize, Vec<u8>),
    /// The connection at a place takes no bytes from now on.
    Stalls(usize),
    /// The connection at a place takes bytes again.
    Takes(usize),
    /// The connection at a place ends.
    Ends(usize),
    /// A second passes, and a standby can be reached.
    Reaches,
    /// A second passes.
    Passes,
    /// The standby gives these bytes, of which those are lost for which a reader has no room.
    Answers(Vec<u8>),
    /// The link to the standby ends.
    Breaks,
    /// Nothing was heard of the standby for too long.
    IsLate,
}

/// What happened, by its door, its place and its bytes.
#[derive(Drop)]
pub enum Happened {
    Came(usize, usize),
    Got(usize, Vec<u8>),
    Sent(usize, Vec<u8>),
    Refused(usize),
    Left(usize),
    Opened(String),
    Gave(Vec<u8>),
    Took(Vec<u8>),
    Closed,
    Late,
    Stopped,
}

/// Connections in memory, which a script drives. A write takes `room` bytes at most; after the last
/// act it tells to stop. Where no memory was left to keep what happened, it tells nothing of it.
#[derive(Drop)]
pub struct MemConnections {
    alloc: Global,
    acts: VecDeque<Act>,
    act: Option<Act>,
    again: VecDeque<usize>,
    stalled: Vec<usize>,
    room: usize,
    happened: Vec<Happened>,
    whole: bool,
}

impl Model for MemConnections {
    ghost use Rattle.std.specs.Prelude.{map};
    ghost use Rattle.hose_net.specs.steps.MemTrace.{Trace, happening_of};

    ghost Value = { Trace };

    ghost view = { λ network. record {
      trace = map happening_of network.happened.items;
      whole = network.whole;
    } };
}

impl MemConnections {
    /// Connections at which these acts come.
    pub fn new(alloc: Global, acts: VecDeque<Act>, room: usize) -> MemConnections
        ensures { result ≡ record { trace = []; whole = true } }
    {
        MemConnections {
            alloc,
            acts,
            act: None,
            again: VecDeque::new(alloc),
            stalled: Vec::new(alloc),
            room,
            happened: Vec::new(alloc),
            whole: true,
        }
    }

    /// What happened.
    pub fn happened(&self) -> &[Happened] {
        &self.happened
    }

    /// What happened, where the network is given up.
    pub fn into_happened(self) -> Vec<Happened>
        ensures { map happening_of result.items ≡ self.trace }
    {
        self.happened
    }

    /// Whether all that happened was kept.
    pub fn is_whole(&self) -> bool
        ensures { result ≡ self.now.whole }
    {
        self.whole
    }

    // What the act makes ready, if it does.
    fn ready(&mut self) -> Option<Ready>
        ensures same { self.new ≡ self.old }
        ensures unheard { IfSome result (λ ready. told_by ready ≡ []) }
    {
        match &self.act {
            Some(Act::Comes(door)) => Some(Ready::Door(*door)),
            Some(Act::Gives(place, _)) | Some(Act::Ends(place)) => Some(Ready::Place(*place)),
            Some(Act::Stalls(place)) => {
                let place = *place;
                let _ = self.stalled.push(place);
                Some(Ready::Place(place))
            }
            Some(Act::Takes(place)) => {
                let place = *place;
                self.stalled.retain(|at| *at != place);
                Some(Ready::Place(place))
            }
            Some(Act::Reaches) | Some(Act::Passes) => Some(Ready::Second),
            Some(Act::Answers(_)) | Some(Act::Breaks) => Some(Ready::Link),
            _ => None,
        }
    }

    // Keeps what happened.
    fn keep(&mut self, happened: Happened)
        ensures { self.new.whole ≡ true → (self.old.whole ≡ true)
            × (self.new.trace ≡ self.old.trace ++ happening_of happened ∷ []) }
    {
        if self.happened.push(happened).is_err() {
            self.whole = false;
        }
    }

    fn keep_got(&mut self, place: usize, bytes: &[u8])
        ensures { self.new.whole ≡ true → (self.old.whole ≡ true)
            × (self.new.trace ≡ self.old.trace ++ Got place bytes.now ∷ []) }
    {
        match Vec::from_slice(self.alloc, bytes) {
            Ok(bytes) => self.keep(Happened::Got(place, bytes)),
            Err(_) => self.whole = false,
        }
    }

    fn keep_sent(&mut self, place: usize, bytes: &[u8])
        ensures { self.new.whole ≡ true → (self.old.whole ≡ true)
            × (self.new.trace ≡ self.old.trace ++ Sent place bytes.now ∷ []) }
    {
        match Vec::from_slice(self.alloc, bytes) {
            Ok(bytes) => self.keep(Happened::Sent(place, bytes)),
            Err(_) => self.whole = false,
        }
    }

    fn keep_opened(&mut self, path: &str)
        ensures { self.new.whole ≡ true → (self.old.whole ≡ true)
            × (self.new.trace ≡ self.old.trace ++ Linked (Opened path.now) ∷ []) }
    {
        match String::from_str(self.alloc, path) {
            Ok(path) => self.keep(Happened::Opened(path)),
            Err(_) => self.whole = false,
        }
    }

    fn keep_gave(&mut self, bytes: &[u8])
        ensures { self.new.whole ≡ true → (self.old.whole ≡ true)
            × (self.new.trace ≡ self.old.trace ++ Linked (Gave bytes.now) ∷ []) }
    {
        match Vec::from_slice(self.alloc, bytes) {
            Ok(bytes) => self.keep(Happened::Gave(bytes)),
            Err(_) => self.whole = false,
        }
    }

    fn keep_took(&mut self, bytes: &[u8])
        ensures { self.new.whole ≡ true → (self.old.whole ≡ true)
            × (self.new.trace ≡ self.old.trace ++ Linked (Took bytes.now) ∷ []) }
    {
        match Vec::from_slice(self.alloc, bytes) {
            Ok(bytes) => self.keep(Happened::Took(bytes)),
            Err(_) => self.whole = false,
        }
    }
}

impl Connections for MemConnections {
    ghost use Rattle.std.specs.Prelude.{◌≡◌, ◌++◌, true, ⊤};

    ghost did = { λ old happenings new. new.whole ≡ true
        → (old.whole ≡ true) × (new.trace ≡ old.trace ++ happenings) };

    // A script looks at what was sent, and not at what was kept then.
    ghost saw = { λ B old kept new. ⊤ };

    fn next(&mut self) -> Ready {
        if let Some(place) = self.again.pop_front() {
            return Ready::Place(place);
        }
        self.act = self.acts.pop_front();
        if let Some(Act::IsLate) = self.act {
            self.keep(Happened::Late);
            return Ready::Late;
        }
        if let Some(ready) = self.ready() {
            return ready;
        }
        self.keep(Happened::Stopped);
        Ready::Stop
    }

    fn accept(&mut self, door: usize, place: usize) -> bool {
        let Some(Act::Comes(_)) = self.act else {
            return false;
        };
        self.act = None;
        self.keep(Happened::Came(door, place));
        true
    }

    fn put_off(&mut self, _door: usize) {}

    fn ask_again(&mut self, place: usize) {
        if self.again.push_back(place).is_err() {
            self.whole = false;
        }
    }

    fn read(&mut self, place: usize, into: &mut [u8]) -> Result<usize, Pause> {
        match self.act.take() {
            Some(Act::Gives(at, bytes)) => {
                if at != place {
                    return Err(Pause::NotNow);
                }
                let count = bytes.len().min(into.len());
                into[..count].copy_from_slice(&bytes[..count]);
                self.keep_got(place, &into[..count]);
                Ok(count)
            }
            Some(Act::Ends(_)) => Err(Pause::Over),
            _ => Err(Pause::NotNow),
        }
    }

    fn write<B>(&mut self, place: usize, bytes: &[u8], _kept: &B) -> Result<usize, Pause> {
        let count = bytes.len().min(self.room);
        if count == 0 || self.stalled.contains(&place) {
            self.keep(Happened::Refused(place));
            return Err(Pause::NotNow);
        }
        self.keep_sent(place, &bytes[..count]);
        Ok(count)
    }

    fn end_soon(&mut self) {}

    fn close(&mut self, place: usize) {
        self.keep(Happened::Left(place));
    }

    fn open_link(&mut self, path: &str) -> bool {
        let Some(Act::Reaches) = self.act else {
            return false;
        };
        self.act = None;
        self.keep_opened(path);
        true
    }

    fn read_link(&mut self, into: &mut [u8]) -> Result<usize, Pause> {
        match self.act.take() {
            Some(Act::Answers(bytes)) => {
                let count = bytes.len().min(into.len());
                into[..count].copy_from_slice(&bytes[..count]);
                self.keep_gave(&into[..count]);
                Ok(count)
            }
            Some(Act::Breaks) => Err(Pause::Over),
            _ => Err(Pause::NotNow),
        }
    }

    fn write_link<B>(&mut self, bytes: &[u8], _kept: &B) -> Result<usize, Pause> {
        let count = bytes.len().min(self.room);
        if count == 0 {
            return Err(Pause::NotNow);
        }
        self.keep_took(&bytes[..count]);
        Ok(count)
    }

    fn close_link(&mut self) {
        self.keep(Happened::Closed);
    }

    fn expect(&mut self, _seconds: u64) {}
}
