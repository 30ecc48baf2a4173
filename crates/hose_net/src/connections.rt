// The connections of a network, which one thread holds.
ghost use Rattle.std.specs.Prelude.{◌<◌, ◌≤◌, List, [], ◌∷◌, length, take, IfOk, MatchResult};
ghost use Rattle.std.specs.Bool.{MatchBool};
ghost use Rattle.hose_net.specs.steps.Told.{paused_by, told_by};
ghost use Rattle.hose_net.specs.Happening.{Came, Closed, Gave, Got, Happening, Left, Linked, Opened, Sent, Took};

/// What is ready, perhaps.
#[derive(Clone, Copy, Debug, PartialEq, Eq)]
pub enum Ready {
    /// Someone may have come to this door.
    Door(usize),
    /// The connection at this place may be read or written.
    Place(usize),
    /// The link to the standby may be read or written.
    Link,
    /// A second has passed.
    Second,
    /// Nothing was heard of the standby for as long as was said.
    Late,
    /// The host is to stop.
    Stop,
}

/// Why a connection was not read or written.
#[derive(Clone, Copy, Debug, PartialEq, Eq)]
pub enum Pause {
    /// It would have to wait.
    NotNow,
    /// It is over, or it failed.
    Over,
}

/// The connections of a network. Each has a place, which its caller gave it.
pub trait Connections: Drop {
    /// What happened in a call.
    ghost did: { Self → List Happening → Self → Type 0 };

    /// What was shown to a call that sent bytes: what is kept then, of whatever type.
    ghost saw: { (B : Type 0) → Self → B → Self → Type 0 };

    /// What may be ready next. It waits for that; after `end_soon` no longer than a limit of its
    /// own, where it tells to stop. Seconds are told from the first `expect` on.
    fn next(&mut self) -> Ready
        ensures { did self.old (told_by result) self.new };

    /// Gives this place to who came to a door, if someone did.
    fn accept(&mut self, door: usize, place: usize) -> bool
        ensures { MatchBool result
            (did self.old (Came door place ∷ []) self.new)
            (did self.old [] self.new) };

    /// No room is left for who comes to a door. It is told again once a connection was let go, and
    /// after a while.
    fn put_off(&mut self, door: usize)
        ensures { did self.old [] self.new };

    /// There is more to do at a place. It is told again.
    fn ask_again(&mut self, place: usize)
        ensures { did self.old [] self.new };

    /// Puts the next bytes of a connection at the front of `into`, and says how many.
    fn read(&mut self, place: usize, into: &mut [u8]) -> Result<usize, Pause>
        ensures room { IfOk result (λ count. count ≤ length into.new) }
        ensures did { MatchResult result
            (λ count. did self.old (Got place (take count into.new) ∷ []) self.new)
            (λ _. did self.old [] self.new) };

    /// Sends bytes from the front of `bytes`, one at least, and says how many. What is kept by then
    /// is shown, so that it can be said of what was sent.
    fn write<B>(&mut self, place: usize, bytes: &[u8], kept: &B) -> Result<usize, Pause>
        requires { 0 < length bytes.now }
        ensures some { IfOk result (λ count. 0 < count) }
        ensures room { IfOk result (λ count. count ≤ length bytes.now) }
        ensures did { MatchResult result
            (λ count. did self.old (Sent place (take count bytes.now) ∷ []) self.new)
            (λ pause. did self.old (paused_by place pause) self.new) }
        ensures saw { IfOk result (λ _. saw B self.old kept.now self.new) };

    /// No one is let in any more and nothing is read: what is left to be written has a limit of
    /// time.
    fn end_soon(&mut self)
        ensures { did self.old [] self.new };

    /// Lets the connection at a place go.
    fn close(&mut self, place: usize)
        ensures { did self.old (Left place ∷ []) self.new };

    /// Opens the link to the standby whose Unix socket has this path, if it can be opened.
    fn open_link(&mut self, path: &str) -> bool
        ensures { MatchBool result
            (did self.old (Linked (Opened path.now) ∷ []) self.new)
            (did self.old [] self.new) };

    /// Puts the next bytes of the link at the front of `into`, and says how many. Where there may
    /// be more, the link is told again.
    fn read_link(&mut self, into: &mut [u8]) -> Result<usize, Pause>
        ensures room { IfOk result (λ count. count ≤ length into.new) }
        ensures did { MatchResult result
            (λ count. did self.old (Linked (Gave (take count into.new)) ∷ []) self.new)
            (λ _. did self.old [] self.new) };

    /// Sends bytes from the front of `bytes` to the standby, one at least, and says how many. What
    /// is kept by then is shown, so that it can be said of what was sent.
    fn write_link<B>(&mut self, bytes: &[u8], kept: &B) -> Result<usize, Pause>
        requires { 0 < length bytes.now }
        ensures some { IfOk result (λ count. 0 < count) }
        ensures room { IfOk result (λ count. count ≤ length bytes.now) }
        ensures did { MatchResult result
            (λ count. did self.old (Linked (Took (take count bytes.now)) ∷ []) self.new)
            (λ _. did self.old [] self.new) }
        ensures saw { IfOk result (λ _. saw B self.old kept.now self.new) };

    /// Closes the link.
    fn close_link(&mut self)
        ensures { did self.old (Linked Closed ∷ []) self.new };

    /// Something is to be heard of the standby within so many seconds from now: else it is told to
    /// be late, once.
    fn expect(&mut self, seconds: u64)
        ensures { did self.old [] self.new };
}
