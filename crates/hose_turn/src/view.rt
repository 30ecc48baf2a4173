//! What a value under the lock tells, and what a seat at the table knows.
ghost use Rattle.std.specs.Prelude.{◌≡◌, ℕ, ◌+◌, List, [], length};
ghost use Rattle.hose_graph.specs.declared.entry.Entry.{Entry};
ghost use Rattle.hose_turn.specs.declared.view.Origin.{Origin};
ghost use Rattle.hose_turn.specs.declared.view.Tried.{Tried};

use hose_graph::{Entry, Topology};
use std::marker::Brand;

/// A value that stands for a list of entries.
pub trait HoldsHistory {
    /// The value stands for the list, with what was fixed when its lock was made, and these are all
    /// that it was to take since and did not.
    ghost stands: { Origin → List Entry → List Tried → Self → Type 0 };

    /// How many faults its disk has met.
    ghost faults: { Self → ℕ };

    /// The first epoch and the length of the list together.
    fn epoch(&self) -> u64
        ensures { (origin : Origin) (history : List Entry) (tries : List Tried)
            → stands origin history tries self.now → result ≡ origin.first + length history };
}

/// Names the entry that a step counts. The call that counts picks it.
pub(crate) trait Counted {
    ghost entry: { Entry };
}

impl Counted for Brand {
    ghost entry = { Entry.Release [] 0 };
}

// No value of `Origin`, of `Tried` or of `View` is made: they stand in contracts and proofs alone,
// where an array is a list of any length.

/// What is fixed when a lock is made.
pub struct Origin {
    /// The epoch before the first entry of the list.
    pub first: u64,
    /// The list for which the value stood then. It is a beginning of every list for which it will
    /// stand.
    pub since: [Entry; 0],
    /// The network of the value's book.
    pub network: Topology,
}

/// An entry that the value was to take and did not.
pub struct Tried {
    /// How many entries the list had then.
    pub place: u64,
    pub entry: Entry,
}

pub struct View {
    pub origin: Origin,
    /// How many of `ALL_SHARES` are this pass's. It is 0 once the pass was joined into another.
    pub share: u64,
    /// The pass's ticket, counted without end.
    pub ticket: Option<u64>,
    pub has_turn: bool,
    /// The beginning of the history that the pass has seen.
    pub seen: [Entry; 0],
    /// What the other pass of a join had seen, until a step compares it with `seen`.
    pub told: [Entry; 0],
    /// The places in the history of the entries that the pass counted.
    pub own: [u64; 0],
    /// What the pass tried.
    pub tried: [Tried; 0],
    /// All that was tried, as the pass has the turn.
    pub all_tried: [Tried; 0],
    pub faults: u64,
    /// The count of faults of the value that the pass took.
    pub floor: u64,
}
