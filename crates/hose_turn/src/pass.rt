//! Passes: how they are divided, what is known of one that does not have the turn, and one that has
//! it.
ghost use Rattle.std.specs.Prelude.{◌≡◌, ◌<◌, ◌≤◌, true, [], ◌∷◌, length, None};
ghost use Rattle.hose_turn.specs.steps.Known.{HasOwnPlaces};
ghost use Rattle.hose_turn.specs.steps.Limits.{all_shares};
ghost use Rattle.hose_turn.specs.steps.Places.{HasSomePlaces};
ghost use Rattle.hose_turn.specs.steps.Views.{known_of, no_pass, IsAtRest};

use crate::rule::BoardSeat;
use crate::view::View;
use atomic_table::Badge;
use std::marker::Model;

/// The shares of all passes of one lock together. Who has all of them is the only pass left, and
/// may close the lock.
pub const ALL_SHARES: u64 = 1_000_000;

/// The number is the literal that definitions cite.
pub fn law_limit()
    ensures all_shares { ALL_SHARES ≡ all_shares }
{}

/// The right to take part in the turns of one lock. It has no bytes, and may go to another thread.
///
/// A contract sees it as what it knows: the lock, what was fixed when that was made, its share, the
/// beginning of the history that it has seen, the places of its own entries there, and its number
/// of faults.
#[derive(Drop)]
pub struct Pass {
    pub(crate) badge: Badge<View>,
}

impl Model for Pass {
    ghost use Rattle.hose_turn.specs.Known.{Known};
    ghost use Rattle.hose_turn.specs.steps.Views.{known_of, lock_of, view_of, IsIdle};

    ghost Value = { Known };

    ghost view = { λ pass. let views = pass.badge.views in
        known_of (lock_of pass.badge.table_id views) (view_of views) };

    ghost invariant = { λ pass. IsIdle pass.badge.views };
}

impl Pass {
    /// Stands in for a pass that was taken out of its place. It is of no lock.
    pub fn blank() -> Pass
        ensures { result ≡ no_pass }
    {
        Pass {
            badge: Badge::blank(),
        }
    }

    /// Tells what is known of every pass: which places can be its own.
    pub fn law_places(&self)
        ensures { HasOwnPlaces self.now }
    {
        let _badge = &self.badge;
    }

    pub(crate) fn take_seat<S>(self) -> BoardSeat<S>
        requires { self.turn.words ≡ 3 }
        ensures known { known_of result.table_id result.me.0 ≡ self }
        ensures rests { IsAtRest result.me.0 }
        ensures slots { result.me.1 ≡ [] }
    {
        let Pass { badge } = self;
        badge.into_seat()
    }

    pub(crate) fn of<S>(seat: BoardSeat<S>) -> Pass
        requires rests { IsAtRest seat.me.0 }
        requires slots { seat.me.1 ≡ [] }
        ensures { result ≡ known_of seat.table_id seat.me.0 }
    {
        Pass {
            badge: seat.into_badge(),
        }
    }
}

/// A pass that has the turn, with the value. It is not `Drop`: a turn ends by `unlock`.
pub struct Held<S> {
    pub(crate) seat: BoardSeat<S>,
    pub(crate) value: S,
    ghost live: { 0 < seat.me.0.share },
    ghost turn: { seat.me.0.has_turn ≡ true },
    ghost told: { seat.me.0.told ≡ [] },
    ghost slot: { seat.me.1 ≡ (0, None) ∷ [] },
    ghost since: { length seat.me.0.origin.since ≤ length seat.me.0.seen },
    ghost own: { HasSomePlaces (length seat.me.0.origin.since) (length seat.me.0.seen)
        seat.me.0.own },
}

impl<S> Held<S> {
    ghost use Rattle.hose_turn.specs.steps.Held.{value_of};

    pub fn value(&self) -> &S
        ensures { result.now ≡ value_of self.now }
    {
        &self.value
    }
}
