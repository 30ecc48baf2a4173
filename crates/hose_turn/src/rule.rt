//! The table of the lock: what holds between any two steps, and what each of them tells the pass
//! that makes it.
//!
//! The table has three words and one slot. Word 0 is the epoch, word 1 the next ticket that is
//! drawn, and word 2 the ticket that has the turn. The slot has the value, while no pass has the
//! turn.
ghost use Rattle.hose_turn.specs.steps.Views.{nobody, cut, branch, glued};
ghost use Rattle.hose_turn.specs.steps.Steps.{OpensLock, Draws, Looks, Settles, Counts, Tries, PassesOn};
ghost use Rattle.hose_turn.specs.steps.Faults.{rise, no_rise};

use crate::view::{Counted, HoldsHistory, View};
use atomic_table::{Join, Play, Seat, Split, Table, TableRule};
use std::alloc::Global;
use std::marker::PhantomData;

pub(crate) const EPOCH: usize = 0;

pub(crate) const TICKET: usize = 1;

pub(crate) const AT_TURN: usize = 2;

pub(crate) struct OneHistory;

impl<S: HoldsHistory> TableRule<Option<S>, View, ()> for OneHistory {
    ghost use Rattle.hose_turn.specs.steps.Rule.{RuleHolds};
    ghost use Rattle.hose_turn.specs.steps.Views.{unborn};

    ghost holds = { λ _. RuleHolds S.stands S.faults };

    ghost first = { λ _. unborn };
}

pub(crate) type Board<S> = Table<Option<S>, View, (), OneHistory, Global>;

pub(crate) type BoardSeat<S> = Seat<Option<S>, View>;

/// The first pass takes the turn at a table that has no value yet.
pub(crate) struct Begin;

impl<S: HoldsHistory> Play<Option<S>, View> for Begin {
    ghost then = { OpensLock S.stands S.faults };
}

/// The first pass gives the value to the table.
pub(crate) struct Open;

impl<S: HoldsHistory> Play<Option<S>, View> for Open {
    ghost then = { PassesOn S.faults no_rise };
}

/// A pass draws a ticket.
pub(crate) struct Draw;

impl<S> Play<Option<S>, View> for Draw {
    ghost then = { Draws };
}

/// A pass looks whether its turn has come, and takes the value where it has.
pub(crate) struct Look;

impl<S: HoldsHistory> Play<Option<S>, View> for Look {
    ghost then = { Looks S.stands S.faults };
}

/// The history gains an entry, which is the pass's own.
pub(crate) struct CountEntry<N> {
    named: PhantomData<N>,
}

impl<S, N: Counted> Play<Option<S>, View> for CountEntry<N> {
    ghost then = { Counts N.entry };
}

/// The value did not take an entry that the pass tried.
pub(crate) struct TryEntry<N> {
    named: PhantomData<N>,
}

impl<S, N: Counted> Play<Option<S>, View> for TryEntry<N> {
    ghost then = { Tries N.entry };
}

/// A pass gives the value back, and the turn to the next ticket.
pub(crate) struct PassOn;

impl<S: HoldsHistory> Play<Option<S>, View> for PassOn {
    ghost then = { PassesOn S.faults rise };
}

/// A share goes to a new pass.
pub(crate) struct Cut;

impl Split<View> for Cut {
    ghost left = { cut };

    ghost right = { branch };
}

/// A pass takes in another one.
pub(crate) struct Glue;

impl Join<View> for Glue {
    ghost both = { glued };

    ghost spent = { nobody };
}

/// After a join: of the two lists that were seen, the longer one is seen.
pub(crate) struct Settle;

impl<S> Play<Option<S>, View> for Settle {
    ghost then = { Settles };
}
