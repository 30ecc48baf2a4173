//! The lock and its calls.
ghost use Rattle.std.specs.Prelude.{◌≡◌, ◌⊎◌, ℕ, ◌+◌, ◌-◌, ◌<◌, ◌≤◌, ◌∷◌, [], ◌++◌, List, length, IfErr, IfOk};
ghost use mathlib.Core.List.{IsPrefix};
ghost use Rattle.hose_graph.specs.declared.entry.Entry.{Entry};
ghost use Rattle.hose_turn.specs.declared.view.Origin.{Origin};
ghost use Rattle.hose_turn.specs.declared.view.Tried.{Tried};
ghost use Rattle.std.specs.Borrow.{sem, follows};
ghost use Rattle.hose_turn.specs.steps.Known.{first_known, HasJoined, HasOwnPlaces, HasWholeHistory};
ghost use Rattle.hose_turn.specs.Faults.{end_of_count};
ghost use Rattle.hose_turn.specs.steps.Faults.{rise};
ghost use Rattle.hose_turn.specs.steps.Views.{unborn, opener};
ghost use Rattle.hose_turn.specs.steps.Held.{holder, value_of, floor_of, tries_of, HasCounted, HasTried};
ghost use Rattle.hose_turn.specs.contracts.pass.Held.{the_row};

use crate::bells::Bells;
use crate::pass::{ALL_SHARES, Held, Pass};
use crate::rule::{
    AT_TURN, Begin, Board, BoardSeat, CountEntry, Cut, Draw, EPOCH, Glue, Look, Open, PassOn,
    Settle, TICKET, TryEntry,
};
use crate::view::{Counted, HoldsHistory};
use atomic_table::{Badge, Table};
use hose_graph::Entry;
use std::alloc::{AllocError, Global};
use std::hint::spin_loop;
use std::marker::{Brand, Model};
use std::mem::replace;
use std::snapshot::Snapshot;
use std::sync::Wait;

/// How often a pass looks whether its turn has come before it sleeps: the next one in line, which
/// is often called soon, and one behind it.
const NEAR_LOOKS: u32 = 1_000;

const FAR_LOOKS: u32 = 50;

/// A lock round a value that stands for one history.
///
/// A contract sees it as which lock it is.
#[derive(Drop)]
pub struct Turn<S: HoldsHistory + Drop> {
    board: Board<S>,
    bells: Bells,
}

impl<S: HoldsHistory + Drop> Model for Turn<S> {
    ghost use Rattle.atomic_table.specs.Seated.{TableId, table_id_coded};
    ghost use Rattle.hose_turn.specs.steps.Rule.{IsSized};

    ghost Value = { TableId };

    ghost coded = { table_id_coded };

    ghost view = { λ turn. turn.board.shared.table_id };

    ghost invariant = { λ turn. IsSized turn.board.shared.table_id };
}

impl<S: HoldsHistory + Drop> Turn<S> {
    /// A lock round the value, and its first pass, which has all shares.
    ///
    /// The value has to stand for some list, since that list itself. Nothing names that list here:
    /// the first pass has an origin, and so a list, for which the value stands.
    pub fn new(alloc: Global, value: S) -> Result<(Turn<S>, Pass), AllocError>
        requires { (origin : Origin) × S.stands origin origin.since [] value }
        ensures first { IfOk result (λ made. made.1 ≡ first_known made.0 made.1.origin) }
        ensures stands { IfOk result
            (λ made. S.stands made.1.origin made.1.origin.since [] value) }
    {
        match Turn::from_ticket(alloc, value, 0) {
            Ok(made) => Ok(made),
            Err(_value) => Err(AllocError),
        }
    }

    /// A lock and its first pass, as `new` makes them, with the number of the first ticket. Tickets
    /// are counted modulo 2^64, so that number makes no difference. Where memory is wanting the
    /// value comes back.
    pub fn from_ticket(alloc: Global, value: S, ticket: u64) -> Result<(Turn<S>, Pass), S>
        requires { (origin : Origin) × S.stands origin origin.since [] value }
        ensures first { IfOk result (λ made. made.1 ≡ first_known made.0 made.1.origin) }
        ensures stands { IfOk result
            (λ made. S.stands made.1.origin made.1.origin.since [] value) }
        ensures back { IfErr result (λ back. back ≡ value) }
    {
        let Ok(bells) = Bells::new(alloc) else {
            return Err(value);
        };
        let words = [0, ticket.wrapping_add(1), ticket];
        let Ok((board, mut seat)) = Table::vacant(alloc, &words, 1, &()) else {
            return Err(value);
        };
        Turn::begin(&board, &mut seat, value);
        board.shared.fetch_add::<Open>(&mut seat, AT_TURN, 1);
        Ok((Turn { board, bells }, Pass::of(seat)))
    }

    /// The first pass has the turn at a table with no value, and has the value.
    fn begin(board: &Board<S>, seat: &mut BoardSeat<S>, value: S)
        requires words { board.now.shared.table_id.words ≡ 3 }
        requires table { seat.old.table_id ≡ board.now.shared.table_id }
        requires unborn { seat.old.me ≡ (unborn, []) }
        requires stands { (origin : Origin) × S.stands origin origin.since [] value }
        ensures table { seat.new.table_id ≡ seat.old.table_id }
        ensures begun { (origin : Origin) × (ticket : ℕ) × S.stands origin origin.since [] value
            × (seat.new.me ≡ (opener origin ticket (S.faults value), (0, Some value) ∷ [])) }
    {
        let epoch = value.epoch();
        let value = Some(value);
        board
            .shared
            .compare_exchange_with::<Begin>(seat, EPOCH, 0, epoch, &value);
        board.shared.exchange(seat, 0, value);
    }

    /// One share of the pass goes to a new pass, which has seen as much. Both have one at least.
    pub fn split(&self, pass: &mut Pass) -> Pass
        requires turn { pass.old.turn ≡ self.now }
        requires share { 2 ≤ pass.old.share }
        ensures kept { pass.new ≡ record pass.old { share = pass.old.share - 1 } }
        ensures given { result ≡ record pass.old { share = 1; own = []; tried = []; faults = 0 } }
    {
        let badge = replace(&mut pass.badge, Badge::blank());
        let mut seat: BoardSeat<S> = badge.into_seat();
        let other = self.board.shared.split_seat::<Cut>(&mut seat);
        pass.badge = seat.into_badge();
        Pass::of(other)
    }

    /// The pass takes in the other one, and has seen the longer of the two lists.
    pub fn join(&self, pass: &mut Pass, other: Pass)
        requires turn { pass.old.turn ≡ self.now }
        requires other { other.turn ≡ self.now }
        ensures { HasJoined pass.old other pass.new }
    {
        let board = &self.board.shared;
        let badge = replace(&mut pass.badge, Badge::blank());
        let mut seat: BoardSeat<S> = badge.into_seat();
        board.join_seat::<Glue>(&mut seat, other.take_seat());
        board.load::<Settle>(&mut seat, EPOCH);
        pass.badge = seat.into_badge();
    }

    /// Waits until the pass's turn has come, asleep where that takes longer, and takes the value.
    pub fn lock<W: Wait>(&self, rt: &W, pass: Pass) -> Held<S>
        requires { pass.turn ≡ self.now }
        ensures kept { holder result ≡ record pass { seen = (holder result).seen } }
        ensures seen { IsPrefix pass.seen (holder result).seen }
        ensures stands { S.stands (holder result).origin (holder result).seen (tries_of result)
            (value_of result) }
        ensures floor { floor_of result ≡ S.faults (value_of result) }
        ensures places { HasOwnPlaces (holder result) }
    {
        let board = &self.board.shared;
        let mut seat: BoardSeat<S> = pass.take_seat();
        let mine = board.fetch_add::<Draw>(&mut seat, TICKET, 1);
        let mut looks = 0;
        for _ in rt.forever() {
            if board.load::<Look>(&mut seat, AT_TURN) == mine {
                let value = board.exchange(&mut seat, 0, None).unwrap();
                return Held { seat, value };
            }
            looks = self.wait(rt, mine, looks);
        }
        unreachable!()
    }

    /// Waits a little, after so many looks in a row at a ticket whose turn has not come; tells how
    /// many those are then.
    fn wait<W: Wait>(&self, rt: &W, mine: u64, looks: u32) -> u32 {
        let before = mine.wrapping_sub(self.board.shared.peek(AT_TURN));
        let most = if before <= 1 { NEAR_LOOKS } else { FAR_LOOKS };
        if looks < most {
            spin_loop();
            return looks + 1;
        }
        self.sleep(rt, mine);
        0
    }

    /// Sleeps until the ticket is called, unless it is by now.
    ///
    /// No call is missed: the number of the bell is read before the ticket that has the turn, and
    /// who calls changes them the other way round. So where this look finds that the turn has not
    /// come, the bell rings after its number was read, and then nobody falls asleep or who sleeps
    /// is woken. Whoever calls finds the sleeper in the bell's word too, and the ticket drawn, as
    /// both stood there before the look. The bell rings at most twice for each ticket that was
    /// drawn before this one, of which there are no more than shares: its number does not come
    /// round meanwhile.
    fn sleep<W: Wait>(&self, rt: &W, mine: u64) {
        let number = self.bells.lie_down(mine);
        if self.board.shared.peek(AT_TURN) != mine {
            self.bells.sleep(rt, mine, number);
        }
        self.bells.get_up(mine);
    }

    /// Calls the ticket that has the turn now, and the next one, so that it is awake when its own
    /// turn comes.
    fn call(&self, at_turn: u64) {
        let waiting = self.board.shared.peek(TICKET).wrapping_sub(at_turn);
        if waiting > 0 {
            self.bells.ring(at_turn);
        }
        if waiting > 1 {
            self.bells.ring(at_turn.wrapping_add(1));
        }
    }

    /// Counts an entry as `count` does, where a type names it, so that its step can tell it.
    fn count_named<N: Counted>(&self, held: &mut Held<S>, entry: Snapshot<Entry>)
        requires turn { (holder held.old).turn ≡ self.now }
        requires stands { let known = holder held.old in
            S.stands known.origin (known.seen ++ N.entry ∷ []) (tries_of held.old)
            (value_of held.old) }
        ensures { HasCounted held.old held.new N.entry }
    {
        // The entry is for the clauses alone, and the epoch tells that its word does not wrap.
        let _ = entry;
        let _epoch = held.value.epoch();
        self.board
            .shared
            .fetch_add::<CountEntry<N>>(&mut held.seat, EPOCH, 1);
    }

    /// Says that the history has one entry more, with which the value stands for it already. The
    /// entry is the pass's own. It is for contracts alone, so none has to be kept for it.
    pub fn count(&self, held: &mut Held<S>, entry: Snapshot<Entry>)
        requires turn { (holder held.old).turn ≡ self.now }
        requires stands { let known = holder held.old in
            S.stands known.origin (known.seen ++ entry.value ∷ []) (tries_of held.old)
            (value_of held.old) }
        ensures { HasCounted held.old held.new entry.value }
    {
        self.count_named::<Brand>(held, entry);
    }

    /// Notes an entry as `fail` does, where a type names it, so that its step can tell it.
    fn fail_named<N: Counted>(&self, held: &mut Held<S>, entry: Snapshot<Entry>)
        requires { (holder held.old).turn ≡ self.now }
        ensures { HasTried held.old held.new N.entry }
    {
        // The entry is for the clauses alone.
        let _ = entry;
        self.board.shared.load::<TryEntry<N>>(&mut held.seat, EPOCH);
    }

    /// Says that the value was to take an entry in this turn and did not. The entry is for
    /// contracts alone, as that of `count`.
    pub fn fail(&self, held: &mut Held<S>, entry: Snapshot<Entry>)
        requires { (holder held.old).turn ≡ self.now }
        ensures { HasTried held.old held.new entry.value }
    {
        self.fail_named::<Brand>(held, entry);
    }

    /// Gives the value back, and the turn on. The pass has one fault more where the value's count
    /// of faults rose.
    pub fn unlock(&self, held: Held<S>) -> Pass
        requires turn { (holder held).turn ≡ self.now }
        requires stands { S.stands (holder held).origin (holder held).seen (tries_of held)
            (value_of held) }
        requires faults { floor_of held ≤ S.faults (value_of held) }
        ensures passed { let known = holder held in
            let more = rise (floor_of held) (S.faults (value_of held)) in
            result ≡ record known { faults = known.faults + more } }
        ensures places { HasOwnPlaces result }
    {
        let Held { mut seat, value } = held;
        self.board.shared.exchange(&mut seat, 0, Some(value));
        let mine = self.board.shared.fetch_add::<PassOn>(&mut seat, AT_TURN, 1);
        self.call(mine.wrapping_add(1));
        Pass::of(seat)
    }

    /// The value, where no other pass is left.
    pub fn close(self, pass: Pass) -> S
        requires turn { pass.turn ≡ self }
        requires share { pass.share ≡ ALL_SHARES }
        ensures history { (history : List Entry) × (tries : List Tried)
            × HasWholeHistory S.stands pass history tries result }
        ensures faults { (pass.faults ≤ S.faults result) ⊎ (end_of_count ≤ S.faults result) }
    {
        let Turn { board, bells: _ } = self;
        let seat: BoardSeat<S> = pass.take_seat();
        let mut closed = board.close_with(seat);
        let value = closed.take(0);
        closed.free();
        value.unwrap()
    }
}

// This stands here as its clause names the row of `Held`, which the file that declares that
// cannot import.
impl<S> Held<S> {
    /// The value, to be changed. What it is in the end, the lock gets.
    pub fn value_mut(&mut self) -> &mut S
        ensures* writes_back { sem 𝓛 (follows (the_row S.row) S.row
            self.entry.ghost_name result.ghost_name (λ value. record self.old { value = value })) }
        ensures value { result.now ≡ value_of self.old }
    {
        &mut self.value
    }
}
