// The beginning and the end of a turn.
ghost use Rattle.std.specs.Bool.{MatchBool};
ghost use Rattle.std.specs.Prelude.{◌≡◌, List, option_map, ℕ};
ghost use Rattle.hose_graph.specs.declared.command.Command.{Command};
ghost use Rattle.hose_graph.specs.declared.entry.Entry.{Entry};
ghost use Rattle.hose_law.specs.Quotes.{Holding};
ghost use Rattle.hose_book.specs.declared.books.Committed.TheVariants.{Disk, Done};
ghost use Rattle.hose_core.specs.steps.Stepping.{committed_of};
ghost use Rattle.hose_turn.specs.steps.Held.{floor_of, holder, tries_of, value_of};
ghost use Rattle.hose_shared.specs.steps.Sharing.{HasSeenMore, IsPassOf};
ghost use Rattle.hose_shared.specs.steps.Turns.{AnswersTurn, BeginsTurn, StepsAt};

use crate::kept::{Begun, Kept};
use crate::shared::Shared;
use hose_book::Books;
use hose_disk::Disk;
use hose_graph::{Entry, Reply};
use hose_turn::{Held, Pass};
use std::snapshot::Snapshot;
use std::sync::Wait;

/// What a turn began with: the epoch of the book, and the store as it was.
#[derive(Drop)]
pub(crate) struct TurnStart<D: Disk, B: Begun<D>> {
    epoch: u64,
    was: Snapshot<Kept<D, B>>,
}

impl<D: Disk, B: Begun<D>> Shared<D, B> {
    /// Waits for the turn of a pass.
    pub(crate) fn begin_turn<W: Wait>(
        &self,
        rt: &W,
        pass: Pass,
    ) -> (Held<Kept<D, B>>, TurnStart<D, B>)
        requires { IsPassOf self.now pass }
        ensures turn { (holder result.0).turn ≡ self.now.turn }
        ensures more { HasSeenMore pass (holder result.0) }
        ensures value { result.1.was.value ≡ value_of result.0 }
        ensures network { result.1.was.value.store.ledger.network ≡ self.now.network }
        ensures begins { BeginsTurn D.Disk B.begins (holder result.0) (tries_of result.0)
            (floor_of result.0) result.1.epoch result.1.was.value.store }
    {
        let held = self.turn.lock(rt, pass);
        let epoch = held.value().store.book().epoch();
        let was = Snapshot::of(held.value());
        (held, TurnStart { epoch, was })
    }

    /// Gives the turn on, in which a command was answered by a step of the book. An entry that
    /// joined the book there, which is this one then, joins the history. One that the disk refused,
    /// as the reply tells, was tried.
    pub(crate) fn end_turn(
        &self,
        held: Held<Kept<D, B>>,
        start: TurnStart<D, B>,
        entry: Option<Snapshot<Entry>>,
        reply: &Reply,
    ) -> Pass
        requires turn { (holder held).turn ≡ self.now.turn }
        requires network { start.was.value.store.ledger.network ≡ self.now.network }
        requires begun { BeginsTurn D.Disk B.begins (holder held) (tries_of held) (floor_of held)
            start.epoch start.was.value.store }
        requires answers { (customer : List ℕ) × (quotes : Holding) × (command : Command)
            × AnswersTurn D.Disk (holder held).seen start.was.value.store
            (value_of held).store (option_map (λ one. one.value) entry) customer quotes command
            reply.now }
        ensures { (customer : List ℕ) (quotes : Holding) (command : Command)
            → AnswersTurn D.Disk (holder held).seen start.was.value.store
            (value_of held).store (option_map (λ one. one.value) entry) customer quotes command
            reply.now → StepsAt self.now.network customer quotes command reply.now
            (holder held).seen (holder held) result }
    {
        let TurnStart { epoch, was: _ } = start;
        let Some(entry) = entry else {
            return self.turn.unlock(held);
        };
        let mut held = held;
        if is_refused(reply) {
            self.turn.fail(&mut held, entry);
            return self.turn.unlock(held);
        }
        // The entry has joined the book only where that is longer than it was.
        if held.value().store.book().epoch() == epoch {
            return self.turn.unlock(held);
        }
        self.turn.count(&mut held, entry);
        self.turn.unlock(held)
    }
}

// Whether a reply tells that the disk refused an entry.
fn is_refused(reply: &Reply) -> bool
    ensures { MatchBool result (committed_of reply.now ≡ Disk) (committed_of reply.now ≡ Done) }
{
    match reply {
        Reply::Disk { .. } => true,
        _ => false,
    }
}
