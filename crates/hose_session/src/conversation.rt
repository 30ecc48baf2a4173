// A session while its lines are answered.
ghost use Rattle.std.specs.Prelude.{◌≡◌};
ghost use Rattle.hose_graph.specs.steps.Naming.{NamesPlaces};
ghost use Rattle.hose_law.specs.Quotes.{Holding, none_held};
ghost use Rattle.hose_law.specs.Transcript.Stage.{Serving, Waiting};
ghost use Rattle.hose_core.specs.steps.Holding.{AreHeld};
ghost use Rattle.hose_shared.specs.steps.Sharing.{IsPassOf};
ghost use Rattle.hose_session.specs.steps.Ending.{end_after};
ghost use Rattle.hose_session.specs.steps.Exchanges.{AnswersAt};
ghost use Rattle.hose_session.specs.declared.phase.Phase.TheVariants as phase;

use crate::ending::SessionEnd;
use crate::phase::Phase;
use hose_disk::Disk;
use hose_graph::{Name, Reply, Topology};
use hose_greeting::{greeting_of, is_bye};
use hose_io::{Failed, Sink};
use hose_paths::RowMaker;
use hose_pool::{Gate, Point};
use hose_proto::{ReadFault, put_reply, read_command_at};
use hose_shared::{Begun, Seat};
use hose_talk::{Answers, TalkEnd, TalkFault};
use hose_turn::Pass;
use hose_words::{Cursor, Line};
use std::sync::Wait;

/// A session while its lines are answered: its customer's seat at the shared book, the network of
/// that book, what it plans with, and how far it is.
#[derive(Drop)]
pub struct Conversation<'a, W, D: Disk, B: Begun<D>, G: Gate, R: RowMaker> {
    pub seat: Seat<'a, W, D, B, G>,
    pub top: &'a Topology,
    pub rows: &'a mut R,
    pub phase: Phase,
}

impl<'a, W: Wait, D: Disk, B: Begun<D>, G: Gate, R: RowMaker> Conversation<'a, W, D, B, G, R> {
    /// How the session ends whose talk ended so, and the pass along which it went.
    pub fn into_end(self, ended: Result<TalkEnd, TalkFault>) -> (SessionEnd, Pass)
        ensures end { result.0 ≡ end_after self.entry.phase ended }
        ensures pass { result.1 ≡ self.entry.seat.pass }
    {
        let end = self.phase.end_after(ended);
        (end, self.seat.pass)
    }

    // The reply to the first line.
    fn greet(&mut self, line: Line<'_>) -> Reply
        requires of { IsPassOf self.old.seat.shared.now self.old.seat.pass }
        requires quotes { self.old.seat.quotes ≡ none_held }
        ensures answers { AnswersAt self.old.seat.shared.now.network self.old.seat.pass (record {
          pass = self.new.seat.pass;
          phase = self.new.phase;
          quotes = self.new.seat.quotes;
        }) Waiting line.entry result }
        ensures of { IsPassOf self.new.seat.shared.now self.new.seat.pass }
        ensures names { NamesPlaces self.old.seat.shared.now.network result }
        ensures shared { self.new.seat.shared ≡ self.old.seat.shared }
        ensures top { self.new.top ≡ self.old.top }
    {
        match greeting_of(line) {
            Ok(name) => {
                let at = self.seat.now();
                self.phase = Phase::Serving(name);
                Reply::Welcome { at }
            }
            Err(reply) => {
                self.phase = Phase::Refused;
                reply
            }
        }
    }

    // The reply to a later line, of the customer who was greeted.
    fn serve(&mut self, name: &Name, line: Line<'_>) -> Reply
        requires of { IsPassOf self.old.seat.shared.now self.old.seat.pass }
        requires top { self.old.top.now ≡ self.old.seat.shared.now.network }
        requires phase { self.old.phase ≡ phase.Serving name.now }
        requires quotes { (held : Holding) × AreHeld self.old.seat.shared.now.network 0
            self.old.seat.pass.seen held self.old.seat.quotes }
        ensures answers { (held : Holding) → AreHeld self.old.seat.shared.now.network 0
            self.old.seat.pass.seen held self.old.seat.quotes
            → AnswersAt self.old.seat.shared.now.network self.old.seat.pass (record {
              pass = self.new.seat.pass;
              phase = self.new.phase;
              quotes = self.new.seat.quotes;
            }) (Serving name.now held) line.entry result }
        ensures of { IsPassOf self.new.seat.shared.now self.new.seat.pass }
        ensures names { NamesPlaces self.old.seat.shared.now.network result }
        ensures shared { self.new.seat.shared ≡ self.old.seat.shared }
        ensures top { self.new.top ≡ self.old.top }
    {
        let Line::Text(text) = line else {
            return Reply::Long;
        };
        let mut words = Cursor::new(text);
        match read_command_at(self.seat.context.alloc, self.top, &mut words) {
            Ok(command) => self.seat.step(name, command, self.rows),
            Err(ReadFault::Bad { word }) => {
                if is_bye(text) {
                    self.phase = Phase::Left;
                    return Reply::Bye;
                }
                Reply::Bad { word }
            }
            Err(ReadFault::Memory) => Reply::Memory,
        }
    }
}

impl<'a, W: Wait, D: Disk, B: Begun<D>, G: Gate, R: RowMaker> Answers
    for Conversation<'a, W, D, B, G, R> {
    type Reply = Reply;

    ghost use Rattle.std.specs.Prelude.{◌≡◌};
    ghost use Rattle.hose_graph.specs.steps.Naming.{NamesPlaces};
    ghost use Rattle.hose_graph.specs.Network.{Network};
    ghost use Rattle.hose_law.specs.Transcript.{SessionLine};
    ghost use Rattle.hose_proto.specs.ReplyText.{line_of, reply_text};
    ghost use Rattle.hose_turn.specs.Known.{Known};
    ghost use Rattle.hose_session.specs.steps.Ending.{over_at};
    ghost use Rattle.hose_session.specs.steps.Exchanges.{CanBeServed, ComesAlong};
    ghost use Rattle.hose_greeting.specs.SessionLines.{SaysAfter};

    ghost said = { SessionLine };

    ghost subject = { Network };

    ghost about = { λ talk. talk.seat.shared.now.network };

    ghost says = { SaysAfter };

    ghost text = { λ network reply. line_of (reply_text network reply) };

    ghost origin = { Known };

    ghost comes = { λ first lines replies talk. ComesAlong talk.seat.shared.now.network first
        (record { pass = talk.seat.pass; phase = talk.phase; quotes = talk.seat.quotes }) lines
        replies };

    ghost fits = { λ talk. (talk.top.now ≡ talk.seat.shared.now.network)
        × CanBeServed talk.seat.shared.now
        (record { pass = talk.seat.pass; phase = talk.phase; quotes = talk.seat.quotes }) };

    ghost can_put = { λ talk reply. (talk.top.now ≡ talk.seat.shared.now.network)
        × NamesPlaces talk.seat.shared.now.network reply };

    ghost over = { λ talk. over_at talk.phase };

    fn answer(&mut self, line: Line<'_>) -> Reply {
        match self.phase.customer() {
            Some(name) => self.serve(&name, line),
            None => self.greet(line),
        }
    }

    fn put<O: Sink>(&self, output: &mut O, reply: &Reply) -> Result<(), Failed> {
        put_reply(output, self.top, reply)?;
        self.seat.context.gate.at(Point::Answered {
            session: self.seat.session,
        });
        Ok(())
    }

    fn is_over(&self) -> bool {
        match self.phase {
            Phase::Waiting => false,
            Phase::Serving(_) => false,
            Phase::Refused => true,
            Phase::Left => true,
        }
    }
}
