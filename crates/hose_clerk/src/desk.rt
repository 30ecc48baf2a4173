// What answers the lines of one session after the other.
ghost use Rattle.std.specs.Prelude.{◌≡◌, ℕ, true, false};
ghost use Rattle.hose_graph.specs.steps.Naming.{AsksOf};
ghost use Rattle.hose_words.specs.Shapes.{IsFirstWrong};
ghost use Rattle.hose_words.specs.Words.{words_of};
ghost use Rattle.hose_law.specs.Transcript.SessionLine.{Asks};
ghost use Rattle.hose_proto.specs.Command.{command_shape};
ghost use Rattle.hose_core.specs.steps.Holding.{AreAllKept};
ghost use Rattle.hose_clerk.specs.HostLines.{SaysBy, SaysLaterAt};
ghost use Rattle.hose_clerk.specs.HostLines.HostLine.{Speaks};
ghost use Rattle.hose_clerk.specs.Hosting.{IsCountReply, IsEndReply};
ghost use Rattle.hose_clerk.specs.steps.Answering.{AnswersSession, AnswersText, AnswersTo, IsSessionKept};
ghost use Rattle.hose_clerk.specs.steps.Sessions.{is_new_at, is_over_at};
ghost use Rattle.hose_clerk.specs.declared.sessions.Session.TheVariants.{New, Serving};

use crate::doors::{DoorRule, greeting_at};
use crate::figures::Figures;
use crate::log_lines::{is_order, tell};
use crate::own_words::{is_count, is_end};
use crate::replies::HostReply;
use crate::sessions::{Client, Session};
use crate::times::is_timed;
use hose_book::Books;
use hose_core::{Core, QuotesByCustomer};
use hose_graph::{Command, Reply, Topology};
use hose_greeting::is_bye;
use hose_log::Log;
use hose_paths::RowMaker;
use hose_proto::{ReadFault, read_command};
use hose_words::Line;
use std::alloc::Global;

/// What answers lines: where memory is taken, a core of books, what makes rows, a log, what was
/// counted, and whether no line is answered any more.
#[derive(Drop)]
pub struct Desk<K: Books + Drop, R: RowMaker + Drop, L: Log> {
    pub alloc: Global,
    pub core: Core<K>,
    pub rows: R,
    pub log: L,
    pub figures: Figures,
    pub is_ending: bool,
}

/// The network of a core's book.
pub fn topology_of<K: Books + Drop>(core: &Core<K>) -> &Topology
    ensures { result.now ≡ (K.ledger core.now.books).network }
{
    core.books().book().topology()
}

/// How many entries a core's book has.
pub fn entries_of<K: Books + Drop>(core: &Core<K>) -> u64
    ensures { result ≡ (K.ledger core.now.books).book.epoch }
{
    core.books().book().epoch()
}

// The nanoseconds of a clock where it is asked, else 0.
fn nanos_if<L: Log>(clock: &L, is_asked: bool) -> u64 {
    if is_asked { clock.nanos() } else { 0 }
}

// Counts how long a command took, where it is timed.
fn count_if<L: Log>(clock: &L, figures: &mut Figures, is_timed: bool, taken: u64, reply: &Reply)
    ensures { figures.new.tally ≡ figures.old.tally }
{
    if is_timed {
        figures.times.count(reply, taken, clock.nanos());
    }
}

impl<K: Books + Drop, R: RowMaker + Drop, L: Log> Desk<K, R, L> {
    /// The reply to a line of a session at a door of this rule, and how far the session is then.
    pub fn reply_to(
        &mut self,
        session: Session,
        rule: DoorRule,
        line: Line<'_>,
    ) -> (HostReply, Session)
        requires open { is_over_at session ≡ false }
        requires kept { IsSessionKept (K.ledger self.old.core.books) session }
        ensures answers { AnswersSession K.Books
            (SaysBy (K.ledger self.old.core.books).network rule (is_new_at session))
            self.old.figures.tally self.old.core.books self.new.core.books session line.entry
            result.0 result.1 }
        ensures ending { self.new.is_ending ≡ self.old.is_ending }
        ensures tally { self.new.figures.tally ≡ self.old.figures.tally }
    {
        let client = match session {
            Session::New => return self.greet(rule, line),
            Session::Serving(client) => client,
            Session::Over => unreachable!(),
        };
        self.serve(client, line)
    }

    // The reply to the first line.
    fn greet(&self, rule: DoorRule, line: Line<'_>) -> (HostReply, Session)
        ensures { AnswersSession K.Books (SaysBy (K.ledger self.now.core.books).network rule true)
            self.now.figures.tally self.now.core.books self.now.core.books New line.entry
            result.0 result.1 }
    {
        match greeting_at(rule, line) {
            Ok(name) => {
                let at = self.core.books().book().epoch();
                let quotes = QuotesByCustomer::new(self.alloc);
                (
                    HostReply::Told(Reply::Welcome { at }),
                    Session::Serving(Client { name, quotes }),
                )
            }
            Err(reply) => (HostReply::Told(reply), Session::Over),
        }
    }

    // The reply to a later line.
    fn serve(&mut self, client: Client, line: Line<'_>) -> (HostReply, Session)
        requires { AreAllKept (K.ledger self.old.core.books) client.quotes }
        ensures answers { AnswersSession K.Books
            (SaysLaterAt (K.ledger self.old.core.books).network) self.old.figures.tally
            self.old.core.books self.new.core.books (Serving client) line.entry
            result.0 result.1 }
        ensures ending { self.new.is_ending ≡ self.old.is_ending }
        ensures tally { self.new.figures.tally ≡ self.old.figures.tally }
    {
        let Line::Text(text) = line else {
            return (HostReply::Told(Reply::Long), Session::Serving(client));
        };
        match read_command(self.alloc, topology_of(&self.core), text, 0) {
            Ok(command) => self.ask(client, command, text),
            Err(ReadFault::Bad { word }) => self.answer_other(client, word, text),
            Err(ReadFault::Memory) => {
                let reply = Reply::Memory;
                let top = topology_of(&self.core);
                tell(
                    self.alloc,
                    &mut self.log,
                    top,
                    &client.name,
                    text,
                    &reply,
                    false,
                );
                (HostReply::Told(reply), Session::Serving(client))
            }
        }
    }

    // The reply to a command.
    fn ask(&mut self, client: Client, command: Command, text: &[u8]) -> (HostReply, Session)
        requires asks { AsksOf (K.ledger self.old.core.books).network command }
        requires kept { AreAllKept (K.ledger self.old.core.books) client.quotes }
        ensures answers { AnswersTo K.Books self.old.figures.tally self.old.core.books
            self.new.core.books (Serving client) (Speaks (Asks command)) result.0 result.1 }
        ensures ending { self.new.is_ending ≡ self.old.is_ending }
        ensures tally { self.new.figures.tally ≡ self.old.figures.tally }
    {
        let Client { name, mut quotes } = client;
        let is_order = is_order(&command);
        let is_timed = is_timed(&command, is_order);
        let taken = nanos_if(&self.log, is_timed);
        let reply = self
            .core
            .step_for(self.alloc, &name, &mut quotes, command, &mut self.rows);
        count_if(&self.log, &mut self.figures, is_timed, taken, &reply);
        let top = topology_of(&self.core);
        tell(
            self.alloc,
            &mut self.log,
            top,
            &name,
            text,
            &reply,
            is_order,
        );
        (
            HostReply::Told(reply),
            Session::Serving(Client { name, quotes }),
        )
    }

    // The reply to a line that asks for no command, of which this word is not allowed in one.
    fn answer_other(&self, client: Client, word: u64, text: &[u8]) -> (HostReply, Session)
        requires word { IsFirstWrong (command_shape (K.ledger self.now.core.books).network)
            (words_of text.now) word }
        requires kept { AreAllKept (K.ledger self.now.core.books) client.quotes }
        ensures { AnswersText K.Books self.now.figures.tally self.now.core.books (Serving client)
            text.now result.0 result.1 }
    {
        if is_bye(text) {
            return (HostReply::Told(Reply::Bye), Session::Over);
        }
        if is_end(text) {
            let reply = self.end_by(&client);
            return (reply, Session::Serving(client));
        }
        if is_count(text) {
            let reply = self.figures_for(&client);
            return (reply, Session::Serving(client));
        }
        (
            HostReply::Told(Reply::Bad { word }),
            Session::Serving(client),
        )
    }

    // The reply to `end`.
    fn end_by(&self, client: &Client) -> HostReply
        ensures { IsEndReply (K.ledger self.now.core.books).book.epoch client.now.name result }
    {
        let at = self.core.books().book().epoch();
        if !client.name.is_operator() {
            return HostReply::Told(Reply::Denied { at });
        }
        HostReply::Ending { at }
    }

    // The reply to `figures`.
    fn figures_for(&self, client: &Client) -> HostReply
        ensures { IsCountReply self.now.figures.tally (K.ledger self.now.core.books).book.epoch
            client.now.name result }
    {
        let at = self.core.books().book().epoch();
        if client.name.is_operator() {
            let lost = self.log.lost();
            HostReply::Figures(self.figures.told_at(lost, self.log.nanos(), at))
        } else {
            HostReply::Told(Reply::Denied { at })
        }
    }
}
