// Who answers the lines of all connections.
ghost use Rattle.std.specs.Prelude.{◌≡◌, ◌≢◌, List, [], false};
ghost use Rattle.hose_graph.specs.declared.entry.Entry.{Entry};
ghost use Rattle.hose_law.specs.History.{IsSound};
ghost use Rattle.hose_book.specs.Ledger.{HasBookOf};
ghost use Rattle.hose_clerk.specs.Tally.{no_tally};
ghost use Rattle.hose_clerk.specs.steps.Answering.{AreSessionsKept, GrowsWith, HasHosted};
ghost use Rattle.hose_clerk.specs.steps.Linking.{is_required, link_state};
ghost use Rattle.hose_net.specs.Story.{no_link};

use crate::desk::{Desk, entries_of, topology_of};
use crate::doors::{DoorRule, rule_of};
use crate::fence::{Fence, Mark, set_if};
use crate::figures::Figures;
use crate::linking::{
    LinkNotes, StandbyAt, ahead_at, ask_if, is_ended, is_required, may_go_alone, path_of,
    patience_with, waits_at,
};
use crate::replies::{HostReply, put_host_reply};
use crate::sessions::{Session, is_over, make_room, put, take};
use hose_book::Books;
use hose_core::Core;
use hose_host::HostAnswers;
use hose_io::{Failed, Sink};
use hose_lead::{History, Standby};
use hose_log::Log;
use hose_net::Hold;
use hose_paths::RowMaker;
use hose_words::Line;
use std::alloc::{AllocError, Global};

/// Who answers the lines of all connections by one book: what answers them, the rule of each door,
/// and how far each session is, by its place; and where replies wait for a standby, how far the
/// link to it is, what of it the standby has passed, and whether lines wait until it has joined.
#[derive(Drop)]
pub struct Clerk<K: Books + History + Drop, R: RowMaker + Drop, L: Log> {
    pub desk: Desk<K, R, L>,
    pub doors: Vec<DoorRule>,
    pub sessions: Vec<Session>,
    pub awaited: Option<StandbyAt>,
    pub standby: Standby,
    pub fence: Fence,
    pub notes: LinkNotes,
    pub waits: bool,
}

impl<K: Books + History + Drop, R: RowMaker + Drop, L: Log> Clerk<K, R, L> {
    /// Who answers by a core, at doors of these rules, and tells the log; and the standby that
    /// replies wait for, if there is one. No one is there yet.
    pub fn new(
        alloc: Global,
        core: Core<K>,
        rows: R,
        doors: Vec<DoorRule>,
        log: L,
        awaited: Option<StandbyAt>,
    ) -> Clerk<K, R, L>
        requires grows { GrowsWith K.Books K.History.is_of }
        ensures core { result.desk.core ≡ core }
        ensures doors { result.doors.items ≡ doors.items }
        ensures ending { result.desk.is_ending ≡ false }
        ensures tally { result.desk.figures.tally ≡ no_tally }
        ensures awaited { result.awaited ≡ awaited }
        ensures kept { AreSessionsKept (K.ledger core.books) result.sessions.items }
        // Nothing is answered yet.
        ensures hosted { (since : List Entry) → IsSound (K.ledger core.books).network 0 since
            → HasBookOf 0 since (K.ledger core.books)
            → K.History.is_of core.books (K.ledger core.books).network since
            → HasHosted K.Books K.History.is_of (is_required awaited) since core.books core.books
            result.sessions.items false no_tally
            (link_state awaited result.standby result.fence) [] no_link }
    {
        let figures = Figures::new(log.nanos(), awaited.is_some());
        Clerk {
            desk: Desk {
                alloc,
                core,
                rows,
                log,
                figures,
                is_ending: false,
            },
            doors,
            sessions: Vec::new(alloc),
            awaited,
            standby: Standby::new(alloc),
            fence: Fence::new(),
            notes: LinkNotes::new(),
            waits: false,
        }
    }

    /// The books. The log is ended, and all quotes are given up.
    pub fn into_books(self) -> K
        ensures { result ≡ self.desk.core.books }
    {
        let Clerk {
            desk,
            doors: _doors,
            sessions: _sessions,
            awaited: _awaited,
            standby: _standby,
            fence: _fence,
            notes: _notes,
            waits: _waits,
        } = self;
        let Desk {
            alloc: _alloc,
            core,
            rows: _rows,
            mut log,
            figures: _figures,
            is_ending: _is_ending,
        } = desk;
        log.end();
        core.into_books()
    }
}

impl<K: Books + History + Drop, R: RowMaker + Drop, L: Log> HostAnswers for Clerk<K, R, L> {
    type Reply = HostReply;

    type Kept = K;

    ghost use Rattle.std.specs.Prelude.{Bool, List, Option, ℕ};
    ghost use Rattle.hose_graph.specs.Network.{Network};
    ghost use Rattle.hose_graph.specs.declared.entry.Entry.{Entry};
    ghost use Rattle.hose_clerk.specs.HostLines.{HostLine, SaysAt};
    ghost use Rattle.hose_clerk.specs.HostReplies.{host_text};
    ghost use Rattle.hose_clerk.specs.declared.doors.DoorRule.{DoorRule};
    ghost use Rattle.hose_clerk.specs.Hosting.{IsAheadBy, LeadsBy};
    ghost use Rattle.hose_clerk.specs.steps.Answering.{AreSessionsKept, GrowsWith, HasHosted, NamesOf};
    ghost use Rattle.hose_clerk.specs.steps.Hosting.{AreHosted};
    ghost use Rattle.hose_clerk.specs.steps.Linking.{goes_alone, is_required, link_state, needed_of, path_at};
    ghost use Rattle.hose_clerk.specs.steps.Sessions.{is_new_at, is_over_at, session_at};

    ghost said = { HostLine };

    // the network, the rules of the doors, the path of a standby, and whether replies are told
    // without it
    ghost subject = { Network × List DoorRule × Option (List ℕ) × Bool };

    ghost about = { λ clerk. (
      (K.ledger clerk.desk.core.books).network,
      clerk.doors.items,
      path_at clerk.awaited,
      goes_alone clerk.awaited,
    ) };

    ghost says = { λ about. SaysAt about.0 about.1 };

    ghost text = { λ about reply. host_text about.0 reply };

    ghost standby_at = { λ about. about.2 };

    ghost goes_alone = { λ about. about.3 };

    // a history, and who answers from there on
    ghost origin = { List Entry × Self };

    ghost comes = { λ from exchanges link clerk. HasHosted K.Books K.History.is_of
        (is_required from.1.awaited) from.0 from.1.desk.core.books clerk.desk.core.books
        clerk.sessions.items clerk.desk.is_ending clerk.desk.figures.tally
        (link_state clerk.awaited clerk.standby clerk.fence) exchanges link };

    ghost stands = { λ from exchanges books. AreHosted K.Books
        (K.ledger from.1.desk.core.books).network (is_required from.1.awaited) from.0
        from.1.desk.core.books books exchanges };

    ghost leads = { λ from. LeadsBy (K.ledger from.1.desk.core.books).network
        (is_required from.1.awaited) from.0 };

    ghost is_ahead = { λ from. IsAheadBy (K.ledger from.1.desk.core.books).network
        (is_required from.1.awaited) from.0 };

    ghost fits = { λ clerk.
        AreSessionsKept (K.ledger clerk.desk.core.books) clerk.sessions.items
        × GrowsWith K.Books K.History.is_of };

    ghost can_put = { λ clerk reply. NamesOf (K.ledger clerk.desk.core.books).network reply };

    ghost is_new = { λ clerk place. is_new_at (session_at clerk.sessions.items place) };

    ghost over = { λ clerk place. is_over_at (session_at clerk.sessions.items place) };

    ghost ends = { λ clerk. clerk.desk.is_ending };

    ghost waits = { λ clerk. clerk.waits };

    ghost count = { λ clerk. needed_of (is_required clerk.awaited) clerk.desk.figures.tally.lines
        (K.ledger clerk.desk.core.books).book.epoch };

    ghost unsent = { λ clerk. clerk.standby.unsent };

    fn begin(&mut self, _door: usize, place: usize) -> Result<(), AllocError> {
        make_room(&mut self.sessions, place)?;
        put(&mut self.sessions, place, Session::New);
        self.desk.figures.come();
        Ok(())
    }

    fn leave(&mut self, place: usize) {
        let gone = take(&mut self.sessions, place);
        self.desk.figures.leave(gone);
    }

    fn answer(&mut self, place: usize, door: usize, line: Line<'_>) -> HostReply {
        let session = take(&mut self.sessions, place);
        let rule = rule_of(&self.doors, door);
        let (reply, left) = self.desk.reply_to(session, rule, line);
        put(&mut self.sessions, place, left);
        self.desk.is_ending = reply.ends();
        self.desk.figures.count(&reply);
        reply
    }

    fn put<O: Sink>(&self, output: &mut O, reply: &HostReply) -> Result<(), Failed> {
        put_host_reply(output, topology_of(&self.desk.core), reply)
    }

    fn kept(&self) -> &K {
        self.desk.core.books()
    }

    fn counted(&self) -> u64 {
        if is_required(&self.awaited) {
            return self.desk.figures.tally.lines;
        }
        entries_of(&self.desk.core)
    }

    fn is_over(&self, place: usize) -> bool {
        is_over(&self.sessions, place)
    }

    fn is_ending(&self) -> bool {
        self.desk.is_ending
    }

    fn waits(&self) -> bool {
        self.waits
    }

    fn standby(&self) -> Option<&str> {
        path_of(&self.awaited)
    }

    fn may_go_alone(&self) -> bool {
        may_go_alone(&self.awaited)
    }

    fn patience(&self) -> (u64, u64) {
        patience_with(&self.awaited)
    }

    fn link_opened(&mut self, alone: bool) {
        self.standby = Standby::new(self.desk.alloc);
        self.fence.open();
        let waits = waits_at(alone, is_required(&self.awaited));
        self.waits = waits;
        self.notes.expect_join(waits);
    }

    fn go_on(&mut self) {
        self.waits = false;
    }

    fn take_in(&mut self, bytes: &[u8]) {
        self.standby.take_in(self.desk.core.books(), bytes);
        let heard = self.standby.heard();
        let entries = entries_of(&self.desk.core);
        self.fence.hear(self.standby.answered(), heard, entries);
        self.desk.figures.hear(heard);
        let is_required = is_required(&self.awaited);
        self.notes.tell_news(
            self.desk.alloc,
            &mut self.desk.log,
            &self.fence,
            is_required,
        );
        self.notes
            .tell_ending(self.desk.alloc, &mut self.desk.log, self.standby.stage());
    }

    fn gather(&mut self, asks: bool) {
        // What is handed out from here on is behind all lines that were answered.
        let mark = Mark {
            lines: self.desk.figures.tally.lines,
            entries: entries_of(&self.desk.core),
            packets: self.standby.handed(),
        };
        let marks = set_if(&mut self.fence, is_required(&self.awaited), mark);
        ask_if(&mut self.standby, asks || marks);
        // Where memory is wanting it is tried again.
        let _filled = self.standby.fill(self.desk.core.books());
        self.notes
            .tell_ending(self.desk.alloc, &mut self.desk.log, self.standby.stage());
    }

    fn unsent(&self) -> &[u8] {
        self.standby.unsent()
    }

    fn was_sent(&mut self, sent: usize) {
        self.standby.was_sent(sent);
    }

    fn heard(&self) -> Option<u64> {
        let heard = self.standby.heard();
        if is_required(&self.awaited) {
            return self.fence.lines_passed(self.standby.answered(), heard);
        }
        heard
    }

    fn is_news(&self) -> bool {
        self.fence.is_news
    }

    fn ahead(&self) -> Option<u64> {
        let count = ahead_at(self.standby.stage())?;
        // Entries may have come since.
        if count <= entries_of(&self.desk.core) {
            return None;
        }
        Some(count)
    }

    fn is_link_over(&self) -> bool {
        is_ended(self.standby.stage())
    }

    fn tell_hold(&mut self, hold: Hold) {
        let heard = self.standby.heard();
        self.desk.figures.hold(hold);
        self.notes
            .tell_hold(self.desk.alloc, &mut self.desk.log, hold, heard);
    }
}
