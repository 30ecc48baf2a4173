// What there was since the start, counted.
ghost use Rattle.std.specs.Prelude.{◌≡◌, ◌≤◌, Some};
ghost use Rattle.hose_io.specs.steps.Gather.{IsAdded};
ghost use Rattle.hose_clerk.specs.HostReplies.{comers_text, failures_text, figures_text, orders_text, standby_text, times_text};
ghost use Rattle.hose_clerk.specs.Tally.{no_tally, tally_with};

use crate::replies::HostReply;
use crate::sessions::Session;
use crate::tally::Tally;
use crate::times::Times;
use hose_io::{Gather, Sink};
use hose_net::Hold;

/// What there was since the start. Each count stays at the type's end.
#[derive(Clone, Copy, Debug, PartialEq, Eq)]
pub struct Figures {
    /// Connections that are there now.
    pub connections: u64,
    /// Connections that are there or gave a line.
    pub ever: u64,
    /// Lines that were answered, by their replies.
    pub tally: Tally,
    /// Lines of the log that were lost.
    pub lost: u64,
    /// How long orders and quotes took.
    pub times: Times,
    /// How many milliseconds ago the last sync was when they are told.
    pub since_sync: u64,
    /// How many entries a standby was heard to have, where replies wait for one.
    pub standby: Option<u64>,
    /// 1 where the host goes on without it, else 0.
    pub alone: u64,
    /// The epoch at which they are told.
    pub at: u64,
}

impl Figures {
    /// Those of the start, at so many nanoseconds of a clock, where replies wait for a standby or
    /// for none.
    pub fn new(now: u64, is_awaited: bool) -> Figures
        ensures { result.tally ≡ no_tally }
    {
        Figures {
            connections: 0,
            ever: 0,
            tally: Tally::new(),
            lost: 0,
            times: Times::new(now),
            since_sync: 0,
            standby: is_awaited.then_some(0),
            alone: 0,
            at: 0,
        }
    }

    /// These, told at an epoch, when so many lines of the log were lost, at so many nanoseconds.
    pub fn told_at(&self, lost: u64, now: u64, at: u64) -> Figures
        ensures tally { result.tally ≡ self.now.tally }
        ensures at { result.at ≡ at }
    {
        Figures {
            connections: self.connections,
            ever: self.ever,
            tally: self.tally,
            lost,
            times: self.times,
            since_sync: self.times.since_sync(now),
            standby: self.standby,
            alone: self.alone,
            at,
        }
    }

    /// One connection more.
    pub fn come(&mut self)
        ensures { self.new.tally ≡ self.old.tally }
    {
        self.connections = self.connections.saturating_add(1);
        self.ever = self.ever.saturating_add(1);
    }

    /// One connection less, of this session. Who gave no line is not counted any more: whether
    /// someone has come is known only after a place was given.
    pub fn leave(&mut self, session: Session)
        ensures { self.new.tally ≡ self.old.tally }
    {
        self.connections = self.connections.saturating_sub(1);
        if session.is_new() {
            self.ever = self.ever.saturating_sub(1);
        }
    }

    /// A standby is heard to have so many entries, where it is heard.
    pub fn hear(&mut self, heard: Option<u64>)
        ensures { self.new.tally ≡ self.old.tally }
    {
        if heard.is_some() {
            self.standby = heard;
        }
    }

    /// How replies are held from now on.
    pub fn hold(&mut self, hold: Hold)
        ensures { self.new.tally ≡ self.old.tally }
    {
        self.alone = match hold {
            Hold::Alone => 1,
            Hold::Upto(_) => 0,
        };
    }

    /// One line more, with this reply.
    pub fn count(&mut self, reply: &HostReply)
        ensures tally { self.new.tally ≡ tally_with reply.now self.old.tally }
        ensures rises { self.old.tally.lines ≤ self.new.tally.lines }
    {
        self.tally.count(reply);
    }
}

/// Adds the text of figures.
pub fn add_figures<S: Sink>(gather: &mut Gather, sink: &mut S, figures: &Figures)
    ensures { IsAdded S.Sink gather.old sink.old gather.new sink.new (figures_text figures.now) }
{
    add_comers(gather, sink, figures);
    add_orders(gather, sink, figures);
    add_failures(gather, sink, figures);
    add_times(gather, sink, &figures.times);
    gather.add_numbered(sink, b" synced ", figures.since_sync);
    gather.add_numbered(sink, b" at ", figures.at);
    add_standby(gather, sink, figures.standby, figures.alone);
}

// Adds how many connections and lines there were.
fn add_comers<S: Sink>(gather: &mut Gather, sink: &mut S, figures: &Figures)
    ensures { IsAdded S.Sink gather.old sink.old gather.new sink.new (comers_text figures.now) }
{
    gather.add_numbered(sink, b"figures connections ", figures.connections);
    gather.add_numbered(sink, b" ever ", figures.ever);
    gather.add_numbered(sink, b" lines ", figures.tally.lines);
}

// Adds how many orders there were.
fn add_orders<S: Sink>(gather: &mut Gather, sink: &mut S, figures: &Figures)
    ensures { IsAdded S.Sink gather.old sink.old gather.new sink.new (orders_text figures.now) }
{
    gather.add_numbered(sink, b" admitted ", figures.tally.admitted);
    gather.add_numbered(sink, b" refused ", figures.tally.refused);
    gather.add_numbered(sink, b" released ", figures.tally.released);
    gather.add_numbered(sink, b" down ", figures.tally.down);
    gather.add_numbered(sink, b" up ", figures.tally.up);
}

// Adds how many failures there were.
fn add_failures<S: Sink>(gather: &mut Gather, sink: &mut S, figures: &Figures)
    ensures { IsAdded S.Sink gather.old sink.old gather.new sink.new (failures_text figures.now) }
{
    gather.add_numbered(sink, b" disk ", figures.tally.disk);
    gather.add_numbered(sink, b" memory ", figures.tally.memory);
    gather.add_numbered(sink, b" lost ", figures.lost);
}

// Adds how far a standby is, where replies wait for one.
fn add_standby<S: Sink>(gather: &mut Gather, sink: &mut S, standby: Option<u64>, alone: u64)
    ensures { IsAdded S.Sink gather.old sink.old gather.new sink.new (standby_text standby alone) }
{
    let Some(heard) = standby else {
        return;
    };
    add_heard(gather, sink, heard, alone);
}

fn add_heard<S: Sink>(gather: &mut Gather, sink: &mut S, heard: u64, alone: u64)
    ensures { IsAdded S.Sink gather.old sink.old gather.new sink.new
        (standby_text (Some heard) alone) }
{
    gather.add_numbered(sink, b" standby ", heard);
    gather.add_numbered(sink, b" alone ", alone);
}

// Adds how long orders and quotes took.
fn add_times<S: Sink>(gather: &mut Gather, sink: &mut S, times: &Times)
    ensures { IsAdded S.Sink gather.old sink.old gather.new sink.new (times_text times.now) }
{
    gather.add_numbered(sink, b" timed ", times.timed);
    gather.add_numbered(sink, b" took ", times.took);
    gather.add_numbered(sink, b" over-100us ", times.over_100us);
    gather.add_numbered(sink, b" over-1ms ", times.over_1ms);
    gather.add_numbered(sink, b" over-10ms ", times.over_10ms);
    gather.add_numbered(sink, b" over-100ms ", times.over_100ms);
    gather.add_numbered(sink, b" over-1s ", times.over_1s);
    gather.add_numbered(sink, b" over-10s ", times.over_10s);
}
