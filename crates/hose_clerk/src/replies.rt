// What is answered to a line at a host.
ghost use Rattle.std.specs.Prelude.{◌≡◌};
ghost use Rattle.hose_io.specs.steps.Writing.{IsPut};
ghost use Rattle.hose_clerk.specs.HostReplies.{ending_line, figures_line, host_text};
ghost use Rattle.hose_clerk.specs.Hosting.{ends_host};
ghost use Rattle.hose_clerk.specs.steps.Answering.{NamesOf};

use crate::figures::{Figures, add_figures};
use hose_graph::{Reply, Topology};
use hose_io::{Failed, Gather, Sink};
use hose_proto::put_reply;

/// What is answered to a line at a host.
#[derive(Debug, Drop)]
pub enum HostReply {
    /// As in every session.
    Told(Reply),
    /// No line of anyone is answered any more. `at` is the epoch.
    Ending { at: u64 },
    /// What there was since the start.
    Figures(Figures),
}

impl HostReply {
    /// Whether no line is answered after it.
    pub fn ends(&self) -> bool
        ensures { result ≡ ends_host self.now }
    {
        match self {
            HostReply::Told(_) => false,
            HostReply::Ending { .. } => true,
            HostReply::Figures(_) => false,
        }
    }
}

/// Writes a reply as a line.
pub fn put_host_reply<S: Sink>(
    sink: &mut S,
    top: &Topology,
    reply: &HostReply,
) -> Result<(), Failed>
    requires { NamesOf top.now reply.now }
    ensures { IsPut S.Sink sink.old sink.new (host_text top.now reply.now) result }
{
    match reply {
        HostReply::Told(reply) => put_reply(sink, top, reply),
        HostReply::Ending { at } => put_ending(sink, *at),
        HostReply::Figures(figures) => put_figures(sink, figures),
    }
}

fn put_ending<S: Sink>(sink: &mut S, at: u64) -> Result<(), Failed>
    ensures { IsPut S.Sink sink.old sink.new (ending_line at) result }
{
    let mut gather = Gather::new();
    gather.add_numbered(sink, b"ending at ", at);
    gather.add(sink, b"\n");
    gather.finish(sink)
}

fn put_figures<S: Sink>(sink: &mut S, figures: &Figures) -> Result<(), Failed>
    ensures { IsPut S.Sink sink.old sink.new (figures_line figures.now) result }
{
    let mut gather = Gather::new();
    add_figures(&mut gather, sink, figures);
    gather.add(sink, b"\n");
    gather.finish(sink)
}
