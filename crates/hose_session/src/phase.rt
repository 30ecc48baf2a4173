// How far a session is.
ghost use Rattle.std.specs.Prelude.{◌≡◌};
ghost use Rattle.hose_session.specs.steps.Ending.{customer_of, end_after};

use crate::ending::SessionEnd;
use hose_graph::Name;
use hose_talk::{TalkEnd, TalkFault};

/// How far a session is.
#[derive(Drop)]
pub enum Phase {
    /// It waits for its greeting.
    Waiting,
    /// It serves a customer.
    Serving(Name),
    /// Its first line was no greeting.
    Refused,
    /// Its customer left.
    Left,
}

impl Phase {
    /// The customer who is served.
    pub fn customer(&self) -> Option<Name>
        ensures { result ≡ customer_of self.now }
    {
        match self {
            Phase::Waiting => None,
            Phase::Serving(name) => Some(*name),
            Phase::Refused => None,
            Phase::Left => None,
        }
    }

    /// How a session ends that is so far when its talk ended so.
    pub fn end_after(&self, ended: Result<TalkEnd, TalkFault>) -> SessionEnd
        ensures { result ≡ end_after self.now ended }
    {
        match ended {
            Err(TalkFault::Read) => SessionEnd::Read,
            Err(TalkFault::TooLong) => SessionEnd::TooLong,
            Err(TalkFault::Write) => SessionEnd::Write,
            Ok(_) => match self {
                Phase::Waiting => SessionEnd::NoHello,
                Phase::Serving(_) => SessionEnd::End,
                Phase::Refused => SessionEnd::NoHello,
                Phase::Left => SessionEnd::Bye,
            },
        }
    }
}
