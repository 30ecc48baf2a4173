// What the program's words name, for whoever tells why it ended.
ghost use Rattle.std.specs.Prelude.{◌≡◌, ℕ, List, None, Some, option_map};
ghost use Rattle.hosed_requests.specs.Naming.{AreNamed, named_bytes};
ghost use Rattle.hosed_requests.specs.steps.Naming.{failed_file};
ghost use Rattle.hosed_requests.specs.steps.ProgramWords.{AreServeWords, AreWordsOf};

use crate::words::{Request, ServeRequest};
use hose_outside::{Fault, Move, Names};

/// The files and the port that words name, where they name one.
#[derive(Clone, Copy)]
pub struct NamedByWords<'w> {
    pub topology: Option<&'w str>,
    pub journal: Option<&'w str>,
    pub new_topology: Option<&'w str>,
    pub new_journal: Option<&'w str>,
    pub port: Option<u16>,
}

impl<'w> NamedByWords<'w> {
    /// A topology and a journal, and nothing else.
    pub fn of_journal(topology: &'w str, journal: &'w str) -> NamedByWords<'w> {
        files(Some(topology), Some(journal))
    }

    /// What words name that are wrong.
    pub fn nothing() -> NamedByWords<'w> {
        files(None, None)
    }

    /// The file that is meant where a fault tells of one at which the cabinet failed.
    pub fn failed(self, fault: Fault) -> Option<&'w str>
        ensures { option_map (λ name. name.now) result
            ≡ failed_file (named_bytes self.entry) fault }
    {
        match fault {
            Fault::Text => self.topology,
            Fault::Cabinet => self.journal,
            _ => None,
        }
    }

    /// The new topology and journal of a move or a cut, by which new and old are exchanged.
    pub fn of_new(self) -> NamedByWords<'w>
        ensures { result ≡ record {
          topology = self.entry.new_topology;
          journal = self.entry.new_journal;
          new_topology = self.entry.topology;
          new_journal = self.entry.journal;
          port = None;
        } }
    {
        NamedByWords {
            topology: self.new_topology,
            journal: self.new_journal,
            new_topology: self.topology,
            new_journal: self.journal,
            port: None,
        }
    }
}

/// What a server's request names.
pub fn server_named(request: ServeRequest<'_>) -> NamedByWords<'_>
    ensures { (names words : List (List ℕ)) → AreServeWords names words request.entry →
        AreNamed names words result }
{
    NamedByWords {
        topology: Some(request.topology),
        journal: Some(request.journal),
        new_topology: None,
        new_journal: None,
        port: Some(request.port),
    }
}

/// What a request names.
pub fn named_of(request: Request<'_>) -> NamedByWords<'_>
    ensures { (names words : List (List ℕ)) → AreWordsOf names words request.entry →
        AreNamed names words result }
{
    match request {
        Request::Run { tariff: _, journal } => files(None, journal),
        Request::Audit(of) => files(Some(of.names.topology), Some(of.names.journal)),
        Request::Generate(_) => files(None, None),
        Request::Prove { of, .. } => files(Some(of.topology), None),
        Request::Check(of) => files(Some(of.topology), None),
        Request::Price { topology } => files(Some(topology), None),
        Request::Ship { of, from: _ } => files(Some(of.names.topology), Some(of.names.journal)),
        Request::Follow(of) => files(Some(of.names.topology), Some(of.names.journal)),
        Request::Move { tariff: _, of } => moved_files(of),
        Request::Cut { of, count: _, to } => cut_files(of.names, to),
    }
}

fn files<'w>(topology: Option<&'w str>, journal: Option<&'w str>) -> NamedByWords<'w>
    ensures { result ≡ record {
      topology = topology.entry;
      journal = journal.entry;
      new_topology = None;
      new_journal = None;
      port = None;
    } }
{
    NamedByWords {
        topology,
        journal,
        new_topology: None,
        new_journal: None,
        port: None,
    }
}

fn cut_files<'w>(of: Names<'w>, to: &'w str) -> NamedByWords<'w>
    ensures { result ≡ record {
      topology = Some of.entry.topology;
      journal = Some of.entry.journal;
      new_topology = Some of.entry.topology;
      new_journal = Some to.entry;
      port = None;
    } }
{
    NamedByWords {
        topology: Some(of.topology),
        journal: Some(of.journal),
        new_topology: Some(of.topology),
        new_journal: Some(to),
        port: None,
    }
}

fn moved_files(of: Move<'_>) -> NamedByWords<'_>
    ensures { result ≡ record {
      topology = Some of.entry.from.topology;
      journal = Some of.entry.from.journal;
      new_topology = Some of.entry.to.topology;
      new_journal = Some of.entry.to.journal;
      port = None;
    } }
{
    NamedByWords {
        topology: Some(of.from.topology),
        journal: Some(of.from.journal),
        new_topology: Some(of.to.topology),
        new_journal: Some(of.to.journal),
        port: None,
    }
}
