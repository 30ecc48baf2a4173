// The standby that replies wait for, and what is told of it.
ghost use Rattle.std.specs.Prelude.{◌≡◌, ℕ, List, IfSome, false, option_map, true};
ghost use Rattle.hose_graph.specs.Network.{Network};
ghost use Rattle.hose_graph.specs.declared.entry.Entry.{Entry};
ghost use Rattle.hose_clerk.specs.steps.Linking.{goes_alone, is_required, path_at};
ghost use Rattle.hose_lead.specs.steps.Standby.{IsLed};
ghost use Rattle.hose_lead.specs.declared.stage.Ending.TheVariants.{Ahead};
ghost use Rattle.hose_lead.specs.declared.stage.Stage.TheVariants.{Ended};

use crate::fence::Fence;
use hose_io::{Gather, MemSink};
use hose_lead::{Ending, Stage, Standby};
use hose_log::Log;
use hose_net::Hold;
use std::alloc::Global;

// For how many seconds a standby may open its journal where no reply is told without it.
const START_SECONDS: u64 = 600;

/// The standby that replies wait for.
#[derive(Drop)]
pub struct StandbyAt {
    /// The path of its Unix socket.
    pub path: String,
    /// For so many seconds nothing may be heard of it.
    pub seconds: u64,
    /// No reply is told without it.
    pub or_stop: bool,
}

/// The path of a standby's Unix socket, if there is a standby.
pub fn path_of(awaited: &Option<StandbyAt>) -> Option<&str>
    ensures { option_map (λ path. path.now) result ≡ path_at awaited.now }
{
    match awaited {
        Some(at) => Some(at.path.as_str()),
        None => None,
    }
}

/// Whether replies are told without a standby.
pub fn may_go_alone(awaited: &Option<StandbyAt>) -> bool
    ensures { result ≡ goes_alone awaited.now }
{
    match awaited {
        Some(at) => !at.or_stop,
        None => true,
    }
}

/// Whether no reply is told without a standby.
pub fn is_required(awaited: &Option<StandbyAt>) -> bool
    ensures { result ≡ is_required awaited.now }
{
    !may_go_alone(awaited)
}

/// Whether lines wait where a link was opened, as the host is alone or not and a standby is
/// required or not: until the standby at the link has joined. Where one is required each reply
/// waits.
pub fn waits_at(alone: bool, required: bool) -> bool
    ensures { required ≡ false → result ≡ false → alone ≡ true }
{
    !alone && !required
}

/// For how many seconds nothing may be heard of a standby: until its first answer, and later.
pub fn patience_with(awaited: &Option<StandbyAt>) -> (u64, u64) {
    let Some(at) = awaited else {
        return (START_SECONDS, START_SECONDS);
    };
    if at.or_stop && at.seconds < START_SECONDS {
        return (START_SECONDS, at.seconds);
    }
    (at.seconds, at.seconds)
}

/// Asks a standby for a sign of life, where one is wanted.
pub fn ask_if(standby: &mut Standby, asks: bool)
    ensures { (network : Network) → (list : List Entry) → (came sent : List ℕ) →
        IsLed network list came sent standby.old → IsLed network list came sent standby.new }
{
    if !asks {
        return;
    }
    standby.ask();
}

/// How many entries a standby told to have, where they were more than there were.
pub fn ahead_at(stage: Stage) -> Option<u64>
    ensures { IfSome result (λ count. stage ≡ Ended (Ahead count)) }
{
    match stage {
        Stage::Ended { why } => match why {
            Ending::Ahead { count } => Some(count),
            _ => None,
        },
        _ => None,
    }
}

/// Whether a connection is of no use any more.
pub fn is_ended(stage: Stage) -> bool {
    match stage {
        Stage::Ended { .. } => true,
        _ => false,
    }
}

/// What a log was told of a standby last.
#[derive(Drop)]
pub struct LinkNotes {
    // Replies wait for it.
    has_joined: bool,
    // Why a connection to it was of no use.
    ending: Option<Ending>,
}

impl LinkNotes {
    /// Nothing yet.
    pub fn new() -> LinkNotes {
        LinkNotes {
            has_joined: false,
            ending: None,
        }
    }

    /// That a standby joins is news once more, where lines wait for it.
    pub fn expect_join(&mut self, waits: bool) {
        if waits {
            self.has_joined = false;
        }
    }

    /// Tells how replies are held from now on, where that is news, with how many entries the
    /// standby is heard to have; and each time that they are not.
    pub fn tell_hold<L: Log>(
        &mut self,
        alloc: Global,
        log: &mut L,
        hold: Hold,
        heard: Option<u64>,
    ) {
        match hold {
            Hold::Alone => {
                self.has_joined = false;
                log.tell(b"standby", b"", b"alone");
            }
            Hold::Upto(_) => self.tell_joined(alloc, log, heard),
        }
    }

    // Tells that replies wait for a standby that is heard to have so many entries, where that is
    // news.
    fn tell_joined<L: Log>(&mut self, alloc: Global, log: &mut L, heard: Option<u64>) {
        if self.has_joined {
            return;
        }
        self.has_joined = true;
        self.ending = None;
        tell_number(alloc, log, b"joined at ", heard.unwrap_or(0));
    }

    /// Tells that a standby that is required has joined, once what is heard of it is news: replies
    /// wait for it from the first line on.
    pub fn tell_news<L: Log>(&mut self, alloc: Global, log: &mut L, at: &Fence, is_required: bool) {
        if !is_required {
            return;
        }
        if !at.is_news {
            return;
        }
        self.tell_joined(alloc, log, Some(at.most));
    }

    /// Tells why a connection is of no use any more, where that is news.
    pub fn tell_ending<L: Log>(&mut self, alloc: Global, log: &mut L, stage: Stage) {
        let Stage::Ended { why } = stage else {
            return;
        };
        if self.ending == Some(why) {
            return;
        }
        self.ending = Some(why);
        match why {
            Ending::Ahead { count } => tell_number(alloc, log, b"ahead ", count),
            Ending::Other { count, .. } => tell_number(alloc, log, b"differs at ", count),
            Ending::Gone { count } => tell_number(alloc, log, b"gone at ", count),
            Ending::Disk { count } => tell_number(alloc, log, b"disk at ", count),
            Ending::Memory => log.tell(b"standby", b"", b"memory"),
            Ending::Stranger => log.tell(b"standby", b"", b"stranger"),
        }
    }
}

// Tells words and a number. Where there is no memory for them, the log does without.
fn tell_number<L: Log>(alloc: Global, log: &mut L, words: &[u8], number: u64) {
    let Ok(mut text) = MemSink::new(alloc) else {
        return;
    };
    let mut gather = Gather::new();
    gather.add_numbered(&mut text, words, number);
    if gather.finish(&mut text).is_err() {
        return;
    }
    log.tell(b"standby", b"", text.bytes());
}
