// What was answered, counted by reply.
ghost use Rattle.std.specs.Prelude.{◌≡◌, ◌≤◌};
ghost use Rattle.hose_clerk.specs.Tally.{no_tally, one_more, tally_told, tally_with};

use crate::replies::HostReply;
use hose_graph::Reply;

/// What was answered, counted by reply. Each count stays at the type's end.
#[derive(Clone, Copy, Debug, PartialEq, Eq)]
pub struct Tally {
    /// Lines that were answered.
    pub lines: u64,
    pub admitted: u64,
    pub refused: u64,
    pub released: u64,
    pub down: u64,
    pub up: u64,
    /// Replies that told a failure of the disk.
    pub disk: u64,
    /// Replies that told want of memory.
    pub memory: u64,
}

impl Tally {
    /// Nothing was answered.
    pub fn new() -> Tally
        ensures { result ≡ no_tally }
    {
        Tally {
            lines: 0,
            admitted: 0,
            refused: 0,
            released: 0,
            down: 0,
            up: 0,
            disk: 0,
            memory: 0,
        }
    }

    /// One line more, with this reply.
    pub fn count(&mut self, reply: &HostReply)
        ensures is { self.new ≡ tally_with reply.now self.old }
        ensures rises { self.old.lines ≤ self.new.lines }
    {
        self.lines = one_more(self.lines);
        if let HostReply::Told(reply) = reply {
            self.count_told(reply);
        }
    }

    fn count_told(&mut self, reply: &Reply)
        ensures is { self.new ≡ tally_told reply.now self.old }
        ensures lines { self.new.lines ≡ self.old.lines }
    {
        match reply {
            Reply::Admitted { .. } => self.admitted = one_more(self.admitted),
            Reply::Refused { .. } => self.refused = one_more(self.refused),
            Reply::Released { .. } => self.released = one_more(self.released),
            Reply::Down { .. } => self.down = one_more(self.down),
            Reply::Up { .. } => self.up = one_more(self.up),
            Reply::Disk { .. } => self.disk = one_more(self.disk),
            Reply::Memory => self.memory = one_more(self.memory),
            _ => {}
        }
    }
}

// One more than a count that is not at the type's end.
fn one_more(count: u64) -> u64
    ensures is { result ≡ one_more count }
    ensures rises { count ≤ result }
{
    count.saturating_add(1)
}
