// How long orders and quotes took, by a clock that tells nanoseconds.
use hose_graph::{Command, Reply};

const MICRO: u64 = 1_000;

const MILLI: u64 = 1_000 * MICRO;

const SECOND: u64 = 1_000 * MILLI;

/// How long it was from taking an order, or a line that asks for a quote, to its reply, with the
/// syncs that it waited for, and when an order was on the disk last. Each count stays at the type's
/// end. Other questions take microseconds, and a look at the clock would make them slower.
#[derive(Clone, Copy, Debug, PartialEq, Eq)]
pub struct Times {
    /// How many there were.
    pub timed: u64,
    /// Of all of them together, in nanoseconds.
    pub took: u64,
    /// How many took longer.
    pub over_100us: u64,
    pub over_1ms: u64,
    pub over_10ms: u64,
    pub over_100ms: u64,
    pub over_1s: u64,
    pub over_10s: u64,
    /// When an order was on the disk last, or else the clerk was made, by the clock.
    pub synced: u64,
}

impl Times {
    /// Those of the start, at so many nanoseconds.
    pub fn new(now: u64) -> Times {
        Times {
            timed: 0,
            took: 0,
            over_100us: 0,
            over_1ms: 0,
            over_10ms: 0,
            over_100ms: 0,
            over_1s: 0,
            over_10s: 0,
            synced: now,
        }
    }

    /// How many milliseconds ago an order was on the disk last, or else the clerk was made.
    pub fn since_sync(&self, now: u64) -> u64 {
        now.saturating_sub(self.synced) / MILLI
    }

    /// One more, with this reply, which was taken and answered at so many nanoseconds.
    pub fn count(&mut self, reply: &Reply, taken: u64, answered: u64) {
        let took = answered.saturating_sub(taken);
        self.timed = self.timed.saturating_add(1);
        self.took = self.took.saturating_add(took);
        if took > 100 * MICRO {
            self.count_slow(took);
        }
        if is_synced(reply) {
            self.synced = answered;
        }
    }

    fn count_slow(&mut self, took: u64) {
        add_if(&mut self.over_100us, took > 100 * MICRO);
        add_if(&mut self.over_1ms, took > MILLI);
        add_if(&mut self.over_10ms, took > 10 * MILLI);
        add_if(&mut self.over_100ms, took > 100 * MILLI);
        add_if(&mut self.over_1s, took > SECOND);
        add_if(&mut self.over_10s, took > 10 * SECOND);
    }
}

/// Whether the answer to a command is timed: to an order and to a quote.
pub fn is_timed(command: &Command, is_order: bool) -> bool {
    match command {
        Command::Quote(_) => true,
        _ => is_order,
    }
}

fn add_if(count: &mut u64, is_more: bool) {
    if is_more {
        *count = count.saturating_add(1);
    }
}

// Whether a reply tells of an order that is on the disk.
fn is_synced(reply: &Reply) -> bool {
    match reply {
        Reply::Admitted { .. } => true,
        Reply::Released { .. } => true,
        Reply::Down { .. } => true,
        Reply::Up { .. } => true,
        _ => false,
    }
}
