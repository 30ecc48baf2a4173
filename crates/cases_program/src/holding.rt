// A gate that holds sessions beside each other.
use hose_pool::{Gate, Point};
use std::sync::atomic::{AtomicBool, Ordering};

// How often a session looks whether the other one has come so far.
const MOST_LOOKS: u64 = 1_000_000_000;

/// Holds session 1, whose hose is planned, until the last session has been welcomed and answered;
/// and the last one, once it is welcomed, until the hose of session 1 is planned. So of two both
/// are welcomed at 0. A server of one session after the other cannot pass: session 1 waits for a
/// session that is not accepted yet, and goes on when it has looked often enough. Nor can one of
/// two workers each of which is there for one session, where the last is the third.
#[derive(Drop)]
pub struct HoldingGate {
    last: u64,
    is_planned: AtomicBool,
    is_welcomed: AtomicBool,
    is_answered: AtomicBool,
    is_alone: AtomicBool,
}

impl HoldingGate {
    /// A gate that holds nobody yet, for so many sessions.
    pub fn new(sessions: u64) -> HoldingGate {
        HoldingGate {
            last: sessions,
            is_planned: AtomicBool::new(false),
            is_welcomed: AtomicBool::new(false),
            is_answered: AtomicBool::new(false),
            is_alone: AtomicBool::new(false),
        }
    }

    /// Whether a session went on before the other had come so far.
    pub fn is_alone(&self) -> bool {
        self.is_alone.load(Ordering::SeqCst)
    }

    // Waits until a flag is raised.
    fn wait_for(&self, flag: &AtomicBool) {
        for _ in 0..MOST_LOOKS {
            if flag.load(Ordering::SeqCst) {
                return;
            }
        }
        self.is_alone.store(true, Ordering::SeqCst);
    }
}

impl Gate for HoldingGate {
    fn at(&self, point: Point) {
        match point {
            Point::Planned { session: 1 } => {
                self.is_planned.store(true, Ordering::SeqCst);
                self.wait_for(&self.is_answered);
            }
            Point::Answered { session } if session == self.last => {
                if self.is_welcomed.swap(true, Ordering::SeqCst) {
                    self.is_answered.store(true, Ordering::SeqCst);
                } else {
                    self.wait_for(&self.is_planned);
                }
            }
            _ => {}
        }
    }
}
