//! Words on which passes sleep until their tickets are called.
ghost use Rattle.std.specs.Prelude.{◌≡◌, ◌<◌};
ghost use Rattle.hose_turn.specs.declared.bells.TheConstants.{BELLS};
ghost use Rattle.hose_turn.specs.steps.Bells.{HasBellWords};

use atomic_table::{Play, Table, TableRule};
use std::alloc::{AllocError, Global};
use std::sync::Wait;

/// How many bells there are. The bell of a ticket is the one with its number modulo this one.
pub(crate) const BELLS: usize = 16;

/// One sleeper, as the bell's word counts them, above the 32 bits on which they sleep.
const SLEEPER: u64 = 1 << 32;

/// Nothing is said of the bells, so nothing that happens to them is wrong.
struct Free;

impl TableRule<(), (), ()> for Free {
    ghost use Rattle.std.specs.Prelude.{⊤};

    ghost holds = { λ _ _. ⊤ };

    ghost first = { λ _. tt };
}

/// A step that tells nothing.
struct Untold;

impl Play<(), ()> for Untold {
    ghost use Rattle.std.specs.Prelude.{⊤};

    ghost then = { λ _ _ _ _. ⊤ };
}

/// A word for each bell. Its lower 32 bits change when it rings, and the upper ones count those who
/// sleep on it: each ring that is carried into them only makes the next one wake in vain.
#[derive(Drop)]
pub(crate) struct Bells {
    row: Table<(), (), (), Free, Global>,
    ghost sized: { HasBellWords row.shared.table_id },
}

impl Bells {
    pub(crate) fn new(alloc: Global) -> Result<Bells, AllocError> {
        let (row, _) = Table::of_words(alloc, &[0; BELLS], &())?;
        Ok(Bells { row })
    }

    /// Says that somebody will sleep on the ticket's bell, and tells its number.
    pub(crate) fn lie_down(&self, ticket: u64) -> u32 {
        let bell = bell_of(ticket);
        let (_, mut seat) = self.row.shared.load_new_seat::<Untold>(bell);
        let before = self
            .row
            .shared
            .fetch_add::<Untold>(&mut seat, bell, SLEEPER);
        (before % SLEEPER) as u32
    }

    /// Sleeps until the ticket's bell rings, where it has this number still. It may also wake for
    /// no reason.
    pub(crate) fn sleep<W: Wait>(&self, rt: &W, ticket: u64, number: u32) {
        self.row.shared.park(rt, bell_of(ticket), number);
    }

    /// Says that nobody sleeps who said so.
    pub(crate) fn get_up(&self, ticket: u64) {
        let bell = bell_of(ticket);
        let (_, mut seat) = self.row.shared.load_new_seat::<Untold>(bell);
        self.row
            .shared
            .fetch_sub::<Untold>(&mut seat, bell, SLEEPER);
    }

    /// Wakes who sleeps until the ticket is called.
    pub(crate) fn ring(&self, ticket: u64) {
        let bell = bell_of(ticket);
        let (_, mut seat) = self.row.shared.load_new_seat::<Untold>(bell);
        if self.row.shared.fetch_add::<Untold>(&mut seat, bell, 1) >= SLEEPER {
            self.row.shared.wake_all(bell);
        }
    }
}

fn bell_of(ticket: u64) -> usize
    ensures { result < BELLS }
{
    ticket as usize % BELLS
}
