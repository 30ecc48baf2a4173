// Why a move ended early, and how that is told.
ghost use Rattle.std.specs.Prelude.{◌≡◌, ◌++◌, codes};
ghost use Rattle.hose_io.specs.steps.Writing.{IsPut};
ghost use Rattle.hose_outside.specs.Fault.{last_line};
ghost use Rattle.hose_outside.specs.MoveStop.{stop_line, stop_status};
ghost use Rattle.hose_outside.specs.declared.fault.Fault.TheVariants.{Write};
ghost use Rattle.hose_outside.specs.declared.move_stop.MoveStop.TheVariants.{Old};

use crate::fault::{Fault, put_numbered};
use hose_io::{Failed, Sink, write_all};

/// Why a move ended early.
#[derive(Clone, Copy, Debug, PartialEq, Eq)]
pub enum MoveStop {
    /// A fault of the old topology or of its journal, or of the output.
    Old(Fault),
    /// A fault of the new topology or of its journal.
    New(Fault),
    /// The new network does not go on from the old one: the node of this number has another name,
    /// or there are fewer.
    Node(u32),
    /// It does not: the link of this number joins other nodes, or there are fewer.
    Link(u32),
    /// The entry of this epoch is not sound on the new network, and the new journal ends before it.
    Unsound { epoch: u64 },
    /// The new journal has another entry of this epoch than it should have, or one too many.
    Differs { epoch: u64 },
    /// The old journal has fewer entries than the new one is to have: so many.
    Less { entries: u64 },
}

impl From<Failed> for MoveStop {
    ghost from_gives = { λ _ stop. stop ≡ Old Write };

    fn from(_error: Failed) -> MoveStop {
        MoveStop::Old(Fault::Write)
    }
}

impl MoveStop {
    /// The status with which the program ends.
    pub fn status(self) -> u8
        ensures { result ≡ stop_status self }
    {
        match self {
            MoveStop::Old(why) => why.status(),
            MoveStop::New(why) => why.status(),
            MoveStop::Node(_) | MoveStop::Link(_) => 12,
            MoveStop::Unsound { .. } => 13,
            MoveStop::Differs { .. } => 14,
            MoveStop::Less { .. } => 15,
        }
    }

    /// Writes the last line, which tells why. Where the output failed there is none.
    pub fn put<O: Sink>(self, output: &mut O) -> Result<(), Failed>
        ensures { IsPut O.Sink output.old output.new (stop_line self) result }
    {
        match self {
            MoveStop::Old(why) => why.put(output),
            MoveStop::New(why) => put_new(output, why),
            MoveStop::Node(node) => put_numbered(output, b"network node ", u64::from(node)),
            MoveStop::Link(link) => put_numbered(output, b"network link ", u64::from(link)),
            MoveStop::Unsound { epoch } => put_numbered(output, b"unsound ", epoch),
            MoveStop::Differs { epoch } => put_numbered(output, b"differs at ", epoch),
            MoveStop::Less { entries } => put_numbered(output, b"less ", entries),
        }
    }
}

// Writes the line of a fault of what is new.
fn put_new<O: Sink>(output: &mut O, why: Fault) -> Result<(), Failed>
    ensures { IsPut O.Sink output.old output.new (codes "new " ++ last_line why) result }
{
    write_all(output, b"new ")?;
    why.put(output)
}
