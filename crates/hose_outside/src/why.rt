// Why a command ended, for whoever tells it.
ghost use Rattle.std.specs.Prelude.{◌≡◌};
ghost use Rattle.hose_outside.specs.Why.{why_status};
ghost use Rattle.hose_outside.specs.steps.LastLine.{EndsDone};

use crate::fault::Fault;
use crate::move_stop::MoveStop;
use hose_io::Sink;

/// Why a command ended.
#[derive(Clone, Copy, Debug, PartialEq, Eq)]
pub enum Why {
    /// All was done.
    Done,
    /// A fault ended it.
    Stopped(Fault),
    /// The certificate of the input is not valid: this is the lowest rule that fails.
    NotValid { rule: u64 },
    /// A move ended early.
    NotMoved(MoveStop),
}

impl Why {
    /// The status with which the program ends.
    pub fn status(self) -> u8
        ensures { result ≡ why_status self }
    {
        match self {
            Why::Done => 0,
            Why::Stopped(fault) => fault.status(),
            Why::NotValid { .. } => 10,
            Why::NotMoved(stop) => stop.status(),
        }
    }
}

/// Why a command ended of which this was done, after its last line, if it has one.
pub fn end<O: Sink>(done: Result<(), Fault>, output: &mut O) -> Why
    ensures { EndsDone O.Sink output.old output.new done result }
{
    match done {
        Ok(()) => Why::Done,
        Err(met) => {
            // Why stays the fault where its line cannot be written.
            let _ = met.put(output);
            Why::Stopped(met)
        }
    }
}
