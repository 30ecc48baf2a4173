// Following: packets of an input, answered by the book of a journal.
ghost use Rattle.std.specs.Prelude.{◌≡◌, None};
ghost use Rattle.hose_outside.specs.Reading.{priced_names};
ghost use Rattle.hose_outside.specs.Failing.{FailsNamed};
ghost use Rattle.hose_copying.specs.FollowOutcome.{FollowOutcome};
ghost use Rattle.hose_copying.specs.Following.{following_done};
ghost use Rattle.hose_copying.specs.steps.Following.{FollowsJournal};
ghost use Rattle.hose_outside.specs.Parts.{tellings};
ghost use Rattle.hose_outside.specs.steps.Journal.{TouchesOnly};
ghost use Rattle.hose_outside.specs.steps.Parts.{ComesTo, LeavesBeside, held};

use hose_disk::Cabinet;
use hose_follow::{FollowEnd, Sound};
use hose_graph::Topology;
use hose_io::{Sink, Source};
use hose_outside::{
    Fault, Names, Outside, Why, close_journal, end, first_fault, open_journal, read_topology,
};
use hose_tariff::Prices;
use std::alloc::Global;

/// Reads the topology of a text, answers the packets of the input by the journal of a name, which
/// follows the one that they come from, and says why it ended. The network has these costs.
pub fn follow<P: Prices, I: Source, O: Sink, C: Cabinet>(
    alloc: Global,
    costs: &P,
    names: Names<'_>,
    outside: &mut Outside<'_, I, O, C>,
) -> Why
    requires { (C.frame (held outside.old).cabinet).out ≡ None }
    ensures { ComesTo (tellings I.Source O.Sink C.Cabinet C.Disk.Disk) (λ tells. FollowOutcome tells
        (priced_names (P.prices costs.now) names.entry.topology.now names.entry.journal.now))
        (λ tells. FailsNamed tells
        (priced_names (P.prices costs.now) names.entry.topology.now names.entry.journal.now))
        outside.old outside.new result }
{
    match read_topology(alloc, costs, names.topology, outside.cabinet) {
        Ok(top) => {
            let done = follow_journal(alloc, names.journal, top, outside);
            end(done, outside.output)
        }
        Err(why) => end(Err(why), outside.output),
    }
}

// Answers all packets by the journal of a name. The first fault is told, and the disk is back in
// the cabinet.
fn follow_journal<I: Source, O: Sink, C: Cabinet>(
    alloc: Global,
    name: &str,
    topology: Topology,
    outside: &mut Outside<'_, I, O, C>,
) -> Result<(), Fault>
    requires { (C.frame (held outside.old).cabinet).out ≡ None }
    ensures follows { FollowsJournal (tellings I.Source O.Sink C.Cabinet C.Disk.Disk) name.now
        (held outside.old) (held outside.new) topology result }
    ensures alone { TouchesOnly C.Cabinet name.now (held outside.old).cabinet
        (held outside.new).cabinet }
    ensures beside { LeavesBeside (tellings I.Source O.Sink C.Cabinet C.Disk.Disk)
        outside.old outside.new }
{
    let mut store = open_journal::<C, Sound>(alloc, name, topology, outside.cabinet)?;
    let ended = hose_follow::follow(alloc, outside.input, outside.output, &mut store);
    let closed = close_journal(store, outside.cabinet);
    first_fault(done_of_end(ended), closed.0)
}

// What ended following, as a fault of the program.
fn done_of_end(ended: FollowEnd) -> Result<(), Fault>
    ensures { result ≡ following_done ended }
{
    match ended {
        FollowEnd::End => Ok(()),
        FollowEnd::Packet { at } => Err(Fault::Packet { at }),
        FollowEnd::Read => Err(Fault::Read),
        FollowEnd::Write => Err(Fault::Write),
        FollowEnd::TooLong => Err(Fault::TooLong),
        FollowEnd::Memory => Err(Fault::Memory),
    }
}
