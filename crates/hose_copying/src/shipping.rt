// Shipping: the entries of a journal, written as packets for one that follows it.
ghost use Rattle.std.specs.Prelude.{◌≡◌, None};
ghost use Rattle.hose_outside.specs.Reading.{priced_names};
ghost use Rattle.hose_outside.specs.Failing.{FailsNamed};
ghost use Rattle.hose_outside.specs.OnDisk.{IsUnopened};
ghost use Rattle.hose_outside.specs.Parts.{tellings};
ghost use Rattle.hose_outside.specs.steps.Journal.{TouchesOnly};
ghost use Rattle.hose_outside.specs.steps.Parts.{ComesTo, LeavesBeside, held};
ghost use Rattle.hose_copying.specs.ShipOutcome.{ShipOutcome, ShipsJournal};
ghost use Rattle.hose_copying.specs.steps.ShipOutcome.{shipping_done};

use hose_disk::Cabinet;
use hose_follow::ShipFault;
use hose_graph::Topology;
use hose_io::{Sink, Source};
use hose_outside::{Fault, Names, Outside, Why, end, read_topology};
use hose_tariff::Prices;
use std::alloc::Global;

/// Reads the topology of a text, writes the packets of the entries of the journal of a name, from
/// the one of an epoch on, and says why it ended. The network has these costs; the first
/// entry's epoch is 1.
pub fn ship<P: Prices, I: Source, O: Sink, C: Cabinet>(
    alloc: Global,
    costs: &P,
    names: Names<'_>,
    from: u64,
    outside: &mut Outside<'_, I, O, C>,
) -> Why
    requires { (C.frame (held outside.old).cabinet).out ≡ None }
    ensures { ComesTo (tellings I.Source O.Sink C.Cabinet C.Disk.Disk) (λ tells. ShipOutcome tells
        (priced_names (P.prices costs.now) names.entry.topology.now names.entry.journal.now) from)
        (λ tells. FailsNamed tells
        (priced_names (P.prices costs.now) names.entry.topology.now names.entry.journal.now))
        outside.old outside.new result }
{
    match read_topology(alloc, costs, names.topology, outside.cabinet) {
        Ok(top) => {
            let done = ship_journal(alloc, names.journal, &top, from, outside);
            end(done, outside.output)
        }
        Err(why) => end(Err(why), outside.output),
    }
}

// Writes the packets of the journal of a name. The disk is back in the cabinet then.
fn ship_journal<I: Source, O: Sink, C: Cabinet>(
    alloc: Global,
    name: &str,
    top: &Topology,
    from: u64,
    outside: &mut Outside<'_, I, O, C>,
) -> Result<(), Fault>
    requires { (C.frame (held outside.old).cabinet).out ≡ None }
    ensures ships { ShipsJournal (tellings I.Source O.Sink C.Cabinet C.Disk.Disk) name.now from
        (held outside.old) (held outside.new) top.now result }
    ensures unopened { IsUnopened C.Cabinet C.Disk.Disk (held outside.old).cabinet
        (held outside.new).cabinet top.now name.now }
    ensures input { (held outside.new).input ≡ (held outside.old).input }
    ensures alone { TouchesOnly C.Cabinet name.now (held outside.old).cabinet
        (held outside.new).cabinet }
    ensures beside { LeavesBeside (tellings I.Source O.Sink C.Cabinet C.Disk.Disk)
        outside.old outside.new }
{
    let Ok(disk) = outside.cabinet.disk(name) else {
        return Err(Fault::Cabinet);
    };
    let shipped = hose_follow::ship(alloc, outside.output, disk, top, from);
    outside.cabinet.back(shipped.1);
    as_done(shipped.0)
}

// What came of shipping, as a fault of the program.
fn as_done(shipped: Result<u64, ShipFault>) -> Result<(), Fault>
    ensures { result ≡ shipping_done shipped }
{
    match shipped {
        Ok(_) => Ok(()),
        Err(ShipFault::Store(fault)) => Err(Fault::from(fault)),
        Err(ShipFault::Write) => Err(Fault::Write),
    }
}
