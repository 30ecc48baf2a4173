// An audit: the book of a journal, as a text.
ghost use Rattle.std.specs.Prelude.{◌≡◌, None};
ghost use Rattle.hose_offline.specs.AuditOutcome.{AuditOutcome};
ghost use Rattle.hose_offline.specs.steps.AuditOutcome.{AuditsJournal};
ghost use Rattle.hose_outside.specs.Reading.{priced_names};
ghost use Rattle.hose_outside.specs.Failing.{FailsNamed};
ghost use Rattle.hose_outside.specs.steps.Failing.{FailsOpened};
ghost use Rattle.hose_outside.specs.Why.{IsTold, why_status};
ghost use Rattle.hose_outside.specs.Parts.{tellings};
ghost use Rattle.hose_outside.specs.steps.Journal.{TouchesOnly};
ghost use Rattle.hose_outside.specs.steps.Parts.{ComesTo, LeavesBeside, held};

use hose_disk::Cabinet;
use hose_graph::Topology;
use hose_io::{Sink, Source};
use hose_outside::{
    Fault, Names, Outside, Why, close_journal, end, first_fault, open_journal, read_topology, tell,
};
use hose_store::Decided;
use hose_tariff::Prices;
use std::alloc::Global;

/// Reads the topology of a text and the book of a journal, closes the journal, writes what the book
/// holds, and says why it ended. The book is told where closing failed too.
pub fn audit<P: Prices, I: Source, O: Sink, C: Cabinet>(
    alloc: Global,
    costs: &P,
    names: Names<'_>,
    outside: &mut Outside<'_, I, O, C>,
) -> Why
    requires { (C.frame (held outside.old).cabinet).out ≡ None }
    ensures { ComesTo (tellings I.Source O.Sink C.Cabinet C.Disk.Disk) (λ tells. AuditOutcome tells
        (priced_names (P.prices costs.now) names.entry.topology.now names.entry.journal.now))
        (λ tells. FailsNamed tells
        (priced_names (P.prices costs.now) names.entry.topology.now names.entry.journal.now))
        outside.old outside.new result }
{
    match read_topology(alloc, costs, names.topology, outside.cabinet) {
        Ok(topology) => audit_journal(alloc, names.journal, topology, outside),
        Err(why) => end(Err(why), outside.output),
    }
}

// Writes what the book of the journal of a name holds, or why no store was opened, and says why
// it ended. The disk is back in the cabinet then.
fn audit_journal<I: Source, O: Sink, C: Cabinet>(
    alloc: Global,
    name: &str,
    topology: Topology,
    outside: &mut Outside<'_, I, O, C>,
) -> Why
    requires { (C.frame (held outside.old).cabinet).out ≡ None }
    ensures audits { AuditsJournal (tellings I.Source O.Sink C.Cabinet C.Disk.Disk) name.now
        (held outside.old) (held outside.new) (why_status result) topology }
    ensures told { IsTold O.Sink (held outside.new).output result }
    ensures fails { FailsOpened C.Cabinet (held outside.old).cabinet (held outside.new).cabinet
        result }
    ensures input { (held outside.new).input ≡ (held outside.old).input }
    ensures alone { TouchesOnly C.Cabinet name.now (held outside.old).cabinet
        (held outside.new).cabinet }
    ensures beside { LeavesBeside (tellings I.Source O.Sink C.Cabinet C.Disk.Disk)
        outside.old outside.new }
{
    // Nothing is added to the store, so any premises serve.
    match open_journal::<C, Decided>(alloc, name, topology, outside.cabinet) {
        Ok(store) => {
            let (closing, book) = close_journal(store, outside.cabinet);
            tell(&book, first_fault(Ok(()), closing), outside.output)
        }
        Err(why) => end(Err(why), outside.output),
    }
}
