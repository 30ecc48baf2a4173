// A proof: the certificate of a hose's plan over all links of the topology of a text.
ghost use Rattle.std.specs.Prelude.{◌≡◌, ◌≤◌, ◌^◌, IfErr, IfOk, map};
ghost use Rattle.std.specs.String.{string_bytes};
ghost use Rattle.hose_graph.specs.Network.{IsNetwork};
ghost use Rattle.hose_law.specs.steps.Plan.{AreNodes};
ghost use Rattle.hose_proto.specs.Command.{AreEndsOf};
ghost use Rattle.hose_proto.specs.steps.EndWords.{AreEndWords};
ghost use Rattle.hose_outside.specs.steps.Ending.{Wrote};
ghost use Rattle.hose_outside.specs.Parts.{tellings};
ghost use Rattle.hose_outside.specs.steps.Parts.{KeepsAll, held};
ghost use Rattle.hose_outside.specs.Why.{IsTold, why_status};
ghost use Rattle.hose_offline.specs.ProveOutcome.{IsNoHose, ProveOutcome, ProvesWords, PutsProof, ends_from};
ghost use Rattle.hose_offline.specs.steps.ProveOutcome.{AreEndsInOrder};

use hose_cert::{ProveFault, put_certificate};
use hose_disk::Cabinet;
use hose_graph::{Endpoint, Hose, Topology};
use hose_io::{Sink, Source, write_all};
use hose_outside::{Fault, Outside, Why, end, read_topology};
use hose_paths::HeapRows;
use hose_proto::endpoint;
use hose_tariff::Prices;
use std::alloc::Global;

/// The words of a hose's endpoints, the first of which is the program's word of this number.
#[derive(Clone, Copy)]
pub struct EndWords<'a> {
    pub words: &'a [String],
    pub first: u64,
}

/// Reads the topology of a text, writes the certificate of a hose's plan over all its links, or
/// that there is no plan, and says why it ended. The network has these costs, and the words are
/// the hose's endpoints.
pub fn prove<P: Prices, I: Source, O: Sink, C: Cabinet>(
    alloc: Global,
    costs: &P,
    topology: &str,
    ends: EndWords<'_>,
    outside: &mut Outside<'_, I, O, C>,
) -> Why
    requires ends { AreEndWords (map string_bytes ends.words.now) }
    requires first { ends.first ≤ 2 ^ 63 }
    ensures outcome { ProveOutcome (tellings I.Source O.Sink C.Cabinet C.Disk.Disk)
        (P.prices costs.now) topology.now
        (ends_from (map string_bytes ends.entry.words.now) ends.entry.first)
        (held outside.old) (held outside.new) (why_status result) }
    ensures told { IsTold O.Sink outside.new.output.now result }
    ensures out { (C.frame outside.new.cabinet.now).out ≡ (C.frame outside.old.cabinet.now).out }
    ensures keeps { KeepsAll (tellings I.Source O.Sink C.Cabinet C.Disk.Disk)
        outside.old outside.new }
{
    match read_topology(alloc, costs, topology, outside.cabinet) {
        Ok(top) => {
            let done = prove_words(alloc, &top, ends, outside.output);
            end(done, outside.output)
        }
        Err(why) => end(Err(why), outside.output),
    }
}

// Proves the hose of the words on a network that was read.
fn prove_words<O: Sink>(
    alloc: Global,
    top: &Topology,
    ends: EndWords<'_>,
    output: &mut O,
) -> Result<(), Fault>
    requires ends { AreEndWords (map string_bytes ends.words.now) }
    requires first { ends.first ≤ 2 ^ 63 }
    ensures { Wrote O.Sink output.old output.new (ProvesWords O.Sink
        (ends_from (map string_bytes ends.entry.words.now) ends.entry.first) top.now
        output.old output.new result) }
{
    let hose = hose_of(alloc, top, ends)?;
    put_proof(alloc, top, &hose, output)
}

// Writes the certificate of a hose, or that it has no plan.
fn put_proof<O: Sink>(
    alloc: Global,
    top: &Topology,
    hose: &Hose,
    output: &mut O,
) -> Result<(), Fault>
    requires { AreNodes top.now hose.now }
    ensures { Wrote O.Sink output.old output.new
        (PutsProof O.Sink output.old output.new top.now hose.now result) }
{
    let found = match put_certificate(alloc, output, top, hose, &mut HeapRows::new()) {
        Ok(found) => found,
        Err(ProveFault::Write) => return Err(Fault::Write),
        Err(ProveFault::Memory) => return Err(Fault::Memory),
    };
    if !found {
        write_all(output, b"none\n")?;
    }
    Ok(())
}

// The hose of endpoints that have the form of some.
fn hose_of(alloc: Global, top: &Topology, ends: EndWords<'_>) -> Result<Hose, Fault>
    requires ends { AreEndWords (map string_bytes ends.words.now) }
    requires first { ends.first ≤ 2 ^ 63 }
    ensures hose { IfOk result (AreEndsOf top.now (map string_bytes ends.entry.words.now)) }
    ensures nodes { IfOk result (AreNodes top.now) }
    ensures none { IfErr result
        (IsNoHose (ends_from (map string_bytes ends.entry.words.now) ends.entry.first) top.now) }
{
    // The call tells the proof what holds of each network: that no two nodes have one name.
    let _nodes = top.nodes();
    let found = ends_of(alloc, top, ends.words, ends.first)?;
    let hose = Hose::from_ends(alloc, &found)?;
    Ok(hose)
}

// Those endpoints, in the order of their words.
fn ends_of(
    alloc: Global,
    top: &Topology,
    ends: &[String],
    first: u64,
) -> Result<Vec<Endpoint>, Fault>
    requires network { IsNetwork top.now }
    requires ends { AreEndWords (map string_bytes ends.now) }
    requires first { first ≤ 2 ^ 63 }
    ensures ends { IfOk result
        (λ found. AreEndsInOrder top.now (map string_bytes ends.now) found.items) }
    ensures none { IfErr result (IsNoHose (ends_from (map string_bytes ends.now) first) top.now) }
{
    let mut found = Vec::new(alloc);
    while found.len() < ends.len() {
        let Some(end) = endpoint(top, ends[found.len()].as_bytes()) else {
            return Err(Fault::Words(first + found.len() as u64));
        };
        found.push(end)?;
    }
    Ok(found)
}
