// A check: the certificate of an input, judged by the topology of a text.
ghost use Rattle.std.specs.Prelude.{◌≡◌, ◌≢◌, ◌↔◌, ◌+◌, ◌<◌, ◌≤◌, [], Err, IfOk, None, Ok, ⊤};
ghost use Rattle.hose_io.specs.Frame.{Rose};
ghost use Rattle.hose_cert.specs.Verdict.{AreCheapestFound, IsVerdict};
ghost use Rattle.hose_words.specs.Reading.{WhereTold};
ghost use Rattle.hose_words.specs.steps.Reading.{ReadsOn};
ghost use Rattle.hose_offline.specs.CheckOutcome.{CheckOutcome, EndsChecked, JudgesInput, JudgesNamed};
ghost use Rattle.hose_outside.specs.steps.Ending.{WroteEnd};
ghost use Rattle.hose_outside.specs.Why.{why_status};
ghost use Rattle.hose_outside.specs.Parts.{tellings};
ghost use Rattle.hose_outside.specs.steps.Parts.{ComesTo, KeepsAll, held};

use hose_cert::{CertFault, Verdict, check_certificate};
use hose_disk::Cabinet;
use hose_graph::Topology;
use hose_io::{Sink, Source};
use hose_outside::{Fault, Outside, Why, end, put_numbered, read_topology};
use hose_tariff::Prices;
use hose_words::{INPUT_LIMIT, LineReader};
use std::alloc::Global;

/// Reads the topology of a text, judges the certificate that the input has, and says why
/// it ended. The network has these costs.
pub fn check<P: Prices, I: Source, O: Sink, C: Cabinet>(
    alloc: Global,
    costs: &P,
    topology: &str,
    outside: &mut Outside<'_, I, O, C>,
) -> Why
    ensures { ComesTo (tellings I.Source O.Sink C.Cabinet C.Disk.Disk) (λ tells. CheckOutcome tells
        (P.prices costs.now) topology.now) (λ _ _ _ _. ⊤) outside.old outside.new result }
{
    match judge_named(alloc, costs, topology, outside) {
        Ok(verdict) => tell_verdict(&verdict, outside.output),
        Err(why) => end(Err(why), outside.output),
    }
}

// The verdict on the certificate of the input, by the network that a text tells.
fn judge_named<P: Prices, I: Source, O: Sink, C: Cabinet>(
    alloc: Global,
    costs: &P,
    topology: &str,
    outside: &mut Outside<'_, I, O, C>,
) -> Result<Verdict, Fault>
    ensures judges { JudgesNamed (tellings I.Source O.Sink C.Cabinet C.Disk.Disk)
        (P.prices costs.now) topology.now (held outside.old) (held outside.new) result }
    ensures output { outside.new.output ≡ outside.old.output }
    ensures keeps { KeepsAll (tellings I.Source O.Sink C.Cabinet C.Disk.Disk)
        outside.old outside.new }
{
    let top = read_topology(alloc, costs, topology, outside.cabinet)?;
    judge(alloc, &top, outside.input)
}

// The verdict on the certificate of the input, by a network.
fn judge<I: Source>(alloc: Global, top: &Topology, input: &mut I) -> Result<Verdict, Fault>
    ensures { JudgesInput I.Source input.old input.new top.now result }
{
    let mut lines = LineReader::new(input);
    let verdict = judge_lines(alloc, top, &mut lines);
    let _ = lines.into_source();
    match verdict {
        Ok(verdict) => Ok(verdict),
        Err(CertFault::Read) => Err(Fault::Read),
        Err(CertFault::TooLong) => Err(Fault::TooLong),
        Err(CertFault::Memory) => Err(Fault::Memory),
    }
}

// The verdict on the lines of a reader that has taken nothing.
fn judge_lines<S: Source>(
    alloc: Global,
    top: &Topology,
    lines: &mut LineReader<S>,
) -> Result<Verdict, CertFault>
    requires pending { lines.old.pending ≡ [] }
    requires taken { lines.old.taken ≡ 0 }
    requires fault { lines.old.fault ≡ None }
    ensures found { IfOk result (λ verdict. WhereTold (S.content lines.old.source)
        (S.content lines.new.source) (λ text left. (left ≡ []) × IsVerdict top.now text verdict)) }
    ensures cheapest { IfOk result (AreCheapestFound top.now) }
    ensures read { result ≡ Err CertFault.Read
        → Rose (S.frame lines.old.source) (S.frame lines.new.source) }
    ensures held { result ≢ Err CertFault.Read
        → S.frame lines.new.source ≡ S.frame lines.old.source }
    ensures too_long { (result ≡ Err CertFault.TooLong) ↔ (INPUT_LIMIT < lines.new.taken) }
    ensures reads_on { ReadsOn S.Source lines.old lines.new }
    ensures limit { lines.new.taken ≤ INPUT_LIMIT + 1 }
{
    check_certificate(alloc, lines, top)
}

// Writes what was found, and says why it ended.
fn tell_verdict<O: Sink>(verdict: &Verdict, output: &mut O) -> Why
    ensures { WroteEnd O.Sink output.old output.new result
        (EndsChecked O.Sink output.old output.new (why_status result) (Ok verdict.now)) }
{
    match verdict {
        Verdict::Yes { cost, .. } => match put_numbered(output, b"yes ", *cost) {
            Ok(()) => Why::Done,
            Err(_) => Why::Stopped(Fault::Write),
        },
        Verdict::No { rule } => {
            // Why stays the rule where its line cannot be written.
            let rule = u64::from(*rule);
            let _ = put_numbered(output, b"no ", rule);
            Why::NotValid { rule }
        }
    }
}
