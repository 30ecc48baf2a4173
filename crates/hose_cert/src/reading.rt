// The lines of a certificate, one after the other, up to the end of the input.
ghost use Rattle.std.specs.Prelude.{◌≡◌, IfErr, IfOk, OnOk};
ghost use Rattle.hose_graph.specs.Network.{IsNetwork};
ghost use Rattle.hose_cert.specs.steps.Draft.{StandsSomehow};
ghost use Rattle.hose_cert.specs.steps.Taking.{IsAllRead, IsDraftStep, PassesOne, ReadsCertText, ReadsUpTo, IsNextStep, fault_in};

use crate::Verdict;
use crate::draft::{Body, Draft, take_line};
use crate::fault::CertFault;
use crate::parsing::read_line;
use hose_graph::Topology;
use hose_io::Source;
use hose_words::{Line, LineReader};
use std::alloc::Global;

/// What the next line came to.
#[derive(Drop)]
pub enum LineStep {
    /// One line more was taken.
    More(Draft),
    /// No certificate goes on so.
    Refused,
    /// There is no more line.
    Over(Draft),
}

// What was read, up to the end of the input or to the first line with which no certificate goes on;
// where it is a whole certificate.
pub(crate) fn read_text<S: Source>(
    alloc: Global,
    top: &Topology,
    lines: &mut LineReader<S>,
) -> Result<Option<Body>, CertFault>
    ensures text { ReadsCertText S.Source top.now lines.old lines.new result }
    ensures reads { ReadsUpTo S.Source lines.old lines.new (fault_in result) }
    ensures network { IsNetwork top.now }
{
    // The calls tell what holds of each network, and how many bytes are pending.
    let _nodes = top.nodes();
    let _pending = lines.pending();
    let mut draft = Draft::Start;
    loop {
        match take_next(alloc, top, draft, lines)? {
            LineStep::More(more) => draft = more,
            LineStep::Refused => return Ok(None),
            LineStep::Over(last) => return Ok(last.whole(top)),
        }
    }
}

// Takes the next line into the draft.
fn take_next<S: Source>(
    alloc: Global,
    top: &Topology,
    draft: Draft,
    lines: &mut LineReader<S>,
) -> Result<LineStep, CertFault>
    requires network { IsNetwork top.now }
    requires stands { StandsSomehow top.now draft }
    ensures { IsNextStep S.Source top.now draft lines.old lines.new result }
{
    match lines.next()? {
        Some(Line::Text(line)) => take_text(alloc, top, draft, line),
        Some(Line::Long) => Ok(LineStep::Refused),
        None => Ok(LineStep::Over(draft)),
    }
}

// Takes a line that is shown into the draft.
fn take_text(
    alloc: Global,
    top: &Topology,
    draft: Draft,
    line: &[u8],
) -> Result<LineStep, CertFault>
    requires network { IsNetwork top.now }
    requires stands { StandsSomehow top.now draft }
    ensures step { IfOk result (IsDraftStep top.now draft line.now) }
    ensures memory { IfErr result (λ fault. fault ≡ CertFault.Memory) }
{
    let Some(told) = read_line(alloc, top, line)? else {
        return Ok(LineStep::Refused);
    };
    match take_line(alloc, top, draft, told)? {
        Some(more) => Ok(LineStep::More(more)),
        None => Ok(LineStep::Refused),
    }
}

// What is found where a certificate does not go on as the input does: all of that is passed over.
pub(crate) fn refuse<S: Source>(lines: &mut LineReader<S>) -> Result<Verdict, CertFault>
    ensures no { IfOk result (λ verdict. verdict ≡ Verdict.No 1) }
    ensures all { OnOk result (IsAllRead S.Source lines.old lines.new) }
    ensures reads { ReadsUpTo S.Source lines.old lines.new (fault_in result) }
{
    pass_over(lines)?;
    Ok(Verdict::No { rule: 1 })
}

// Passes over all lines to the end of the input.
fn pass_over<S: Source>(lines: &mut LineReader<S>) -> Result<(), CertFault>
    ensures all { OnOk result (IsAllRead S.Source lines.old lines.new) }
    ensures reads { ReadsUpTo S.Source lines.old lines.new (fault_in result) }
{
    // The call tells how many bytes are pending.
    let _pending = lines.pending();
    while pass_one(lines)? {}
    Ok(())
}

// Passes over the next line, if there is one.
fn pass_one<S: Source>(lines: &mut LineReader<S>) -> Result<bool, CertFault>
    ensures { PassesOne S.Source lines.old lines.new result }
{
    match lines.next()? {
        Some(_) => Ok(true),
        None => Ok(false),
    }
}
