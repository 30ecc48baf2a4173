//! Certificates of least cost, written of the planner's plans, and a checker of its own: it answers
//! without planning, and what it says yes to is cheapest, whoever wrote it.
//!
//! ```
//! if !put_certificate(alloc, &mut sink, &topology, &hose, &mut HeapRows::new())? {
//!     println!("none");
//! }
//!
//! match check_certificate(alloc, &mut lines, &topology)? {
//!     Verdict::Yes { cost, .. } => println!("yes {cost}"),
//!     Verdict::No { rule } => println!("no {rule}"),
//! }
//! ```
//!
//! A certificate is a text of lines with one space between words: what the plan costs, for whom it
//! is, what it reserves on each of its links, the links that it was to leave out, and for each node
//! as a root a number for each node.
//!
//! ```text
//! cost 26
//! hose a:3 b:4 c:5
//! use 0 3
//! use 1 4
//! use 2 5
//! pot 0 0 0 3 4 1
//! pot 1 0 3 0 5 2
//! pot 2 0 4 5 0 3
//! pot 3 0 1 2 3 0
//! end
//! ```
//!
//! Numbers that start at 0 and change along no link by more than its cost are at most the distances
//! from their root. So where the hose weighs enough by each root's numbers, no root weighs less
//! than the plan costs, and the plan is a cheapest one.
#![tactic(auto)]

ghost use Rattle.std.specs.Prelude.{◌≡◌, ◌++◌, ℕ, List, IfOk, OnOk};
ghost use Rattle.hose_io.specs.Frame.{Stays};
ghost use Rattle.hose_words.specs.Reading.{WhereTold};
ghost use Rattle.hose_law.specs.steps.Plan.{AreNodes};
ghost use Rattle.hose_cert.specs.CertLine.{CertLine};
ghost use Rattle.hose_cert.specs.Certificate.{IsCertText};
ghost use Rattle.hose_cert.specs.steps.Taking.{IsAllRead, ReadsUpTo, fault_in};
ghost use Rattle.hose_cert.specs.Rules.{CertClaim};
ghost use Rattle.hose_cert.specs.Verdict.{AreCheapestFound, IsVerdict, IsValid};
ghost use Rattle.hose_cert.specs.steps.Verdict.{IsYesOf};
ghost use Rattle.hose_cert.specs.steps.Written.{Writes};

mod draft;
mod fault;
mod judging;
mod parsing;
mod reading;
mod rows;
mod statement;
mod writing;

pub use fault::{CertFault, ProveFault};
use hose_graph::{Amounts, Hose, Topology};
use hose_io::{Sink, Source};
use hose_links::LinkSet;
use hose_paths::{RowMaker, all_links};
use hose_plan::plan;
use hose_words::LineReader;
use judging::judge;
use reading::{read_text, refuse};
pub use statement::{LINE_NUMBERS, MOST_NUMBER, law_limits};
use std::alloc::Global;
use writing::{Linked, Planned, put_plan};

/// What is found of a text.
#[derive(Drop)]
pub enum Verdict {
    /// It is a valid certificate, and so the amounts are cheapest.
    Yes {
        /// For whom the plan is.
        hose: Hose,
        /// The links that the plan was to leave out.
        without: LinkSet,
        /// What the plan reserves.
        amounts: Amounts,
        /// What it costs.
        cost: u64,
    },
    /// It is none, and this is the lowest rule that it breaks.
    No {
        /// 1 where the text is not that of a certificate; 2 where the amounts are not the hose's on
        /// a tree, 3 where they do not cost what is claimed; 4 where a root's number at itself is
        /// not 0, 5 where numbers change along a link by more than it costs, 6 where the hose
        /// weighs too little by a root's numbers.
        rule: u8,
    },
}

/// Reads a certificate of a network, to the end of the input, and judges it. One row of numbers is
/// kept at a time.
pub fn check_certificate<S: Source>(
    alloc: Global,
    lines: &mut LineReader<S>,
    top: &Topology,
) -> Result<Verdict, CertFault>
    // All that was to come is a certificate that is valid, or breaks this rule first.
    ensures found { WhereTold (S.content lines.old.source) (S.content lines.new.source)
        (λ before _. IfOk result (IsVerdict top.now (lines.old.pending ++ before))) }
    ensures all { OnOk result (IsAllRead S.Source lines.old lines.new) }

    // It is found valid exactly where it is so. A text has the lines of one certificate at most.
    ensures valid { (claim : CertClaim)
        → WhereTold (S.content lines.old.source) (S.content lines.new.source) (λ before _.
        IsValid top.now (lines.old.pending ++ before) claim
        → IfOk result (λ verdict. IsYesOf verdict claim)) }
    ensures alone { (text : List ℕ) (some others : List CertLine)
        → IsCertText top.now text some → IsCertText top.now text others → some ≡ others }

    // What is found valid is cheapest over the links that no line leaves out, whoever wrote it.
    ensures cheapest { IfOk result (AreCheapestFound top.now) }

    // What became of the reader, and what a fault comes of. Want of memory tells nothing.
    ensures reads { ReadsUpTo S.Source lines.old lines.new (fault_in result) }
{
    match read_text(alloc, top, lines)? {
        Some(body) => Ok(judge(top, body)),
        None => refuse(lines),
    }
}

/// Writes the certificate of the plan of a hose over all links of a network, and says whether there
/// is one: the plan's cost, the hose, what the plan reserves, no link that is left out, and for
/// each node as a root the distances of all nodes, with the plan's cost where there is no walk. A
/// line feed ends each line.
///
/// One row is kept at a time. The text goes out in pieces of up to 4,096 bytes; where memory is
/// wanting, the lines that were made before are out, whole.
pub fn put_certificate<S: Sink, R: RowMaker>(
    alloc: Global,
    sink: &mut S,
    top: &Topology,
    hose: &Hose,
    rows: &mut R,
) -> Result<bool, ProveFault>
    requires nodes { AreNodes top.now hose.now }

    // The whole certificate is out, and it is valid; or there is no plan; or the sink failed, and a
    // part is out; or memory was wanting, and whole lines are out.
    ensures writes { Writes S.Sink top.now hose.now sink.old sink.new result }

    ensures stays { Stays (S.frame sink.old) (S.frame sink.new) }
{
    let links = all_links(alloc, top)?;
    let Some(amounts) = plan(alloc, top, &links, hose, rows)? else {
        return Ok(false);
    };
    let linked = Linked { top, links: &links };
    let planned = Planned {
        hose,
        amounts: &amounts,
    };
    put_plan(alloc, sink, &linked, &planned, rows)
}
