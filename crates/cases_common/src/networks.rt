// Networks by their names, and hoses and what they reserve by their words.
ghost use Rattle.std.specs.Prelude.{IfOk};
ghost use Rattle.hose_law.specs.steps.Plan.{AreNodes};

use crate::case_text::CaseText;
use crate::trouble::Trouble;
use hose_graph::{Amounts, Command, Hose, Reply, Topology};
use hose_io::MemSource;
use hose_proto::read_command;
use hose_replies::read_reply;
use hose_topo::read;
use hose_words::LineReader;
use std::alloc::{AllocError, Global};

// Three nodes around a fourth.
const STAR: &str =
    "node a\nnode b\nnode c\nnode h\nlink a h 10 1\nlink b h 10 2\nlink c h 10 3\nend\n";

// A ring of four nodes, one of its links twice, and a link apart.
const RING: &str = "node a\nnode b\nnode c\nnode d\nnode e\nnode f\nlink a b 9 1\nlink b c 9 1\n\
    link c d 9 1\nlink d a 9 1\nlink e f 9 1\nlink a b 9 1\nend\n";

// Two nodes with a short link, and a way round it.
const DETOUR: &str = "node a\nnode b\nnode c\nlink a b 4 1\nlink a c 10 2\nlink c b 10 2\nend\n";

// A tree of twelve nodes.
const BRANCHES: &str = "node a\nnode b\nnode c\nnode d\nnode e\nnode f\nnode g\nnode h\nnode i\n\
    node j\nnode k\nnode l\nlink b a 99 1\nlink c a 99 1\nlink d b 99 1\nlink e b 99 1\n\
    link f c 99 1\nlink g c 99 1\nlink h d 99 1\nlink i d 99 1\nlink j e 99 1\nlink k e 99 1\n\
    link l f 99 1\nend\n";

// Two nodes with a wide link.
const PAIR: &str = "node a\nnode b\nlink a b 1000000000 1\nend\n";

// Five nodes in a line of wide links.
const LINE: &str = "node a\nnode b\nnode c\nnode d\nnode e\nlink a b 1000000000 1\n\
    link b c 1000000000 1\nlink c d 1000000000 1\nlink d e 1000000000 1\nend\n";

/// The network with this name.
pub fn named(alloc: Global, name: &str) -> Result<Topology, Trouble> {
    if name == "broom" {
        return network(alloc, broom(alloc)?.as_str());
    }
    network(alloc, text_of(name)?)
}

fn text_of(name: &str) -> Result<&'static str, Trouble> {
    match name {
        "star" => Ok(STAR),
        "ring" => Ok(RING),
        "detour" => Ok(DETOUR),
        "branches" => Ok(BRANCHES),
        "pair" => Ok(PAIR),
        "line" => Ok(LINE),
        _ => Err(Trouble::Word),
    }
}

// The text of 63 nodes around another one, from which a line of 447 links goes to a last node.
fn broom(alloc: Global) -> Result<String, AllocError> {
    let mut text = CaseText::new(alloc);
    for node in 0..512 {
        text.add(format!(in alloc; "node n{node}\n"));
    }
    for node in 0..63 {
        text.add(format!(in alloc; "link n{node} n64 10 1\n"));
    }
    for node in 64u32..511 {
        let next = node.saturating_add(1);
        text.add(format!(in alloc; "link n{node} n{next} 10 1\n"));
    }
    text.put("link n511 n63 10 1\nend\n");
    text.finish()
}

/// The network of a text.
pub fn network(alloc: Global, text: &str) -> Result<Topology, Trouble> {
    let source = MemSource::new(alloc, text.as_bytes(), 4_096)?;
    Ok(read(alloc, &mut LineReader::new(source))?)
}

/// The hose of a line `admit NAME:RATE ..`.
pub fn hose(alloc: Global, top: &Topology, line: &str) -> Result<Hose, Trouble>
    ensures { IfOk result (AreNodes top.now) }
{
    match read_command(alloc, top, line.as_bytes(), 0)? {
        Command::Admit(hose) => Ok(hose),
        _ => Err(Trouble::Word),
    }
}

/// The hose and what it reserves, of the ends and links of a reply.
pub fn shown(alloc: Global, top: &Topology, words: &str) -> Result<(Hose, Amounts), Trouble> {
    let line = format!(in alloc; "vpn 1 cost 1 at 1 {words}")?;
    match read_reply(alloc, top, line.as_bytes())? {
        Reply::Shown { hose, amounts, .. } => Ok((hose, amounts)),
        _ => Err(Trouble::Word),
    }
}
