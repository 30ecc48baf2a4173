// The canonical text of a network, its digest, texts that end early, and networks of a seed.
ghost use Rattle.std.specs.Prelude.{◌<◌, length};

use cases_common::{CaseText, Trouble};
use hose_gen::{LEAST_NODES, generate};
use hose_graph::Topology;
use hose_io::{MemSink, MemSource};
use hose_topo::{digest, put_canonical, read};
use hose_words::LineReader;
use std::alloc::Global;

/// The canonical text of a network, and its digest in hexadecimal digits.
pub fn tell_canonical(top: &Topology, told: &mut CaseText) -> Result<(), Trouble> {
    if top.nodes() == 0 {
        return Err(Trouble::Word);
    }
    let alloc = told.alloc();
    let sink = canonical(alloc, top)?;
    told.put(str::from_utf8(sink.bytes()).unwrap_or("no text"));
    told.add(hex::encode(alloc, &digest(top)));
    Ok(())
}

fn canonical(alloc: Global, top: &Topology) -> Result<MemSink, Trouble>
    requires { 0 < length top.now.nodes }
{
    let mut sink = MemSink::new(alloc)?;
    put_canonical(&mut sink, top)?;
    Ok(sink)
}

/// How many nodes a text has that is given up to its end, with a line after it, and what the next
/// line is then; or, where the second call fails, why it is not read.
pub fn tell_ended(failing: u64, told: &mut CaseText) -> Result<(), Trouble> {
    let mut source = MemSource::new(told.alloc(), b"node a\nend\nbye", 7)?;
    source.fail(failing)?;
    tell_read(LineReader::new(source), told);
    Ok(())
}

fn tell_read(mut lines: LineReader<MemSource>, told: &mut CaseText) {
    let alloc = told.alloc();
    match read(alloc, &mut lines) {
        Ok(top) => told.add(format!(in alloc; "{} {:?}", top.nodes(), lines.next())),
        Err(fault) => told.show(&fault),
    }
}

/// How many nodes, links and commands the smallest network and script of a seed have.
pub fn tell_generated(seed: u64, told: &mut CaseText) -> Result<(), Trouble> {
    let alloc = told.alloc();
    let made = generate(alloc, seed, LEAST_NODES, LEAST_NODES - 1, 0)?;
    let (nodes, links) = (made.top.nodes(), made.top.links());
    told.add(format!(in alloc; "{nodes} {links} {}", made.script.len()));
    Ok(())
}
