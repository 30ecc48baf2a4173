// Lines that are read as commands and as replies, and replies that are written.
ghost use Rattle.hose_graph.specs.steps.Naming.{NamesPlaces};

use cases_common::{CaseText, Trouble, network};
use hose_graph::{Reply, Topology};
use hose_io::MemSink;
use hose_proto::{put_reply, read_command};
use hose_replies::read_reply;
use hose_words::{number, split};
use std::alloc::{AllocError, Global};

/// What a line is as a command.
pub fn tell_command(top: &Topology, line: &str, told: &mut CaseText) {
    told.show(&read_command(told.alloc(), top, line.as_bytes(), 0));
}

/// What a line is as a reply, and the line that is written of that.
pub fn tell_reply(top: &Topology, line: &str, told: &mut CaseText) -> Result<(), Trouble> {
    match read_reply(told.alloc(), top, line.as_bytes()) {
        Ok(reply) => tell_written(top, &reply, told),
        Err(fault) => {
            told.show(&fault);
            Ok(())
        }
    }
}

fn tell_written(top: &Topology, reply: &Reply, told: &mut CaseText) -> Result<(), Trouble>
    requires { NamesPlaces top.now reply.now }
{
    told.show(reply);
    told.put("\n");
    let sink = written(told.alloc(), top, reply)?;
    told.put(str::from_utf8(sink.bytes()).unwrap_or("no text"));
    Ok(())
}

// A sink with the line of a reply.
fn written(alloc: Global, top: &Topology, reply: &Reply) -> Result<MemSink, Trouble>
    requires { NamesPlaces top.now reply.now }
{
    let mut sink = MemSink::new(alloc)?;
    put_reply(&mut sink, top, reply)?;
    Ok(sink)
}

/// What a line with so many endpoints is as a reply, in a network of as many nodes.
pub fn tell_endpoints(count: u64, told: &mut CaseText) -> Result<(), Trouble> {
    let top = nodes(told.alloc(), count)?;
    tell_ends(&top, count, told)
}

fn tell_ends(top: &Topology, count: u64, told: &mut CaseText) -> Result<(), Trouble> {
    let line = endpoints(told.alloc(), count)?;
    tell_reply(top, line.as_str(), told)
}

// A network of so many nodes, without a link.
fn nodes(alloc: Global, count: u64) -> Result<Topology, Trouble> {
    let mut text = CaseText::new(alloc);
    for number in 0..count {
        text.add(format!(in alloc; "node n{number}\n"));
    }
    text.put("end\n");
    network(alloc, text.finish()?.as_str())
}

// A reply with an endpoint at each of so many nodes.
fn endpoints(alloc: Global, count: u64) -> Result<String, AllocError> {
    let mut line = CaseText::new(alloc);
    line.put("vpn 1 cost 2 at 3 ends");
    for number in 0..count {
        line.add(format!(in alloc; " n{number}:1"));
    }
    line.finish()
}

/// What comes of a reply of 4,919 bytes, which names 200 links, at a sink of which this call fails,
/// and how many bytes are out then.
pub fn tell_long(failing: u64, told: &mut CaseText) -> Result<(), Trouble> {
    let top = wide(told.alloc())?;
    tell_amounts(&top, failing, told)
}

fn tell_amounts(top: &Topology, failing: u64, told: &mut CaseText) -> Result<(), Trouble> {
    let alloc = told.alloc();
    let reply = read_reply(alloc, top, amounts(alloc)?.as_str().as_bytes())?;
    put_failing(top, &reply, failing, told)
}

fn put_failing(top: &Topology, reply: &Reply, nth: u64, told: &mut CaseText) -> Result<(), Trouble>
    requires { NamesPlaces top.now reply.now }
{
    let mut sink = MemSink::new(told.alloc())?;
    sink.fail(nth)?;
    let done = put_reply(&mut sink, top, reply);
    told.show(&(done, sink.bytes().len()));
    Ok(())
}

// Two nodes with 200 links between them.
fn wide(alloc: Global) -> Result<Topology, Trouble> {
    let mut text = CaseText::new(alloc);
    text.put("node a\nnode b\n");
    for _ in 0..200 {
        text.put("link a b 1 1\n");
    }
    text.put("end\n");
    network(alloc, text.finish()?.as_str())
}

// A reply with an amount on each of 200 links.
fn amounts(alloc: Global) -> Result<String, AllocError> {
    let mut line = CaseText::new(alloc);
    line.put("admitted 1 cost 0 at 1 links");
    for link in 0..200 {
        line.add(format!(in alloc; " {link}:18446744073709551615"));
    }
    line.finish()
}

/// Whether a reply with so many numbers of VPNs is written as it was read, and its bytes.
pub fn tell_vpns(top: &Topology, count: u64, told: &mut CaseText) -> Result<(), Trouble> {
    let line = vpns(told.alloc(), count)?;
    tell_same(top, line.as_str(), told)
}

fn tell_same(top: &Topology, line: &str, told: &mut CaseText) -> Result<(), Trouble> {
    let sink = written_again(told.alloc(), top, line.trim_end())?;
    told.show(&(sink.bytes() == line.as_bytes(), line.len()));
    Ok(())
}

fn vpns(alloc: Global, count: u64) -> Result<String, AllocError> {
    let mut line = CaseText::new(alloc);
    line.put("vpns");
    for id in 0..count {
        line.add(format!(in alloc; " {id}"));
    }
    line.put(" at 7\n");
    line.finish()
}

fn written_again(alloc: Global, top: &Topology, line: &str) -> Result<MemSink, Trouble> {
    let reply = read_reply(alloc, top, line.as_bytes())?;
    written(alloc, top, &reply)
}

/// Whether a line is split into its words, which may hold a tab; and numbers of at most 512.
pub fn tell_words(told: &mut CaseText) {
    let words: [&[u8]; 2] = [b"link\ta", b"512"];
    let is_split = split(b"  link\ta  512 ").eq(words);
    let numbers = [number(b"512", 512), number(b"513", 512), number(b"01", 512)];
    let alloc = told.alloc();
    told.add(format!(in alloc; "{is_split} {numbers:?}"));
}
