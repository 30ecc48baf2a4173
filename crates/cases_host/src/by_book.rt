// A host that answers by a book, as its words ask for it.
ghost use Rattle.std.specs.Prelude.{◌≡◌, IfOk, None};
ghost use Rattle.hose_disk.specs.steps.CabinetState.{cabinet_frame};

use crate::script::Script;
use crate::telling::{name_of, tell_doors};
use hose_disk::{MemCabinet, MemDisk};
use hose_io::{MemSink, MemSource};
use hose_net::MemDoors;
use hosed_host::HostWhy;
use hosed_program::{HostOutside, host_ended};
use hosed_requests::asks_to_host;
use std::alloc::{AllocError, Global};
use std::io;
use std::io::Write;
use std::sync::Wait;
use std::thread::Threads;
use std::time::Clock;

// The topologies, under the names that scripts give them, and the name of the journal.
const NETWORK: &[u8] = b"node a\nnode b\nlink a b 10 7\nend\n";

const TEXT: &[u8] = b"net.txt";

const WIDE: &[u8] = b"node a\nnode b\nlink a b 1000 7\nend\n";

const WIDE_TEXT: &[u8] = b"wide.txt";

const JOURNAL: &[u8] = b"j";

/// Runs a host as the words of a script say, and tells what came of it.
pub fn run_by_book<
    R: Print + Threads + Wait + Clock + Copy + Drop + Send + 'static,
    S: Write + Drop + Send + 'static,
>(rt: R, alloc: Global, script: Script, errors: S) -> io::Result<()> {
    let doors = MemDoors::new(alloc, script.acts, script.room, script.shut);
    let mut input = MemSource::new(alloc, b"", 1)?;
    let mut output = MemSink::new(alloc)?;
    let mut cabinet = cabinet_of(alloc)?;
    let mut host = HostOutside {
        doors,
        threads: rt,
        errors: Some(errors),
    };
    let words = script.words;
    if asks_to_host(&words) {
        let ended = host_ended(
            &rt,
            alloc,
            &words,
            &[],
            &mut input,
            &mut output,
            &mut cabinet,
            &mut host,
        );
        tell_doors(&rt, host.doors.done())?;
        tell_output(&rt, output.bytes())?;
        tell_why(&rt, ended.why)?;
    }
    Ok(())
}

fn cabinet_of(alloc: Global) -> Result<MemCabinet, AllocError>
    ensures { IfOk result (λ cabinet. (cabinet_frame cabinet).out ≡ None) }
{
    let mut cabinet = MemCabinet::of(alloc, JOURNAL, MemDisk::new(alloc)?)?;
    cabinet.add_text(alloc, TEXT, NETWORK)?;
    cabinet.add_text(alloc, WIDE_TEXT, WIDE)?;
    Ok(cabinet)
}

fn tell_output<R: Print>(rt: &R, output: &[u8]) -> io::Result<()> {
    for line in std::str::from_utf8(output).unwrap_or("?").lines() {
        tell_line(rt, line)?;
    }
    Ok(())
}

// Tells a line: of the link between both nodes its number and what it carries.
fn tell_line<R: Print>(rt: &R, line: &str) -> io::Result<()> {
    match (line.split_once(" a b "), line.split_once(" load ")) {
        (Some((link, _)), Some((_, load))) => println!(rt; "    told {link} .. load {load}"),
        _ => println!(rt; "    told {line}"),
    }
}

fn tell_why<R: Print>(rt: &R, why: HostWhy) -> io::Result<()> {
    let status = why.status();
    match why {
        HostWhy::Door(word, trouble) => {
            println!(rt;
                "    status {status}: the door of word {word}: {}",
                name_of(trouble)
            )
        }
        _ => println!(rt; "    status {status}"),
    }
}
