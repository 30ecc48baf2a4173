//! Scripts of doors and connections in memory, at which a host answers, and what happened. Each
//! line is an act, which a number before it has come so often, and an empty line ends a script; in
//! the bytes that a connection gives, `/` is a line feed. Where the words of a host stand in a
//! script, its lines are answered by the book of a journal at the doors of these words, of which
//! `shut` has one that cannot be opened; else lines are counted, and `standby` says where a standby
//! is. `room` says how many bytes a write takes at most.
#![tactic(auto)]

mod by_book;
mod counter;
mod outgoing;
mod script;
mod telling;

use by_book::run_by_book;
use counter::Counter;
use hose_host::host;
use hose_net::MemConnections;
use script::Script;
use std::alloc::Global;
use std::io;
use telling::{tell, tell_parting};

/// How many bytes a write takes at most where a script does not say it.
pub const ROOM: usize = 40;

fn main(rt: HostRuntime) -> io::Result<()> {
    let alloc = rt.alloc();
    let mut script = Script::new(alloc);
    for line in rt.stdin().lines(alloc) {
        let line = line?;
        println!(rt; "{line}")?;
        if !line.is_empty() {
            script.add(alloc, &line)?;
            continue;
        }
        if script.words.is_empty() {
            count_lines(&rt, alloc, script)?;
        } else {
            run_by_book(rt, alloc, script, rt.stderr())?;
        }
        script = Script::new(alloc);
    }
    Ok(())
}

// Runs a host that counts lines, and tells what happened.
fn count_lines<R: Print + std::sync::Wait>(
    rt: &R,
    alloc: Global,
    script: Script,
) -> io::Result<()> {
    let mut network = MemConnections::new(alloc, script.acts, script.room);
    let mut answers = Counter::new(alloc, script.standby)?;
    let why = host(rt, alloc, &mut network, &mut answers);
    tell(rt, network.happened())?;
    tell_parting(rt, why)
}
