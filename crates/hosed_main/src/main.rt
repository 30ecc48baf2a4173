//! The program `hosed`: it makes its standard streams, the files that it can reach, a port of this
//! machine and three tariffs, and hands them and its words to the program's one call, with whose
//! status it ends. As in
//! `cat demo/star.txt demo/star_script.txt | ./hosed run orders.journal`.
#![tactic(auto)]

use hose_disk::DirCabinet;
use hose_door::TcpDoor;
use hose_io::{StdSink, StdSource};
use hose_pool::PlainGate;
use hose_sockets::Ports;
use hosed_program::{
    Context, Hints, HostOutside, OwnedOutside, SystemWords, Watched, flat, hops, long, no_memory,
    start, tariffs,
};
use std::cell::Cell;
use std::process::ExitCode;

fn main(rt: HostRuntime) -> ExitCode {
    let alloc = rt.alloc();
    let unread = Cell::new(false);
    let mut world = OwnedOutside {
        input: StdSource::new(rt.stdin()),
        output: StdSink::new(Watched::new(rt.stdout(), &unread)),
        cabinet: DirCabinet::new(rt),
        door: TcpDoor::new(rt),
    };
    let mut host = HostOutside {
        doors: Ports::new(rt),
        threads: rt,
        errors: Some(rt.stderr()),
    };
    // A rule is boxed here, since what a function gives away of its own making is known by no
    // clause.
    let by_flat = Box::new(alloc, |length: u64| flat(length));
    let by_hops = Box::new(alloc, |length: u64| hops(length));
    let by_long = Box::new(alloc, |length: u64| long(length));
    let (Ok(by_flat), Ok(by_hops), Ok(by_long)) = (by_flat, by_hops, by_long) else {
        return ExitCode::from(no_memory(&rt, &mut world.output));
    };
    let Ok(tariffs) = tariffs(alloc, by_flat, by_hops, by_long) else {
        return ExitCode::from(no_memory(&rt, &mut world.output));
    };
    let context = Context {
        rt: &rt,
        alloc,
        gate: &PlainGate,
    };
    ExitCode::from(start(
        context,
        Hints {
            rt: &rt,
            unread: &unread,
        },
        &SystemWords { env: &rt },
        &tariffs,
        &mut world,
        &mut host,
    ))
}
