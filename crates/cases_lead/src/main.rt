//! A leader's side of a connection beside a follower in memory, which answers each piece that is
//! handed out. Each line of the input is a case: how many entries the leader has, how many bytes of
//! packets it keeps, how many entries the follower has, of which link these are, and which sync of
//! the follower's disk fails, or 0.
#![tactic(auto)]

mod machines;

use hose_disk::MemDisk;
use hose_lead::{Ending, RecentPackets, Stage, Standby};
use hose_store::Store;
use machines::{Trouble, answers_to, grown, leader};
use std::alloc::Global;

/// How often a piece is handed out and answered in a case.
const ROUNDS: usize = 4;

fn main(rt: HostRuntime) -> Result<(), Trouble> {
    let alloc = rt.alloc();
    for line in rt.stdin().lines(alloc) {
        let line = line?;
        println!(rt; "{line}")?;
        run_case(&rt, alloc, &numbers(&line))?;
    }
    Ok(())
}

// The numbers of a line.
fn numbers(line: &str) -> [u64; 5] {
    let mut numbers = [0; 5];
    let mut words = line.split_whitespace();
    for place in 0..5 {
        numbers[place] = words.next().and_then(|word| word.parse().ok()).unwrap_or(0);
    }
    numbers
}

fn run_case<R: Print>(rt: &R, alloc: Global, numbers: &[u64; 5]) -> Result<(), Trouble> {
    let recent = leader(alloc, numbers[0], numbers[1] as usize)?;
    let mut follower = grown(alloc, numbers[2], numbers[3], numbers[4])?;
    talk(rt, alloc, &recent, &mut follower)
}

// What is handed out, and how far the connection is after each answer.
fn talk<R: Print>(
    rt: &R,
    alloc: Global,
    recent: &RecentPackets,
    follower: &mut Store<MemDisk>,
) -> Result<(), Trouble> {
    let mut standby = Standby::new(alloc);
    for round in 0..ROUNDS {
        standby.fill(recent)?;
        let len = standby.unsent().len();
        let answers = answers_to(alloc, standby.unsent(), follower)?;
        standby.was_sent(len);
        standby.take_in(recent, &answers);
        if round == ROUNDS - 2 {
            standby.ask();
        }
        tell(rt, len, &standby)?;
    }
    Ok(())
}

fn tell<R: Print>(rt: &R, len: usize, standby: &Standby) -> Result<(), Trouble> {
    let (words, count) = words_of(standby.stage());
    let heard = standby.heard();
    println!(rt; "    {len} bytes, {words} {count}, heard {heard:?}")?;
    Ok(())
}

// How far a connection is, in words and a number of entries.
fn words_of(stage: Stage) -> (&'static str, u64) {
    match stage {
        Stage::Unasked => ("nothing is asked", 0),
        Stage::AskedEpoch => ("its epoch is asked", 0),
        Stage::ToldEpoch { start } => ("it has", start),
        Stage::AskedValue { start } => ("its value is asked at", start),
        Stage::Following { upto, .. } => ("handed out up to", upto),
        Stage::Ended { why } => words_of_ending(why),
    }
}

fn words_of_ending(why: Ending) -> (&'static str, u64) {
    match why {
        Ending::Ahead { count } => ("it is ahead at", count),
        Ending::Other { count, .. } => ("it differs at", count),
        Ending::Gone { count } => ("nothing is at hand at", count),
        Ending::Disk { count } => ("its disk fails at", count),
        Ending::Memory => ("it has no memory", 0),
        Ending::Stranger => ("it is a stranger", 0),
    }
}
