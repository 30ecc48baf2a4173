// The lock with one history, over a list of entries that stands for itself.
ghost use Rattle.std.specs.Prelude.{◌≡◌, ◌+◌, ◌∷◌, [], ◌++◌, length, IfOk, OnOk, OnErr};

use crate::passes::there_and_back;
use hose_graph::{Entry, Name};
use hose_turn::{ALL_SHARES, HoldsHistory, Pass, Turn};
use std::alloc::{AllocError, Global};
use std::snapshot::Snapshot;
use std::sync::Wait;
use std::test::Fail;
use std::thread;

/// A list of entries, which is the list for which it stands.
#[derive(Drop)]
struct Log {
    entries: Vec<Entry>,
}

impl HoldsHistory for Log {
    ghost stands = { λ origin history tries log. (log.entries.items ≡ history)
        × (origin.first ≡ 0) };

    ghost faults = { λ log. 0 };

    fn epoch(&self) -> u64 {
        self.entries.len() as u64
    }
}

impl Log {
    fn add(&mut self, alloc: Global, entry: &Entry) -> Result<(), AllocError>
        ensures ok { OnOk result
            (self.new.entries.items ≡ self.old.entries.items ++ entry.now ∷ []) }
        ensures err { OnErr result (self.new.entries.items ≡ self.old.entries.items) }
    {
        self.entries.push(entry.copy(alloc)?)?;
        Ok(())
    }
}

/// A lock round the log, with this first ticket, and its first pass.
fn locked(alloc: Global, log: Log, ticket: u64) -> Result<(Turn<Log>, Pass), AllocError>
    ensures turn { IfOk result (λ made. made.1.turn ≡ made.0) }
    ensures share { IfOk result (λ made. made.1.share ≡ ALL_SHARES) }
    ensures seen { IfOk result (λ made. made.1.seen ≡ log.entries.items) }
{
    match Turn::from_ticket(alloc, log, ticket) {
        Ok(made) => Ok(made),
        Err(_log) => Err(AllocError),
    }
}

/// The entry is added in one turn of the pass, and is its own.
fn add<W: Wait>(
    rt: &W,
    alloc: Global,
    turn: &Turn<Log>,
    pass: Pass,
    entry: &Entry,
) -> Result<Pass, AllocError>
    requires { pass.turn ≡ turn.now }
    ensures same { IfOk result (λ after. (after.turn ≡ pass.turn) × (after.share ≡ pass.share)) }
    ensures own { IfOk result (λ after. length after.own ≡ length pass.own + 1) }
{
    let mut held = turn.lock(rt, pass);
    let added = held.value_mut().add(alloc, entry);
    if added.is_ok() {
        turn.count(&mut held, Snapshot::of(entry));
    }
    let pass = turn.unlock(held);
    added?;
    Ok(pass)
}

/// Entries of one customer, numbered from 0, each added in a turn of its own.
fn add_many<W: Wait>(
    rt: &W,
    alloc: Global,
    turn: &Turn<Log>,
    pass: Pass,
    customer: Name,
    count: u64,
) -> Result<Pass, AllocError>
    requires { pass.turn ≡ turn.now }
    ensures same { IfOk result (λ after. (after.turn ≡ pass.turn) × (after.share ≡ pass.share)) }
    ensures own { IfOk result (λ after. length after.own ≡ length pass.own + count) }
{
    let mut pass = pass;
    for id in 0..count {
        pass = add(rt, alloc, turn, pass, &Entry::Release { customer, id })?;
    }
    Ok(pass)
}

fn log_of(alloc: Global, customer: Name, count: u64) -> Result<Log, AllocError> {
    let mut entries = Vec::new(alloc);
    for id in 0..count {
        entries.push(Entry::Release { customer, id })?;
    }
    Ok(Log { entries })
}

/// Whether the list has so many entries, and those of a customer are numbered from 0 up to a count.
fn counts_up(log: &Log, len: usize, customer: &[u8], count: u64) -> bool {
    let mut next = 0u64;
    for entry in &log.entries {
        if is_of(entry, customer) {
            if !is_number(entry, next) {
                return false;
            }
            next = next.saturating_add(1);
        }
    }
    log.entries.len() == len && next == count
}

fn is_of(entry: &Entry, wanted: &[u8]) -> bool {
    match entry {
        Entry::Release { customer, .. } => customer.bytes() == wanted,
        Entry::Admit { .. } | Entry::Down { .. } | Entry::Up { .. } => false,
    }
}

fn is_number(entry: &Entry, wanted: u64) -> bool {
    match entry {
        Entry::Release { id, .. } => *id == wanted,
        Entry::Admit { .. } | Entry::Down { .. } | Entry::Up { .. } => false,
    }
}

#[test]
fn the_value_comes_back_as_it_was(rt: HostRuntime) -> Result<(), Fail> {
    let one = Name::read(b"one").ok_or("no name")?;
    let (turn, pass) = locked(rt.alloc(), log_of(rt.alloc(), one, 3)?, 0)?;
    let held = turn.lock(&rt, pass);
    assert!(rt; held.value().epoch() == 3);
    let mut pass = turn.unlock(held);
    there_and_back(&turn, &mut pass);
    assert!(rt; counts_up(&turn.close(pass), 3, b"one", 3));
    Ok(())
}

#[test]
fn tickets_go_on_after_the_greatest_number(rt: HostRuntime) -> Result<(), Fail> {
    let one = Name::read(b"one").ok_or("no name")?;
    let log = log_of(rt.alloc(), one, 0)?;
    let (turn, pass) = locked(rt.alloc(), log, u64::MAX - 2)?;
    let pass = add_many(&rt, rt.alloc(), &turn, pass, one, 5)?;
    assert!(rt; counts_up(&turn.close(pass), 5, b"one", 5));
    Ok(())
}

#[test]
fn two_threads_count_a_hundred_entries_each(rt: HostRuntime) -> Result<(), Fail> {
    let one = Name::read(b"one").ok_or("no name")?;
    let two = Name::read(b"two").ok_or("no name")?;
    let alloc = rt.alloc();
    let (turn, mut pass) = locked(alloc, log_of(alloc, one, 0)?, 0)?;
    let other = turn.split(&mut pass);
    let (mine, theirs) = thread::join(
        &rt,
        || add_many(&rt, alloc, &turn, pass, one, 100),
        || add_many(&rt, alloc, &turn, other, two, 100),
    );
    let mut pass = mine?;
    turn.join(&mut pass, theirs?);
    let log = turn.close(pass);
    assert!(rt; counts_up(&log, 200, b"one", 100));
    assert!(rt; counts_up(&log, 200, b"two", 100));
    Ok(())
}
