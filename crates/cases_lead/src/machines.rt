// Two machines in memory.
use hose_book::Books;
use hose_disk::{DiskCall, MemDisk};
use hose_follow::{follow, offer};
use hose_io::{MemSink, MemSource};
use hose_lead::RecentPackets;
use hose_store::Store;
use hose_topo::read;
use hose_words::LineReader;
use std::alloc::{AllocError, Global};
use std::io;

// Two links from one node to two others.
const NETWORK: &str = "node a\nnode b\nnode c\nlink a b 10 1\nlink a c 10 1\nend\n";

/// Why a case is not run.
#[derive(Debug, Drop)]
pub enum Trouble {
    Memory,
    Disk,
    Text,
    Output(io::Error),
}

impl From<AllocError> for Trouble {
    fn from(_error: AllocError) -> Trouble {
        Trouble::Memory
    }
}

impl From<io::Error> for Trouble {
    fn from(error: io::Error) -> Trouble {
        Trouble::Output(error)
    }
}

// An empty disk, of which this sync fails.
fn disk(alloc: Global, fails: u64) -> Result<MemDisk, AllocError> {
    let mut disk = MemDisk::new(alloc)?;
    disk.fail(DiskCall::Sync, fails)?;
    Ok(disk)
}

// A store with no entry, on a disk of which this sync fails.
fn begun(alloc: Global, fails: u64) -> Result<Store<MemDisk>, Trouble> {
    let source = MemSource::new(alloc, NETWORK.as_bytes(), 4_096)?;
    let Ok(top) = read(alloc, &mut LineReader::new(source)) else {
        return Err(Trouble::Text);
    };
    match Store::open(alloc, disk(alloc, fails)?, top) {
        Ok(store) => Ok(store),
        Err(_) => Err(Trouble::Disk),
    }
}

// The spelling of an entry that takes a link out of service, or puts it back each second time.
fn spelling(number: u64, link: u64) -> [u8; 3] {
    let kind = if number % 2 == 0 { 3 } else { 4 };
    [kind, 0, (link % 2) as u8]
}

// Enters one more entry.
fn enter(alloc: Global, store: &mut Store<MemDisk>, body: &[u8]) {
    let epoch = store.book().epoch().saturating_add(1);
    let chain = store.chain();
    let _ = offer(alloc, store, epoch, chain, body);
}

/// A store with so many entries of a link, on a disk of which this sync fails.
pub fn grown(alloc: Global, count: u64, link: u64, fails: u64) -> Result<Store<MemDisk>, Trouble> {
    let mut store = begun(alloc, fails)?;
    for number in 0..count {
        enter(alloc, &mut store, &spelling(number, link));
    }
    Ok(store)
}

/// What is at hand of a leader with so many entries of the first link.
pub fn leader(alloc: Global, count: u64, limit: usize) -> Result<RecentPackets, Trouble> {
    let mut store = begun(alloc, 0)?;
    let mut recent = RecentPackets::new(alloc, limit, 0, store.chain());
    for number in 0..count.min(1_000) {
        let body = spelling(number, 0);
        enter(alloc, &mut store, &body);
        recent.push(&body, store.chain())?;
    }
    Ok(recent)
}

/// What a follower answers to bytes.
pub fn answers_to(
    alloc: Global,
    bytes: &[u8],
    follower: &mut Store<MemDisk>,
) -> Result<Vec<u8>, Trouble> {
    let mut source = MemSource::new(alloc, bytes, 4_096)?;
    let mut sink = MemSink::new(alloc)?;
    let _ = follow(alloc, &mut source, &mut sink, follower);
    Ok(Vec::from_slice(alloc, sink.bytes())?)
}
