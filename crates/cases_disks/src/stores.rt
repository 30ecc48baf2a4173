// Stores on disks in memory, opened, with entries that are committed, closed and stopped.
use crate::disks::{fail, stopped};
use crate::names::BytesByName;
use crate::subject::is_other;
use cases_common::{CaseText, STOP_PICKS, Trouble, first, named, number};
use hose_book::{Book, Books, Committed};
use hose_codec::decode;
use hose_disk::{Disk, Failed, MemDisk, Pick};
use hose_store::{Store, StoreFault};
use std::alloc::Global;

// More bytes than a journal of a case has.
const MOST: usize = 4_000;

// A store that is opened on a disk, or why it is refused, and the disk.
type Opened = Result<Store<MemDisk>, (StoreFault, MemDisk)>;

fn disk_of(alloc: Global, bytes: &[u8]) -> Result<MemDisk, Trouble> {
    let mut disk = MemDisk::new(alloc)?;
    if bytes.len() < MOST {
        disk.write_at(0, bytes)?;
    }
    Ok(disk)
}

// The one call that opens a store, whose contract is long.
fn open(alloc: Global, network: &str, disk: MemDisk) -> Result<Opened, Trouble> {
    let top = named(alloc, network)?;
    Ok(Store::open(alloc, disk, top))
}

/// What is told of a store.
#[derive(Clone, Copy)]
pub enum StoreFact {
    Book,
    /// Its chain value, in digits.
    Chain,
}

/// What is told of a store that is opened on a disk of these bytes.
pub fn tell_found(
    network: &str,
    bytes: &[u8],
    fact: StoreFact,
    told: &mut CaseText,
) -> Result<(), Trouble> {
    let disk = disk_of(told.alloc(), bytes)?;
    tell_opening(network, disk, bytes, fact, told)
}

fn tell_opening(
    network: &str,
    disk: MemDisk,
    bytes: &[u8],
    fact: StoreFact,
    told: &mut CaseText,
) -> Result<(), Trouble> {
    tell_opened(&open(told.alloc(), network, disk)?, bytes, fact, told);
    Ok(())
}

// What is told of a store that was opened, or why it was refused.
fn tell_opened<D: Disk>(
    opened: &Result<Store<D>, (StoreFault, D)>,
    bytes: &[u8],
    fact: StoreFact,
    told: &mut CaseText,
) {
    match opened {
        Ok(store) => match fact {
            StoreFact::Book => tell_book(store.book(), told),
            StoreFact::Chain => told.add(hex::encode(told.alloc(), &store.chain())),
        },
        Err(refused) => tell_fault(&refused.0, bytes, told),
    }
}

// The epoch of a book, and what is reserved on its first three links.
fn tell_book(book: &Book, told: &mut CaseText) {
    let (alloc, epoch) = (told.alloc(), book.epoch());
    told.add(format!(in alloc; "book {epoch}"));
    for load in book.loads().iter().take(3) {
        told.add(format!(in alloc; " {load}"));
    }
}

// Of the digest that a journal has it is told only where that is not the one of its bytes.
fn tell_fault(fault: &StoreFault, bytes: &[u8], told: &mut CaseText) {
    let alloc = told.alloc();
    match fault {
        StoreFault::Damaged { at } => told.add(format!(in alloc; "damaged {at}")),
        StoreFault::Other { kept, given } => {
            told.put(if has_digest(bytes, kept) {
                "other than "
            } else {
                "another digest than "
            });
            told.add(hex::encode(alloc, given));
        }
        StoreFault::Disk => told.put("disk"),
        StoreFault::Memory => told.put("memory"),
    }
}

// Whether the bytes of a journal have this digest.
fn has_digest(bytes: &[u8], digest: &[u8]) -> bool {
    bytes.len() >= 38 && &bytes[6..38] == digest
}

/// How long the disk is that comes back where a store of the first network is refused on a disk of
/// these bytes, and what one of the second is opened as on it.
pub fn tell_again(
    network: &str,
    second: &str,
    bytes: &[u8],
    told: &mut CaseText,
) -> Result<(), Trouble> {
    let alloc = told.alloc();
    match open(alloc, network, disk_of(alloc, bytes)?)? {
        Ok(_) => Err(Trouble::Word),
        Err(refused) => tell_reopened(second, refused.1, bytes, told),
    }
}

fn tell_reopened(
    network: &str,
    mut disk: MemDisk,
    bytes: &[u8],
    told: &mut CaseText,
) -> Result<(), Trouble> {
    let len = disk.len()?;
    tell_opening(network, disk, bytes, StoreFact::Book, told)?;
    let alloc = told.alloc();
    told.add(format!(in alloc; " of {len} bytes"));
    Ok(())
}

/// Entries that are committed to the store of a network.
#[derive(Clone, Copy)]
pub struct StoreCase<'a> {
    pub names: &'a BytesByName,
    pub network: &'a str,
    /// The names of the entries. A word `on:NAME` has the disk hold the bytes of that name at
    /// first, and a word `KIND:NTH` has a call of it fail.
    pub words: &'a str,
}

impl StoreCase<'_> {
    // The bytes that the disk holds at first.
    fn first_bytes(&self) -> Result<&[u8], Trouble> {
        for word in self.words.split_whitespace() {
            if let Some(name) = word.strip_prefix("on:") {
                return self.names.get(name).ok_or(Trouble::Word);
            }
        }
        Ok(&[])
    }
}

/// What comes of entries that are committed to a store, which is then closed: how each of them
/// went, the book, how long the disk is and how many calls were made on it.
pub fn tell_commits(case: StoreCase<'_>, told: &mut CaseText) -> Result<(), Trouble> {
    let mut disk = run(case, told)?;
    tell_length(&mut disk, told)
}

fn tell_length(disk: &mut MemDisk, told: &mut CaseText) -> Result<(), Trouble> {
    let (alloc, calls, len) = (told.alloc(), disk.calls(), disk.len()?);
    told.add(format!(in alloc; ", {len} bytes after {calls} calls"));
    Ok(())
}

/// What is opened after a stop of such a store. The words `BEFORE:PICK` of the stop come first.
pub fn tell_left(case: StoreCase<'_>, told: &mut CaseText) -> Result<(), Trouble> {
    let (stop, words) = first(case.words);
    let disk = run(StoreCase { words, ..case }, told)?;
    tell_stopped(case.network, &disk, stop, told)
}

// The words are those of a stop so many calls before the last of these, and of a pick.
fn tell_stopped(
    network: &str,
    disk: &MemDisk,
    words: &str,
    told: &mut CaseText,
) -> Result<(), Trouble> {
    let (before, pick) = words.split_once(':').ok_or(Trouble::Word)?;
    let calls = disk.calls().saturating_sub(number(before)?);
    let pick = pick_of(pick)?;
    tell_after(network, disk, DiskStop { calls, pick }, told)
}

fn pick_of(word: &str) -> Result<Pick, Trouble> {
    match word {
        "kept" => Ok(Pick::Kept),
        "lost" => Ok(Pick::Lost),
        filled => Ok(Pick::Fill(filled.parse().ok().ok_or(Trouble::Word)?)),
    }
}

/// Tells what is opened after a stop of such a store, by the first of its calls and of the picks by
/// which it is none of what is wanted. Answers whether there is one.
pub fn tell_other_left(
    case: StoreCase<'_>,
    wanted: &str,
    told: &mut CaseText,
) -> Result<bool, Trouble> {
    let disk = run(case, told)?;
    tell_other_after(case.network, &disk, wanted, told)
}

fn tell_other_after(
    network: &str,
    disk: &MemDisk,
    wanted: &str,
    told: &mut CaseText,
) -> Result<bool, Trouble> {
    for calls in 0..=disk.calls() {
        for pick in STOP_PICKS {
            tell_after(network, disk, DiskStop { calls, pick }, told)?;
            if is_other(told, wanted)? {
                return Ok(true);
            }
        }
    }
    Ok(false)
}

// A stop after so many calls of a disk, and what it leaves of bytes that no sync made durable.
#[derive(Clone, Copy)]
struct DiskStop {
    calls: u64,
    pick: Pick,
}

// What is opened after a stop, and nothing that was told before.
fn tell_after(
    network: &str,
    disk: &MemDisk,
    stop: DiskStop,
    told: &mut CaseText,
) -> Result<(), Trouble> {
    told.clear();
    let disk = stopped(told.alloc(), disk, stop.calls, stop.pick)?;
    tell_opening(network, disk, &[], StoreFact::Book, told)
}

// The disk on which entries were committed and the store closed. It is told how these went, and the
// book then, or why no store was opened.
fn run(case: StoreCase<'_>, told: &mut CaseText) -> Result<MemDisk, Trouble> {
    let disk = first_disk(told.alloc(), case)?;
    match open(told.alloc(), case.network, disk)? {
        Ok(store) => went(case, store, told),
        Err(refused) => Ok(returned(refused, told)),
    }
}

fn returned(refused: (StoreFault, MemDisk), told: &mut CaseText) -> MemDisk {
    tell_fault(&refused.0, &[], told);
    refused.1
}

fn went(
    case: StoreCase<'_>,
    store: Store<MemDisk>,
    told: &mut CaseText,
) -> Result<MemDisk, Trouble> {
    let mut store = store;
    commit_all(case, &mut store, told)?;
    Ok(closed(store, told))
}

// A disk on which no call was made yet, of which some are to fail.
fn first_disk(alloc: Global, case: StoreCase<'_>) -> Result<MemDisk, Trouble> {
    let written = disk_of(alloc, case.first_bytes()?)?;
    let mut disk = stopped(alloc, &written, written.calls(), Pick::Kept)?;
    fail_all(&mut disk, case.words)?;
    Ok(disk)
}

fn fail_all(disk: &mut MemDisk, words: &str) -> Result<(), Trouble> {
    for word in words.split_whitespace() {
        if !names_entry(word) && !word.starts_with("on:") {
            fail(disk, word)?;
        }
    }
    Ok(())
}

fn names_entry(word: &str) -> bool {
    word.split_once(':').is_none()
}

fn commit_all(
    case: StoreCase<'_>,
    store: &mut Store<MemDisk>,
    told: &mut CaseText,
) -> Result<(), Trouble> {
    for word in case.words.split_whitespace() {
        if names_entry(word) {
            let spelling = case.names.get(word).ok_or(Trouble::Word)?;
            told.put(commit(told.alloc(), store, spelling)?);
        }
    }
    Ok(())
}

fn commit(
    alloc: Global,
    store: &mut Store<MemDisk>,
    spelling: &[u8],
) -> Result<&'static str, Trouble> {
    let entry = decode(alloc, spelling)?;
    let ready = Store::<MemDisk>::prepare(alloc, &entry)?;
    if store.book().check(&entry).is_err() {
        return Ok("not sound ");
    }
    Ok(word_of(store.commit(entry, ready)))
}

fn word_of(committed: Committed) -> &'static str {
    if committed == Committed::Done {
        "done "
    } else if committed == Committed::Disk {
        "disk "
    } else {
        "memory "
    }
}

// Tells whether closing succeeded, and the book then.
fn closed(store: Store<MemDisk>, told: &mut CaseText) -> MemDisk {
    let (closing, disk, book) = close(store);
    told.put(if closing.is_ok() {
        "closed "
    } else {
        "not closed "
    });
    tell_book(&book, told);
    disk
}

// The one call that closes a store, whose contract is long.
fn close(store: Store<MemDisk>) -> (Result<(), Failed>, MemDisk, Book) {
    store.close()
}
