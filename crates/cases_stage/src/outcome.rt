// What came of a case.
use crate::streams::{CaseEnds, LongSource, NarrowSink};
use hose_disk::{Disk, MemDisk};
use std::alloc::{AllocError, Global};

/// What came of a case.
#[derive(Drop)]
pub struct Outcome {
    pub status: u64,
    pub output: Vec<u8>,
    /// How many bytes of the input were taken.
    pub taken: u64,
    /// The disk of the journal, as it was put back.
    pub disk: Option<MemDisk>,
    /// What the journal of another network holds.
    pub moved: Vec<u8>,
    /// What each connection was given, in their order: nothing where it did not end.
    pub given: Vec<Vec<u8>>,
    /// Whether a session went on before the other had come so far.
    pub is_alone: bool,
}

impl Outcome {
    /// What came of a case, of which no stream is told yet.
    pub fn new(alloc: Global, status: u64, disk: Option<MemDisk>) -> Outcome {
        Outcome {
            status,
            output: Vec::new(alloc),
            taken: 0,
            disk,
            moved: Vec::new(alloc),
            given: Vec::new(alloc),
            is_alone: false,
        }
    }

    /// Adds what a session or a connection was given.
    pub fn add_given(&mut self, alloc: Global, given: &[u8]) -> Result<(), AllocError> {
        self.given.push(Vec::from_slice(alloc, given)?)?;
        Ok(())
    }

    /// Tells what went through the ends of a session.
    pub fn tell_ends(&mut self, ends: &CaseEnds<LongSource, NarrowSink>) -> Result<(), AllocError> {
        self.taken = ends.source.taken();
        self.output.extend_from_slice(ends.sink.bytes())
    }

    /// What the disk of the journal holds: nothing where it was not put back.
    pub fn left(&mut self, alloc: Global) -> Result<Vec<u8>, AllocError> {
        match &mut self.disk {
            Some(disk) => held(alloc, disk),
            None => Ok(Vec::new(alloc)),
        }
    }
}

/// What a disk holds of which no call is to fail.
pub fn held(alloc: Global, disk: &mut MemDisk) -> Result<Vec<u8>, AllocError> {
    let len = disk.len().unwrap_or(0);
    let mut bytes = Vec::from_elem(alloc, 0, len as usize)?;
    fill(disk, &mut bytes);
    Ok(bytes)
}

// Reads what a disk has at its front, at most 4 GiB.
fn fill<D: Disk>(disk: &mut D, bytes: &mut [u8]) {
    if bytes.len() as u64 <= 1 << 32 {
        let _ = disk.read_at(0, bytes);
    }
}

/// What came of two sessions at once: the disk of their book, and what each was given.
pub fn outcome_of_two(
    alloc: Global,
    disk: MemDisk,
    mine: Result<Vec<u8>, AllocError>,
    theirs: Result<Vec<u8>, AllocError>,
) -> Result<Outcome, AllocError> {
    let mut outcome = Outcome::new(alloc, 0, Some(disk));
    let added = add_both(&mut outcome.given, mine, theirs);
    whole(outcome, added)
}

fn add_both(
    given: &mut Vec<Vec<u8>>,
    mine: Result<Vec<u8>, AllocError>,
    theirs: Result<Vec<u8>, AllocError>,
) -> Result<(), AllocError> {
    add_one(given, mine)?;
    add_one(given, theirs)
}

fn add_one(given: &mut Vec<Vec<u8>>, one: Result<Vec<u8>, AllocError>) -> Result<(), AllocError> {
    given.push(one?)?;
    Ok(())
}

/// The outcome, where all of it was told.
pub fn whole(outcome: Outcome, told: Result<(), AllocError>) -> Result<Outcome, AllocError> {
    match told {
        Ok(()) => Ok(outcome),
        Err(error) => Err(error),
    }
}
