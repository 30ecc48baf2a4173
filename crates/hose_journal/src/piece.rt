// The piece of a disk's content that was read last.
ghost use Rattle.std.specs.Prelude.{◌≡◌, ◌+◌, ◌-◌, ◌<◌, ◌≤◌, ◌^◌, ◌↔◌, ◌⊎◌, IfOk, IfSome, IsErr, IsTrue, OnOk, drop, length, take};
ghost use Rattle.hose_journal.specs.Moments.{KeepsCount};
ghost use Rattle.hose_journal.specs.Reading.{HasFailed};
ghost use Rattle.hose_journal.specs.steps.Reading.{IsPiece, OnlyRead, CoversRecord};

use crate::layout::{MOST_PART, PIECE_BYTES};
use hose_disk::{Disk, Failed};
use std::alloc::{AllocError, Global};

/// A piece of a disk's content: so many bytes from a place on.
#[derive(Drop)]
pub struct Piece {
    bytes: Vec<u8>,
    from: u64,
    len: usize,
}

impl Piece {
    /// An empty one.
    pub fn new(alloc: Global) -> Result<Piece, AllocError>
        ensures { IfOk result (λ piece. length piece.bytes.items ≡ PIECE_BYTES) }
    {
        Ok(Piece {
            bytes: Vec::from_elem(alloc, 0, PIECE_BYTES)?,
            from: 0,
            len: 0,
        })
    }

    /// Reads the piece at a place, where the disk has this length.
    pub fn load<D: Disk>(&mut self, disk: &mut D, at: u64, end: u64) -> Result<(), Failed>
        requires size { length self.old.bytes.items ≡ PIECE_BYTES }
        requires within { at ≤ end }
        requires small { end < 2 ^ 62 }
        ensures piece { OnOk result (IsPiece (D.content disk.new) end self.new) }
        ensures from { self.new.from ≡ at }
        ensures only { OnlyRead D.Disk disk.old disk.new }
        ensures count { OnOk result (KeepsCount D.Disk disk.old disk.new) }
        ensures failed { IsErr result → HasFailed D.Disk disk.old disk.new }
    {
        self.from = at;
        self.len = 0;
        self.len = read_piece(disk, at, end, &mut self.bytes)?;
        Ok(())
    }

    /// Whether it has all that a record at this place needs, or all up to the disk's end.
    pub fn reaches(&self, at: u64) -> bool
        ensures { IsTrue result ↔ CoversRecord self.now at }
    {
        if at < self.from {
            return false;
        }
        self.len < PIECE_BYTES || at - self.from <= (PIECE_BYTES - MOST_PART) as u64
    }

    /// Its bytes from this place on.
    pub fn rest(&self, at: u64) -> &[u8]
        requires from { self.now.from ≤ at }
        requires size { length self.now.bytes.items ≡ PIECE_BYTES }
        requires fits { self.now.len ≤ PIECE_BYTES }
        ensures { result.now ≡ drop (at - self.now.from) (take self.now.len self.now.bytes.items) }
    {
        let skip = (at - self.from).min(self.len as u64) as usize;
        &self.bytes[skip..self.len]
    }
}

// Reads from a place on, as much as there is room for, where the disk has this length.
fn read_piece<D: Disk>(disk: &mut D, at: u64, end: u64, into: &mut [u8]) -> Result<usize, Failed>
    requires size { length into.old ≡ PIECE_BYTES }
    requires within { at ≤ end }
    requires small { end < 2 ^ 62 }
    ensures few { IfOk result (λ count. count ≤ PIECE_BYTES) }
    ensures within { IfOk result (λ count. at + count ≤ end) }
    ensures read { IfOk result (λ count. IfSome (D.content disk.new) (λ bytes.
        length bytes ≡ end → take count into.new ≡ take PIECE_BYTES (drop at bytes))) }
    ensures only { OnlyRead D.Disk disk.old disk.new }
    ensures count { OnOk result (KeepsCount D.Disk disk.old disk.new) }
    ensures failed { IsErr result → HasFailed D.Disk disk.old disk.new }
{
    let room = PIECE_BYTES.min((end - at) as usize);
    let count = disk.read_at(at, &mut into[..room])?;
    Ok(count)
}
