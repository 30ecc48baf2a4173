// Opening a journal: one sync, and then only reading, unless none was begun.
ghost use Rattle.std.specs.Prelude.{◌≡◌, ◌⊎◌, ◌↔◌, [], ◌++◌, List, ℕ, IfErr, IfOk, IfSome, IsErr, IsTrue, MatchResult, OnOk, length};
ghost use Rattle.hose_journal.specs.Image.{IsUnbegun};
ghost use Rattle.hose_journal.specs.Moments.{KeepsCount, LeavesOnly};
ghost use Rattle.hose_journal.specs.Opening.{AddsNoRecord, KeepsDisk};
ghost use Rattle.hose_journal.specs.steps.Opening.{HasHead, IsFront, IsOpened, IsRefusedJournal, KeepsList, KeepsOrBegins};
ghost use Rattle.hose_journal.specs.Reading.{HasFailed};
ghost use Rattle.hose_journal.specs.steps.Reading.{IsOpen, OnlyRead, Reads};

use crate::beginning::begin;
use crate::fault::JournalFault;
use crate::layout::{
    BUFFER_BYTES, CHAINED, DIGEST_BYTES, EMPTY_BYTES, HEAD_BYTES, MARK, OPEN, PIECE_BYTES, PLAIN,
    VERSION_AT,
};
use crate::part::is_same;
use crate::piece::Piece;
use crate::reading::Reading;
use hose_disk::{Disk, Failed};
use std::alloc::Global;

/// A journal that was begun: the disk's length, and whether its records have chain values from the
/// first one on.
#[derive(Clone, Copy)]
pub struct BegunJournal {
    pub end: u64,
    pub chained: bool,
}

/// Opens the journal on a disk, for the topology of this digest. Where none was begun, it begins
/// one. Where it is refused the disk comes back.
pub fn open<D: Disk>(
    alloc: Global,
    disk: D,
    digest: [u8; DIGEST_BYTES],
) -> Result<Reading<D>, (JournalFault, D)>
    // At every moment an image is one of before, or stands for the list that there was.
    ensures any_moment { MatchResult result
        (λ reading. LeavesOnly D.Disk disk reading.disk (IsOpened D.Disk disk digest))
        (λ refused. LeavesOnly D.Disk disk refused.1 (IsOpened D.Disk disk digest)) }
    ensures reads { IfOk result (λ reading. Reads D.Disk reading digest []) }
    ensures list { IfOk result (λ reading.
        KeepsList (D.content disk) (D.content reading.disk) digest) }
    ensures version { IfOk result (λ reading.
        KeepsOrBegins (D.content disk) (D.content reading.disk) digest) }
    ensures adds { MatchResult result
        (λ reading. AddsNoRecord (D.content disk) (D.content reading.disk) digest)
        (λ refused. AddsNoRecord (D.content disk) (D.content refused.1) digest) }
    ensures fault { IfOk result (λ reading. reading.fault ≡ None) }
    ensures count { IfOk result (λ reading. KeepsCount D.Disk disk reading.disk) }
    ensures refused { IfErr result (λ refused.
        IsRefusedJournal D.Disk disk refused.1 digest refused.0) }
    ensures keeps { MatchResult result
        (λ reading. KeepsDisk D.Disk disk reading.disk)
        (λ refused. KeepsDisk D.Disk disk refused.1) }
{
    let mut disk = disk;
    let Ok(mut piece) = Piece::new(alloc) else {
        return Err((JournalFault::Memory, disk));
    };
    let Ok(buffer) = Vec::with_capacity(alloc, BUFFER_BYTES) else {
        return Err((JournalFault::Memory, disk));
    };
    match prepare(&mut disk, &mut piece, &digest) {
        Ok(begun) => Ok(Reading::first(alloc, disk, piece, begun, digest, buffer)),
        Err(fault) => Err((fault, disk)),
    }
}

// Begins a journal or checks its head, and tells what was begun.
fn prepare<D: Disk>(
    disk: &mut D,
    piece: &mut Piece,
    digest: &[u8; DIGEST_BYTES],
) -> Result<BegunJournal, JournalFault>
    requires { length piece.old.bytes.items ≡ PIECE_BYTES }
    ensures any_moment { LeavesOnly D.Disk disk.old disk.new (IsOpened D.Disk disk.old digest.now) }
    ensures open { IfOk result (λ begun. IsOpen D.Disk disk.new piece.new begun digest.now) }
    ensures list { OnOk result
        (KeepsList (D.content disk.old) (D.content disk.new) digest.now) }
    ensures version { OnOk result
        (KeepsOrBegins (D.content disk.old) (D.content disk.new) digest.now) }
    ensures adds { AddsNoRecord (D.content disk.old) (D.content disk.new) digest.now }
    ensures count { OnOk result (KeepsCount D.Disk disk.old disk.new) }
    ensures refused { IfErr result (IsRefusedJournal D.Disk disk.old disk.new digest.now) }
    ensures keeps { KeepsDisk D.Disk disk.old disk.new }
{
    disk.sync()?;
    let end = load_front(disk, piece)?;
    if !is_unbegun(piece.rest(0)) {
        return match check_head(piece.rest(0), digest) {
            Ok(chained) => Ok(BegunJournal { end, chained }),
            Err(fault) => Err(fault),
        };
    }
    begin(disk, digest)?;
    let end = load_front(disk, piece)?;
    if end <= HEAD_BYTES as u64 {
        return Err(JournalFault::Damaged { at: 0 });
    }
    Ok(BegunJournal { end, chained: true })
}

// Reads the first piece, and tells the disk's length.
fn load_front<D: Disk>(disk: &mut D, piece: &mut Piece) -> Result<u64, Failed>
    requires { length piece.old.bytes.items ≡ PIECE_BYTES }
    ensures front { IfOk result (IsFront D.Disk disk.new piece.new) }
    ensures only { OnlyRead D.Disk disk.old disk.new }
    ensures count { OnOk result (KeepsCount D.Disk disk.old disk.new) }
    ensures failed { IsErr result → HasFailed D.Disk disk.old disk.new }
{
    let end = disk.len()?;
    piece.load(disk, 0, end)?;
    Ok(end)
}

// Whether a disk that begins so has a journal that was not begun.
fn is_unbegun(front: &[u8]) -> bool
    ensures { IsTrue result ↔ IsUnbegun front.now }
{
    front.len() < EMPTY_BYTES || front.len() == EMPTY_BYTES && front[0] != OPEN
}

// Whether the records of a journal of this topology have chain values, by its head.
fn check_head(front: &[u8], digest: &[u8; DIGEST_BYTES]) -> Result<bool, JournalFault>
    requires { ¬ IsUnbegun front.now }
    ensures { HasHead front.now digest.now result }
{
    if front[0] != OPEN {
        return Err(JournalFault::Damaged { at: 0 });
    }
    if !is_same(&front[1..1 + MARK.len()], &MARK) {
        return Err(JournalFault::Damaged { at: 1 });
    }
    let version = front[VERSION_AT];
    if version != PLAIN && version != CHAINED {
        return Err(JournalFault::Damaged { at: 1 });
    }
    let mut kept = [0; DIGEST_BYTES];
    kept.copy_from_slice(&front[1 + VERSION_AT..HEAD_BYTES]);
    if !is_same(&kept, digest) {
        return Err(JournalFault::Other {
            kept,
            given: *digest,
        });
    }
    Ok(version == CHAINED)
}
