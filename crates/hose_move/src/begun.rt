// Whether a journal was begun on a disk, which is only read.
ghost use Rattle.std.specs.Prelude.{◌≡◌, Ok, IfSome, IsErr, OnOk, false, true};
ghost use Rattle.hose_journal.specs.Image.{IsUnbegun};
ghost use Rattle.hose_journal.specs.Layout.{empty_bytes, open_gate};
ghost use Rattle.hose_journal.specs.Moments.{KeepsCount};
ghost use Rattle.hose_journal.specs.Reading.{HasFailed};
ghost use Rattle.hose_journal.specs.steps.Reading.{OnlyRead};

use hose_disk::{Disk, Failed};

// How many bytes a journal without an entry has.
const EMPTY_BYTES: u64 = 39;

// The first byte of a journal that was begun.
const OPEN: u8 = 1;

/// Whether a journal was begun on a disk: it has more bytes than one without an entry, or as many
/// and its first gate is open.
pub fn is_begun<D: Disk>(disk: &mut D) -> Result<bool, Failed>
    ensures begun { result ≡ Ok true →
        IfSome (D.content disk.old) (λ bytes. ¬ IsUnbegun bytes) }
    ensures unbegun { result ≡ Ok false → IfSome (D.content disk.old) IsUnbegun }
    ensures only { OnlyRead D.Disk disk.old disk.new }
    ensures count { OnOk result (KeepsCount D.Disk disk.old disk.new) }
    ensures failed { IsErr result → HasFailed D.Disk disk.old disk.new }
{
    let len = disk.len()?;
    if len != EMPTY_BYTES {
        return Ok(len > EMPTY_BYTES);
    }
    let mut gate = [0];
    let count = disk.read_at(0, &mut gate)?;
    Ok(count > 0 && gate[0] == OPEN)
}
