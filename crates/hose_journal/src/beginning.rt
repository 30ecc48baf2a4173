// Beginning a journal. Until the last write a stop leaves one that was not begun.
ghost use Rattle.std.specs.Prelude.{◌≡◌, ◌∷◌, ◌++◌, [], OnOk};
ghost use Rattle.hose_disk.specs.steps.Disk.{IsCalled};
ghost use Rattle.hose_journal.specs.Image.{IsClosed, IsUnbegun, front_of};
ghost use Rattle.hose_journal.specs.declared.layout.TheConstants.{CHAINED};
ghost use Rattle.hose_journal.specs.Moments.{Images, LeavesOnly, TellsAsBefore};
ghost use Rattle.hose_journal.specs.steps.Moments.{ReadsItsImages};
ghost use Rattle.hose_journal.specs.Opening.{HasNoRecord};

use crate::layout::{CHAINED, CLOSED, DIGEST_BYTES, HEAD_BYTES, MARK, OPEN, VERSION_AT};
use crate::steps::put;
use hose_disk::{Disk, Failed};

/// Makes a journal without an entry of a disk on which none was begun.
pub fn begin<D: Disk>(disk: &mut D, digest: &[u8; DIGEST_BYTES]) -> Result<(), Failed>
    requires { Images D.Disk disk.old IsUnbegun }
    ensures any_moment { LeavesOnly D.Disk disk.old disk.new (HasNoRecord digest.now) }
    ensures begun { OnOk result
        (Images D.Disk disk.new (IsClosed (front_of CHAINED digest.now []))) }
    ensures durable { OnOk result (ReadsItsImages D.Disk disk.new) }
    ensures tells { TellsAsBefore D.Disk disk.old disk.new }
    ensures call { IsCalled (D.frame disk.old) (D.frame disk.new) result }
{
    clear(disk)?;
    let bytes = head_bytes(digest);
    put(disk, 1, &bytes)?;
    put(disk, 0, &[OPEN])?;
    Ok(())
}

// Empties the disk and closes its first gate.
fn clear<D: Disk>(disk: &mut D) -> Result<(), Failed>
    requires { Images D.Disk disk.old IsUnbegun }
    ensures any_moment { LeavesOnly D.Disk disk.old disk.new IsUnbegun }
    ensures cleared { OnOk result (Images D.Disk disk.new (λ image. image ≡ CLOSED ∷ [])) }
    ensures tells { TellsAsBefore D.Disk disk.old disk.new }
    ensures call { IsCalled (D.frame disk.old) (D.frame disk.new) result }
{
    empty(disk)?;
    put(disk, 0, &[CLOSED])?;
    Ok(())
}

// Cuts the disk to nothing and syncs.
fn empty<D: Disk>(disk: &mut D) -> Result<(), Failed>
    requires { Images D.Disk disk.old IsUnbegun }
    ensures any_moment { LeavesOnly D.Disk disk.old disk.new IsUnbegun }
    ensures emptied { OnOk result (Images D.Disk disk.new (λ image. image ≡ [])) }
    ensures tells { TellsAsBefore D.Disk disk.old disk.new }
    ensures call { IsCalled (D.frame disk.old) (D.frame disk.new) result }
{
    disk.cut(0)?;
    disk.sync()?;
    Ok(())
}

// The bytes of a journal without an entry, after its first gate.
fn head_bytes(digest: &[u8; DIGEST_BYTES]) -> [u8; HEAD_BYTES]
    ensures { result ≡ (MARK ++ CHAINED ∷ digest.now) ++ CLOSED ∷ [] }
{
    let mut bytes = [CLOSED; HEAD_BYTES];
    bytes[..MARK.len()].copy_from_slice(&MARK);
    bytes[VERSION_AT - 1] = CHAINED;
    bytes[VERSION_AT..HEAD_BYTES - 1].copy_from_slice(digest);
    bytes
}
