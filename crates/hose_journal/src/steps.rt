// Writes that are synced, and the two steps of an append by them. Between the two a stop leaves the
// list as it was.
ghost use Rattle.std.specs.Prelude.{◌≡◌, ◌+◌, ◌<◌, ◌≤◌, ◌^◌, ◌∷◌, ◌++◌, [], List, ℕ, length, IfSome, OnOk};
ghost use Rattle.hose_disk.specs.steps.Disk.{IsCalled};
ghost use Rattle.hose_journal.specs.steps.Gates.{IsDoubtful, Starts};
ghost use Rattle.hose_journal.specs.Image.{IsClosed};
ghost use Rattle.hose_journal.specs.Moments.{Images, LeavesOnly, TellsAsBefore};
ghost use Rattle.hose_journal.specs.steps.Moments.{IsTornFrom, Lands, ReadsItsImages};

use hose_disk::{Disk, Failed};

/// Writes bytes and syncs.
pub fn put<D: Disk>(disk: &mut D, at: u64, bytes: &[u8]) -> Result<(), Failed>
    requires small { at + length bytes.now < 2 ^ 62 }
    requires within { IfSome (D.content disk.old) (λ old. at ≤ length old) }
    ensures any_moment { LeavesOnly D.Disk disk.old disk.new
        (IsTornFrom D.Disk disk.old at (length bytes.now)) }
    ensures landed { OnOk result (Lands D.Disk disk.old disk.new at bytes.now) }
    ensures durable { OnOk result (ReadsItsImages D.Disk disk.new) }
    ensures tells { TellsAsBefore D.Disk disk.old disk.new }
    ensures call { IsCalled (D.frame disk.old) (D.frame disk.new) result }
{
    disk.write_at(at, bytes)?;
    disk.sync()?;
    Ok(())
}

/// Writes bytes after a closed gate.
pub fn stage<D: Disk>(disk: &mut D, gate: u64, bytes: &[u8]) -> Result<(), Failed>
    requires small { gate + 1 + length bytes.now < 2 ^ 62 }
    requires closed { (before : List ℕ) × (length before ≡ gate)
        × Images D.Disk disk.old (IsClosed before) }
    ensures any_moment { (before : List ℕ) → length before ≡ gate →
        Images D.Disk disk.old (IsClosed before) →
        LeavesOnly D.Disk disk.old disk.new (IsClosed before) }
    ensures staged { OnOk result ((before : List ℕ) → length before ≡ gate →
        Images D.Disk disk.old (IsClosed before) →
        Images D.Disk disk.new (IsDoubtful before bytes.now)) }
    ensures tells { TellsAsBefore D.Disk disk.old disk.new }
    ensures call { IsCalled (D.frame disk.old) (D.frame disk.new) result }
{
    put(disk, gate + 1, bytes)?;
    Ok(())
}

/// Writes a gate before bytes that are on the disk.
pub fn set_gate<D: Disk>(disk: &mut D, gate: u64, value: u8) -> Result<(), Failed>
    requires small { gate + 1 < 2 ^ 62 }
    requires staged { (before : List ℕ) × (bytes : List ℕ) × (length before ≡ gate)
        × Images D.Disk disk.old (IsDoubtful before bytes) }
    ensures any_moment { (before : List ℕ) → (bytes : List ℕ) → length before ≡ gate →
        Images D.Disk disk.old (IsDoubtful before bytes) →
        LeavesOnly D.Disk disk.old disk.new (IsDoubtful before bytes) }
    ensures set { OnOk result ((before : List ℕ) → (bytes : List ℕ) → length before ≡ gate →
        Images D.Disk disk.old (IsDoubtful before bytes) →
        Images D.Disk disk.new (Starts (before ++ value ∷ bytes))) }
    ensures landed { OnOk result (Lands D.Disk disk.old disk.new gate (value ∷ [])) }
    ensures torn { Images D.Disk disk.new (IsTornFrom D.Disk disk.old gate 1) }
    ensures tells { TellsAsBefore D.Disk disk.old disk.new }
    ensures call { IsCalled (D.frame disk.old) (D.frame disk.new) result }
{
    put(disk, gate, &[value])?;
    Ok(())
}
