// Sealing a journal before it is added to.
ghost use Rattle.std.specs.Prelude.{◌≤◌, length, IfErr, IfOk, IsFalse, IsTrue, MatchResult};
ghost use Rattle.hose_graph.specs.declared.limits.TheConstants.{MOST_EPOCH};
ghost use Rattle.hose_journal.specs.steps.Entries.{IsListOf};
ghost use Rattle.hose_journal.specs.steps.Journal.{Account, Stands};
ghost use Rattle.hose_journal.specs.Moments.{KeepsCount, LeavesOnly};
ghost use Rattle.hose_journal.specs.Opening.{KeepsDisk};
ghost use Rattle.hose_journal.specs.Reading.{HasFailed};

use hose_disk::{Disk, Failed};
use hose_journal::Journal;

/// Seals the journal where it is not sealed. Where that fails the disk comes back.
pub fn seal_plain<D: Disk>(journal: Journal<D>) -> Result<Journal<D>, D>
    requires stands { (account : Account) × Stands D.Disk journal account
        × (length account.entries ≤ MOST_EPOCH) }
    requires sure { IsFalse journal.doubt }
    // At every moment each image stands for the entries.
    ensures any_moment { (account : Account) → Stands D.Disk journal account →
        length account.entries ≤ MOST_EPOCH → MatchResult result
        (λ sealed. LeavesOnly D.Disk journal.disk sealed.disk
        (IsListOf account.digest account.entries))
        (λ disk. LeavesOnly D.Disk journal.disk disk
        (IsListOf account.digest account.entries)) }
    ensures stands { IfOk result (λ sealed. (account : Account) →
        Stands D.Disk journal account → length account.entries ≤ MOST_EPOCH →
        Stands D.Disk sealed account) }
    ensures sealed { IfOk result (λ sealed. IsTrue sealed.sealed) }
    ensures count { IfOk result (λ sealed. KeepsCount D.Disk journal.disk sealed.disk) }
    ensures failed { IfErr result (HasFailed D.Disk journal.disk) }
    ensures keeps { MatchResult result
        (λ sealed. KeepsDisk D.Disk journal.disk sealed.disk)
        (KeepsDisk D.Disk journal.disk) }
{
    let mut journal = journal;
    if journal.sealed() {
        return Ok(journal);
    }
    match journal.seal() {
        Ok(()) => Ok(journal),
        Err(Failed) => Err(journal.stop()),
    }
}
