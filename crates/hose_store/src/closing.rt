// What closing does to a journal.
ghost use Rattle.std.specs.Prelude.{None, OnOk};
ghost use Rattle.hose_disk.specs.steps.Disk.{IsCalled};
ghost use Rattle.hose_journal.specs.steps.Entries.{IsListOf};
ghost use Rattle.hose_journal.specs.steps.Journal.{Account, IsListAmid, Stands};
ghost use Rattle.hose_journal.specs.Moments.{Images, LeavesOnly, TellsAsBefore};

use hose_disk::{Disk, Failed};
use hose_journal::Journal;

/// Revokes the entry in doubt, or syncs once where none is.
pub fn settle_or_sync<D: Disk>(journal: Journal<D>) -> (Result<(), Failed>, D)
    requires { (account : Account) × Stands D.Disk journal account }
    ensures any_moment { (account : Account) → Stands D.Disk journal account →
        LeavesOnly D.Disk journal.disk result.1 (IsListAmid account None) }
    ensures settled { OnOk result.0 ((account : Account) → Stands D.Disk journal account →
        Images D.Disk result.1 (IsListOf account.digest account.entries)) }
    ensures tells { TellsAsBefore D.Disk journal.disk result.1 }
    ensures call { IsCalled (D.frame journal.disk) (D.frame result.1) result.0 }
{
    let mut journal = journal;
    if journal.doubt() {
        let result = journal.settle();
        return (result, journal.stop());
    }
    let mut disk = journal.stop();
    let result = disk.sync();
    (result, disk)
}
