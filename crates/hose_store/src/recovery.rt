// Reading a journal's entries, and entering them in a book.
ghost use Rattle.std.specs.Prelude.{◌≡◌, ◌+◌, ◌≤◌, List, Ok, false, true, IfErr, IfOk, IfSome, IsTrue, OnOk};
ghost use Rattle.hose_graph.specs.declared.entry.Entry.{Entry};
ghost use Rattle.hose_law.specs.History.{IsSoundAt};
ghost use Rattle.hose_graph.specs.Limits.{most_epoch};
ghost use Rattle.hose_journal.specs.Moments.{KeepsCount};
ghost use Rattle.hose_journal.specs.steps.Reading.{OnlyRead};
ghost use Rattle.hose_store.specs.steps.Opening.{HasGiven, HasReadOn, IsRecovering, IsStopped};
ghost use Rattle.hose_store.specs.steps.ReadingFurther.{ReadsFurther};

use crate::fault::StoreFault;
use hose_book::Book;
use hose_disk::Disk;
use hose_graph::Entry;
use hose_journal::Reading;

/// Enters all that is left to read.
pub fn recover<D: Disk>(book: &mut Book, reading: &mut Reading<D>) -> Result<(), StoreFault>
    requires { IsRecovering D.Disk book.old reading.old }
    ensures recovered { OnOk result (IsRecovering D.Disk book.new reading.new) }
    ensures closed { OnOk result (IsTrue reading.new.closed) }
    ensures network { book.new.network ≡ book.old.network }
    ensures stopped { IfErr result
        (IsStopped D.Disk reading.old.disk reading.new.disk book.old.network) }
    ensures only { OnlyRead D.Disk reading.old.disk reading.new.disk }
    ensures count { OnOk result (KeepsCount D.Disk reading.old.disk reading.new.disk) }
{
    while recover_next(book, reading)? {}
    Ok(())
}

// Enters the next entry, and says whether there was one.
fn recover_next<D: Disk>(book: &mut Book, reading: &mut Reading<D>) -> Result<bool, StoreFault>
    requires { IsRecovering D.Disk book.old reading.old }
    ensures recovering { OnOk result (IsRecovering D.Disk book.new reading.new) }
    ensures more { result ≡ Ok true →
        (book.new.book.epoch ≡ book.old.book.epoch + 1) × (book.new.book.epoch ≤ most_epoch) }
    ensures closed { result ≡ Ok false → IsTrue reading.new.closed }
    ensures on { ReadsFurther D.Disk book.old book.new reading.old reading.new result }
{
    let Some(entry) = next_sound(book, reading)? else {
        return Ok(false);
    };
    book.apply(entry);
    // No one has looked at the book, so no change so far will be asked for.
    book.forget_changes();
    Ok(true)
}

/// Reads the next entry, and judges it by the book of those before it; none at the journal's end.
pub fn next_sound<D: Disk>(
    book: &Book,
    reading: &mut Reading<D>,
) -> Result<Option<Entry>, StoreFault>
    requires { IsRecovering D.Disk book.now reading.old }
    ensures sound { IfOk result (λ next. IfSome next
        (IsSoundAt book.now.network book.now.book)) }
    ensures read { (entries : List Entry) → HasGiven D.Disk book.now reading.old entries →
        HasReadOn D.Disk book.now reading.new entries result }
    ensures stopped { IfErr result
        (IsStopped D.Disk reading.old.disk reading.new.disk book.now.network) }
    ensures only { OnlyRead D.Disk reading.old.disk reading.new.disk }
    ensures count { OnOk result (KeepsCount D.Disk reading.old.disk reading.new.disk) }
{
    let Some(entry) = reading.next()? else {
        return Ok(None);
    };
    if book.check(&entry).is_err() {
        let at = reading.at();
        return Err(StoreFault::Damaged { at });
    }
    Ok(Some(entry))
}
