// A journal whose entries are read one after another and sent on.
ghost use Rattle.std.specs.Prelude.{◌≡◌, ◌+◌, ◌≤◌, [], List, None, Ok, IfErr, IfOk, IsTrue, MatchResult, OnSome, length};
ghost use Rattle.hose_graph.specs.Network.{Network};
ghost use Rattle.hose_graph.specs.declared.entry.Entry.{Entry};
ghost use Rattle.hose_graph.specs.Limits.{most_epoch};
ghost use Rattle.hose_journal.specs.Chain.{chain};
ghost use Rattle.hose_journal.specs.Opening.{AddsNoRecord};
ghost use Rattle.hose_journal.specs.Reading.{HasFailed};
ghost use Rattle.hose_journal.specs.steps.Reading.{OnlyRead};
ghost use Rattle.hose_store.specs.steps.Becoming.{BeginsAtMost, IsStoreOf};
ghost use Rattle.hose_store.specs.Entries.{HasEntries};
ghost use Rattle.hose_store.specs.steps.Before.{AreAllBefore};
ghost use Rattle.hose_store.specs.Opening.{IsRefusedStore};
ghost use Rattle.hose_store.specs.steps.Opening.{HasGiven, IsRecovering};
ghost use Rattle.hose_store.specs.steps.ReadingFurther.{ReadsFurther};
ghost use Rattle.hose_store.specs.Recovery.{digest_of};
ghost use Rattle.hose_store.specs.Replaying.{IsOnlyOpened};
ghost use Rattle.hose_store.specs.steps.Replaying.{GivesNext, HasReplayed, IsReplaying};

use crate::fault::StoreFault;
use crate::recovery::next_sound;
use crate::store::Store;
use hose_book::Book;
use hose_disk::Disk;
use hose_graph::Topology;
use hose_journal::{Reading, Ready, open, ready};
use hose_topo::digest;
use std::alloc::Global;

/// A journal whose entries are read one after another, each judged by the book of those before it.
/// Nothing is written, but for a journal that was not begun.
#[derive(Drop)]
pub struct Replay<D: Disk> {
    alloc: Global,
    book: Book,
    reading: Reading<D>,
}

impl<D: Disk> Replay<D> {
    /// Opens the journal on a disk, as a store does. Where it is refused the disk comes back.
    pub fn open(alloc: Global, disk: D, top: Topology) -> Result<Replay<D>, (StoreFault, D)>
        ensures opened { IfOk result (λ replay. IsReplaying D.Disk disk top replay []) }
        ensures refused { IfErr result (λ refused.
            IsRefusedStore D.Disk disk refused.1 top refused.0
            × IsOnlyOpened D.Disk disk refused.1 top
            × AddsNoRecord (D.content disk) (D.content refused.1) (digest_of top)) }
        // No entry stands before a head that is damaged.
        ensures until { IfErr result (λ refused. AreAllBefore top (D.content disk) [] refused.0) }
        // Where a journal was begun before, no image is another one than before.
        ensures begins { MatchResult result
            (λ replay. BeginsAtMost D.Disk disk replay.reading.disk top)
            (λ refused. BeginsAtMost D.Disk disk refused.1 top) }
    {
        let digest = digest(&top);
        let Ok(book) = Book::new(alloc, top) else {
            return Err((StoreFault::Memory, disk));
        };
        match open(alloc, disk, digest) {
            Ok(reading) => Ok(Replay {
                alloc,
                book,
                reading,
            }),
            Err(refused) => Err((StoreFault::from(refused.0), refused.1)),
        }
    }

    /// The spelling of the next entry, or none at the journal's end. After a fault the only call
    /// that may follow is `stop`.
    pub fn next(&mut self) -> Result<Option<Ready>, StoreFault>
        requires { (was : D) × (network : Network) × (entries : List Entry)
            × IsReplaying D.Disk was network self.old entries }
        ensures read { (was : D) → (network : Network) → (entries : List Entry) →
            IsReplaying D.Disk was network self.old entries →
            HasReplayed D.Disk was network self.new entries result }
        // Where it is damage that ends the reading, all entries before it were given.
        ensures until { IfErr result (λ fault. (was : D) → (network : Network) →
            (entries : List Entry) → IsReplaying D.Disk was network self.old entries →
            AreAllBefore network (D.content was) entries fault) }
        ensures more { IfOk result (λ next. OnSome next
            ((self.new.book.book.epoch ≡ self.old.book.book.epoch + 1)
            × (self.new.book.book.epoch ≤ most_epoch))) }
        ensures closed { result ≡ Ok None → IsTrue self.new.reading.closed }
        ensures only { OnlyRead D.Disk self.old.reading.disk self.new.reading.disk }
    {
        read_next(self.alloc, &mut self.book, &mut self.reading)
    }

    /// How many entries it has given.
    pub fn epoch(&self) -> u64
        ensures value { result ≡ self.now.book.book.epoch }
        ensures bound { result ≤ most_epoch }
        ensures given { (was : D) → (network : Network) → (entries : List Entry) →
            IsReplaying D.Disk was network self.now entries → result ≡ length entries }
    {
        self.book.epoch()
    }

    /// The chain value of the entries that it has given.
    pub fn chain(&self) -> [u8; 32]
        ensures chain { (was : D) → (network : Network) → (entries : List Entry) →
            IsReplaying D.Disk was network self.now entries →
            result ≡ chain (digest_of network) entries }
        ensures held { (was : D) → (network : Network) → (entries : List Entry) →
            IsReplaying D.Disk was network self.now entries →
            HasEntries network (D.content was) entries }
    {
        self.reading.chain()
    }

    /// The book that the entries lead to that it has given.
    pub fn book(&self) -> &Book
        ensures { result.now ≡ self.now.book }
    {
        &self.book
    }

    /// The store that the journal is, once all its entries were given. As an opening does, it seals
    /// a journal that is not sealed. Where that fails the disk comes back.
    pub fn into_store(self) -> Result<Store<D>, D>
        requires { (was : D) × (network : Network) × (entries : List Entry)
            × IsReplaying D.Disk was network self entries × IsTrue self.reading.closed }
        ensures becomes { IfOk result (λ store. (was : D) → (network : Network) →
            (entries : List Entry) → IsReplaying D.Disk was network self entries →
            IsStoreOf D.Disk was network entries store) }
        ensures failed { IfErr result (λ disk. (was : D) → (network : Network) →
            (entries : List Entry) → IsReplaying D.Disk was network self entries →
            HasFailed D.Disk was disk × IsOnlyOpened D.Disk was disk network) }
    {
        Store::from_reading(self.book, self.reading)
    }

    /// Hands back the disk.
    pub fn stop(self) -> D
        ensures { result ≡ self.reading.disk }
    {
        self.reading.stop()
    }
}

// Reads the next entry, spells it and enters it.
fn read_next<D: Disk>(
    alloc: Global,
    book: &mut Book,
    reading: &mut Reading<D>,
) -> Result<Option<Ready>, StoreFault>
    requires { IsRecovering D.Disk book.old reading.old }
    ensures next { (entries : List Entry) → HasGiven D.Disk book.old reading.old entries →
        GivesNext D.Disk book.new reading.new entries result }
    ensures more { IfOk result (λ next. OnSome next
        ((book.new.book.epoch ≡ book.old.book.epoch + 1) × (book.new.book.epoch ≤ most_epoch))) }
    ensures on { ReadsFurther D.Disk book.old book.new reading.old reading.new result }
{
    let Some(entry) = next_sound(book, reading)? else {
        return Ok(None);
    };
    let Ok(spelling) = ready(alloc, &entry) else {
        return Err(StoreFault::Memory);
    };
    book.apply(entry);
    Ok(Some(spelling))
}
