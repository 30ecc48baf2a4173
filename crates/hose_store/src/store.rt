// The book on a disk.
ghost use Rattle.std.specs.Prelude.{◌≡◌, List, None, Option, IfErr, IfOk, IsTrue, MatchResult};
ghost use Rattle.hose_io.specs.Frame.{Frame};
ghost use Rattle.hose_graph.specs.declared.entry.Entry.{Entry};
ghost use Rattle.hose_disk.specs.Disk.{object_frame};
ghost use Rattle.hose_disk.specs.steps.Disk.{IsCalled};
ghost use Rattle.hose_journal.specs.Chain.{chain};
ghost use Rattle.hose_journal.specs.steps.Entries.{IsListOf};
ghost use Rattle.hose_journal.specs.steps.Journal.{IsReady};
ghost use Rattle.hose_journal.specs.Moments.{KeepsCount, LeavesOnly};
ghost use Rattle.hose_journal.specs.Opening.{KeepsDisk};
ghost use Rattle.hose_journal.specs.Reading.{HasFailed};
ghost use Rattle.hose_store.specs.steps.Commit.{Closes, Went};
ghost use Rattle.hose_store.specs.Opening.{IsAtOpening, IsRefusedStore};
ghost use Rattle.hose_store.specs.steps.Opening.{HasGiven, IsOpenedOn};
ghost use Rattle.hose_store.specs.Recovery.{digest_of};
ghost use Rattle.hose_store.specs.steps.Store.{HasHistory};

use crate::closing::settle_or_sync;
use crate::fault::StoreFault;
use crate::recovery::recover;
use crate::sealing::seal_plain;
use hose_book::{Book, Books, Committed};
use hose_codec::encode;
use hose_disk::{Disk, Failed};
use hose_graph::{Entry, Topology};
use hose_journal::{Journal, Reading, Ready, open};
use hose_topo::digest;
use std::alloc::{AllocError, Global};
use std::marker::Model;

/// A book that is kept in a journal on a disk.
///
/// A contract sees it as the network with its book, and the journal.
#[derive(Drop)]
pub struct Store<D: Disk> {
    book: Book,
    journal: Journal<D>,
}

impl<D: Disk> Model for Store<D> {
    ghost use Rattle.std.specs.Prelude.{List, Option};
    ghost use Rattle.hose_graph.specs.declared.entry.Entry.{Entry};
    ghost use Rattle.hose_store.specs.steps.Store.{KeptStore, HasHistory};

    ghost Value = { KeptStore D };

    ghost view = { λ store. record { ledger = store.book; journal = store.journal } };

    ghost invariant = { λ store. (history : List Entry) × (doubt : Option Entry)
        × HasHistory D.Disk (record { ledger = store.book; journal = store.journal })
        history doubt };
}

impl<D: Disk> Store<D> {
    /// Opens the store on a disk. Where no journal was begun there, it begins one; a journal that
    /// is not sealed it seals, after its entries were read. Where it is refused the disk comes
    /// back.
    pub fn open(alloc: Global, disk: D, top: Topology) -> Result<Store<D>, (StoreFault, D)>
        // At every moment an image is one of before, or stands for what the disk stood for.
        ensures any_moment { MatchResult result
            (λ store. LeavesOnly D.Disk disk store.journal.disk (IsAtOpening D.Disk disk top))
            (λ refused. LeavesOnly D.Disk disk refused.1 (IsAtOpening D.Disk disk top)) }
        ensures opened { IfOk result (IsOpenedOn D.Disk disk top) }
        ensures count { IfOk result (λ store. KeepsCount D.Disk disk store.journal.disk) }
        ensures refused { IfErr result (λ refused.
            IsRefusedStore D.Disk disk refused.1 top refused.0) }
        ensures keeps { MatchResult result
            (λ store. KeepsDisk D.Disk disk store.journal.disk)
            (λ refused. KeepsDisk D.Disk disk refused.1) }
    {
        let digest = digest(&top);
        let Ok(mut book) = Book::new(alloc, top) else {
            return Err((StoreFault::Memory, disk));
        };
        let mut reading = match open(alloc, disk, digest) {
            Ok(reading) => reading,
            Err(refused) => return Err((StoreFault::from(refused.0), refused.1)),
        };
        match recover(&mut book, &mut reading) {
            Ok(()) => match seal_plain(reading.finish()) {
                Ok(journal) => Ok(Store { book, journal }),
                Err(disk) => Err((StoreFault::Disk, disk)),
            },
            Err(fault) => Err((fault, reading.stop())),
        }
    }

    // The store of a journal whose entries were all read, which it seals where it is not sealed.
    // Where that fails the disk comes back.
    pub(crate) fn from_reading(book: Book, reading: Reading<D>) -> Result<Store<D>, D>
        requires { (entries : List Entry) × HasGiven D.Disk book reading entries
            × IsTrue reading.closed }
        ensures ledger { IfOk result (λ store. store.ledger ≡ book) }
        ensures has { IfOk result (λ store. (entries : List Entry) →
            HasGiven D.Disk book reading entries → HasHistory D.Disk store entries None) }
        ensures any_moment { (entries : List Entry) → HasGiven D.Disk book reading entries →
            MatchResult result
            (λ store. LeavesOnly D.Disk reading.disk store.journal.disk
            (IsListOf (digest_of book.network) entries))
            (λ disk. LeavesOnly D.Disk reading.disk disk
            (IsListOf (digest_of book.network) entries)) }
        ensures count { IfOk result (λ store.
            KeepsCount D.Disk reading.disk store.journal.disk) }
        ensures failed { IfErr result (HasFailed D.Disk reading.disk) }
        ensures keeps { MatchResult result
            (λ store. KeepsDisk D.Disk reading.disk store.journal.disk)
            (KeepsDisk D.Disk reading.disk) }
    {
        match seal_plain(reading.finish()) {
            Ok(journal) => Ok(Store { book, journal }),
            Err(disk) => Err(disk),
        }
    }

    /// The chain value of the history.
    pub fn chain(&self) -> [u8; 32]
        ensures { (history : List Entry) → (doubt : Option Entry) →
            HasHistory D.Disk self.now history doubt →
            result ≡ chain (digest_of self.now.ledger.network) history }
    {
        self.journal.chain()
    }

    /// Hands back the disk as it is, without a call of it.
    pub fn stop(self) -> D
        ensures { result ≡ self.journal.disk }
    {
        self.journal.stop()
    }

    /// Revokes the entry in doubt, or syncs once where none is, and hands back the disk and the
    /// book.
    pub fn close(self) -> (Result<(), Failed>, D, Book)
        ensures book { result.2 ≡ self.ledger }
        ensures closes { Closes D.Disk self result.1 result.0 }
        ensures call { IsCalled (D.frame self.journal.disk) (D.frame result.1) result.0 }
    {
        let Store { book, journal } = self;
        let (result, disk) = settle_or_sync(journal);
        (result, disk, book)
    }
}

impl<D: Disk> Books for Store<D> {
    type Ready = Ready;

    ghost ledger = { λ store. store.ledger };

    ghost frame = { λ store. object_frame (D.frame store.journal.disk) };

    ghost fits = { λ ready entry. IsReady entry ready };

    ghost went = { Went D.Disk };

    fn book(&self) -> &Book {
        &self.book
    }

    fn prepare(alloc: Global, entry: &Entry) -> Result<Ready, AllocError> {
        let bytes = encode(alloc, entry)?;
        Ok(Ready { bytes })
    }

    fn commit(&mut self, entry: Entry, ready: Ready) -> Committed {
        match self.journal.append(&ready) {
            Ok(()) => {
                self.book.apply(entry);
                Committed::Done
            }
            Err(Failed) => Committed::Disk,
        }
    }
}
