// A book that takes entries, wherever else it is kept.
ghost use Rattle.std.specs.Prelude.{◌≡◌, IfOk, ⊤};
ghost use Rattle.hose_io.specs.Frame.{Frame};
ghost use Rattle.hose_graph.specs.declared.entry.Entry.{Entry};
ghost use Rattle.hose_law.specs.History.{IsSoundAt};
ghost use Rattle.hose_book.specs.steps.Commit.{Commits, IsMet, KeepsTracks, unfailing};
ghost use Rattle.hose_book.specs.Ledger.{Ledger};
ghost use Rattle.hose_graph.specs.steps.Ranges.{IsInRanges};
ghost use Rattle.hose_book.specs.declared.books.Committed.{Committed};

use crate::Book;
use hose_graph::Entry;
use std::alloc::{AllocError, Global};

/// What came of an entry that was to be entered.
#[derive(Clone, Copy, Debug, PartialEq, Eq)]
pub enum Committed {
    /// It is entered.
    Done,
    /// What keeps the book elsewhere failed, and the book is as before.
    Disk,
}

/// A book that takes entries: in memory alone, or with what keeps it elsewhere besides.
pub trait Books {
    /// The memory that a commit needs, which is taken before it.
    type Ready: Drop;

    /// The network and its book.
    ghost ledger: { Self → Ledger };

    /// How often what keeps the book elsewhere has failed.
    ghost frame: { Self → Frame };

    /// This was prepared for this entry.
    ghost fits: { Self.Ready → Entry → Type 0 };

    /// What a commit of an entry makes of a value, besides what is said of every `Books`.
    ghost went: { Self → Entry → Committed → Self → Type 0 };

    /// The book.
    fn book(&self) -> &Book
        ensures { result.now ≡ ledger self.now };

    /// Takes all the memory that a commit of an entry needs. The entry's numbers are in the ranges
    /// of the journal's format.
    fn prepare(alloc: Global, entry: &Entry) -> Result<Self::Ready, AllocError>
        requires { IsInRanges entry.now }
        ensures { IfOk result (λ ready. fits ready entry.now) };

    /// Enters an entry for which the book's `check` answers Ok. It takes no memory.
    fn commit(&mut self, entry: Entry, ready: Self::Ready) -> Committed
        requires sound { IsSoundAt (ledger self.old).network (ledger self.old).book entry }
        requires ready { fits ready entry }
        ensures commits { Commits (ledger self.old) entry result (ledger self.new) }
        ensures tracks { KeepsTracks (ledger self.old) entry result (ledger self.new) }
        ensures met { IsMet (frame self.old) result (frame self.new) }
        ensures went { went self.old entry result self.new };
}

/// A book in memory alone, which never fails.
#[derive(Drop)]
pub struct Plain {
    pub book: Book,
}

impl Books for Plain {
    type Ready = ();

    ghost ledger = { λ plain. plain.book };

    ghost frame = { λ _. unfailing };

    ghost fits = { λ _ _. ⊤ };

    ghost went = { λ old entry result new. Commits old.book entry result new.book };

    fn book(&self) -> &Book {
        &self.book
    }

    fn prepare(_alloc: Global, _entry: &Entry) -> Result<(), AllocError> {
        Ok(())
    }

    fn commit(&mut self, entry: Entry, _ready: ()) -> Committed {
        self.book.apply(entry);
        Committed::Done
    }
}
