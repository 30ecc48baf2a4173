// The value under the lock.
ghost use Rattle.std.specs.Prelude.{List, ⊤};
ghost use Rattle.hose_graph.specs.declared.entry.Entry.{Entry};
ghost use Rattle.hose_store.specs.steps.Store.{KeptStore};

use hose_book::Books;
use hose_disk::Disk;
use hose_store::Store;
use hose_turn::HoldsHistory;
use std::marker::PhantomData;

/// What is known of the store with which a lock is made, and of the list for which it stood then.
/// A caller who has to say later which store that was names it here.
pub trait Begun<D: Disk> {
    ghost begins: { List Entry → KeptStore D → Type 0 };
}

/// No store is named: any may be shared.
///
/// Then `close` promises nothing of the images that a stop may have left of the disk: that rests on
/// what the first store stood for, which a caller has to name to learn it of the last one. What it
/// promises all the same is the book of the whole history, and commits of decided entries from some
/// first store to the one that comes back.
pub struct AnyStore;

impl<D: Disk> Begun<D> for AnyStore {
    ghost begins = { λ since store. ⊤ };
}

/// A store that many passes share.
#[derive(Drop)]
pub struct Kept<D: Disk, B: Begun<D>> {
    pub(crate) store: Store<D>,
    pub(crate) begun: PhantomData<B>,
}

impl<D: Disk, B: Begun<D>> HoldsHistory for Kept<D, B> {
    ghost use Rattle.hose_disk.specs.Disk.{DiskFrame};
    ghost use Rattle.hose_shared.specs.steps.Keeping.{StandsShared};

    ghost stands = { λ origin history tries kept.
        StandsShared D.Disk B.begins origin history tries kept.store };

    ghost faults = { λ kept. (D.frame kept.store.journal.disk).faults };

    fn epoch(&self) -> u64 {
        self.store.book().epoch()
    }
}
