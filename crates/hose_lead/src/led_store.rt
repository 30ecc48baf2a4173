// A store, with the packets of its last entries at hand.
ghost use Rattle.std.specs.Prelude.{◌≡◌, ◌≤◌, ◌+◌, ◌++◌, ◌∷◌, List, [], Option, length};
ghost use Rattle.hose_graph.specs.Network.{Network};
ghost use Rattle.hose_graph.specs.declared.entry.Entry.{Entry};
ghost use Rattle.hose_law.specs.History.{IsSoundAt};
ghost use Rattle.hose_codec.specs.Spelling.{spelling};
ghost use Rattle.hose_codec.specs.declared.limits.TheConstants.{MOST_SPELLING};
ghost use Rattle.hose_book.specs.steps.Commit.{IsMet};
ghost use Rattle.hose_disk.specs.Disk.{object_frame};
ghost use Rattle.hose_store.specs.steps.Store.{HasHistory};
ghost use Rattle.hose_lead.specs.steps.History.{IsRecentOf};
ghost use Rattle.hose_lead.specs.steps.LedStore.{IsLedOf, IsLedReady, LedWent};

use crate::history::{History, VALUE_BYTES};
use crate::recent::RecentPackets;
use hose_book::{Book, Books, Committed};
use hose_disk::Disk;
use hose_graph::Entry;
use hose_journal::Ready;
use hose_store::Store;
use std::alloc::{AllocError, Global};
use std::marker::Model;

/// A store, and the packets of its last entries.
#[derive(Drop)]
pub struct LedStore<D: Disk> {
    store: Store<D>,
    recent: RecentPackets,
}

impl<D: Disk> Model for LedStore<D> {
    ghost use Rattle.std.specs.Prelude.{◌≡◌};
    ghost use Rattle.hose_lead.specs.LedStore.{LedState};

    ghost Value = { LedState D };

    ghost view = { λ led. record { store = led.store; recent = led.recent } };

    ghost invariant = { λ led. led.recent.epoch ≡ led.store.ledger.book.epoch };
}

/// An entry that is ready for the disk, and its spelling once more for its packet.
#[derive(Drop)]
pub struct LedReady {
    pub ready: Ready,
    pub body: Vec<u8>,
}

impl<D: Disk> LedStore<D> {
    /// A store of which no packet is at hand yet, and packets of so many bytes may be later.
    pub fn of(alloc: Global, store: Store<D>, limit: usize) -> LedStore<D>
        ensures store { result.store ≡ store }
        ensures is_of { (network : Network) → (list : List Entry) → (doubt : Option Entry) →
            store.ledger.network ≡ network → HasHistory D.Disk store list doubt →
            IsLedOf D.Disk result network list }
    {
        let recent = RecentPackets::new(alloc, limit, store.book().epoch(), store.chain());
        LedStore { store, recent }
    }

    /// A store, with the last packets of its history at hand.
    pub fn with_recent(store: Store<D>, recent: RecentPackets) -> LedStore<D>
        requires { recent.epoch ≡ store.ledger.book.epoch }
        ensures store { result.store ≡ store }
        ensures recent { result.recent ≡ recent }
    {
        LedStore { store, recent }
    }

    /// The store.
    pub fn into_store(self) -> Store<D>
        ensures { result ≡ self.store }
    {
        let LedStore {
            store,
            recent: _recent,
        } = self;
        store
    }
}

impl<D: Disk> Books for LedStore<D> {
    type Ready = LedReady;

    ghost ledger = { λ led. led.store.ledger };

    ghost frame = { λ led. object_frame (D.frame led.store.journal.disk) };

    ghost fits = { IsLedReady };

    ghost went = { LedWent D.Disk };

    fn book(&self) -> &Book {
        self.store.book()
    }

    fn prepare(alloc: Global, entry: &Entry) -> Result<LedReady, AllocError> {
        let ready = Store::<D>::prepare(alloc, entry)?;
        let mut body = Vec::new(alloc);
        body.extend_from_slice(&ready.bytes)?;
        Ok(LedReady { ready, body })
    }

    fn commit(&mut self, entry: Entry, ready: LedReady) -> Committed {
        commit_led(&mut self.store, &mut self.recent, entry, ready)
    }
}

// Commits an entry to a store, and takes in its packet.
fn commit_led<D: Disk>(
    store: &mut Store<D>,
    recent: &mut RecentPackets,
    entry: Entry,
    ready: LedReady,
) -> Committed
    requires epoch { recent.old.epoch ≡ store.old.ledger.book.epoch }
    requires sound { IsSoundAt store.old.ledger.network store.old.ledger.book entry }
    requires ready { IsLedReady ready entry }
    ensures went { LedWent D.Disk (record { store = store.old; recent = recent.old }) entry
        result (record { store = store.new; recent = recent.new }) }
    ensures epoch { recent.new.epoch ≡ store.new.ledger.book.epoch }
    ensures met { IsMet (object_frame (D.frame store.old.journal.disk)) result
        (object_frame (D.frame store.new.journal.disk)) }
{
    let LedReady { ready, body } = ready;
    match store.commit(entry, ready) {
        Committed::Disk => Committed::Disk,
        Committed::Done => push_last(recent, store, &body),
    }
}

// Takes in the packet of the entry that was committed last, by its spelling.
fn push_last<D: Disk>(recent: &mut RecentPackets, store: &Store<D>, body: &[u8]) -> Committed
    requires epoch { recent.old.epoch + 1 ≡ store.now.ledger.book.epoch }
    requires body { length body.now ≤ MOST_SPELLING }
    ensures is { (network : Network) → (list : List Entry) → (doubt : Option Entry) →
        (entry : Entry) → IsRecentOf network list recent.old → body.now ≡ spelling entry →
        store.now.ledger.network ≡ network →
        HasHistory D.Disk store.now (list ++ entry ∷ []) doubt →
        IsRecentOf network (list ++ entry ∷ []) recent.new }
    ensures epoch { recent.new.epoch ≡ store.now.ledger.book.epoch }
    ensures done { result ≡ Committed.Done }
{
    // A book counts no more entries than a journal may have.
    let _epoch = store.book().epoch();
    // Where no memory is left for the packet none is at hand, and the entry stands.
    let _kept = recent.push(body, store.chain());
    Committed::Done
}

impl<D: Disk> History for LedStore<D> {
    ghost is_of = { IsLedOf D.Disk };

    fn epoch(&self) -> u64 {
        self.recent.epoch()
    }

    fn packet(&self, count: u64) -> Option<&[u8]> {
        self.recent.packet(count)
    }

    fn value(&self, count: u64) -> Option<[u8; VALUE_BYTES]> {
        self.recent.value(count)
    }
}
