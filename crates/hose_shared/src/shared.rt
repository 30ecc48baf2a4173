// The shared book and its passes.
ghost use Rattle.std.specs.Prelude.{◌≡◌, ◌⊎◌, ◌+◌, ◌-◌, ◌++◌, ◌≤◌, [], IfErr, IfOk, IfSome, List, length};
ghost use mathlib.Core.List.{IsPrefix};
ghost use Rattle.hose_graph.specs.Network.{IsNetwork};
ghost use Rattle.hose_graph.specs.declared.entry.Entry.{Entry};
ghost use Rattle.hose_law.specs.steps.Tracks.{Tracks};
ghost use Rattle.hose_book.specs.Ledger.{HasBookOf};
ghost use Rattle.hose_turn.specs.Faults.{end_of_count};
ghost use Rattle.hose_turn.specs.steps.Known.{first_known, HasJoined};
ghost use Rattle.hose_shared.specs.steps.Closing.{HasShared};
ghost use Rattle.hose_shared.specs.steps.Keeping.{StandsShared};
ghost use Rattle.hose_shared.specs.steps.Sharing.{HasSeenMore, IsPassOf};

use crate::kept::{Begun, Kept};
use hose_book::Books;
use hose_disk::Disk;
use hose_graph::Topology;
use hose_paths::RowTable;
use hose_store::Store;
use hose_turn::{ALL_SHARES, Pass, Turn};
use std::alloc::{AllocError, Global};
use std::marker::{Model, PhantomData};
use std::sync::Wait;

/// A book on a disk that many passes share.
///
/// A contract sees it as its lock and its network.
#[derive(Drop)]
pub struct Shared<D: Disk, B: Begun<D>> {
    pub(crate) turn: Turn<Kept<D, B>>,
    pub(crate) topology: Topology,
    // Of this topology.
    pub(crate) table: Option<RowTable>,
}

impl<D: Disk, B: Begun<D>> Model for Shared<D, B> {
    ghost use Rattle.std.specs.Prelude.{◌≡◌, IfSome};
    ghost use Rattle.hose_graph.specs.Network.{IsNetwork};
    ghost use Rattle.hose_shared.specs.steps.Sharing.{SharedBook};

    ghost Value = { SharedBook };

    ghost view = { λ shared. record { turn = shared.turn; network = shared.topology } };

    // What rows are kept are of this network, so that no plan has to compare it with theirs.
    ghost invariant = { λ shared. IsNetwork shared.topology
        × IfSome shared.table (λ table. table.network ≡ shared.topology) };
}

impl<D: Disk, B: Begun<D>> Shared<D, B> {
    /// Shares a store. The first pass has all shares, and has seen the list for which the store
    /// stands. Where memory is wanting the store that `share` gives back is dropped.
    pub fn new(alloc: Global, store: Store<D>) -> Result<(Shared<D, B>, Pass), AllocError>
        requires { (since : List Entry) × B.begins since store
            × HasBookOf 0 since store.ledger × Tracks 0 since store.ledger.recent }
        ensures first { IfOk result (λ made. made.1 ≡ first_known made.0.turn made.1.origin) }
        ensures stands { IfOk result (λ made. StandsShared D.Disk B.begins made.1.origin
            made.1.origin.since [] store) }
        ensures pass { IfOk result (λ made. IsPassOf made.0 made.1) }
        ensures network { IfOk result (λ made. made.0.network ≡ store.ledger.network) }
    {
        match Shared::share(alloc, store, None) {
            Ok(made) => Ok(made),
            Err(_store) => Err(AllocError),
        }
    }

    /// Shares a store, as `new` does, with the rows of its network by which it plans, where there
    /// is a table of them. Where memory is wanting the store comes back, and nothing was done to
    /// its disk.
    pub fn share(
        alloc: Global,
        store: Store<D>,
        table: Option<RowTable>,
    ) -> Result<(Shared<D, B>, Pass), Store<D>>
        requires stands { (since : List Entry) × B.begins since store
            × HasBookOf 0 since store.ledger × Tracks 0 since store.ledger.recent }
        requires table { IfSome table (λ table. table.network ≡ store.ledger.network) }
        ensures first { IfOk result (λ made. made.1 ≡ first_known made.0.turn made.1.origin) }
        ensures stands { IfOk result (λ made. StandsShared D.Disk B.begins made.1.origin
            made.1.origin.since [] store) }
        ensures pass { IfOk result (λ made. IsPassOf made.0 made.1) }
        ensures network { IfOk result (λ made. made.0.network ≡ store.ledger.network) }
        ensures back { IfErr result (λ back. back ≡ store) }
    {
        let Ok(topology) = store.book().topology().copy(alloc) else {
            return Err(store);
        };
        let kept = Kept {
            store,
            begun: PhantomData,
        };
        match Turn::from_ticket(alloc, kept, 0) {
            Ok((turn, pass)) => {
                let shared = Shared {
                    turn,
                    topology,
                    table,
                };
                Ok((shared, pass))
            }
            Err(kept) => Err(kept.store),
        }
    }

    /// The network of the book.
    pub fn topology(&self) -> &Topology
        ensures value { result.now ≡ self.now.network }
        ensures network { IsNetwork result.now }
    {
        &self.topology
    }

    /// How many entries the history has, now or later than all that the pass has seen.
    pub fn now<W: Wait>(&self, rt: &W, pass: Pass) -> (u64, Pass)
        requires { IsPassOf self.now pass }
        ensures epoch { result.0 ≡ length result.1.seen }
        ensures more { HasSeenMore pass result.1 }
    {
        let held = self.turn.lock(rt, pass);
        let epoch = held.value().store.book().epoch();
        (epoch, self.turn.unlock(held))
    }

    /// One share of the pass goes to a new pass, which has seen as much. Both have one at least.
    pub fn split(&self, pass: &mut Pass) -> Pass
        requires of { IsPassOf self.now pass.old }
        requires share { 2 ≤ pass.old.share }
        ensures kept { pass.new ≡ record pass.old { share = pass.old.share - 1 } }
        ensures given { result ≡ record pass.old { share = 1; own = []; tried = []; faults = 0 } }
        ensures both { IsPassOf self.now pass.new × IsPassOf self.now result }
    {
        self.turn.split(pass)
    }

    /// The pass takes in the other one, and has seen the longer of the two lists.
    pub fn join(&self, pass: &mut Pass, other: Pass)
        requires of { IsPassOf self.now pass.old }
        requires other { IsPassOf self.now other }
        ensures { HasJoined pass.old other pass.new }
    {
        self.turn.join(pass, other);
    }

    /// The store, where no other pass is left. It stands for the whole history, and so does what a
    /// stop leaves of its disk.
    pub fn close(self, pass: Pass) -> Store<D>
        requires of { IsPassOf self pass }
        requires share { pass.share ≡ ALL_SHARES }
        ensures history { HasShared D.Disk B.begins pass result }
        ensures faults { (pass.faults ≤ (D.frame result.journal.disk).faults)
            ⊎ (end_of_count ≤ (D.frame result.journal.disk).faults) }
    {
        self.turn.close(pass).store
    }
}
