// What is true of every image of a disk, and of every run of commits.
ghost use Rattle.std.specs.Prelude.{◌≡◌, ◌≤◌, All, IfSome, List, ℕ, Option, Result, is_some, ⊤};
ghost use Rattle.hose_io.specs.declared.Failed.{Failed};
ghost use Rattle.hose_graph.specs.Network.{Network};
ghost use Rattle.hose_graph.specs.declared.entry.Entry.{Entry};
ghost use Rattle.hose_law.specs.Book.{Book};
ghost use Rattle.hose_codec.specs.Spelling.{IsEntry};
ghost use Rattle.hose_journal.specs.Image.{Meaning};
ghost use Rattle.hose_journal.specs.Moments.{LeavesOnly, TellsAsBefore};
ghost use Rattle.hose_book.specs.steps.GoingOn.{GoesOn};
ghost use Rattle.hose_store.specs.Beginning.{Beginning, HasLeft};
ghost use Rattle.hose_store.specs.steps.Beginning.{StandsFor};
ghost use Rattle.hose_store.specs.steps.Commit.{Closes, store_books};
ghost use Rattle.hose_store.specs.Opening.{IsAtOpening};
ghost use Rattle.hose_store.specs.steps.Opening.{IsOpenedOn};
ghost use Rattle.hose_store.specs.Recovery.{IsRecoveredAs};
ghost use Rattle.hose_store.specs.steps.Store.{HasHistory, KeptStore};

use hose_disk::Disk;
use hose_graph::Topology;

/// An image is recovered as one thing only: a history, the journal of one other topology, or damage
/// at one place.
pub fn law_one_meaning(top: &Topology)
    ensures { (image : List ℕ) → (one other : Meaning Entry) →
        IsRecoveredAs top.now image one → IsRecoveredAs top.now image other → one ≡ other }
{}

/// Each entry of the history that a store has, and the one in doubt, is an entry of a journal: its
/// numbers and names are within their ranges.
pub fn law_spelled<D: Disk>()
    ensures { (store : KeptStore D) → (history : List Entry) → (doubt : Option Entry) →
        HasHistory D.Disk store history doubt → All IsEntry history × IfSome doubt IsEntry }
{}

/// What is fixed in the laws of runs: what an entry may be at a book of a network, as sound or
/// decided.
pub trait Premises {
    ghost kind: { Network → Book → Entry → Type 0 };
}

/// What is told of each entry that steps add: it is decided.
pub struct Decided;

impl Premises for Decided {
    ghost use Rattle.hose_law.specs.History.{IsDecidedAt};

    ghost kind = { IsDecidedAt };
}

/// A store that was opened stands for the history that it has, since that history, and since any
/// moment from which on the disk had just the images that it had once, as `was`.
pub fn law_opened<D: Disk, P: Premises>()
    ensures { (beginning : Beginning) → (was old : D) → (store : KeptStore D) →
        (opened : IsOpenedOn D.Disk old beginning.network store) →
        opened.history ≡ beginning.since →
        LeavesOnly D.Disk old store.journal.disk (IsAtOpening D.Disk old beginning.network) →
        TellsAsBefore D.Disk old store.journal.disk →
        is_some (D.content old) ≡ beginning.tells → beginning.moment ≤ D.moment old →
        ((image : List ℕ) → D.left_since old beginning.moment image → D.may_leave was image) →
        StandsFor D.Disk P.kind (D.may_leave was) beginning beginning.since store }
{}

/// A store that stands for a history stands for the one that any run of commits of entries of this
/// kind leads to, whichever of them the disk refused.
pub fn law_run<D: Disk, P: Premises>()
    ensures { (beginning : Beginning) → (was : D) → (first last : List Entry) →
        (old new : KeptStore D) →
        StandsFor D.Disk P.kind (D.may_leave was) beginning first old →
        GoesOn (store_books D.Disk) P.kind beginning.network first old last new →
        StandsFor D.Disk P.kind (D.may_leave was) beginning last new }
{}

/// What a store that stands for a history leaves of its disk, once it is closed.
pub fn law_closed<D: Disk, P: Premises>()
    ensures { (beginning : Beginning) → (was left : D) → (history : List Entry) →
        (store : KeptStore D) → (result : Result ⊤ Failed) →
        StandsFor D.Disk P.kind (D.may_leave was) beginning history store →
        Closes D.Disk store left result →
        HasLeft D.Disk P.kind (D.may_leave was) beginning history left result }
{}
