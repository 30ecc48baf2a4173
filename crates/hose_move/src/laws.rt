// What is true of every move.
ghost use Rattle.std.specs.Prelude.{◌≡◌, List, ℕ, Some, Result, IsOk};
ghost use Rattle.hose_graph.specs.Network.{IsNetwork};
ghost use Rattle.hose_graph.specs.declared.entry.Entry.{Entry};
ghost use Rattle.hose_law.specs.Book.{Book};
ghost use Rattle.hose_law.specs.History.{IsSound};
ghost use Rattle.hose_move.specs.Moving.{HasEnough, Moves, StandsForPart};
ghost use Rattle.hose_move.specs.Stating.{stated_entries};
ghost use Rattle.hose_move.specs.steps.Renumbering.{IsRenumbered};
ghost use Rattle.hose_move.specs.declared.fault.MoveFault.{MoveFault};
ghost use Rattle.hose_move.specs.declared.stating.Scope.{Scope};

use hose_disk::Disk;
use hose_graph::Topology;

/// Where the disk stood for a part of the entries, and each of them is sound, a move ends with all
/// of them, but for a fault of the disk or want of memory.
pub fn law_complete<D: Disk>(top: &Topology)
    ensures { (was left : D) → (entries : List Entry) → (bytes : List ℕ) →
        (result : Result ℕ MoveFault) → Moves D.Disk was top.now entries left result →
        D.content was ≡ Some bytes → StandsForPart top.now entries bytes →
        IsSound top.now 0 entries → HasEnough result → IsOk result }
{}

/// What is live at a book leads to this book with other numbers: the same VPNs in the same order,
/// numbered from 1 on, as they stand; each link carries what it did, and the same links are out.
pub fn law_renumbered(top: &Topology)
    ensures { (book : Book) → IsRenumbered top.now book }
{}

/// What is live at the book of a sound history is sound on its network, in this order: so a journal
/// can be moved to the same network by what is live in it, however full that is.
pub fn law_live_sound(top: &Topology)
    ensures { IsNetwork top.now → (history : List Entry) → IsSound top.now 0 history →
        IsSound top.now 0 (stated_entries Scope.Live top.now history) }
{}
