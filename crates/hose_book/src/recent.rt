// Which links recent entries touched.
ghost use Rattle.std.specs.Prelude.{[], ◌≡◌, ◌+◌, ◌<◌, ◌≤◌, ◌^◌, ◌∷◌, ◌++◌, ℕ, IfOk, length, slice_index_or, take, vec_capacity};
ghost use Rattle.hose_book.specs.steps.Changes.{AreInOrder, AreUpTo, AscendByLinks, opening_recent, with_changes};
ghost use Rattle.hose_book.specs.declared.recent.TheConstants.{MOST_CHANGES};
ghost use Rattle.hose_graph.specs.Ascending.{IsAscending, firsts};
ghost use Rattle.hose_law.specs.steps.Tracks.{changes_of};
ghost use Rattle.hose_book.specs.steps.Limits.{most_changes};

use hose_graph::{MOST_TREE_LINKS, ReservedLink};
use std::alloc::{AllocError, Global};
use std::marker::Model;

/// How many changes a book keeps.
pub const MOST_CHANGES: usize = 65_536;

/// The limit is the literal that definitions cite.
pub fn law_limit()
    ensures most_changes { MOST_CHANGES ≡ most_changes }
{}

// The changes of each epoch above a floor, each an epoch and a link, with room for all that are
// kept.
//
// A contract sees the floor and the changes.
#[derive(Drop)]
pub(crate) struct RecentChanges {
    // Each change of a later epoch is among the changes.
    pub(crate) floor: u64,
    changes: Vec<(u64, u32)>,
}

impl Model for RecentChanges {
    ghost use Rattle.std.specs.Prelude.{◌≤◌, length, vec_capacity};
    ghost use Rattle.hose_law.specs.Recent.{Recent};
    ghost use Rattle.hose_book.specs.steps.Changes.{AreInOrder, AscendByLinks};
    ghost use Rattle.hose_book.specs.declared.recent.TheConstants.{MOST_CHANGES};

    ghost Value = { Recent };

    ghost view = { λ r. record { floor = r.floor; changes = r.changes.items } };

    ghost invariant = { λ r. (length r.changes.items ≤ MOST_CHANGES)
        × (MOST_CHANGES ≤ vec_capacity r.changes)
        × AreInOrder r.changes.items × AscendByLinks r.changes.items };
}

impl RecentChanges {
    // None above an epoch, with room for all that may come.
    pub(crate) fn new(alloc: Global, epoch: u64) -> Result<RecentChanges, AllocError>
        ensures { IfOk result (λ recent. recent ≡ opening_recent epoch) }
    {
        let changes = Vec::with_capacity(alloc, MOST_CHANGES)?;
        Ok(RecentChanges {
            floor: epoch,
            changes,
        })
    }

    // The changes, in the order of their entries.
    pub(crate) fn as_slice(&self) -> &[(u64, u32)]
        ensures value { result.now ≡ self.now.changes }
        ensures few { length result.now ≤ MOST_CHANGES }
        ensures order { AreInOrder result.now }
        ensures links { AscendByLinks result.now }
    {
        &self.changes
    }

    // Adds the links of an entry, as changes of the epoch after this one. Where the changes would
    // be too many, the earlier ones go.
    pub(crate) fn add(&mut self, epoch: u64, amounts: &[ReservedLink])
        requires epochs { AreUpTo epoch self.old.changes }
        requires epoch { epoch + 1 < 2 ^ 64 }
        requires few { length amounts.now ≤ MOST_TREE_LINKS }
        requires ascending { IsAscending amounts.now }
        ensures { self.new ≡ with_changes self.old epoch (firsts amounts.now) }
    {
        if self.changes.len() + amounts.len() > MOST_CHANGES {
            self.changes.clear();
            self.floor = epoch;
        }
        for (link, _) in amounts {
            self.changes.push_reserved((epoch + 1, *link));
        }
    }

    // Forgets all changes, and keeps those above an epoch from now on.
    pub(crate) fn restart(&mut self, epoch: u64)
        ensures { self.new ≡ opening_recent epoch }
    {
        self.changes.clear();
        self.floor = epoch;
    }

    // Adds the one link that an entry touched, as `add` adds those of amounts.
    pub(crate) fn add_link(&mut self, epoch: u64, link: u32)
        requires epochs { AreUpTo epoch self.old.changes }
        requires epoch { epoch + 1 < 2 ^ 64 }
        ensures { self.new ≡ with_changes self.old epoch (link ∷ []) }
    {
        // What the link carries is not asked for here.
        self.add(epoch, &[(link, 0)]);
    }
}

// The place before which no change is of a later epoch than this, and from which on each is.
pub(crate) fn first_since(changes: &[(u64, u32)], seen: u64) -> usize
    requires { AreInOrder changes.now }
    ensures inside { result ≤ length changes.now }
    ensures before { AreUpTo seen (take result changes.now) }
    ensures after { (k : ℕ) (d : _) → result ≤ k → k < length changes.now
        → seen < (slice_index_or changes.now k d).0 }
{
    changes.partition_point(|change| change.0 <= seen)
}
