//! The book of a network: which VPNs are live, what they reserve on each link, and which links are
//! in service. It judges any entry, whoever made it, and enters those that are sound; a journal can
//! be read into it and put under it.
//!
//! ```
//! let mut book = Book::new(alloc, topology)?;
//! match book.check(&entry) {
//!     Ok(()) => book.apply(entry),
//!     Err(refusal) => eprintln!(rt; "{refusal:?}")?,
//! }
//! ```
//!
//! A book keeps which links recent entries touched, so that whoever looked at its loads before can
//! look at what changed since.
//!
//! `Books` is a book that takes entries, kept in memory alone (`Plain`) or elsewhere besides.
#![tactic(auto)]

ghost use Rattle.std.specs.Prelude.{◌≡◌, ◌<◌, ◌≤◌, ℕ, [], All, Contains, IfOk, length};
ghost use Rattle.hose_book.specs.steps.Changes.{AreInOrder, AreSince, AreUpTo, AscendByLinks};
ghost use Rattle.hose_book.specs.steps.Ledger.{IsKept, opening_ledger};
ghost use Rattle.hose_book.specs.declared.recent.TheConstants.{MOST_CHANGES};
ghost use Rattle.hose_graph.specs.Network.{IsNetwork};
ghost use Rattle.hose_graph.specs.declared.limits.TheConstants.{MOST_EPOCH};
ghost use Rattle.hose_law.specs.Book.{loads_of};
ghost use Rattle.hose_law.specs.Live.{Rise};
ghost use Rattle.hose_law.specs.Room.{first_links};
ghost use Rattle.hose_law.specs.Service.{is_out};
ghost use Rattle.hose_law.specs.steps.Tracks.{Tracks};
ghost use Rattle.hose_tree.specs.steps.Amounts.{AreWithinCapacities};

mod books;
mod changing;
mod checking;
mod finding;
mod listing;
mod live_vpns;
mod recent;
mod served_links;

use crate::live_vpns::LiveVpns;
use crate::recent::{RecentChanges, first_since};
use crate::served_links::ServedLinks;
pub use books::{Books, Committed, Plain};
pub use checking::BookRefusal;
use hose_graph::{MOST_EPOCH, Topology, Vpn};
use hose_links::LinkSet;
pub use recent::{MOST_CHANGES, law_limit};
use std::alloc::{AllocError, Global};
use std::marker::Model;

/// A network with its live VPNs, in the order of their admission, the sum of what they reserve on
/// each link, and the links that are in service. No link is ever oversold. At most 256 VPNs that
/// were released keep their memory, until a later release.
///
/// A contract sees it as the network, its book, and the changes that it keeps.
#[derive(Drop)]
pub struct Book {
    topology: Topology,
    epoch: u64,
    loads: Vec<u64>,
    live: LiveVpns,
    served: ServedLinks,
    recent: RecentChanges,
}

impl Model for Book {
    ghost use Rattle.std.specs.Prelude.{◌≡◌, ◌≤◌, All};
    ghost use Rattle.hose_graph.specs.Network.{IsNetwork};
    ghost use Rattle.hose_book.specs.steps.Changes.{AreUpTo};
    ghost use Rattle.hose_book.specs.Ledger.{Ledger};
    ghost use Rattle.hose_book.specs.steps.Ledger.{AreKeptLoads, IsKept};
    ghost use Rattle.hose_graph.specs.Limits.{most_epoch};
    ghost use Rattle.hose_law.specs.steps.Live.{HasRisingIds};
    ghost use Rattle.hose_law.specs.Service.{links_in_service};

    ghost Value = { Ledger };

    ghost view = { λ b.
        record {
          network = b.topology;
          book = record { epoch = b.epoch; live = b.live; out = b.served.out };
          recent = b.recent;
        } };

    ghost invariant = { λ b. IsNetwork b.topology
        × AreKeptLoads b.topology (record { epoch = b.epoch; live = b.live; out = b.served.out })
        b.loads.items
        × (b.epoch ≤ most_epoch)
        × HasRisingIds 0 (record { epoch = b.epoch; live = b.live; out = b.served.out })
        × All (IsKept b.topology) b.live
        × (b.recent.floor ≤ b.epoch)
        × AreUpTo b.epoch b.recent.changes
        × (b.served.links ≡ links_in_service b.topology b.served.out) };
}

impl Book {
    /// The book of a network at epoch 0, with nothing live and every link in service. It has room
    /// for 20,000 VPNs and 65,536 changes, and for as many links out of service as a network can
    /// have, so that nothing after it takes memory.
    pub fn new(alloc: Global, topology: Topology) -> Result<Book, AllocError>
        ensures value { IfOk result (λ book. book ≡ opening_ledger topology 0) }
        ensures tracks { IfOk result (λ book. Tracks 0 [] book.recent) }
    {
        Book::at(alloc, topology, 0)
    }

    /// The book of a network at an epoch of at most 4,000,000,000, otherwise as `new` makes it.
    pub fn at(alloc: Global, topology: Topology, epoch: u64) -> Result<Book, AllocError>
        requires { epoch ≤ MOST_EPOCH }
        ensures value { IfOk result (λ book. book ≡ opening_ledger topology epoch) }
        ensures tracks { IfOk result (λ book. Tracks epoch [] book.recent) }
    {
        let loads = Vec::from_elem(alloc, 0, topology.links() as usize)?;
        let live = LiveVpns::new(alloc)?;
        let served = ServedLinks::new(alloc, topology.links())?;
        let recent = RecentChanges::new(alloc, epoch)?;
        Ok(Book {
            topology,
            epoch,
            loads,
            live,
            served,
            recent,
        })
    }

    /// The network that it is of.
    pub fn topology(&self) -> &Topology
        ensures value { result.now ≡ self.now.network }
        ensures network { IsNetwork result.now }
    {
        &self.topology
    }

    /// How many entries it has taken, and the epoch that it began at.
    pub fn epoch(&self) -> u64
        ensures value { result ≡ self.now.book.epoch }
        ensures bound { result ≤ MOST_EPOCH }
    {
        self.epoch
    }

    /// What the live VPNs reserve on each link, in the customer's unit of bandwidth: never more
    /// than its capacity.
    pub fn loads(&self) -> &[u64]
        ensures value { result.now ≡ loads_of self.now.network self.now.book }
        ensures carried { AreWithinCapacities self.now.network result.now }
    {
        &self.loads
    }

    /// The links in service, over which the first plan of each hose is made.
    pub fn service(&self) -> &LinkSet
        ensures value { result.now ≡ first_links self.now.network self.now.book }
        ensures places { length result.now ≡ length self.now.network.links }
    {
        &self.served.links
    }

    /// Whether a link of the network is out of service.
    pub fn is_out(&self, link: u32) -> bool
        requires { link < length self.now.network.links }
        ensures { result ≡ is_out self.now.book.out link }
    {
        !self.service().has(link)
    }

    /// The live VPNs, in the order of their admission: their ids rise.
    pub fn live(&self) -> &[Vpn]
        ensures value { result.now ≡ self.now.book.live }
        ensures rise { Rise result.now }
        ensures kept { All (IsKept self.now.network) result.now }
    {
        self.live.as_slice()
    }

    /// The changes that it keeps, for embeddings and tests alone to look at: each the epoch after
    /// an entry and a link that the entry touched, those of each epoch above the floor, by epochs
    /// and then by links, 65,536 at most.
    pub fn changes(&self) -> &[(u64, u32)]
        ensures value { result.now ≡ self.now.recent.changes }
        ensures few { length result.now ≤ MOST_CHANGES }
        ensures order { AreInOrder result.now }
        ensures links { AscendByLinks result.now }
        ensures bound { AreUpTo self.now.book.epoch result.now }
    {
        self.recent.as_slice()
    }

    /// The epoch above which all changes are kept.
    pub fn floor(&self) -> u64
        ensures value { result ≡ self.now.recent.floor }
        ensures bound { result ≤ self.now.book.epoch }
    {
        self.recent.floor
    }

    /// The changes that are of a later epoch than this, the first of which is found by halving.
    pub fn changes_since(&self, seen: u64) -> &[(u64, u32)]
        ensures all { (epoch link : ℕ) → seen < epoch
            → Contains self.now.recent.changes (epoch, link) → Contains result.now (epoch, link) }
        ensures alone { AreSince seen result.now }
    {
        let changes = self.recent.as_slice();
        &changes[first_since(changes, seen)..]
    }
}
