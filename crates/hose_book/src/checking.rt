// Whether an entry is sound at the book.
ghost use Rattle.std.specs.Prelude.{◌≡◌, ◌↔◌, ◌<◌, ◌≤◌, IsOk, Err, IfNone, IfSome, All, length, ℕ, List};
ghost use Rattle.hose_graph.specs.Amounts.{link_of};
ghost use Rattle.hose_graph.specs.Ascending.{IsAscending};
ghost use Rattle.hose_law.specs.Decision.{Fits};
ghost use Rattle.hose_law.specs.History.{IsSoundAt};
ghost use Rattle.hose_law.specs.Room.{first_links, free_rates};
ghost use Rattle.hose_law.specs.steps.Service.{service_entry};
ghost use Rattle.hose_tree.specs.steps.Amounts.{AreWithinCapacities, AreOnLinks};
ghost use Rattle.hose_book.specs.steps.Refusal.{AreInService, IsLowestFull, IsLowestOut, IsRefusedFor, Judges};

use crate::Book;
use hose_graph::{Amounts, Entry, Hose, MOST_EPOCH, MOST_LIVE, Name, Topology};
use hose_links::LinkSet;
use hose_tree::{free_rate, is_reservation};

/// Why an entry is not sound at a book.
#[derive(Clone, Copy, Debug, PartialEq, Eq)]
pub enum BookRefusal {
    /// The epoch is the last one, 4,000,000,000.
    Spent,
    /// 20,000 VPNs are live.
    Full,
    /// The amounts are not what the hose reserves on any tree that joins it, or one of them is 0.
    NotATree,
    /// An amount is on a link that is out of service; it is the lowest-numbered of these.
    OutOfService { link: u32 },
    /// A link has less free than its amount; it is the lowest-numbered of these.
    NoRoom { link: u32 },
    /// The customer has no live VPN of this id.
    NoVpn,
    /// The network has no link of this number.
    NoLink,
    /// The link is already out of service, or in service, as the entry would have it.
    Already,
}

impl Book {
    /// Judges an entry: whether it is sound at the book, or the first cause that it is not. For an
    /// admission these are in order `Spent`, `Full`, `NotATree`, `OutOfService`, `NoRoom`; for a
    /// release `NoVpn`, `Spent`; for a link that is taken out of service or put back `NoLink`,
    /// `Already`, `Spent`.
    pub fn check(&self, entry: &Entry) -> Result<(), BookRefusal>
        ensures ok { IsOk result ↔ IsSoundAt self.now.network self.now.book entry.now }
        ensures refused { (refusal : BookRefusal) → (result ≡ Err refusal)
            ↔ IsRefusedFor self.now.network self.now.book entry.now refusal }
    {
        match entry {
            Entry::Admit { hose, amounts, .. } => self.check_admission(hose, amounts),
            Entry::Release { customer, id } => self.check_release(customer, *id),
            Entry::Down { link } => self.check_service(*link, true),
            Entry::Up { link } => self.check_service(*link, false),
        }
    }

    fn check_admission(&self, hose: &Hose, amounts: &Amounts) -> Result<(), BookRefusal>
        ensures { (customer : List ℕ) → Judges self.now.network self.now.book
            (Entry.Admit customer hose.now amounts.now) result }
    {
        if self.epoch == MOST_EPOCH {
            return Err(BookRefusal::Spent);
        }
        if self.live.as_slice().len() >= MOST_LIVE {
            return Err(BookRefusal::Full);
        }
        if !is_reservation(&self.topology, hose, amounts) {
            return Err(BookRefusal::NotATree);
        }
        if let Some(link) = self.first_out(amounts) {
            return Err(BookRefusal::OutOfService { link });
        }
        match first_full_link(&self.topology, self.loads(), amounts) {
            Some(link) => Err(BookRefusal::NoRoom { link }),
            None => Ok(()),
        }
    }

    // The lowest link of the amounts that is out of service. Where none is out, the amounts are not
    // looked at.
    fn first_out(&self, amounts: &Amounts) -> Option<u32>
        requires { AreOnLinks self.now.network amounts.now }
        ensures some { IfSome result
            (IsLowestOut (first_links self.now.network self.now.book) amounts.now) }
        ensures none { IfNone result
            (AreInService (first_links self.now.network self.now.book) amounts.now) }
    {
        if self.served.are_all() {
            return None;
        }
        first_link_out(self.service(), amounts)
    }

    fn check_release(&self, customer: &Name, id: u64) -> Result<(), BookRefusal>
        ensures { Judges self.now.network self.now.book (Entry.Release customer.now id) result }
    {
        if self.place_of(customer, id).is_none() {
            return Err(BookRefusal::NoVpn);
        }
        if self.epoch == MOST_EPOCH {
            return Err(BookRefusal::Spent);
        }
        Ok(())
    }

    // Judges that a link is taken out of service, where this is true, or put back.
    fn check_service(&self, link: u32, down: bool) -> Result<(), BookRefusal>
        ensures { Judges self.now.network self.now.book (service_entry down link) result }
    {
        if link >= self.topology.links() {
            return Err(BookRefusal::NoLink);
        }
        if self.is_out(link) == down {
            return Err(BookRefusal::Already);
        }
        if self.epoch == MOST_EPOCH {
            return Err(BookRefusal::Spent);
        }
        Ok(())
    }
}

// The lowest link of the amounts that is out of service.
fn first_link_out(service: &LinkSet, amounts: &Amounts) -> Option<u32>
    requires { All (λ pair. link_of pair < length service.now) amounts.now }
    ensures some { IfSome result (IsLowestOut service.now amounts.now) }
    ensures none { IfNone result (AreInService service.now amounts.now) }
{
    for &(link, _) in amounts.pairs() {
        if !service.has(link) {
            return Some(link);
        }
    }
    None
}

// The lowest link that has less free than its amount.
fn first_full_link(top: &Topology, loads: &[u64], amounts: &Amounts) -> Option<u32>
    requires loads { AreWithinCapacities top.now loads.now }
    requires links { AreOnLinks top.now amounts.now }
    ensures some { IfSome result (IsLowestFull (free_rates top.now loads.now) amounts.now) }
    ensures none { IfNone result (Fits (free_rates top.now loads.now) amounts.now) }
{
    for (link, amount) in amounts.pairs() {
        if *amount > free_rate(top, loads, *link) {
            return Some(*link);
        }
    }
    None
}
