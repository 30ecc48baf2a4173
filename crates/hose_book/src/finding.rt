// Finding a VPN among the live.
ghost use Rattle.std.specs.Prelude.{◌≡◌, ◌≢◌, ◌<◌, ℕ, Contains, IfSome, IfNone, IsSomeAnd, OnSome, length, slice_get, IsNone};
ghost use Rattle.hose_law.specs.Book.{HasVpn, IsLiveVpn};
ghost use Rattle.hose_law.specs.Live.{Rise};
ghost use Rattle.hose_book.specs.steps.Ledger.{IsKept};

use crate::Book;
use hose_graph::{Name, Vpn};

impl Book {
    /// The live VPN of a customer and an id.
    pub fn find(&self, customer: &Name, id: u64) -> Option<&Vpn>
        ensures found { IfSome result
            (λ vpn. IsLiveVpn self.now.book customer.now id vpn.now) }
        ensures none { IfNone result (¬ HasVpn self.now.book customer.now id) }
        ensures kept { IfSome result (λ vpn. IsKept self.now.network vpn.now) }
    {
        let Some(place) = self.place_of(customer, id) else {
            return None;
        };
        Some(&self.live.as_slice()[place])
    }

    /// Its place among the live, whose ids rise.
    pub fn place_of(&self, customer: &Name, id: u64) -> Option<usize>
        ensures found { IfSome result (λ place. IsSomeAnd (slice_get self.now.book.live place)
            (IsLiveVpn self.now.book customer.now id)) }
        ensures none { IfNone result (¬ HasVpn self.now.book customer.now id) }
    {
        let live = self.live.as_slice();
        let Some(place) = place_of_id(live, id) else {
            return None;
        };
        let vpn = &live[place];
        if vpn.customer != *customer {
            return None;
        }
        Some(place)
    }
}

// The place of the VPN with an id.
fn place_of_id(live: &[Vpn], id: u64) -> Option<usize>
    requires { Rise live.now }
    ensures found { IfSome result (λ place.
        IsSomeAnd (slice_get live.now place) (λ vpn. vpn.id ≡ id)) }
    ensures none { IsNone result → (vpn : Vpn) → Contains live.now vpn → vpn.id ≢ id }
{
    let place = live.partition_point(|vpn| vpn.id < id);
    if place == live.len() || live[place].id != id {
        return None;
    }
    Some(place)
}
