// A customer's VPNs among the live.
ghost use Rattle.std.specs.Prelude.{◌≡◌, ◌-◌, IfOk, length, slice_index};
ghost use Rattle.hose_law.specs.Answer.{AreVpnsOf, IsNewest};
ghost use Rattle.hose_law.specs.steps.VpnIds.{ids_of};

use crate::Book;
use hose_graph::{Name, Vpn, VpnList};
use std::alloc::{AllocError, Global};

impl Book {
    /// The numbers of a customer's live VPNs.
    pub fn vpns_of(&self, alloc: Global, customer: &Name) -> Result<VpnList, AllocError>
        ensures { IfOk result (AreVpnsOf self.now.book customer.now) }
    {
        let ids = own_ids(alloc, self.live(), customer)?;
        Ok(VpnList::from_vec(ids))
    }

    /// The number of a customer's newest live VPN, or 0 where there is none.
    pub fn newest_of(&self, customer: &Name) -> u64
        ensures { IsNewest self.now.book customer.now result }
    {
        newest_id(self.live(), customer)
    }
}

// The numbers of a customer's VPNs among these.
fn own_ids(alloc: Global, live: &[Vpn], customer: &Name) -> Result<Vec<u64>, AllocError>
    ensures { IfOk result (λ ids. ids.items ≡ ids_of customer.now live.now) }
{
    let mut ids = Vec::new(alloc);
    for vpn in live {
        if vpn.customer == *customer {
            ids.push(vpn.id)?;
        }
    }
    Ok(ids)
}

// The last one of them, or 0 where there is none.
fn newest_id(live: &[Vpn], customer: &Name) -> u64
    ensures { let ids = ids_of customer.now live.now in
        result ≡ slice_index ids (length ids - 1) }
{
    for last in live.iter().rev() {
        if last.customer == *customer {
            return last.id;
        }
    }
    0
}
