// Lists of the numbers of VPNs, as a customer's own.
ghost use Rattle.std.specs.Prelude.{◌≡◌};
ghost use Rattle.std.specs.List.Sorted.{IsStrictlyIncreasing};

use std::marker::Model;

/// The numbers of VPNs in ascending order, which is that of their admissions.
///
/// A contract sees it as the list of them.
#[derive(Debug, Drop)]
pub struct VpnList {
    ids: Vec<u64>,
}

impl Model for VpnList {
    ghost use Rattle.std.specs.Prelude.{ℕ, List};
    ghost use Rattle.std.specs.List.Sorted.{IsStrictlyIncreasing};

    ghost Value = { List ℕ };

    ghost view = { λ list. list.ids.items };

    ghost invariant = { λ list. IsStrictlyIncreasing list.ids.items };
}

impl VpnList {
    /// The list of these numbers, which takes no memory.
    pub fn from_vec(ids: Vec<u64>) -> VpnList
        requires { IsStrictlyIncreasing ids.items }
        ensures { result ≡ ids.items }
    {
        VpnList { ids }
    }

    /// The numbers in ascending order.
    pub fn ids(&self) -> &[u64]
        ensures value { result.now ≡ self.now }
        ensures ascending { IsStrictlyIncreasing self.now }
    {
        &self.ids
    }
}
