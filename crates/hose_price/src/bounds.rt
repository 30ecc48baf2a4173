// What the bounds of all tariffs' costs are made of.
ghost use Rattle.std.specs.Prelude.{◌≡◌, ◌+◌, ◌*◌, ◌≤◌, max, length, All};
ghost use Rattle.hose_graph.specs.Amounts.{amount_of};
ghost use Rattle.hose_price.specs.Pricing.{plan_total};

use hose_graph::{Amounts, MOST_AMOUNT, MOST_COST, MOST_TREE_LINKS};

// The cost of the plan where each link costs 1; and of the plan where each link costs its length,
// the sum of the amounts and the cost.
#[derive(Clone, Copy)]
pub struct Bounds {
    pub hops: u64,
    pub amounts: u64,
    pub lengths: u64,
}

impl Bounds {
    // The least cost where no link costs less than 1 or this base. Each amount has to pass as many
    // links as where links are counted, at the least.
    pub fn low(&self, base: u64) -> u128
        ensures { result ≡ self.now.hops * max 1 base }
    {
        self.hops as u128 * base.max(1) as u128
    }

    // The greatest cost where no link costs more than this base and this for each unit of length:
    // what the plan of the shortest ways costs then.
    pub fn high(&self, base: u64, per: u64) -> u128
        requires base { base ≤ MOST_COST }
        requires per { per ≤ MOST_COST }
        ensures { result ≡ base * self.now.amounts + per * self.now.lengths }
    {
        base as u128 * self.amounts as u128 + per as u128 * self.lengths as u128
    }
}

// The sum of amounts, of which there are no more than a tree has links, and none is more than a
// hose reserves on a link.
pub fn total(amounts: &Amounts) -> u64
    requires few { length amounts.now ≤ MOST_TREE_LINKS }
    requires amounts { All (λ pair. amount_of pair ≤ MOST_AMOUNT) amounts.now }
    ensures { result ≡ plan_total amounts.now }
{
    let mut sum = 0;
    for (_, amount) in amounts.pairs() {
        sum += *amount;
    }
    sum
}
