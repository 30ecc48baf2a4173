// What a hose costs under each tariff.
ghost use Rattle.std.specs.Prelude.{◌≡◌, ◌≤◌, ◌<◌, length};
ghost use Rattle.hose_price.specs.Pricing.{IsFirstLeast};
ghost use Rattle.hose_price.specs.declared.sheet.TheConstants.{MOST_TARIFFS};

use std::marker::Model;

/// What a hose costs under a tariff.
#[derive(Clone, Copy, Debug, PartialEq, Eq)]
pub struct Price {
    /// The cost of its plan.
    pub cost: u64,
    /// The least that it can cost by the tariff's base.
    pub low: u128,
    /// The most that it can cost by the tariff's base, and what it adds for each unit of length.
    pub high: u128,
}

/// A price for each tariff, in the order of the tariffs, and which one is the best.
///
/// A contract sees it as a `PriceLine`.
#[derive(Debug, Drop)]
pub struct Priced {
    prices: Vec<Price>,
    best: u32,
}

impl Model for Priced {
    ghost use Rattle.hose_price.specs.Pricing.{IsFirstLeast, PriceLine};

    ghost Value = { PriceLine };

    ghost view = { λ priced. record { prices = priced.prices.items; best = priced.best } };

    ghost invariant = { λ priced. IsFirstLeast priced.prices.items priced.best };
}

impl Priced {
    /// Finds the best of these prices.
    pub(crate) fn from_vec(prices: Vec<Price>) -> Priced
        requires some { 1 ≤ length prices.items }
        requires few { length prices.items ≤ MOST_TARIFFS }
        ensures prices { result.prices ≡ prices.items }
        ensures best { IsFirstLeast prices.items result.best }
    {
        let best = best_of(&prices);
        Priced { prices, best }
    }

    /// The price under each tariff.
    pub fn prices(&self) -> &[Price]
        ensures { result.now ≡ self.now.prices }
    {
        &self.prices
    }

    /// The place of the first tariff of least cost.
    pub fn best(&self) -> u32
        ensures value { result ≡ self.now.best }
        ensures first { IsFirstLeast self.now.prices result }
    {
        self.best
    }
}

// The first place of the least cost.
fn best_of(prices: &[Price]) -> u32
    requires some { 1 ≤ length prices.now }
    requires few { length prices.now ≤ MOST_TARIFFS }
    ensures { IsFirstLeast prices.now result }
{
    let mut best = 0;
    for place in 1..prices.len() {
        if prices[place].cost < prices[best].cost {
            best = place;
        }
    }
    best as u32
}
