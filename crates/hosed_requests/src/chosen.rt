// The costs that are chosen.
ghost use Rattle.std.specs.Prelude.{◌≡◌, option_map};
ghost use Rattle.hosed_requests.specs.ProgramWords.{chosen_of};

use hose_graph::Topology;
use hose_tariff::{OwnCosts, Prices};
use std::alloc::{AllocError, Global};

/// The costs of a tariff, or a network's own where none is chosen.
#[derive(Clone, Copy)]
pub struct ChosenCosts<'t, T: Prices> {
    pub tariff: Option<&'t T>,
}

/// Those of the tariff of a place, if one is chosen.
pub fn costs_of<T: Prices>(tariffs: &[T], tariff: Option<usize>) -> ChosenCosts<'_, T>
    ensures { option_map (λ tariff. tariff.now) result.tariff ≡ chosen_of tariffs.now tariff }
{
    let Some(place) = tariff else {
        return ChosenCosts { tariff: None };
    };
    if place >= tariffs.len() {
        return ChosenCosts { tariff: None };
    }
    ChosenCosts {
        tariff: Some(&tariffs[place]),
    }
}

impl<'t, T: Prices> Prices for ChosenCosts<'t, T> {
    ghost use Rattle.std.specs.Prelude.{option_map};
    ghost use Rattle.hosed_requests.specs.ProgramWords.{prices_of};

    ghost prices = { λ costs.
        prices_of T.prices (option_map (λ tariff. tariff.now) costs.tariff) };

    fn apply(&self, alloc: Global, top: Topology) -> Result<Topology, AllocError> {
        match self.tariff {
            Some(tariff) => tariff.apply(alloc, top),
            None => OwnCosts.apply(alloc, top),
        }
    }
}
