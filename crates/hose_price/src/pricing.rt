// What a hose costs under each tariff.
ghost use Rattle.std.specs.Prelude.{◌≡◌, ◌<◌, length, IfOk, MatchOption, slice_index_or};
ghost use Rattle.hose_graph.specs.Network.{Network};
ghost use Rattle.hose_law.specs.steps.Plan.{AreNodes};
ghost use Rattle.hose_law.specs.Walk.{all_links};
ghost use Rattle.hose_price.specs.Pricing.{AreBounds, HasNoPricedPlan, IsPriceOf};
ghost use Rattle.hose_price.specs.steps.Pricing.{IsLineOf};

use crate::bounds::{Bounds, total};
use crate::priced::{Price, Priced};
use crate::sheet::PriceSheet;
use hose_graph::Hose;
use hose_links::LinkSet;
use hose_paths::{RowMaker, all_links};
use hose_plan::plan;
use hose_tree::cost;
use std::alloc::{AllocError, Global};

// A hose, and all links of the network, over which it is planned.
#[derive(Clone, Copy)]
struct HoseOverLinks<'a> {
    hose: &'a Hose,
    links: &'a LinkSet,
}

impl PriceSheet {
    /// What the hose costs under each tariff, on the whole network and without regard to loads;
    /// none where there is no plan of it. Each cost is that of the hose's first plan by the
    /// tariff's costs, which no amounts that carry the hose on any tree undercut.
    pub fn line<R: RowMaker>(
        &self,
        alloc: Global,
        hose: &Hose,
        rows: &mut R,
    ) -> Result<Option<Priced>, AllocError>
        requires nodes { AreNodes self.now.network hose.now }
        ensures line { IfOk result (IsLineOf self.now hose.now) }
    {
        let links = all_links(alloc, &self.top)?;
        let asked = &HoseOverLinks {
            hose,
            links: &links,
        };
        let Some(bounds) = self.bounds(alloc, asked, rows)? else {
            return Ok(None);
        };
        let mut prices = Vec::with_capacity(alloc, self.count())?;
        for place in 0..self.count() {
            let Some(price) = self.price(alloc, place, asked, &bounds, rows)? else {
                return Ok(None);
            };
            prices.push_reserved(price);
        }
        Ok(Some(Priced::from_vec(prices)))
    }

    // What the bounds are made of.
    fn bounds<R: RowMaker>(
        &self,
        alloc: Global,
        asked: &HoseOverLinks<'_>,
        rows: &mut R,
    ) -> Result<Option<Bounds>, AllocError>
        requires links { asked.now.links.now ≡ all_links self.now.network }
        requires nodes { AreNodes self.now.network asked.now.hose.now }
        ensures { IfOk result
            (λ found. MatchOption found (HasNoPricedPlan self.now.network asked.now.hose.now)
            (AreBounds self.now asked.now.hose.now)) }
    {
        let Some(few) = plan(alloc, &self.hops, asked.links, asked.hose, rows)? else {
            return Ok(None);
        };
        let Some(short) = plan(alloc, &self.lengths, asked.links, asked.hose, rows)? else {
            return Ok(None);
        };
        Ok(Some(Bounds {
            hops: cost(&self.hops, &few),
            amounts: total(&short),
            lengths: cost(&self.lengths, &short),
        }))
    }

    // The price under the tariff of a place.
    fn price<R: RowMaker>(
        &self,
        alloc: Global,
        place: usize,
        asked: &HoseOverLinks<'_>,
        bounds: &Bounds,
        rows: &mut R,
    ) -> Result<Option<Price>, AllocError>
        requires place { place < length self.now.columns }
        requires links { asked.now.links.now ≡ all_links self.now.network }
        requires nodes { AreNodes self.now.network asked.now.hose.now }
        requires bounds { AreBounds self.now asked.now.hose.now bounds.now }
        ensures { IfOk result
            (λ found. MatchOption found (HasNoPricedPlan self.now.network asked.now.hose.now)
            (λ price. (column : _) → IsPriceOf self.now asked.now.hose.now
            (slice_index_or self.now.columns place column) price)) }
    {
        let column = self.column(place);
        let _hops = self.hops.nodes();
        let Some(amounts) = plan(alloc, &column.top, asked.links, asked.hose, rows)? else {
            return Ok(None);
        };
        Ok(Some(Price {
            cost: cost(&column.top, &amounts),
            low: bounds.low(column.base),
            high: bounds.high(column.base, column.per),
        }))
    }
}
