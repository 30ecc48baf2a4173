// A network under the costs of several tariffs.
ghost use Rattle.std.specs.Prelude.{◌≡◌, ℕ, ◌<◌, ◌≤◌, length, IfOk, slice_index_or};
ghost use Rattle.hose_graph.specs.Limit.{IsUpTo};
ghost use Rattle.hose_graph.specs.declared.limits.TheConstants.{MOST_LENGTH};
ghost use Rattle.hose_tariff.specs.Fact.{IsPricedBy};
ghost use Rattle.hose_price.specs.Sheet.{IsColumn, IsColumnBy, IsSheet, costs_length, costs_one};
ghost use Rattle.hose_price.specs.Limits.{most_tariffs};

use hose_graph::{Name, Topology};
use hose_tariff::{Prices, Rule, Tariff, price};
use std::alloc::{AllocError, Global};
use std::marker::Model;

/// The greatest number of tariffs of a table.
pub const MOST_TARIFFS: usize = 16;

/// The limit is the literal that definitions cite.
pub fn law_limit()
    ensures most_tariffs { MOST_TARIFFS ≡ most_tariffs }
{}

// A network by the costs of a tariff, with the tariff's bounds.
#[derive(Drop)]
pub struct Column {
    pub base: u64,
    pub per: u64,
    pub top: Topology,
}

/// A network under the costs of several tariffs.
///
/// A contract sees it as a `Sheet`.
#[derive(Drop)]
pub struct PriceSheet {
    pub(crate) top: Topology,
    pub(crate) hops: Topology,
    pub(crate) lengths: Topology,
    pub(crate) columns: Vec<Column>,
}

impl Model for PriceSheet {
    ghost use Rattle.hose_price.specs.Sheet.{IsSheet, Sheet};

    ghost Value = { Sheet };

    ghost view = { λ sheet. record {
      network = sheet.top;
      hops = sheet.hops;
      lengths = sheet.lengths;
      columns = sheet.columns.items;
    } };

    ghost invariant = { λ sheet. IsSheet (record {
      network = sheet.top;
      hops = sheet.hops;
      lengths = sheet.lengths;
      columns = sheet.columns.items;
    }) };
}

impl PriceSheet {
    /// The network by each of the tariffs.
    pub fn new(alloc: Global, top: &Topology, tariffs: &[Tariff]) -> Result<PriceSheet, AllocError>
        requires some { 1 ≤ length tariffs.now }
        requires few { length tariffs.now ≤ MOST_TARIFFS }
        ensures sheet { IfOk result IsSheet }
        ensures network { IfOk result (λ sheet. sheet.network ≡ top.now) }
        ensures places { IfOk result (λ sheet. length sheet.columns ≡ length tariffs.now) }
        ensures columns { IfOk result (λ sheet. (k : ℕ) (c : _) (t : _) → k < length tariffs.now
            → IsColumnBy (⟦<Tariff as Prices>⟧.prices (slice_index_or tariffs.now k t))
            (slice_index_or tariffs.now k t).base (slice_index_or tariffs.now k t).per
            top.now (slice_index_or sheet.columns k c)) }
    {
        let mut columns = Vec::with_capacity(alloc, tariffs.len())?;
        for tariff in tariffs {
            columns.push_reserved(column_of(alloc, top, tariff)?);
        }
        Ok(PriceSheet {
            top: top.copy(alloc)?,
            hops: with_hops(alloc, top)?,
            lengths: with_lengths(alloc, top)?,
            columns,
        })
    }

    /// The network.
    pub fn topology(&self) -> &Topology
        ensures { result.now ≡ self.now.network }
    {
        &self.top
    }

    // How many tariffs there are.
    pub(crate) fn count(&self) -> usize
        ensures count { result ≡ length self.now.columns }
        ensures some { 1 ≤ result }
        ensures few { result ≤ MOST_TARIFFS }
    {
        self.columns.len()
    }

    // The column of a place.
    pub(crate) fn column(&self, place: usize) -> &Column
        requires { place < length self.now.columns }
        ensures of { (column : _) → result.now ≡ slice_index_or self.now.columns place column }
        ensures is_column { IsColumn self.now.network result.now }
    {
        &self.columns[place]
    }
}

// The network by a tariff.
fn column_of(alloc: Global, top: &Topology, tariff: &Tariff) -> Result<Column, AllocError>
    ensures by { IfOk result (IsColumnBy (⟦<Tariff as Prices>⟧.prices tariff.now) tariff.now.base
        tariff.now.per top.now) }
    ensures column { IfOk result (IsColumn top.now) }
{
    Ok(Column {
        base: tariff.base(),
        per: tariff.per(),
        top: price(alloc, top, tariff)?,
    })
}

// The network where each link costs 1.
fn with_hops(alloc: Global, top: &Topology) -> Result<Topology, AllocError>
    ensures { IfOk result (IsPricedBy costs_one top.now) }
{
    let rule = Box::new(
        alloc,
        |length: u64| -> u64
            requires { IsUpTo MOST_LENGTH length }
            ensures { result ≡ 1 }
        {
            let _ = length;
            1
        },
    )?;
    let tariff = Tariff::new(Name::read(b"hops").unwrap(), 1, 0, rule);
    price(alloc, top, &tariff)
}

// The network where each link costs its length.
fn with_lengths(alloc: Global, top: &Topology) -> Result<Topology, AllocError>
    ensures { IfOk result (IsPricedBy costs_length top.now) }
{
    let rule = Box::new(
        alloc,
        |length: u64| -> u64
            requires { IsUpTo MOST_LENGTH length }
            ensures { result ≡ length }
        { length },
    )?;
    priced_by_length(alloc, top, rule)
}

// The network priced by a rule that answers each length, in a function of its own because the boxed
// closure that is the rule has its clauses where it is made.
fn priced_by_length(alloc: Global, top: &Topology, rule: Rule) -> Result<Topology, AllocError>
    requires { (length : ℕ) → IsUpTo MOST_LENGTH length
        → ⟦<Box<dyn Fn(u64) -> u64> as Fn(u64) -> u64>⟧.pre rule length
        × ((cost : ℕ) → ⟦<Box<dyn Fn(u64) -> u64> as Fn(u64) -> u64>⟧.post rule length cost
        → cost ≡ length) }
    ensures { IfOk result (IsPricedBy costs_length top.now) }
{
    let tariff = Tariff::new(Name::read(b"lengths").unwrap(), 0, 1, rule);
    price(alloc, top, &tariff)
}
