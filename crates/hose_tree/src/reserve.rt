// What a hose reserves on a tree, by moving its rates from the last step's node down to the start.
ghost use Rattle.std.specs.Prelude.{◌≡◌, ◌≢◌, ℕ, ◌+◌, ◌<◌, ◌^◌, [], length, map, reverse, slice_index, IfOk};
ghost use Rattle.hose_graph.specs.Hose.{IsHose};
ghost use Rattle.hose_graph.specs.Network.{Network};
ghost use Rattle.hose_law.specs.Carries.{CarryOn};
ghost use Rattle.hose_law.specs.Tree.{IsTree, JoinsHose, IsReservation};
ghost use Rattle.hose_tree.specs.steps.Rates.{AreRatesOf, reserved_by};

use crate::Tree;
use hose_graph::{Amounts, Endpoint, Hose, MOST_NODES, ReservedLink, Step};
use std::alloc::{AllocError, Global};
use std::mem;

/// What a hose reserves on the links of a tree: on each link the rate sum of its smaller side,
/// which is all that traffic within the rates can put there. The tree may start at any of its
/// nodes, and its steps may come in any order that grows it.
pub fn reservations(alloc: Global, tree: &Tree, hose: &Hose) -> Result<Amounts, AllocError>
    requires joins { JoinsHose tree.now hose.now }
    ensures reserves { IfOk result (IsReservation tree.now hose.now) }
    ensures carry { IfOk result (CarryOn tree.now hose.now) }
{
    let mut rates = vec![in alloc; 0; MOST_NODES as usize]?;
    add_rates(&mut rates, hose.ends());
    let mut pairs = amounts_by_step(alloc, tree, hose, &mut rates)?;
    pairs.sort_unstable_by_key(|pair| pair.0);
    Amounts::build(alloc, &pairs)
}

// Adds the rates of a hose at its nodes, where none stood.
pub(crate) fn add_rates(rates: &mut [u64], ends: &[Endpoint])
    requires hose { IsHose ends.now }
    requires places { length rates.old ≡ MOST_NODES }
    requires empty { AreRatesOf [] rates.old }
    ensures { AreRatesOf ends.now rates.new }
{
    for (node, rate) in ends {
        add_rate(rates, *node, *rate);
    }
}

// The amounts of the steps' links, the last step's first. Beyond the last step's link lies what is
// at its new node, and once that has moved to its old node, the same is true of the step before.
fn amounts_by_step(
    alloc: Global,
    tree: &Tree,
    hose: &Hose,
    rates: &mut [u64],
) -> Result<Vec<ReservedLink>, AllocError>
    requires places { length rates.old ≡ MOST_NODES }
    requires rates { AreRatesOf hose.now rates.old }
    ensures amounts { IfOk result (λ pairs.
        pairs.items ≡ map (reserved_by tree.now hose.now) (reverse tree.now.steps)) }
    ensures is_tree { (network : Network) × IsTree network tree.now }
{
    let total = hose.total();
    let mut pairs = Vec::new(alloc);
    for step in tree.steps().iter().rev() {
        let beyond = move_rate(rates, step);
        pairs.push((step.link, beyond.min(total - beyond)))?;
    }
    Ok(pairs)
}

// Moves the rate at a step's new node to its old node, and says what it was.
pub(crate) fn move_rate(rates: &mut [u64], step: &Step) -> u64
    requires old { step.now.old < length rates.old }
    requires new { step.now.new < length rates.old }
    requires differ { step.now.old ≢ step.now.new }
    requires fits { slice_index rates.old step.now.old + slice_index rates.old step.now.new
        < 2 ^ 64 }
    ensures rate { result ≡ slice_index rates.old step.now.new }
    ensures old { slice_index rates.new step.now.old ≡ slice_index rates.old step.now.old + result }
    ensures new { slice_index rates.new step.now.new ≡ 0 }
    ensures others { (v : ℕ) → v ≢ step.now.old → v ≢ step.now.new
        → slice_index rates.new v ≡ slice_index rates.old v }
{
    let rate = mem::take(&mut rates[step.new as usize]);
    add_rate(rates, step.old, rate);
    rate
}

// Adds to the rate at a node.
fn add_rate(rates: &mut [u64], node: u32, rate: u64)
    requires there { node < length rates.old }
    requires fits { slice_index rates.old node + rate < 2 ^ 64 }
    ensures here { slice_index rates.new node ≡ slice_index rates.old node + rate }
    ensures others { (v : ℕ) → v ≢ node → slice_index rates.new v ≡ slice_index rates.old v }
{
    rates[node as usize] += rate;
}
