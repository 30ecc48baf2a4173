// Hoses: endpoints with their rates, checked and sorted.
ghost use Rattle.std.specs.Prelude.{◌≡◌, ℕ, ◌*◌, ◌<◌, ◌≤◌, ◌↔◌, List, length, IsTrue, IsErrOf, IfOk, All, Any, IsPermutation};
ghost use Rattle.hose_graph.specs.Hose.{IsEnd, IsHose, IsCounted, HasDistinctNodes, node_of, total_rate};
ghost use Rattle.hose_graph.specs.steps.Hose.{MakesHose};

use crate::limits::{LEAST_ENDS, MOST_ENDS, MOST_NODES, MOST_RATE};
use std::alloc::{AllocError, Global};
use std::marker::Model;

/// Why endpoints make no hose.
#[derive(Clone, Copy, Debug, PartialEq, Eq)]
pub enum HoseFault {
    /// There are more endpoints than a hose can have.
    Many,
    /// There are fewer endpoints than a hose has.
    Few,
    /// A node's number is above that of any network, or a rate is outside its limits.
    Range,
    /// A node is named twice.
    Repeat,
    /// No memory was left.
    Memory,
}

/// An endpoint of a customer's network: the number of its node, and the rate that bounds the sum of
/// all that it sends and is sent, in the customer's unit of bandwidth.
pub type Endpoint = (u32, u64);

/// The endpoints of a customer's network, in ascending order of nodes.
///
/// A contract sees it as the list of its endpoints.
#[derive(Debug, Drop)]
pub struct Hose {
    ends: Vec<Endpoint>,
}

impl Model for Hose {
    ghost use Rattle.std.specs.Prelude.{ℕ, List};
    ghost use Rattle.hose_graph.specs.Hose.{IsHose};

    ghost Value = { List (ℕ × ℕ) };

    ghost view = { λ hose. hose.ends.items };

    ghost invariant = { λ hose. IsHose hose.ends.items };
}

impl Hose {
    /// The hose of these endpoints, which may stand in any order. A rate is in the customer's unit
    /// of bandwidth.
    pub fn build(alloc: Global, ends: &[Endpoint]) -> Result<Hose, HoseFault>
        ensures hose { IfOk result IsHose }
        ensures same_ends { IfOk result (λ hose. IsPermutation ends.now hose) }

        // Each refusal comes only where those before it do not.
        ensures many { IsErrOf result HoseFault.Many ↔ (MOST_ENDS < length ends.now) }
        ensures few { IsErrOf result HoseFault.Few ↔ (length ends.now < LEAST_ENDS) }
        ensures range { IsErrOf result HoseFault.Range
            ↔ (IsCounted ends.now × (¬ All IsEnd ends.now)) }
        ensures repeat { IsErrOf result HoseFault.Repeat
            ↔ (IsCounted ends.now × All IsEnd ends.now × (¬ HasDistinctNodes ends.now)) }
        ensures memory { IsErrOf result HoseFault.Memory → MakesHose ends.now }
    {
        if ends.len() > MOST_ENDS {
            return Err(HoseFault::Many);
        }
        if ends.len() < LEAST_ENDS {
            return Err(HoseFault::Few);
        }
        if !are_within(ends) {
            return Err(HoseFault::Range);
        }
        if !has_distinct_nodes(ends) {
            return Err(HoseFault::Repeat);
        }
        Hose::from_ends(alloc, ends).map_err(|_| HoseFault::Memory)
    }

    /// The hose of these endpoints, which may stand in any order, where they are known to make one.
    pub fn from_ends(alloc: Global, ends: &[Endpoint]) -> Result<Hose, AllocError>
        requires { MakesHose ends.now }
        ensures hose { IfOk result IsHose }
        ensures same_ends { IfOk result (λ hose. IsPermutation ends.now hose) }
    {
        let mut sorted = Vec::from_slice(alloc, ends)?;
        sorted.sort_unstable_by_key(|end| end.0);
        Ok(Hose { ends: sorted })
    }

    /// The endpoints in ascending order of nodes.
    pub fn ends(&self) -> &[Endpoint]
        ensures value { result.now ≡ self.now }
        ensures hose { IsHose self.now }
    {
        &self.ends
    }

    /// The sum of the rates, in the customer's unit of bandwidth.
    pub fn total(&self) -> u64
        ensures sum { result ≡ total_rate self.now }
        ensures bound { result ≤ MOST_ENDS * MOST_RATE }
    {
        self.ends.iter().map(|end| end.1).sum()
    }

    /// The hose of these endpoints, where they are known to be a hose's and in order. It takes no
    /// memory.
    pub fn from_vec(ends: Vec<Endpoint>) -> Hose
        requires { IsHose ends.items }
        ensures { result ≡ ends.items }
    {
        Hose { ends }
    }

    /// A copy of the hose.
    pub fn copy(&self, alloc: Global) -> Result<Hose, AllocError>
        ensures { IfOk result (λ hose. hose ≡ self.now) }
    {
        Ok(Hose::from_vec(Vec::from_slice(alloc, self.ends())?))
    }
}

// Whether each endpoint's node and rate are within the limits.
fn are_within(ends: &[Endpoint]) -> bool
    ensures { IsTrue result ↔ All IsEnd ends.now }
{
    ends.iter().all(|end| end.0 < MOST_NODES && (1..=MOST_RATE).contains(&end.1))
}

// Whether no two of the endpoints are at one node.
fn has_distinct_nodes(ends: &[Endpoint]) -> bool
    ensures { IsTrue result ↔ HasDistinctNodes ends.now }
{
    for (place, end) in ends.iter().enumerate() {
        if has_node(&ends[..place], end.0) {
            return false;
        }
    }
    true
}

// Whether one of the endpoints is at the node.
fn has_node(ends: &[Endpoint], node: u32) -> bool
    ensures { IsTrue result ↔ Any (λ end. node_of end ≡ node) ends.now }
{
    ends.iter().any(|end| end.0 == node)
}
