// Amounts: what is reserved on links.
ghost use Rattle.std.specs.Prelude.{◌≡◌, IfOk};
ghost use Rattle.hose_graph.specs.Ascending.{IsAscending};

use std::alloc::{AllocError, Global};
use std::marker::Model;

/// A link's number, and what is reserved on it, in the customer's unit of bandwidth.
pub type ReservedLink = (u32, u64);

/// What is reserved on links, in ascending order of links.
///
/// A contract sees it as the list of them.
#[derive(Debug, Drop)]
pub struct Amounts {
    pairs: Vec<ReservedLink>,
}

impl Model for Amounts {
    ghost use Rattle.std.specs.Prelude.{ℕ, List};
    ghost use Rattle.hose_graph.specs.Ascending.{IsAscending};

    ghost Value = { List (ℕ × ℕ) };

    ghost view = { λ amounts. amounts.pairs.items };

    ghost invariant = { λ amounts. IsAscending amounts.pairs.items };
}

impl Amounts {
    /// The amounts of these links.
    pub fn build(alloc: Global, pairs: &[ReservedLink]) -> Result<Amounts, AllocError>
        requires { IsAscending pairs.now }
        ensures { IfOk result (λ amounts. amounts ≡ pairs.now) }
    {
        Ok(Amounts::from_vec(Vec::from_slice(alloc, pairs)?))
    }

    /// The amounts of these links, as `build` makes them, which takes no memory.
    pub fn from_vec(pairs: Vec<ReservedLink>) -> Amounts
        requires { IsAscending pairs.items }
        ensures { result ≡ pairs.items }
    {
        Amounts { pairs }
    }

    /// The links with their amounts, in ascending order of links.
    pub fn pairs(&self) -> &[ReservedLink]
        ensures value { result.now ≡ self.now }
        ensures ascending { IsAscending self.now }
    {
        &self.pairs
    }

    /// A copy of the amounts.
    pub fn copy(&self, alloc: Global) -> Result<Amounts, AllocError>
        ensures { IfOk result (λ amounts. amounts ≡ self.now) }
    {
        Amounts::build(alloc, self.pairs())
    }
}
