// Quotes: plans that are held.
ghost use Rattle.std.specs.Prelude.{◌≡◌, ◌<◌, ◌≤◌, IfNone, IfSome, None, Some, is_none, length, position};
ghost use Rattle.hose_law.specs.Quotes.{at_number, free_number, none_held, with_number};
ghost use Rattle.hose_graph.specs.declared.limits.TheConstants.{MOST_QUOTES};
ghost use Rattle.hose_core.specs.steps.Planning.{HasTold};

use hose_graph::{Amounts, Hose, MOST_QUOTES, Reply};
use hose_plan::Grounds;
use std::alloc::Global;
use std::array;
use std::marker::Model;

/// A plan that was told to a customer, and may be taken while its grounds hold.
#[derive(Debug, Drop)]
pub struct Quote {
    pub hose: Hose,
    /// The epoch at which it was made.
    pub seen: u64,
    /// The sum of each link's cost per unit times its amount.
    pub cost: u64,
    /// What would be reserved on each link, in the customer's unit of bandwidth.
    pub amounts: Amounts,
    pub grounds: Grounds,
}

/// The quotes that a customer holds, each under a number of 1 to 16.
///
/// A contract sees them as the list of what stands at each number, from 1 on.
#[derive(Drop)]
pub struct Quotes {
    quotes: [Option<Quote>; MOST_QUOTES],
}

impl Model for Quotes {
    ghost use Rattle.std.specs.Prelude.{List, Option};
    ghost use Rattle.hose_core.specs.declared.quotes.Quote.{Quote};

    ghost Value = { List (Option Quote) };

    ghost view = { λ held. held.quotes };
}

impl Quotes {
    /// No quote is held.
    pub fn new() -> Quotes
        ensures { result ≡ none_held }
    {
        Quotes {
            quotes: array::from_fn(|_| None),
        }
    }

    /// The quote under a number.
    pub fn held(&self, quote: u64) -> Option<&Quote>
        ensures some { IfSome result (λ held. at_number self.now quote ≡ Some held.now) }
        ensures none { IfNone result (at_number self.now quote ≡ None) }
        ensures places { IfSome result (λ _. length self.now ≡ MOST_QUOTES) }
    {
        let index = quote.checked_sub(1)?;
        self.quotes.get(index as usize)?.as_ref()
    }

    /// The lowest number under which none is held.
    pub fn free(&self) -> Option<u64>
        ensures lowest { result ≡ free_number self.now }
        ensures range { IfSome result (λ number. (1 ≤ number) × (number ≤ MOST_QUOTES)) }
        ensures places { length self.now ≡ MOST_QUOTES }
    {
        first_free(&self.quotes).map(|index| index as u64 + 1)
    }

    /// Holds a quote under the lowest number at which none is held, and tells it: `Quoted` or
    /// `Memory`.
    pub fn hold(&mut self, alloc: Global, number: u64, quote: Quote) -> Reply
        requires range { (1 ≤ number) × (number ≤ MOST_QUOTES) }
        requires free { free_number self.old ≡ Some number }
        ensures { HasTold number quote self.old self.new result }
    {
        let (at, cost) = (quote.seen, quote.cost);
        let Ok(amounts) = quote.amounts.copy(alloc) else {
            return Reply::Memory;
        };
        self.put(number, quote);
        Reply::Quoted {
            quote: number,
            cost,
            at,
            amounts,
        }
    }

    /// Holds a quote under a number of 1 to 16 under which none is held.
    pub fn put(&mut self, place: u64, quote: Quote)
        requires range { (1 ≤ place) × (place ≤ MOST_QUOTES) }
        requires empty { at_number self.old place ≡ None }
        ensures { self.new ≡ with_number self.old place (Some quote) }
    {
        self.quotes[place as usize - 1] = Some(quote);
    }

    /// Holds none under a number of 1 to 16 from then on.
    pub fn clear(&mut self, place: u64)
        requires range { (1 ≤ place) × (place ≤ MOST_QUOTES) }
        ensures { self.new ≡ with_number self.old place None }
    {
        self.quotes[place as usize - 1] = None;
    }
}

// The first place at which nothing stands.
fn first_free(quotes: &[Option<Quote>]) -> Option<usize>
    ensures first { result ≡ position is_none quotes.now }
    ensures bound { IfSome result (λ index. index < length quotes.now) }
{
    quotes.iter().position(|quote| quote.is_none())
}
