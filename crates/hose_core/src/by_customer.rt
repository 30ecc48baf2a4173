// The quotes of all customers.
ghost use Rattle.std.specs.Prelude.{◌≡◌, ◌≤◌, ℕ, List, IfNone, IfSome, None, Option, Some};
ghost use Rattle.hose_graph.specs.declared.limits.TheConstants.{MOST_QUOTES};
ghost use Rattle.hose_law.specs.Quotes.{at_number, free_number, none_held, with_number};
ghost use Rattle.hose_core.specs.steps.Holding.{HoldsNow, quotes_in};
ghost use Rattle.hose_core.specs.steps.Planning.{HasTold};
ghost use Rattle.hose_core.specs.declared.quotes.Quote.{Quote as QuoteHeld};

use crate::quotes::{Quote, Quotes};
use hose_graph::{Name, Reply};
use std::alloc::Global;
use std::collections::BTreeMap;
use std::marker::Model;

/// The quotes of each customer who has been quoted.
#[derive(Drop)]
pub struct QuotesByCustomer {
    by_customer: BTreeMap<Name, Quotes>,
}

impl Model for QuotesByCustomer {
    ghost use Rattle.hose_core.specs.steps.Holding.{AllQuotes};

    ghost Value = { AllQuotes };

    ghost view = { λ all. all.by_customer.entries };
}

impl QuotesByCustomer {
    /// No customer holds a quote.
    pub fn new(alloc: Global) -> QuotesByCustomer
        ensures { (customer : List ℕ) → quotes_in result customer ≡ none_held }
    {
        QuotesByCustomer {
            by_customer: BTreeMap::new(alloc),
        }
    }

    /// The quote that a customer holds under a number.
    pub fn held(&self, customer: &Name, number: u64) -> Option<&Quote>
        ensures some { IfSome result
            (λ quote. at_number (quotes_in self.now customer.now) number ≡ Some quote.now) }
        ensures none { IfNone result
            (at_number (quotes_in self.now customer.now) number ≡ None) }
    {
        self.by_customer.get(customer)?.held(number)
    }

    /// The lowest number under which a customer holds no quote.
    pub fn free(&self, customer: &Name) -> Option<u64>
        ensures lowest { result ≡ free_number (quotes_in self.now customer.now) }
        ensures range { IfSome result (λ number. (1 ≤ number) × (number ≤ MOST_QUOTES)) }
    {
        match self.by_customer.get(customer) {
            Some(quotes) => quotes.free(),
            None => Quotes::new().free(),
        }
    }

    /// Holds a quote for a customer under the lowest number at which the customer holds none, and
    /// tells it: `Quoted` or `Memory`.
    pub fn hold(&mut self, alloc: Global, customer: &Name, number: u64, quote: Quote) -> Reply
        requires range { (1 ≤ number) × (number ≤ MOST_QUOTES) }
        requires free { free_number (quotes_in self.old customer.now) ≡ Some number }
        ensures { (now : List (Option QuoteHeld))
            × HasTold number quote (quotes_in self.old customer.now) now result
            × HoldsNow self.old customer.now now self.new }
    {
        if let Some(quotes) = self.by_customer.get_mut(customer) {
            return quotes.hold(alloc, number, quote);
        }
        let mut quotes = Quotes::new();
        let reply = quotes.hold(alloc, number, quote);
        let Ok(_) = self.by_customer.insert(*customer, quotes) else {
            return Reply::Memory;
        };
        reply
    }

    /// Holds none for a customer under a number of 1 to 16 from then on.
    pub fn clear(&mut self, customer: &Name, number: u64)
        requires { (1 ≤ number) × (number ≤ MOST_QUOTES) }
        ensures { HoldsNow self.old customer.now
            (with_number (quotes_in self.old customer.now) number None) self.new }
    {
        let Some(quotes) = self.by_customer.get_mut(customer) else {
            return;
        };
        quotes.clear(number);
    }
}
