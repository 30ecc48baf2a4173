// Quotes, and taking what was quoted.
ghost use Rattle.std.specs.Prelude.{◌≡◌, ◌≢◌, ◌<◌, ◌≤◌, List, Some, ℕ, length};
ghost use Rattle.hose_graph.specs.steps.Naming.{NamesPlaces};
ghost use Rattle.hose_graph.specs.declared.command.Command.{Command};
ghost use Rattle.hose_graph.specs.declared.command.Reply.{Reply};
ghost use Rattle.hose_law.specs.steps.Plan.{AreNodes};
ghost use Rattle.hose_law.specs.Quotes.{Holding, HeldQuote, at_number};
ghost use Rattle.hose_store.specs.steps.Commit.{store_books};
ghost use Rattle.hose_core.specs.steps.Claiming.{IsClaimOf};
ghost use Rattle.hose_core.specs.steps.Holding.{AreHeld, IsQuoteOf};
ghost use Rattle.hose_shared.specs.steps.Along.{StepsHolding};
ghost use Rattle.hose_shared.specs.steps.Sharing.{IsPassOf};
ghost use Rattle.hose_shared.specs.steps.Turns.{StepsInTurn};

use crate::caller::Caller;
use crate::kept::Begun;
use crate::shared::Shared;
use hose_core::{Admission, Claim, Quote, Quotes, claim_take, take_now};
use hose_disk::Disk;
use hose_graph::{Hose, Reply};
use hose_paths::RowMaker;
use hose_pool::Gate;
use hose_store::Store;
use hose_turn::Pass;
use std::snapshot::Snapshot;
use std::sync::Wait;

impl<D: Disk, B: Begun<D>> Shared<D, B> {
    /// Plans a hose outside of the lock, and holds the plan under the customer's lowest free
    /// number: `Quoted`, `TooMany`, `Refused` or `Memory`. The quotes were made along this pass.
    pub fn quote<W: Wait, G: Gate, R: RowMaker>(
        &self,
        caller: &Caller<'_, W, G>,
        pass: Pass,
        quotes: &mut Quotes,
        hose: Hose,
        rows: &mut R,
    ) -> (Reply, Pass)
        requires of { IsPassOf self.now pass }
        requires nodes { AreNodes self.now.network hose }
        requires quotes { (held : Holding)
            × AreHeld self.now.network 0 pass.seen held quotes.old }
        ensures steps { (customer : List ℕ) (held : Holding)
            → AreHeld self.now.network 0 pass.seen held quotes.old
            → StepsHolding self.now.network customer held (Command.Quote hose) result.0
            pass result.1 quotes.new }
        ensures names { NamesPlaces self.now.network result.0 }
    {
        let Some(number) = quotes.free() else {
            let (at, pass) = self.now(caller.context.rt, pass);
            return (Reply::TooMany { at }, pass);
        };
        let asked = Admission { known: None, hose };
        let (planned, pass) = self.plan(caller, pass, asked, rows);
        match planned {
            Err(reply) => (reply, pass),
            Ok(quote) => (quotes.hold(caller.context.alloc, number, quote), pass),
        }
    }

    /// Admits what a customer was quoted under a number, which is free then: `Admitted`, `NoQuote`,
    /// `Stale`, `Spent`, `Full`, `Disk` or `Memory`. The quotes were made along this pass.
    pub fn take<W: Wait, G: Gate>(
        &self,
        caller: &Caller<'_, W, G>,
        pass: Pass,
        quotes: &mut Quotes,
        quote: u64,
    ) -> (Reply, Pass)
        requires of { IsPassOf self.now pass }
        requires quotes { (held : Holding)
            × AreHeld self.now.network 0 pass.seen held quotes.old }
        ensures steps { (held : Holding) → AreHeld self.now.network 0 pass.seen held quotes.old
            → StepsHolding self.now.network caller.now.customer.now held (Command.Take quote)
            result.0 pass result.1 quotes.new }
        // Of a stale quote both numbers are of this history, and other entries came after it.
        ensures stale { (seen now : ℕ) → result.0 ≡ Reply.Stale seen now
            → (seen < now) × (now ≤ length result.1.seen) }
        ensures names { NamesPlaces self.now.network result.0 }
    {
        let Some(held) = quotes.held(quote) else {
            let (at, pass) = self.now(caller.context.rt, pass);
            return (Reply::NoQuote { quote, at }, pass);
        };
        let Ok(claim) = claim_take(caller.context.alloc, caller.customer, held) else {
            return (Reply::Memory, pass);
        };
        let answered = self.take_claimed(caller.context.rt, pass, held, claim);
        quotes.clear(quote);
        answered
    }

    /// Takes a quote in a turn of its own.
    pub(crate) fn take_claimed<W: Wait>(
        &self,
        rt: &W,
        pass: Pass,
        quote: &Quote,
        claim: Claim<Store<D>>,
    ) -> (Reply, Pass)
        requires of { IsPassOf self.now pass }
        requires quote { (one : HeldQuote)
            × IsQuoteOf self.now.network 0 pass.seen one quote.now }
        requires claim { (customer : List ℕ)
            × IsClaimOf (store_books D.Disk) claim customer quote.now }
        ensures steps { (customer : List ℕ) (holds : Holding) (number : ℕ) (one : HeldQuote)
            → IsClaimOf (store_books D.Disk) claim customer quote.now
            → at_number holds number ≡ Some one
            → IsQuoteOf self.now.network 0 pass.seen one quote.now
            → StepsInTurn self.now.network customer holds (Command.Take number) result.0
            pass result.1 }
        ensures memory { result.0 ≢ Reply.Memory }
        ensures names { NamesPlaces self.now.network result.0 }
    {
        let entry = Snapshot::of(&claim.entry);
        let (mut held, start) = self.begin_turn(rt, pass);
        let reply = take_now(&mut held.value_mut().store, quote, claim);
        let pass = self.end_turn(held, start, Some(entry), &reply);
        (reply, pass)
    }
}
