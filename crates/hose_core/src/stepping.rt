// A book with the quotes of its customers.
ghost use Rattle.std.specs.Prelude.{◌≡◌, ◌≤◌, ℕ, List, Some};
ghost use Rattle.hose_graph.specs.steps.Naming.{AsksOf, NamesPlaces};
ghost use Rattle.hose_graph.specs.Network.{IsLinkOf};
ghost use Rattle.hose_graph.specs.declared.command.Command.{Command};
ghost use Rattle.hose_graph.specs.declared.limits.TheConstants.{MOST_EPOCH, MOST_QUOTES};
ghost use Rattle.hose_law.specs.steps.Plan.{AreNodes};
ghost use Rattle.hose_law.specs.Quotes.{free_number};
ghost use Rattle.hose_book.specs.steps.Commit.{IsMet};
ghost use Rattle.hose_core.specs.steps.Bound.{admission_command};
ghost use Rattle.hose_core.specs.steps.Holding.{AreAllKept, IsMadeAt, quotes_of};
ghost use Rattle.hose_core.specs.steps.Service.{service_command};
ghost use Rattle.hose_core.specs.steps.Stepping.{HasAnswered, HaveAnswered, HoldsNothing, IsSameOrNext, Steps, committed_of};

use crate::admitting::{Admission, admit_with_rows};
use crate::by_customer::QuotesByCustomer;
use crate::claim::{claim_release, claim_service, claim_take};
use crate::planning::plan_now;
use crate::quotes::Quote;
use crate::releasing::release_now;
use crate::service::service_now;
use crate::taking::take_now;
use crate::telling::{link_now, show_now, vpns_now};
use hose_book::Books;
use hose_graph::{Command, Hose, Name, Reply};
use hose_paths::{RowMaker, RowTable};
use std::alloc::Global;
use std::marker::Model;
use std::mem::swap;

/// A book that takes entries, with the quotes that each customer holds.
///
/// A contract sees it as its books and the quotes of its customers.
#[derive(Drop)]
pub struct Core<K: Books + Drop> {
    books: K,
    quotes: QuotesByCustomer,
    // Of the books' network.
    table: Option<RowTable>,
}

impl<K: Books + Drop> Model for Core<K> {
    ghost use Rattle.std.specs.Prelude.{◌≡◌, IfSome};
    ghost use Rattle.hose_core.specs.steps.Holding.{AreAllKept, State};

    ghost Value = { State K };

    ghost view = { λ core. record { books = core.books; quotes = core.quotes } };

    // What is held was decided on this network, at a book that this one came from. What rows are
    // kept are of this network, so that no plan has to compare it with theirs.
    ghost invariant = { λ core. let ledger = K.ledger core.books in
        AreAllKept ledger core.quotes
        × IfSome core.table (λ table. table.network ≡ ledger.network) };
}

impl<K: Books + Drop> Core<K> {
    /// No customer holds a quote. What is quoted takes its memory from the allocator.
    pub fn new(alloc: Global, books: K) -> Core<K>
        ensures { HoldsNothing K.Books books result }
    {
        Core {
            books,
            quotes: QuotesByCustomer::new(alloc),
            table: None,
        }
    }

    /// As `new`, with a table of the rows of the books' network, by which it plans.
    pub fn with_rows(alloc: Global, books: K, table: RowTable) -> Core<K>
        requires { table.network ≡ (K.ledger books).network }
        ensures { HoldsNothing K.Books books result }
    {
        Core {
            books,
            quotes: QuotesByCustomer::new(alloc),
            table: Some(table),
        }
    }

    /// The books.
    pub fn books(&self) -> &K
        ensures { result.now ≡ self.now.books }
    {
        &self.books
    }

    /// The books, and the quotes are given up.
    pub fn into_books(self) -> K
        ensures { result ≡ self.books }
    {
        self.books
    }

    /// The reply to a customer's command. The nodes and links that it names are those of the
    /// network, and a number to be released is at most 4,000,000,000.
    pub fn step<R: RowMaker>(
        &mut self,
        alloc: Global,
        customer: &Name,
        command: Command,
        rows: &mut R,
    ) -> Reply
        requires { AsksOf (K.ledger self.old.books).network command }
        ensures step { Steps K.Books self.old self.new customer.now command result }
        ensures network { (K.ledger self.new.books).network ≡ (K.ledger self.old.books).network }
        ensures met { IsMet (K.frame self.old.books) (committed_of result)
            (K.frame self.new.books) }
        ensures names { NamesPlaces (K.ledger self.old.books).network result }
        ensures goes { IsSameOrNext (K.ledger self.old.books) (K.ledger self.new.books) }
    {
        match command {
            Command::Admit(hose) => {
                let asked = Admission { known: None, hose };
                self.admit(alloc, customer, asked, rows)
            }
            Command::AdmitAfter { known, hose } => {
                let known = Some(known);
                self.admit(alloc, customer, Admission { known, hose }, rows)
            }
            Command::Quote(hose) => self.quote(alloc, customer, hose, rows),
            Command::Take(number) => self.take(alloc, customer, number),
            Command::Release(id) => self.release(alloc, customer, id),
            Command::Show(id) => self.show(alloc, customer, id),
            Command::Vpns => self.vpns(alloc, customer),
            Command::Link(link) => self.link(link),
            Command::Down(link) => self.operate(alloc, customer, link, true),
            Command::Up(link) => self.operate(alloc, customer, link, false),
        }
    }

    /// The reply to a command of a customer who holds these quotes, in place of those that the core
    /// keeps, as in a session whose quotes are its own.
    pub fn step_for<R: RowMaker>(
        &mut self,
        alloc: Global,
        customer: &Name,
        quotes: &mut QuotesByCustomer,
        command: Command,
        rows: &mut R,
    ) -> Reply
        requires asks { AsksOf (K.ledger self.old.books).network command }
        requires kept { AreAllKept (K.ledger self.old.books) quotes.old }
        ensures step { Steps K.Books (record { books = self.old.books; quotes = quotes.old })
            (record { books = self.new.books; quotes = quotes.new }) customer.now command result }
        ensures network { (K.ledger self.new.books).network ≡ (K.ledger self.old.books).network }
        ensures met { IsMet (K.frame self.old.books) (committed_of result)
            (K.frame self.new.books) }
        ensures names { NamesPlaces (K.ledger self.old.books).network result }
        ensures kept { AreAllKept (K.ledger self.new.books) quotes.new }
        ensures goes { IsSameOrNext (K.ledger self.old.books) (K.ledger self.new.books) }
    {
        swap(&mut self.quotes, quotes);
        let reply = self.step(alloc, customer, command, rows);
        swap(&mut self.quotes, quotes);
        reply
    }

    // Admits a hose.
    fn admit<R: RowMaker>(
        &mut self,
        alloc: Global,
        customer: &Name,
        asked: Admission,
        rows: &mut R,
    ) -> Reply
        requires { AreNodes (K.ledger self.old.books).network asked.hose }
        ensures { HasAnswered K.Books self.old self.new customer.now
            (admission_command asked.known asked.hose) result }
    {
        let table = self.table.as_ref();
        let (reply, _entered) = admit_with_rows(
            alloc,
            &mut self.books,
            customer,
            asked,
            table,
            rows,
        );
        reply
    }

    // Plans a hose, and holds the plan.
    fn quote<R: RowMaker>(
        &mut self,
        alloc: Global,
        customer: &Name,
        hose: Hose,
        rows: &mut R,
    ) -> Reply
        requires { AreNodes (K.ledger self.old.books).network hose }
        ensures { HasAnswered K.Books self.old self.new customer.now (Command.Quote hose) result }
    {
        let Some(number) = self.quotes.free(customer) else {
            let at = self.books.book().epoch();
            return Reply::TooMany { at };
        };
        match plan_now(alloc, &self.books, hose, self.table.as_ref(), rows) {
            Err(reply) => reply,
            Ok(quote) => self.hold(alloc, customer, number, quote),
        }
    }

    // Takes the quote under a number.
    fn take(&mut self, alloc: Global, customer: &Name, number: u64) -> Reply
        ensures { HasAnswered K.Books self.old self.new customer.now (Command.Take number) result }
    {
        let Some(quote) = self.quotes.held(customer, number) else {
            let at = self.books.book().epoch();
            return Reply::NoQuote { quote: number, at };
        };
        let Ok(claim) = claim_take(alloc, customer, quote) else {
            return Reply::Memory;
        };
        let reply = take_now(&mut self.books, quote, claim);
        self.quotes.clear(customer, number);
        reply
    }

    // Gives up the VPN of a number.
    fn release(&mut self, alloc: Global, customer: &Name, id: u64) -> Reply
        requires { id ≤ MOST_EPOCH }
        ensures { HasAnswered K.Books self.old self.new customer.now (Command.Release id) result }
    {
        let Ok(claim) = claim_release(alloc, customer, id) else {
            return Reply::Memory;
        };
        release_now(&mut self.books, claim)
    }

    // Tells the VPN of a number.
    fn show(&mut self, alloc: Global, customer: &Name, id: u64) -> Reply
        ensures { HasAnswered K.Books self.old self.new customer.now (Command.Show id) result }
    {
        show_now(alloc, &self.books, customer, id)
    }

    // Tells the customer's VPNs.
    fn vpns(&mut self, alloc: Global, customer: &Name) -> Reply
        ensures { HasAnswered K.Books self.old self.new customer.now Command.Vpns result }
    {
        vpns_now(alloc, &self.books, customer)
    }

    // Tells a link.
    fn link(&mut self, link: u32) -> Reply
        requires { IsLinkOf (K.ledger self.old.books).network link }
        ensures { (customer : List ℕ) → HasAnswered K.Books self.old self.new customer
            (Command.Link link) result }
    {
        link_now(&self.books, link)
    }

    // Takes a link out of service where `down` is true, or puts it back, for the operator alone.
    fn operate(&mut self, alloc: Global, customer: &Name, link: u32, down: bool) -> Reply
        requires { IsLinkOf (K.ledger self.old.books).network link }
        ensures { HasAnswered K.Books self.old self.new customer.now (service_command down link)
            result }
    {
        let book = self.books.book();
        let is_operator = customer.is_operator();
        if !is_operator {
            let at = book.epoch();
            return Reply::Denied { at };
        }
        // What holds of each network is told with it: how many links there can be.
        let _topology = book.topology();
        let Ok(claim) = claim_service(alloc, link, down) else {
            return Reply::Memory;
        };
        service_now(&mut self.books, claim)
    }

    // Holds a quote under a number, and tells it.
    fn hold(&mut self, alloc: Global, customer: &Name, number: u64, quote: Quote) -> Reply
        requires range { (1 ≤ number) × (number ≤ MOST_QUOTES) }
        requires free { free_number (quotes_of self.old customer.now) ≡ Some number }
        requires made { IsMadeAt (K.ledger self.old.books).network
            (K.ledger self.old.books).book quote }
        ensures step { Steps K.Books self.old self.new customer.now
            (Command.Quote quote.hose) result }
        ensures answered { HaveAnswered K.Books self.old.books self.new.books result }
    {
        self.quotes.hold(alloc, customer, number, quote)
    }
}
