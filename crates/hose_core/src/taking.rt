// Taking what was quoted.
ghost use Rattle.std.specs.Prelude.{◌≡◌, ◌≢◌, ◌↔◌, ℕ, List, Some, IsTrue};
ghost use Rattle.hose_graph.specs.Network.{IsNetwork};
ghost use Rattle.hose_graph.specs.declared.command.Command.{Command};
ghost use Rattle.hose_graph.specs.declared.entry.Entry.{Entry};
ghost use Rattle.hose_law.specs.Book.{Book};
ghost use Rattle.hose_law.specs.Decision.{HaveEqualGrounds};
ghost use Rattle.hose_law.specs.Quotes.{Holding, HeldQuote, at_number};
ghost use Rattle.hose_book.specs.Ledger.{HasBookOf};
ghost use Rattle.hose_core.specs.steps.Claiming.{IsClaimOf};
ghost use Rattle.hose_core.specs.steps.Holding.{HasGroundsSince, IsMade, IsMadeAt, IsQuoteOf};
ghost use Rattle.hose_core.specs.steps.Stepping.{AdmitsCheapest, HasStepped, HaveAnswered, Takes, TellsPlan};

use crate::claim::Claim;
use crate::entering::enter_planned;
use crate::quotes::Quote;
use hose_book::Books;
use hose_graph::Reply;
use hose_plan::{grounds_hold, grounds_hold_since};

/// Admits what was quoted, where the grounds of the quote are as they were: `Admitted`, `Stale`,
/// `Spent`, `Full` or `Disk`. It takes no memory, and plans nothing. Where the book has all changes
/// since the quote, the links that they name are all that is compared beside the first plan; so the
/// loads of the others, and whether they are in service, have to be as they were when the quote was
/// made.
pub fn take_now<K: Books>(books: &mut K, quote: &Quote, claim: Claim<K>) -> Reply
    requires made { IsMade (K.ledger books.old).network quote.now }
    requires since { HasGroundsSince (K.ledger books.old) quote.now }
    requires claim { (customer : List ℕ) × IsClaimOf K.Books claim customer quote.now }
    ensures step { (customer : List ℕ) (epoch number : ℕ) (history : List Entry) (held : Holding)
        (one : HeldQuote) → IsClaimOf K.Books claim customer quote.now
        → HasBookOf epoch history (K.ledger books.old)
        → at_number held number ≡ Some one
        → IsQuoteOf (K.ledger books.old).network epoch history one quote.now
        → HasStepped K.Books books.old books.new epoch history customer held
        (Command.Take number) result }
    // So it is also where the books have come from no history of the quote, as another server's.
    ensures takes { (customer : List ℕ) (earlier : Book)
        → IsClaimOf K.Books claim customer quote.now
        → IsMadeAt (K.ledger books.old).network earlier quote.now
        → Takes K.Books books.old books.new earlier customer quote.now result }
    ensures cheapest { AdmitsCheapest (K.ledger books.old).network (K.ledger books.old).book
        quote.now.hose result }
    ensures told { TellsPlan quote.now.amounts quote.now.cost result }
    ensures answered { HaveAnswered K.Books books.old books.new result }
    ensures memory { result ≢ Reply.Memory }
{
    let Claim { entry, ready, told } = claim;
    if !still_holds(books, quote) {
        return Reply::Stale {
            seen: quote.seen,
            now: books.book().epoch(),
        };
    }
    enter_planned(books, entry, ready, told, quote.cost)
}

// Whether the grounds of a quote hold at books.
fn still_holds<K: Books>(books: &K, quote: &Quote) -> bool
    requires made { IsMade (K.ledger books.now).network quote.now }
    requires since { HasGroundsSince (K.ledger books.now) quote.now }
    ensures holds { let ledger = K.ledger books.now in
        (earlier : Book) → IsMadeAt ledger.network earlier quote.now
        → (IsTrue result
        ↔ HaveEqualGrounds ledger.network earlier ledger.book quote.now.hose) }
    ensures network { IsNetwork (K.ledger books.now).network }
{
    let book = books.book();
    let (top, service, loads) = (book.topology(), book.service(), book.loads());
    let seen = quote.seen;
    if seen >= book.floor() {
        let changes = book.changes_since(seen);
        return grounds_hold_since(top, service, loads, &quote.grounds, changes, seen);
    }
    grounds_hold(top, service, loads, &quote.grounds)
}
