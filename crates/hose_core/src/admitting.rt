// Admitting a hose, at once or with a plan that was made before.
ghost use Rattle.std.specs.Prelude.{◌≡◌, ◌≢◌, IfSome, IsNone, MatchOption, Some, option_map};
ghost use Rattle.hose_graph.specs.Network.{IsNetwork};
ghost use Rattle.hose_law.specs.Book.{Book};
ghost use Rattle.hose_law.specs.Decision.{HaveEqualGrounds};
ghost use Rattle.hose_law.specs.steps.Plan.{AreNodes};
ghost use Rattle.hose_core.specs.steps.Bound.{HasNewest};
ghost use Rattle.hose_core.specs.steps.Claiming.{IsClaimOf};
ghost use Rattle.hose_core.specs.steps.Holding.{HasGroundsSince, IsMade, IsMadeAt};
ghost use Rattle.hose_core.specs.steps.Planning.{AdmitsAtOnce};

use crate::bound::newest_now;
use crate::claim::Claim;
use crate::entering::enter_planned;
use crate::planning::plan_now;
use crate::quotes::Quote;
use crate::taking::take_now;
use hose_book::Books;
use hose_graph::{Entry, Hose, Name, Reply};
use hose_paths::{RowMaker, RowTable};
use std::alloc::Global;
use std::snapshot::Snapshot;

/// An admission that is asked for.
#[derive(Debug, Drop)]
pub struct Admission {
    /// The number of the VPN that has to be the customer's newest one, or 0 where there is to be
    /// none; without a number the admission is bound to none.
    pub known: Option<u64>,
    pub hose: Hose,
}

/// Plans a hose and admits it with its plan: `Admitted`, `Refused`, `Spent`, `Full`, `Disk` or
/// `Memory`; or `Newest`, before all of these, where the admission is bound to a number and another
/// one is that of the customer's newest VPN. Its endpoints are nodes of the network. What joins the
/// book, where it is accepted, is given beside the reply, unless nothing was planned.
pub fn admit_now<K: Books, R: RowMaker>(
    alloc: Global,
    books: &mut K,
    customer: &Name,
    asked: Admission,
    rows: &mut R,
) -> (Reply, Option<Snapshot<Entry>>)
    requires { AreNodes (K.ledger books.old).network asked.hose }
    ensures { AdmitsAtOnce K.Books books.old books.new customer.now asked result.0
        (option_map (λ entry. entry.value) result.1) }
{
    admit_with_rows(alloc, books, customer, asked, None, rows)
}

/// Plans a hose and admits it, as `admit_now` does. Where there is a table of the rows of the
/// books' network, it is asked first.
pub fn admit_with_rows<K: Books, R: RowMaker>(
    alloc: Global,
    books: &mut K,
    customer: &Name,
    asked: Admission,
    table: Option<&RowTable>,
    rows: &mut R,
) -> (Reply, Option<Snapshot<Entry>>)
    requires nodes { AreNodes (K.ledger books.old).network asked.hose }
    requires table { IfSome table
        (λ table. table.now.network ≡ (K.ledger books.old).network) }
    ensures { AdmitsAtOnce K.Books books.old books.new customer.now asked result.0
        (option_map (λ entry. entry.value) result.1) }
{
    let Admission { known, hose } = asked;
    if let Some(reply) = newest_now(books, customer, known) {
        return (reply, None);
    }
    match plan_now(alloc, books, hose, table, rows) {
        Err(reply) => (reply, None),
        Ok(quote) => admit_planned(alloc, books, customer, known, quote),
    }
}

/// Admits with a plan that was made before, at any book, as `admit_now` does with one that is made
/// now; or gives nothing, where the grounds of the plan are not as they were. It takes no memory,
/// and plans nothing. What joins the book, where it is accepted, is the claim's entry.
pub fn admit_claimed_now<K: Books>(
    books: &mut K,
    customer: &Name,
    known: Option<u64>,
    quote: &Quote,
    claim: Claim<K>,
) -> Option<Reply>
    requires made { IsMade (K.ledger books.old).network quote.now }
    requires since { HasGroundsSince (K.ledger books.old) quote.now }
    requires claim { IsClaimOf K.Books claim customer.now quote.now }
    ensures admits { MatchOption result (books.new ≡ books.old)
        (λ reply. AdmitsAtOnce K.Books books.old books.new customer.now
        (record { known = known; hose = quote.now.hose }) reply (Some claim.entry)) }
    ensures stale { IsNone result → (earlier : Book)
        → IsMadeAt (K.ledger books.old).network earlier quote.now
        → ¬ HaveEqualGrounds (K.ledger books.old).network earlier (K.ledger books.old).book
        quote.now.hose }
    ensures newest { IsNone result
        → HasNewest (K.ledger books.old).book customer.now known }
    ensures memory { IfSome result (λ reply. reply ≢ Reply.Memory) }
{
    if let Some(told) = newest_now(books, customer, known) {
        return Some(told);
    }
    match take_now(books, quote, claim) {
        Reply::Stale { .. } => None,
        reply => Some(reply),
    }
}

// Admits a hose that was planned at these books.
fn admit_planned<K: Books>(
    alloc: Global,
    books: &mut K,
    customer: &Name,
    known: Option<u64>,
    quote: Quote,
) -> (Reply, Option<Snapshot<Entry>>)
    requires network { IsNetwork (K.ledger books.old).network }
    requires made { IsMadeAt (K.ledger books.old).network (K.ledger books.old).book quote }
    requires newest { HasNewest (K.ledger books.old).book customer.now known }
    ensures { AdmitsAtOnce K.Books books.old books.new customer.now
        (record { known = known; hose = quote.hose }) result.0
        (option_map (λ entry. entry.value) result.1) }
{
    let Quote {
        hose,
        amounts,
        cost,
        ..
    } = quote;
    let Ok(told) = amounts.copy(alloc) else {
        return (Reply::Memory, None);
    };
    let entry = Entry::Admit {
        customer: *customer,
        hose,
        amounts,
    };
    let Ok(ready) = K::prepare(alloc, &entry) else {
        return (Reply::Memory, None);
    };
    let entered = Snapshot::of(&entry);
    (
        enter_planned(books, entry, ready, told, cost),
        Some(entered),
    )
}
