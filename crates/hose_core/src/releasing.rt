// Releasing what is live.
ghost use Rattle.std.specs.Prelude.{◌≡◌, ◌≢◌, ℕ, List};
ghost use Rattle.hose_graph.specs.declared.command.Command.{Command};
ghost use Rattle.hose_graph.specs.declared.entry.Entry.{Entry};
ghost use Rattle.hose_core.specs.steps.Claiming.{IsReleaseClaim};
ghost use Rattle.hose_core.specs.steps.Stepping.{HaveAnswered, StepsAtEach};

use crate::claim::ReleaseClaim;
use crate::entering::enter;
use hose_book::Books;
use hose_graph::{Entry, MOST_EPOCH, Name, Reply};

/// Gives up the VPN of a claim on a release. It takes no memory.
pub fn release_now<K: Books>(books: &mut K, claim: ReleaseClaim<K>) -> Reply
    requires claim { (customer : List ℕ) × (id : ℕ) × IsReleaseClaim K.Books claim customer id }
    ensures step { (customer : List ℕ) (id : ℕ) → IsReleaseClaim K.Books claim customer id
        → StepsAtEach K.Books books.old books.new customer (Command.Release id) result }
    ensures answered { HaveAnswered K.Books books.old books.new result }
    ensures memory { result ≢ Reply.Memory }
{
    let entry = claim.entry();
    let ReleaseClaim {
        customer,
        id,
        ready,
    } = claim;
    enter_release(books, entry, ready, &customer, id)
}

// Enters the release of a customer's VPN, where there is one of the number and an epoch is left.
fn enter_release<K: Books>(
    books: &mut K,
    entry: Entry,
    ready: K::Ready,
    customer: &Name,
    id: u64,
) -> Reply
    requires releases { entry ≡ Entry.Release customer.now id }
    requires ready { K.fits ready entry }
    ensures step { StepsAtEach K.Books books.old books.new customer.now (Command.Release id)
        result }
    ensures answered { HaveAnswered K.Books books.old books.new result }
    ensures memory { result ≢ Reply.Memory }
{
    let at = books.book().epoch();
    if books.book().find(customer, id).is_none() {
        return Reply::NoVpn { id, at };
    }
    if at == MOST_EPOCH {
        return Reply::Spent { at };
    }
    enter(books, entry, ready, Reply::Released { id, at: at + 1 })
}
