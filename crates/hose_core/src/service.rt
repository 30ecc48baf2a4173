// Taking links out of service, and putting them back.
ghost use Rattle.std.specs.Prelude.{◌≡◌, ◌≢◌, ℕ, Bool, List};
ghost use Rattle.hose_graph.specs.Limits.{operator};
ghost use Rattle.hose_graph.specs.Network.{IsLinkOf};
ghost use Rattle.hose_graph.specs.declared.entry.Entry.{Entry};
ghost use Rattle.hose_graph.specs.declared.command.Reply.{Reply};
ghost use Rattle.hose_law.specs.steps.Service.{service_entry};
ghost use Rattle.hose_core.specs.steps.Claiming.{IsServiceClaim};
ghost use Rattle.hose_core.specs.steps.Service.{service_command, service_reply};
ghost use Rattle.hose_core.specs.steps.Stepping.{HaveAnswered, StepsAtEach};

use crate::claim::ServiceClaim;
use crate::entering::enter;
use hose_book::Books;
use hose_graph::{Entry, MOST_EPOCH, Reply};

/// Takes the link of a claim out of service for the operator, or puts it back: `Down`, `Up`,
/// `Already`, `Spent` or `Disk`. It takes no memory. The link is one of the network.
pub fn service_now<K: Books>(books: &mut K, claim: ServiceClaim<K>) -> Reply
    requires claim { (down : Bool) × (link : ℕ) × IsServiceClaim K.Books claim down link
        × IsLinkOf (K.ledger books.old).network link }
    ensures step { (down : Bool) (link : ℕ) → IsServiceClaim K.Books claim down link
        → StepsAtEach K.Books books.old books.new operator (service_command down link) result }
    ensures answered { HaveAnswered K.Books books.old books.new result }
    ensures memory { result ≢ Reply.Memory }
{
    let entry = claim.entry();
    let ServiceClaim { link, down, ready } = claim;
    enter_order(books, entry, ready, link, down)
}

// Enters an order of the operator for a link, where it is not carried out already and an epoch is
// left.
fn enter_order<K: Books>(
    books: &mut K,
    entry: Entry,
    ready: K::Ready,
    link: u32,
    down: bool,
) -> Reply
    requires orders { entry ≡ service_entry down link }
    requires link { IsLinkOf (K.ledger books.old).network link }
    requires ready { K.fits ready entry }
    ensures step { StepsAtEach K.Books books.old books.new operator (service_command down link)
        result }
    ensures answered { HaveAnswered K.Books books.old books.new result }
    ensures memory { result ≢ Reply.Memory }
{
    let at = books.book().epoch();
    let out = books.book().is_out(link);
    if out == down {
        return Reply::Already {
            link: u64::from(link),
            at,
        };
    }
    if at == MOST_EPOCH {
        return Reply::Spent { at };
    }
    enter(books, entry, ready, done(link, down, at + 1))
}

// The reply that tells what was done to a link, with the epoch after it.
fn done(link: u32, down: bool, at: u64) -> Reply
    ensures { result ≡ service_reply down link at }
{
    let link = u64::from(link);
    if down {
        return Reply::Down { link, at };
    }
    Reply::Up { link, at }
}
