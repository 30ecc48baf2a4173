// What an admission is bound to.
ghost use Rattle.std.specs.Prelude.{MatchOption};
ghost use Rattle.hose_core.specs.steps.Bound.{HasNewest, TellsNewest};

use hose_book::Books;
use hose_graph::{Name, Reply};

/// The reply to an admission that is bound to a number, where another one is that of its customer's
/// newest VPN: `Newest`. It takes no memory.
pub fn newest_now<K: Books>(books: &K, customer: &Name, known: Option<u64>) -> Option<Reply>
    ensures { let book = (K.ledger books.now).book in
        MatchOption result (HasNewest book customer.now known)
        (TellsNewest book customer.now known) }
{
    let Some(known) = known else {
        return None;
    };
    let book = books.book();
    let id = book.newest_of(customer);
    if id == known {
        return None;
    }
    let at = book.epoch();
    Some(Reply::Newest { id, at })
}
