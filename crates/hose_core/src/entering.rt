// Entering what was planned, and any entry that is sound.
ghost use Rattle.std.specs.Prelude.{◌≡◌, ◌≢◌, ℕ, List, Some};
ghost use Rattle.hose_graph.specs.Hose.{Endpoint};
ghost use Rattle.hose_graph.specs.steps.Naming.{NamesPlaces};
ghost use Rattle.hose_law.specs.Answer.{IsPlannedAnswer};
ghost use Rattle.hose_law.specs.History.{IsSoundAt};
ghost use Rattle.hose_law.specs.Plan.{plan_cost};
ghost use Rattle.hose_law.specs.steps.ReplyKind.{kind_of};
ghost use Rattle.hose_law.specs.steps.ReplyKind.ReplyKind.{ByTheBook};
ghost use Rattle.hose_core.specs.steps.Claiming.{IsPlannedEntry};
ghost use Rattle.hose_core.specs.steps.Stepping.{AnswersBy, Goes, HaveAnswered, IsToldAs, TellsPlan};

use hose_book::{Books, Committed};
use hose_graph::{Amounts, Entry, MOST_EPOCH, MOST_LIVE, Reply};

/// Enters the admission of a hose that was planned, where an epoch and room are left. The reply
/// tells its plan and what that costs. It takes no memory.
pub fn enter_planned<K: Books>(
    books: &mut K,
    entry: Entry,
    ready: K::Ready,
    told: Amounts,
    cost: u64,
) -> Reply
    requires planned { (customer : List ℕ) × (hose : List Endpoint)
        × IsPlannedEntry (K.ledger books.old) customer hose told entry }
    requires ready { K.fits ready entry }
    requires cost { cost ≡ plan_cost (K.ledger books.old).network told }
    ensures answers { (customer : List ℕ) (hose : List Endpoint)
        → IsPlannedEntry (K.ledger books.old) customer hose told entry
        → AnswersBy K.Books books.old books.new
        (IsPlannedAnswer (K.ledger books.old).network (K.ledger books.old).book customer hose)
        result }
    ensures told { TellsPlan told cost result }
    ensures answered { HaveAnswered K.Books books.old books.new result }
    ensures memory { result ≢ Reply.Memory }
{
    let book = books.book();
    let at = book.epoch();
    if at == MOST_EPOCH {
        return Reply::Spent { at };
    }
    if book.live().len() >= MOST_LIVE {
        return Reply::Full { at };
    }
    let admitted = Reply::Admitted {
        id: at + 1,
        cost,
        at: at + 1,
        amounts: told,
    };
    enter(books, entry, ready, admitted)
}

/// Enters an entry that is sound, and gives the reply that tells it; or `Disk`, where what keeps
/// the book failed. It takes no memory.
pub fn enter<K: Books>(books: &mut K, entry: Entry, ready: K::Ready, told: Reply) -> Reply
    requires sound { IsSoundAt (K.ledger books.old).network (K.ledger books.old).book entry }
    requires ready { K.fits ready entry }
    requires told { kind_of told ≡ ByTheBook }
    requires names { NamesPlaces (K.ledger books.old).network told }
    ensures goes { Goes K.Books books.old result (Some entry) books.new }
    ensures told { IsToldAs told (Some entry) result (K.ledger books.old).book
        (K.ledger books.new).book }
    ensures answered { HaveAnswered K.Books books.old books.new result }
    ensures memory { result ≢ Reply.Memory }
{
    match books.commit(entry, ready) {
        Committed::Disk => {
            let at = books.book().epoch();
            Reply::Disk { at }
        }
        Committed::Done => told,
    }
}
