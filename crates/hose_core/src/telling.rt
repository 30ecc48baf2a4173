// What a book tells: a VPN, a customer's VPNs, or a link.
ghost use Rattle.std.specs.Prelude.{◌≡◌, ◌<◌, ℕ, List, None, length};
ghost use Rattle.hose_graph.specs.steps.Naming.{NamesPlaces};
ghost use Rattle.hose_graph.specs.Network.{IsLinkOf};
ghost use Rattle.hose_graph.specs.declared.command.Command.{Command};
ghost use Rattle.hose_law.specs.Answer.{IsLinkAnswer, IsShowAnswer};
ghost use Rattle.hose_law.specs.Book.{HasVpn};
ghost use Rattle.hose_book.specs.declared.books.Committed.{Committed};
ghost use Rattle.hose_core.specs.steps.Stepping.{StepsAtEach, committed_of};
ghost use Rattle.hose_core.specs.steps.Telling.{AreShown, IsShown};

use hose_book::{Book, Books};
use hose_graph::{Name, Reply};
use hose_tree::cost;
use std::alloc::Global;

/// Tells a customer what the VPN of a number is: `Shown`, `NoVpn` or `Memory`.
pub fn show_now<K: Books>(alloc: Global, books: &K, customer: &Name, id: u64) -> Reply
    ensures step { StepsAtEach K.Books books.now books.now customer.now (Command.Show id) result }
    ensures met { committed_of result ≡ Committed.Done }
    ensures names { NamesPlaces (K.ledger books.now).network result }
{
    show(books.book(), alloc, customer, id)
}

/// Tells a customer the numbers of the customer's live VPNs: `Vpns` or `Memory`.
pub fn vpns_now<K: Books>(alloc: Global, books: &K, customer: &Name) -> Reply
    ensures step { StepsAtEach K.Books books.now books.now customer.now Command.Vpns result }
    ensures met { committed_of result ≡ Committed.Done }
    ensures names { NamesPlaces (K.ledger books.now).network result }
{
    vpns(books.book(), alloc, customer)
}

/// Tells what is reserved on a link of the network, and whether it is out of service: `LinkState`.
/// It takes no memory.
pub fn link_now<K: Books>(books: &K, link: u32) -> Reply
    requires { IsLinkOf (K.ledger books.now).network link }
    ensures step { (customer : List ℕ)
        → StepsAtEach K.Books books.now books.now customer (Command.Link link) result }
    ensures met { committed_of result ≡ Committed.Done }
    ensures names { NamesPlaces (K.ledger books.now).network result }
{
    link_state(books.book(), link)
}

// The reply to a customer who asks what the VPN of a number is.
fn show(book: &Book, alloc: Global, customer: &Name, id: u64) -> Reply
    ensures answer { IsShown book.now customer.now id result }
    ensures names { NamesPlaces book.now.network result }
{
    let at = book.epoch();
    let Some(vpn) = book.find(customer, id) else {
        return Reply::NoVpn { id, at };
    };
    let Ok(hose) = vpn.hose.copy(alloc) else {
        return Reply::Memory;
    };
    let Ok(amounts) = vpn.amounts.copy(alloc) else {
        return Reply::Memory;
    };
    let cost = cost(book.topology(), &vpn.amounts);
    Reply::Shown {
        id,
        cost,
        at,
        hose,
        amounts,
    }
}

// The reply to a customer who asks which VPNs are live.
fn vpns(book: &Book, alloc: Global, customer: &Name) -> Reply
    ensures answer { AreShown book.now customer.now result }
    ensures names { NamesPlaces book.now.network result }
{
    let Ok(ids) = book.vpns_of(alloc, customer) else {
        return Reply::Memory;
    };
    let now = book.epoch();
    Reply::Vpns { at: now, ids }
}

// The reply to a customer who asks what is reserved on a link, and whether it is out of service.
fn link_state(book: &Book, link: u32) -> Reply
    requires { link < length book.now.network.links }
    ensures answer { IsLinkAnswer book.now.book link result None }
    ensures names { NamesPlaces book.now.network result }
{
    Reply::LinkState {
        link: u64::from(link),
        load: book.loads()[link as usize],
        out: book.is_out(link),
        at: book.epoch(),
    }
}
