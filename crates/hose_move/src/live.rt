// What is live at a book, as the entries of a journal that has nothing else.
ghost use Rattle.std.specs.Prelude.{◌≡◌, ◌<◌, ◌≤◌, ◌++◌, ◌∷◌, [], IfOk, OnOk, filter, map, length};
ghost use Rattle.hose_law.specs.Service.{is_out};
ghost use Rattle.hose_graph.specs.declared.limits.TheConstants.{MOST_LINKS};
ghost use Rattle.hose_move.specs.Stating.{admission_entry, down_entry, links_out, live_entries, number_of};

use crate::stating::Stated;
use hose_book::Book;
use hose_graph::{Entry, Vpn};
use std::alloc::{AllocError, Global};

/// What is live at a book.
pub fn state_live(alloc: Global, book: &Book) -> Result<Stated, AllocError>
    ensures entries { IfOk result (λ stated.
        stated.entries.items ≡ live_entries book.now.network book.now.book) }
    ensures numbers { IfOk result (λ stated.
        stated.numbers.items ≡ map number_of book.now.book.live) }
    ensures few { length book.now.network.links ≤ MOST_LINKS }
{
    let links = book.topology().links();
    let mut stated = Stated {
        entries: Vec::new(alloc),
        numbers: Vec::new(alloc),
    };
    add_admissions(alloc, book.live(), &mut stated)?;
    add_links_out(book, links, &mut stated.entries)?;
    Ok(stated)
}

// Adds an admission of each VPN.
fn add_admissions(alloc: Global, live: &[Vpn], stated: &mut Stated) -> Result<(), AllocError>
    ensures entries { OnOk result (stated.new.entries.items
        ≡ stated.old.entries.items ++ map admission_entry live.now) }
    ensures numbers { OnOk result (stated.new.numbers.items
        ≡ stated.old.numbers.items ++ map number_of live.now) }
{
    for place in 0..live.len() {
        add_admission(alloc, &live[place], stated)?;
    }
    Ok(())
}

// Adds an admission of a VPN.
fn add_admission(alloc: Global, vpn: &Vpn, stated: &mut Stated) -> Result<(), AllocError>
    ensures entries { OnOk result (stated.new.entries.items
        ≡ stated.old.entries.items ++ admission_entry vpn.now ∷ []) }
    ensures numbers { OnOk result (stated.new.numbers.items
        ≡ stated.old.numbers.items ++ number_of vpn.now ∷ []) }
{
    stated.entries.push(Entry::Admit {
        customer: vpn.customer,
        hose: vpn.hose.copy(alloc)?,
        amounts: vpn.amounts.copy(alloc)?,
    })?;
    stated.numbers.push(vpn.id)?;
    Ok(())
}

// Adds an entry for each link that is out of service, of so many from 0 on.
fn add_links_out(book: &Book, links: u32, entries: &mut Vec<Entry>) -> Result<(), AllocError>
    requires { links ≤ length book.now.network.links }
    ensures { OnOk result (entries.new.items
        ≡ entries.old.items ++ map down_entry (links_out links book.now.book)) }
{
    for link in 0..links {
        add_link_out(book, link, entries)?;
    }
    Ok(())
}

// Adds an entry for a link where it is out of service.
fn add_link_out(book: &Book, link: u32, entries: &mut Vec<Entry>) -> Result<(), AllocError>
    requires { link < length book.now.network.links }
    ensures { OnOk result (entries.new.items ≡ entries.old.items
        ++ map down_entry (filter (is_out book.now.book.out) (link ∷ []))) }
{
    if !book.is_out(link) {
        return Ok(());
    }
    entries.push(Entry::Down { link })?;
    Ok(())
}
