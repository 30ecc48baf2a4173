// Books with the quotes of their customers: what commands are answered, and what is held.
ghost use Rattle.std.specs.Prelude.{◌≡◌, ◌≤◌, IfOk};
ghost use Rattle.hose_graph.specs.declared.limits.TheConstants.{MOST_EPOCH};
ghost use Rattle.hose_core.specs.steps.Holding.{IsMadeAt, WasMadeBefore};
ghost use Rattle.hose_core.specs.steps.Stepping.{IsSameOrNext};

use crate::books::book_at;
use cases_common::{CaseCall, CaseText, Trouble, first, hose, name, number};
use hose_book::{Book, Books, Plain};
use hose_core::{
    Admission, BookView, Core, Quote, admit_now, claim_release, claim_service, claim_take,
    plan_beside, release_now, service_now, take_now,
};
use hose_graph::{MOST_EPOCH, Name, Reply};
use hose_paths::PlainRows;
use hose_proto::read_command;
use std::alloc::Global;

/// What a customer's commands are answered by the core of a network's book, which begins at an
/// epoch. The commands stand between semicolons. At the end the core gives its books back.
pub fn tell_answers(
    call: CaseCall<'_>,
    customer: &str,
    told: &mut CaseText,
) -> Result<(), Trouble> {
    let (epoch, commands) = first(call.words);
    let customer = name(customer)?;
    let book = book_at(told.alloc(), call.network, epoch)?;
    let mut core = Core::new(told.alloc(), Plain { book });
    let all = tell_all(&mut core, &customer, commands, told);
    let _ = core.into_books();
    all
}

fn tell_all(
    core: &mut Core<Plain>,
    customer: &Name,
    commands: &str,
    told: &mut CaseText,
) -> Result<(), Trouble> {
    for command in commands.split(';') {
        let reply = answer(told.alloc(), core, customer, command)?;
        told.show(&reply);
        told.put("\n");
    }
    Ok(())
}

fn answer(
    alloc: Global,
    core: &mut Core<Plain>,
    customer: &Name,
    line: &str,
) -> Result<Reply, Trouble> {
    let command = read_command(alloc, core.books().book().topology(), line.as_bytes(), 0)?;
    Ok(core.step(alloc, customer, command, &mut PlainRows::new()))
}

/// What acme's admission at once is answered.
pub fn tell_admission(books: &mut Plain, line: &str, told: &mut CaseText) -> Result<(), Trouble>
    ensures network { books.new.book.network ≡ books.old.book.network }
    ensures ledger { IsSameOrNext books.old.book books.new.book }
{
    let acme = name("acme")?;
    let alloc = told.alloc();
    let hose = hose(alloc, books.book().topology(), line)?;
    let admission = Admission { known: None, hose };
    let (reply, _entered) = admit_now(alloc, books, &acme, admission, &mut PlainRows::new());
    told.show(&reply);
    Ok(())
}

/// What acme's take is answered of a hose that was planned before another admission. The line has
/// the admissions of both, between which a semicolon stands.
pub fn tell_take(books: &mut Plain, line: &str, told: &mut CaseText) -> Result<(), Trouble> {
    let (quoted, line) = line.split_once(';').unwrap_or((line, ""));
    let quote = planned(told.alloc(), &books.book, quoted)?;
    let admitted = tell_admission(books, line, told);
    admitted?;
    told.put("\n");
    tell_taken(books, &quote, told)
}

// What is planned of a hose at a book.
fn planned(alloc: Global, book: &Book, line: &str) -> Result<Quote, Trouble>
    ensures { IfOk result (IsMadeAt book.now.network book.now.book) }
{
    let (top, service, loads) = (book.topology(), book.service(), book.loads());
    let hose = hose(alloc, top, line)?;
    let seen = BookView {
        top,
        service,
        loads,
        kept: None,
        epoch: book.epoch(),
    };
    match plan_beside(alloc, seen, hose, &mut PlainRows::new()) {
        Ok(quote) => Ok(quote),
        Err(_) => Err(Trouble::Word),
    }
}

fn tell_taken(books: &mut Plain, quote: &Quote, told: &mut CaseText) -> Result<(), Trouble>
    requires { WasMadeBefore books.old.book quote.now }
{
    let claim = claim_take(told.alloc(), &name("acme")?, quote)?;
    told.show(&take_now(books, quote, claim));
    Ok(())
}

/// What acme's release of a VPN is answered.
pub fn tell_release(books: &mut Plain, line: &str, told: &mut CaseText) -> Result<(), Trouble> {
    let id = number(line)?.min(MOST_EPOCH);
    let claim = claim_release(told.alloc(), &name("acme")?, id)?;
    told.show(&release_now(books, claim));
    Ok(())
}

/// What changes of links' service, as `down 2`, are answered one after another. They stand between
/// semicolons.
pub fn tell_services(books: &mut Plain, line: &str, told: &mut CaseText) -> Result<(), Trouble> {
    for change in line.split(';') {
        let (word, link) = first(change);
        tell_service(books, word == "down", number(link)?, told)?;
        told.put("\n");
    }
    Ok(())
}

fn tell_service(
    books: &mut Plain,
    down: bool,
    link: u64,
    told: &mut CaseText,
) -> Result<(), Trouble> {
    if link >= u64::from(books.book.topology().links()) {
        return Err(Trouble::Word);
    }
    let claim = claim_service(told.alloc(), link as u32, down)?;
    told.show(&service_now(books, claim));
    Ok(())
}
