// Books: what they say of entries, in which order, what entries change, and how they are audited.
ghost use Rattle.hose_graph.specs.declared.limits.TheConstants.{MOST_EPOCH};

use cases_common::{CaseCall, CaseText, Trouble, first, name, named, number, shown};
use hose_audit::audit;
use hose_book::{Book, Books, Plain};
use hose_graph::{Entry, MOST_EPOCH, MOST_LIVE, Topology};
use hose_io::MemSink;
use std::alloc::{AllocError, Global};

/// The book of a network, which begins at the epoch of a word.
pub fn book_at(alloc: Global, network: &str, epoch: &str) -> Result<Book, Trouble> {
    let epoch = number(epoch)?.min(MOST_EPOCH);
    Ok(Book::at(alloc, named(alloc, network)?, epoch)?)
}

/// What comes of steps at the book of a network, which begins at an epoch. They stand between
/// semicolons.
pub fn tell_steps(call: CaseCall<'_>, told: &mut CaseText) -> Result<(), Trouble> {
    let (epoch, steps) = first(call.words);
    let book = book_at(told.alloc(), call.network, epoch)?;
    tell_all(&mut Plain { book }, steps, told)
}

fn tell_all(plain: &mut Plain, steps: &str, told: &mut CaseText) -> Result<(), Trouble> {
    for step in steps.split(';') {
        tell_step(plain, step.trim(), told)?;
        told.put("\n");
    }
    Ok(())
}

// What comes of a step: what a book says, or an entry that is judged, and entered where it is
// sound; many of these; one that is committed then.
fn tell_step(plain: &mut Plain, step: &str, told: &mut CaseText) -> Result<(), Trouble> {
    let (word, rest) = first(step);
    match word {
        "fill" => tell_filled(&mut plain.book, rest, told),
        "turns" => tell_turns(&mut plain.book, rest, told),
        "commit" => tell_committed(plain, rest, told),
        "audit" | "recent" | "stands" | "serves" => tell_looked_at(&plain.book, word, rest, told),
        _ => tell_entered(&mut plain.book, step, told),
    }
}

// What a book says: the audit; what changed of late; the epoch, how many VPNs are live, and the
// loads; the links in service.
fn tell_looked_at(book: &Book, word: &str, rest: &str, told: &mut CaseText) -> Result<(), Trouble> {
    match word {
        "audit" => return tell_audit(book, told),
        "recent" => tell_recent(book, number(rest)?, told),
        "stands" => tell_standing(book, told),
        _ => told.show(book.service()),
    }
    Ok(())
}

// The entry of some words: a release, a link that is taken out of service or put back, or an
// admission.
fn entry_of(alloc: Global, top: &Topology, words: &str) -> Result<Entry, Trouble> {
    let (word, rest) = first(words);
    match word {
        "release" => {
            let (customer, id) = first(rest);
            Ok(Entry::Release {
                customer: name(customer)?,
                id: number(id)?,
            })
        }
        "down" => Ok(Entry::Down { link: link(rest)? }),
        "up" => Ok(Entry::Up { link: link(rest)? }),
        _ => admission(alloc, top, words),
    }
}

// A link by its number, which is below 2,048.
fn link(word: &str) -> Result<u32, Trouble> {
    Ok(number(word)?.min(2047) as u32)
}

// The admission for acme of the ends and links of a reply.
fn admission(alloc: Global, top: &Topology, words: &str) -> Result<Entry, Trouble> {
    let customer = name("acme")?;
    let (hose, amounts) = shown(alloc, top, words)?;
    Ok(Entry::Admit {
        customer,
        hose,
        amounts,
    })
}

fn tell_entered(book: &mut Book, words: &str, told: &mut CaseText) -> Result<(), Trouble> {
    let entry = entry_of(told.alloc(), book.topology(), words)?;
    enter(book, entry, told);
    Ok(())
}

fn enter(book: &mut Book, entry: Entry, told: &mut CaseText) {
    let judged = book.check(&entry);
    told.show(&judged);
    if judged.is_ok() {
        book.apply(entry);
    }
}

fn tell_committed(plain: &mut Plain, words: &str, told: &mut CaseText) -> Result<(), Trouble> {
    let entry = entry_of(told.alloc(), plain.book.topology(), words)?;
    commit(plain, entry, told);
    Ok(())
}

fn commit(plain: &mut Plain, entry: Entry, told: &mut CaseText) {
    if plain.book.check(&entry).is_err() {
        told.put("no sound entry");
    } else {
        told.show(&plain.commit(entry, ()));
    }
}

fn tell_standing(book: &Book, told: &mut CaseText) {
    let (epoch, live, loads) = (book.epoch(), book.live().len(), book.loads());
    let alloc = told.alloc();
    told.add(format!(in alloc; "epoch {epoch}, {live} live, loads {loads:?}"));
}

// Enters an admission as often as VPNs may be live, and tells how often it was sound.
fn tell_filled(book: &mut Book, words: &str, told: &mut CaseText) -> Result<(), Trouble> {
    let entry = entry_of(told.alloc(), book.topology(), words)?;
    tell_filled_with(book, &entry, told)
}

fn tell_filled_with(book: &mut Book, entry: &Entry, told: &mut CaseText) -> Result<(), Trouble> {
    told.show(&fill_with(told.alloc(), book, entry)?);
    Ok(())
}

fn fill_with(alloc: Global, book: &mut Book, entry: &Entry) -> Result<u64, AllocError> {
    let mut sound = 0u64;
    for _ in 0..MOST_LIVE {
        if enter_copy(alloc, book, entry)? {
            sound = sound.saturating_add(1);
        }
    }
    Ok(sound)
}

// Enters an entry where it is sound, and tells whether it was.
fn enter_copy(alloc: Global, book: &mut Book, entry: &Entry) -> Result<bool, AllocError> {
    if book.check(entry).is_err() {
        return Ok(false);
    }
    book.apply(entry.copy(alloc)?);
    Ok(true)
}

// Enters an admission and its release, so often in turn, and tells how many entries were sound.
fn tell_turns(book: &mut Book, words: &str, told: &mut CaseText) -> Result<(), Trouble> {
    let (times, words) = first(words);
    let times = number(times)?;
    let entry = entry_of(told.alloc(), book.topology(), words)?;
    tell_turns_with(book, &entry, times, told)
}

fn tell_turns_with(
    book: &mut Book,
    entry: &Entry,
    times: u64,
    told: &mut CaseText,
) -> Result<(), Trouble> {
    told.show(&turn_with(told.alloc(), book, entry, times)?);
    Ok(())
}

fn turn_with(alloc: Global, book: &mut Book, entry: &Entry, times: u64) -> Result<u64, Trouble> {
    let mut sound = 0u64;
    for _ in 0..times {
        if enter_copy(alloc, book, entry)? {
            sound = sound.saturating_add(1);
        }
        if release_last(book)? {
            sound = sound.saturating_add(1);
        }
    }
    Ok(sound)
}

// Enters a release of the VPN of the last entry where it is sound, and tells whether it was.
fn release_last(book: &mut Book) -> Result<bool, Trouble> {
    let release = Entry::Release {
        customer: name("acme")?,
        id: book.epoch(),
    };
    if book.check(&release).is_err() {
        return Ok(false);
    }
    book.apply(release);
    Ok(true)
}

// The floor, how many changes there are, the first four of them and the last, and how many are told
// as those since an epoch.
fn tell_recent(book: &Book, seen: u64, told: &mut CaseText) {
    let (floor, changes, since) = (book.floor(), book.changes(), book.changes_since(seen).len());
    let (count, last) = (changes.len(), changes.last());
    let first = &changes[..count.min(4)];
    let alloc = told.alloc();
    told.add(format!(in alloc;
        "floor {floor}, {count} changes {first:?} to {last:?}, {since} since {seen}"
    ));
}

fn tell_audit(book: &Book, told: &mut CaseText) -> Result<(), Trouble> {
    let sink = audited(told.alloc(), book)?;
    for (above, line) in str::from_utf8(sink.bytes())
        .unwrap_or("no text")
        .lines()
        .enumerate()
    {
        if above > 0 {
            told.put("\n");
        }
        tell_line(line, told);
    }
    Ok(())
}

// Tells a line of an audit: of a link its number and what it carries.
fn tell_line(line: &str, told: &mut CaseText) {
    match line.split_once(" load ") {
        Some((front, load)) => {
            let (word, rest) = first(front);
            let (number, _) = first(rest);
            told.add(format!(in told.alloc(); "{word} {number} .. load {load}"));
        }
        None => told.put(line),
    }
}

// A sink with the audit of a book.
fn audited(alloc: Global, book: &Book) -> Result<MemSink, Trouble> {
    let mut sink = MemSink::new(alloc)?;
    audit(book, &mut sink)?;
    Ok(sink)
}
