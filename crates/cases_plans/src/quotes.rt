// Quotes that are held under numbers.
use cases_common::{CaseText, Trouble};
use hose_core::{Quote, Quotes};
use hose_graph::{Amounts, Hose, MOST_QUOTES};
use hose_links::LinkSet;
use hose_plan::Grounds;
use std::alloc::{AllocError, Global};

/// What is held under the first, the last and the numbers beside them, and the lowest free number,
/// after each of these steps: the first and the last are put; all between them; the last is
/// cleared; and the first.
pub fn tell_held(told: &mut CaseText) -> Result<(), Trouble> {
    tell_steps(&mut Quotes::new(), told)
}

fn tell_steps(quotes: &mut Quotes, told: &mut CaseText) -> Result<(), Trouble> {
    tell_put(quotes, told)?;
    clear(quotes, 16);
    tell_standing(quotes, told);
    told.put("\n");
    clear(quotes, 1);
    tell_standing(quotes, told);
    Ok(())
}

fn tell_put(quotes: &mut Quotes, told: &mut CaseText) -> Result<(), Trouble> {
    put(told.alloc(), quotes, 1)?;
    put(told.alloc(), quotes, 16)?;
    tell_standing(quotes, told);
    told.put("\n");
    for number in 2..16 {
        put(told.alloc(), quotes, number)?;
    }
    tell_standing(quotes, told);
    told.put("\n");
    Ok(())
}

fn tell_standing(quotes: &Quotes, told: &mut CaseText) {
    let held = [
        seen(quotes, 0),
        seen(quotes, 1),
        seen(quotes, 2),
        seen(quotes, 16),
        seen(quotes, 17),
    ];
    let alloc = told.alloc();
    told.add(format!(in alloc; "{held:?} {:?}", quotes.free()));
}

// The epoch at which the quote of a number was made.
fn seen(quotes: &Quotes, number: u64) -> Option<u64> {
    match quotes.held(number) {
        Some(quote) => Some(quote.seen),
        None => None,
    }
}

// Holds a quote that tells its number.
fn put(alloc: Global, quotes: &mut Quotes, number: u64) -> Result<(), Trouble> {
    if number < 1 || number > MOST_QUOTES as u64 || quotes.held(number).is_some() {
        return Err(Trouble::Word);
    }
    quotes.put(number, quote_of(alloc, number)?);
    Ok(())
}

fn clear(quotes: &mut Quotes, number: u64) {
    if number >= 1 && number <= MOST_QUOTES as u64 {
        quotes.clear(number);
    }
}

// A quote that tells the epoch at which it was made.
fn quote_of(alloc: Global, seen: u64) -> Result<Quote, Trouble> {
    let (hose, amounts) = pair(alloc)?;
    let grounds = grounds(alloc)?;
    Ok(Quote {
        hose,
        seen,
        cost: 3,
        amounts,
        grounds,
    })
}

fn pair(alloc: Global) -> Result<(Hose, Amounts), Trouble> {
    let hose = Hose::build(alloc, &[(0, 1), (1, 1)])?;
    let amounts = Amounts::build(alloc, &[(0, 1), (1, 1)])?;
    Ok((hose, amounts))
}

fn grounds(alloc: Global) -> Result<Grounds, AllocError> {
    let safe = LinkSet::new(alloc, 3)?;
    let service = LinkSet::new(alloc, 3)?;
    Ok(Grounds {
        first: None,
        half: 1,
        first_fits: false,
        safe,
        service,
    })
}
