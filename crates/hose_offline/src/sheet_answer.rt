// The answers to the lines of a sheet of hoses, and how they are written.
ghost use Rattle.std.specs.Prelude.{[], decimal, get_or, map};
ghost use Rattle.hose_io.specs.steps.Gather.{IsAdded};
ghost use Rattle.hose_io.specs.steps.Writing.{IsPut};
ghost use Rattle.hose_proto.specs.ReplyText.{line_of};
ghost use Rattle.hose_offline.specs.SheetLine.{answer_text, price_words, prices_words};

use hose_graph::Name;
use hose_io::{Failed, Gather, Sink};
use hose_price::{Price, Priced};
use hose_tariff::Tariff;
use itoa::Buffer;

/// What is answered to a line of a sheet.
#[derive(Drop)]
pub enum SheetAnswer {
    /// The customer, and what the hose costs under each tariff.
    Priced(Name, Priced),
    /// The customer. There is no plan of the hose.
    NoPlan(Name),
    /// The first word that is not allowed, counted from 1.
    Bad(u64),
    /// The line is too long.
    Long,
    /// There was too little memory for it.
    Memory,
}

/// Writes the line of an answer.
pub fn put_answer<O: Sink>(
    output: &mut O,
    tariffs: &[Tariff],
    answer: &SheetAnswer,
) -> Result<(), Failed>
    ensures { IsPut O.Sink output.old output.new
        (line_of (answer_text (map (λ tariff. tariff.name) tariffs.now) answer.now)) result }
{
    let mut gather = Gather::new();
    add_answer(&mut gather, output, tariffs, answer);
    gather.add(output, b"\n");
    gather.finish(output)
}

// Adds the words of an answer.
fn add_answer<O: Sink>(
    gather: &mut Gather,
    output: &mut O,
    tariffs: &[Tariff],
    answer: &SheetAnswer,
)
    ensures { IsAdded O.Sink gather.old output.old gather.new output.new
        (answer_text (map (λ tariff. tariff.name) tariffs.now) answer.now) }
{
    match answer {
        SheetAnswer::Priced(customer, priced) => {
            add_priced(gather, output, tariffs, customer, priced);
        }
        SheetAnswer::NoPlan(customer) => {
            gather.add(output, b"price ");
            gather.add(output, customer.bytes());
            gather.add(output, b" none");
        }
        SheetAnswer::Bad(word) => {
            gather.add(output, b"bad ");
            gather.add_number(output, *word);
        }
        SheetAnswer::Long => gather.add(output, b"long"),
        SheetAnswer::Memory => gather.add(output, b"memory"),
    }
}

// Adds the prices of a customer's hose.
fn add_priced<O: Sink>(
    gather: &mut Gather,
    output: &mut O,
    tariffs: &[Tariff],
    customer: &Name,
    priced: &Priced,
)
    ensures { IsAdded O.Sink gather.old output.old gather.new output.new
        (answer_text (map (λ tariff. tariff.name) tariffs.now)
        (SheetAnswer.Priced customer.now priced.now)) }
{
    gather.add(output, b"price ");
    gather.add(output, customer.bytes());
    add_prices(gather, output, tariffs, priced.prices());
    gather.add(output, b" best ");
    add_name(gather, output, tariffs, priced.best());
}

// Adds the price under each tariff.
fn add_prices<O: Sink>(gather: &mut Gather, output: &mut O, tariffs: &[Tariff], prices: &[Price])
    ensures { IsAdded O.Sink gather.old output.old gather.new output.new
        (prices_words (map (λ tariff. tariff.name) tariffs.now) prices.now) }
{
    let [tariff, more_tariffs @ ..] = tariffs else {
        return;
    };
    let [price, more_prices @ ..] = prices else {
        return;
    };
    add_price(gather, output, tariff, price);
    add_prices(gather, output, more_tariffs, more_prices);
}

// Adds the price under a tariff.
fn add_price<O: Sink>(gather: &mut Gather, output: &mut O, tariff: &Tariff, price: &Price)
    ensures { IsAdded O.Sink gather.old output.old gather.new output.new
        (price_words tariff.now.name price.now) }
{
    gather.add(output, b" ");
    gather.add(output, tariff.name().bytes());
    gather.add(output, b" ");
    gather.add_number(output, price.cost);
    gather.add(output, b" ");
    add_wide(gather, output, price.low);
    gather.add(output, b" ");
    add_wide(gather, output, price.high);
}

// Adds a number that may need more than 64 bits.
fn add_wide<O: Sink>(gather: &mut Gather, output: &mut O, number: u128)
    ensures { IsAdded O.Sink gather.old output.old gather.new output.new (decimal number) }
{
    let mut buffer = Buffer::new();
    gather.add(output, buffer.format(number).as_bytes());
}

// Adds the name of the tariff of a place, if there is one.
fn add_name<O: Sink>(gather: &mut Gather, output: &mut O, tariffs: &[Tariff], place: u32)
    ensures { IsAdded O.Sink gather.old output.old gather.new output.new
        (get_or (map (λ tariff. tariff.name) tariffs.now) place []) }
{
    if let Some(tariff) = tariffs.get(place as usize) {
        gather.add(output, tariff.name().bytes());
    }
}
