// A generated network and its script, answered in memory and summed up.
ghost use Rattle.std.specs.Prelude.{◌≡◌, ◌↔◌, ◌+◌, ◌<◌, ◌^◌, ℕ, [], IfErr, IfOk, IsTrue, OnOk, ⊤};
ghost use Rattle.std.specs.List.{All};
ghost use Rattle.hose_graph.specs.Network.{IsNetwork};
ghost use Rattle.hose_graph.specs.steps.Naming.{AsksOf};
ghost use Rattle.hose_law.specs.Quotes.{nothing_held};
ghost use Rattle.hose_law.specs.Script.{IsForMemory};
ghost use Rattle.hose_law.specs.Script.ReadLine.{Asks};
ghost use Rattle.hose_core.specs.steps.Stepping.{FitsHistory};
ghost use Rattle.hose_outside.specs.steps.Ending.{Wrote};
ghost use Rattle.hose_offline.specs.GenOutcome.{GenOutcome};
ghost use Rattle.hose_offline.specs.steps.GenOutcome.{GenLeaves};
ghost use Rattle.hose_offline.specs.steps.Generating.{AreSizes, HaveBeenAnswered, IsTallyOf};
ghost use Rattle.hose_outside.specs.Parts.{tellings};
ghost use Rattle.hose_outside.specs.steps.Parts.{ComesTo};
ghost use Rattle.hose_offline.specs.steps.Talking.{AnswersLine, plain_books};
ghost use Rattle.hose_offline.specs.steps.Tally.{IsOfUpTo, with_reply};

use crate::tally::Tally;
use hose_book::{Book, Books, Plain};
use hose_core::Core;
use hose_disk::Cabinet;
use hose_gen::{Generated, generate};
use hose_graph::{Command, Name, Reply};
use hose_io::{Sink, Source};
use hose_outside::{Fault, Outside, Sizes, Why, end};
use hose_paths::{RowMaker, RowTable, RowsInAdvance};
use std::alloc::Global;

/// Makes a network and a script, answers the script by a book in memory, writes one line that sums
/// up the replies, and says why it ended.
pub fn run_generated<I: Source, O: Sink, C: Cabinet>(
    alloc: Global,
    sizes: Sizes,
    outside: &mut Outside<'_, I, O, C>,
) -> Why
    requires { AreSizes sizes.nodes sizes.links sizes.hoses }
    ensures { ComesTo (tellings I.Source O.Sink C.Cabinet C.Disk.Disk) (λ tells. GenOutcome tells
        sizes) (λ _ _ _ _. ⊤) outside.old outside.new result }
{
    let done = sum_up(alloc, sizes, outside.output);
    end(done, outside.output)
}

// What that comes to, before its last line.
fn sum_up<O: Sink>(alloc: Global, sizes: Sizes, output: &mut O) -> Result<(), Fault>
    requires { AreSizes sizes.nodes sizes.links sizes.hoses }
    ensures { Wrote O.Sink output.old output.new
        (GenLeaves sizes O.Sink output.old output.new result) }
{
    let made = generate(alloc, sizes.seed, sizes.nodes, sizes.links, sizes.hoses)?;
    let tally = tally_in_memory(alloc, made)?;
    tally.put(sizes.seed, sizes.hoses, output)?;
    Ok(())
}

// The tally of a script that a book in memory answers. The rows of all nodes are made first.
fn tally_in_memory(alloc: Global, made: Generated) -> Result<Tally, Fault>
    requires { All (λ order. AsksOf made.top order.1) made.script.items }
    ensures network { IfOk result (λ _. IsNetwork made.top) }
    ensures tally { IfOk result (IsTallyOf made.top made.script.items) }
    ensures memory { IfErr result (λ why. why ≡ Fault.Memory) }
{
    let Generated { top, script } = made;
    let book = Book::new(alloc, top)?;
    let table = RowTable::of_all(alloc, book.topology())?;
    let mut core = Core::with_rows(alloc, Plain { book }, table);
    tally_orders(alloc, &mut core, script, &mut RowsInAdvance::new())
}

// The tally of orders that a book in memory answers, which has no entry yet.
fn tally_orders<R: RowMaker>(
    alloc: Global,
    core: &mut Core<Plain>,
    orders: Vec<(Name, Command)>,
    rows: &mut R,
) -> Result<Tally, Fault>
    requires asks { All (λ order. AsksOf core.old.books.book.network order.1) orders.items }
    requires fits { FitsHistory plain_books core.old 0 [] nothing_held }
    ensures tally { IfOk result (IsTallyOf core.old.books.book.network orders.items) }
    ensures memory { IfErr result (λ why. why ≡ Fault.Memory) }
{
    let mut tally = answer_orders(alloc, core, orders, rows)?;
    tally.epoch = core.books().book().epoch();
    Ok(tally)
}

// Answers orders one after another, up to a reply for want of memory.
fn answer_orders<K: Books + Drop, R: RowMaker>(
    alloc: Global,
    core: &mut Core<K>,
    orders: Vec<(Name, Command)>,
    rows: &mut R,
) -> Result<Tally, Fault>
    requires { All (λ order. AsksOf (K.ledger core.old.books).network order.1) orders.items }
    ensures answered { IfOk result (λ tally. FitsHistory K.Books core.old 0 [] nothing_held
        → HaveBeenAnswered K.Books core.old core.new orders.items tally) }
    ensures memory { IfErr result (λ why. why ≡ Fault.Memory) }
{
    let mut tally = Tally::new();
    for order in orders {
        let reply = answer_order(alloc, core, order, rows);
        count_reply(&mut tally, reply)?;
    }
    Ok(tally)
}

// The reply to an order.
fn answer_order<K: Books + Drop, R: RowMaker>(
    alloc: Global,
    core: &mut Core<K>,
    order: (Name, Command),
    rows: &mut R,
) -> Reply
    requires { AsksOf (K.ledger core.old.books).network order.1 }
    ensures answers { AnswersLine K.Books core.old core.new (Asks order.0 order.1) result }
    ensures network { (K.ledger core.new.books).network ≡ (K.ledger core.old.books).network }
{
    let customer = order.0;
    core.step(alloc, &customer, order.1, rows)
}

// Counts a reply that is not for want of memory.
fn count_reply(tally: &mut Tally, reply: Reply) -> Result<(), Fault>
    requires { (replies : ℕ) × (replies < 2 ^ 63) × IsOfUpTo replies tally.old }
    ensures some { OnOk result (¬ IsForMemory reply) }
    ensures counted { OnOk result (tally.new ≡ with_reply tally.old reply) }
    ensures up_to { OnOk result ((replies : ℕ) → IsOfUpTo replies tally.old
        → IsOfUpTo (replies + 1) tally.new) }
    ensures memory { IfErr result (λ why. why ≡ Fault.Memory) }
{
    if is_for_memory(&reply) {
        return Err(Fault::Memory);
    }
    tally.count(&reply);
    Ok(())
}

// Whether the reply is for want of memory.
fn is_for_memory(reply: &Reply) -> bool
    ensures { IsTrue result ↔ IsForMemory reply.now }
{
    matches!(reply, Reply::Memory)
}
