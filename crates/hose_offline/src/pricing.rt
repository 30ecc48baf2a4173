// Prices: the lines of a sheet of hoses, each priced under every tariff.
ghost use Rattle.std.specs.Prelude.{◌≡◌, ◌≤◌, ℕ, List, length, ⊤};
ghost use Rattle.hose_words.specs.steps.Lines.{Shows};
ghost use Rattle.hose_law.specs.steps.Plan.{AreNodes};
ghost use Rattle.hose_outside.specs.Parts.{tellings};
ghost use Rattle.hose_outside.specs.steps.Parts.{ComesTo, KeepsAll, held};
ghost use Rattle.hose_offline.specs.PriceOutcome.{PriceOutcome, PricesInput, pricing_of};
ghost use Rattle.hose_offline.specs.SheetLine.{AnswersSheet};
ghost use Rattle.hose_offline.specs.steps.SheetLine.{PricesHose};

use crate::input_line::read_sheet_line;
use crate::sheet_answer::{SheetAnswer, put_answer};
use crate::talk_end::done_of_talk;
use hose_disk::Cabinet;
use hose_graph::{Hose, Name, Topology};
use hose_io::{Failed, Sink, Source};
use hose_outside::{Fault, Outside, Why, end, read_topology};
use hose_paths::RowMaker;
use hose_price::{MOST_TARIFFS, PriceSheet, TablesRows};
use hose_proto::ReadFault;
use hose_talk::{Answers, hold_talk};
use hose_tariff::{OwnCosts, Prices, Tariff};
use hose_words::Line;
use std::alloc::Global;

/// Reads the topology of a text, answers each line of the input with the prices of its hose under
/// every tariff, and says why it ended. There are 1 to 16 tariffs.
pub fn price<I: Source, O: Sink, C: Cabinet>(
    alloc: Global,
    tariffs: &[Tariff],
    topology: &str,
    outside: &mut Outside<'_, I, O, C>,
) -> Why
    requires some { 1 ≤ length tariffs.now }
    requires few { length tariffs.now ≤ MOST_TARIFFS }
    ensures { ComesTo (tellings I.Source O.Sink C.Cabinet C.Disk.Disk) (λ tells. PriceOutcome tells
        (pricing_of ⟦<Tariff as Prices>⟧.prices (λ tariff. tariff.name) (λ tariff. tariff.base)
        (λ tariff. tariff.per) tariffs.now) topology.now) (λ _ _ _ _. ⊤)
        outside.old outside.new result }
{
    match read_topology(alloc, &OwnCosts, topology, outside.cabinet) {
        Ok(top) => {
            let done = price_input(alloc, tariffs, &top, outside);
            end(done, outside.output)
        }
        Err(why) => end(Err(why), outside.output),
    }
}

// Answers the lines of the input on a network. The rows of all nodes are made first, for each of
// the costs that are needed.
fn price_input<I: Source, O: Sink, C: Cabinet>(
    alloc: Global,
    tariffs: &[Tariff],
    top: &Topology,
    outside: &mut Outside<'_, I, O, C>,
) -> Result<(), Fault>
    requires some { 1 ≤ length tariffs.now }
    requires few { length tariffs.now ≤ MOST_TARIFFS }
    ensures prices { PricesInput (tellings I.Source O.Sink C.Cabinet C.Disk.Disk)
        (pricing_of ⟦<Tariff as Prices>⟧.prices (λ tariff. tariff.name) (λ tariff. tariff.base)
        (λ tariff. tariff.per) tariffs.now) (held outside.old) (held outside.new)
        top.now result }
    ensures cabinet { outside.new.cabinet ≡ outside.old.cabinet }
    ensures keeps { KeepsAll (tellings I.Source O.Sink C.Cabinet C.Disk.Disk)
        outside.old outside.new }
{
    let sheet = PriceSheet::new(alloc, top, tariffs)?;
    let tables = sheet.row_tables(alloc)?;
    let mut pricer = Pricer {
        alloc,
        tariffs,
        sheet: &sheet,
        rows: TablesRows::new(&tables),
    };
    done_of_talk(hold_talk(&mut pricer, outside.input, outside.output))
}

// Who prices the lines of a sheet: where it takes memory, the tariffs, the network by each of them,
// and what makes rows.
#[derive(Drop)]
struct Pricer<'a, R: RowMaker> {
    alloc: Global,
    tariffs: &'a [Tariff],
    sheet: &'a PriceSheet,
    rows: R,
}

impl<'a, R: RowMaker> Answers for Pricer<'a, R> {
    type Reply = SheetAnswer;

    ghost use Rattle.std.specs.Prelude.{◌≡◌, List, ℕ, ⊤, false, map};
    ghost use Rattle.hose_price.specs.Sheet.{Sheet};
    ghost use Rattle.hose_proto.specs.ReplyText.{line_of};
    ghost use Rattle.hose_offline.specs.SheetLine.{AnswersSheet, answer_text};
    ghost use Rattle.hose_offline.specs.declared.sheet_answer.SheetAnswer.{SheetAnswer};

    ghost said = { SheetAnswer };

    ghost subject = { Sheet × List (List ℕ) };

    ghost about = { λ pricer. (pricer.sheet.now, map (λ tariff. tariff.name) pricer.tariffs.now) };

    ghost says = { λ subject before. AnswersSheet subject.0 };

    ghost text = { λ subject answer. line_of (answer_text subject.1 answer) };

    ghost origin = { ⊤ };

    ghost comes = { λ _ said answers _. said ≡ answers };

    ghost fits = { λ _. ⊤ };

    ghost can_put = { λ _ _. ⊤ };

    ghost over = { λ _. false };

    fn answer(&mut self, line: Line<'_>) -> SheetAnswer {
        answer_to(self.alloc, self.sheet, &mut self.rows, line)
    }

    fn put<O: Sink>(&self, output: &mut O, answer: &SheetAnswer) -> Result<(), Failed> {
        put_answer(output, self.tariffs, answer)
    }

    fn is_over(&self) -> bool {
        false
    }
}

// The answer to a line.
fn answer_to<R: RowMaker>(
    alloc: Global,
    sheet: &PriceSheet,
    rows: &mut R,
    line: Line<'_>,
) -> SheetAnswer
    ensures { (bytes : List ℕ) → Shows line.entry bytes
        → AnswersSheet sheet.now bytes result }
{
    let Line::Text(text) = line else {
        return SheetAnswer::Long;
    };
    match read_sheet_line(alloc, sheet.topology(), text) {
        Ok(asked) => price_hose(alloc, sheet, rows, asked.0, &asked.1),
        Err(ReadFault::Bad { word }) => SheetAnswer::Bad(word),
        Err(ReadFault::Memory) => SheetAnswer::Memory,
    }
}

// The answer to a customer who asks for a hose.
fn price_hose<R: RowMaker>(
    alloc: Global,
    sheet: &PriceSheet,
    rows: &mut R,
    customer: Name,
    hose: &Hose,
) -> SheetAnswer
    requires { AreNodes sheet.now.network hose.now }
    ensures { PricesHose sheet.now customer hose.now result }
{
    match sheet.line(alloc, hose, rows) {
        Ok(Some(priced)) => SheetAnswer::Priced(customer, priced),
        Ok(None) => SheetAnswer::NoPlan(customer),
        Err(_) => SheetAnswer::Memory,
    }
}
