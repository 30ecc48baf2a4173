// A run: a topology, and then a reply for each line.
ghost use Rattle.std.specs.Prelude.{◌≡◌, ◌≢◌, [], ◌≤◌, ℕ, List, IsSome, None, Result, ⊤, option_map};
ghost use Rattle.hose_law.specs.History.{IsDecidedAt};
ghost use Rattle.hose_law.specs.Quotes.{nothing_held};
ghost use Rattle.hose_law.specs.Script.{ReadLine};
ghost use Rattle.hose_words.specs.steps.Lines.{Shows};
ghost use Rattle.hose_graph.specs.steps.Naming.{NamesPlaces};
ghost use Rattle.hose_graph.specs.Network.{Network};
ghost use Rattle.hose_graph.specs.declared.entry.Entry.{Entry};
ghost use Rattle.hose_graph.specs.declared.command.Reply.{Reply};
ghost use Rattle.hose_io.specs.declared.Failed.{Failed};
ghost use Rattle.hose_book.specs.steps.GoingOn.{GoesOn};
ghost use Rattle.hose_book.specs.Ledger.{HasBookOf};
ghost use Rattle.hose_store.specs.Beginning.{HasLeft};
ghost use Rattle.hose_store.specs.steps.Commit.{Closes, store_books};
ghost use Rattle.hose_store.specs.steps.Store.{KeptStore};
ghost use Rattle.hose_core.specs.steps.Stepping.{FitsHistory};
ghost use Rattle.hose_offline.specs.steps.Answering.{KeepsRun};
ghost use Rattle.hose_outside.specs.steps.Journal.{IsJustOpened, OpensJournal};
ghost use Rattle.hose_outside.specs.OnDisk.{opening_of};
ghost use Rattle.hose_outside.specs.Parts.{AllStay, parts, tellings};
ghost use Rattle.hose_offline.specs.RunOutcome.{RunLeaves, RunOutcome};
ghost use Rattle.hose_offline.specs.Talking.{IsAskedBy};
ghost use Rattle.hose_outside.specs.Why.{IsTold, why_status};
ghost use Rattle.hose_offline.specs.steps.Talking.{AnswersLine, SaysOneThing, SaysRead};
ghost use Rattle.hose_offline.specs.steps.TalkingOnDisk.{TalksInCabinet};

use crate::input_line::read_line;
use crate::talk_end::done_of_talk;
use hose_book::{Book, Books, Plain};
use hose_core::Core;
use hose_disk::{Cabinet, Disk};
use hose_graph::{Reply, Topology};
use hose_io::{Failed, Sink, Source};
use hose_outside::{Fault, Why, close_journal, end, first_fault, open_journal};
use hose_paths::{RowMaker, RowTable, RowsInAdvance};
use hose_proto::{ReadFault, put_reply};
use hose_store::{Decided, Store};
use hose_talk::{Answers, converse};
use hose_tariff::Prices;
use hose_topo::read;
use hose_words::{INPUT_LIMIT, Line, LineReader};
use std::alloc::Global;

/// Reads a topology and then lines of the input, writes a reply for each line, and says why it
/// ended. The network has these costs. The book is kept in the journal of the name, or in memory
/// where there is none.
pub fn run<P: Prices, I: Source, O: Sink, C: Cabinet>(
    alloc: Global,
    costs: &P,
    journal: Option<&str>,
    input: &mut I,
    output: &mut O,
    cabinet: &mut C,
) -> Why
    requires { (C.frame cabinet.old).out ≡ None }
    ensures outcome { RunOutcome (tellings I.Source O.Sink C.Cabinet C.Disk.Disk)
        (P.prices costs.now) (option_map (λ name. name.now) journal.entry)
        (parts input.old output.old cabinet.old) (parts input.new output.new cabinet.new)
        (why_status result) }
    ensures told { IsTold O.Sink output.new result }
    ensures not_words { why_status result ≢ 1 }
    ensures back { (C.frame cabinet.new).out ≡ None }
    ensures stay { AllStay (tellings I.Source O.Sink C.Cabinet C.Disk.Disk)
        (parts input.old output.old cabinet.old) (parts input.new output.new cabinet.new) }
{
    let mut lines = LineReader::new(input);
    let done = run_lines(alloc, costs, journal, &mut lines, output, cabinet);
    let _ = lines.into_source();
    end(done, output)
}

// Runs by a reader that has taken nothing. Where the book is in memory, the rows of all nodes are
// made before the first line is answered.
fn run_lines<P: Prices, S: Source, O: Sink, C: Cabinet>(
    alloc: Global,
    costs: &P,
    journal: Option<&str>,
    lines: &mut LineReader<S>,
    output: &mut O,
    cabinet: &mut C,
) -> Result<(), Fault>
    requires pending { lines.old.pending ≡ [] }
    requires taken { lines.old.taken ≡ 0 }
    requires fault { lines.old.fault ≡ None }
    requires none_out { (C.frame cabinet.old).out ≡ None }
    ensures leaves { RunLeaves (tellings S.Source O.Sink C.Cabinet C.Disk.Disk)
        (P.prices costs.now) (option_map (λ name. name.now) journal.entry)
        (parts lines.old.source output.old cabinet.old)
        (parts lines.new.source output.new cabinet.new) result }
    ensures in_memory { journal.entry ≡ None → cabinet.new ≡ cabinet.old }
    ensures keeps { KeepsRun (tellings S.Source O.Sink C.Cabinet C.Disk.Disk)
        (option_map (λ name. name.now) journal.entry) (parts lines.old output.old cabinet.old)
        (parts lines.new output.new cabinet.new) result }
{
    let told = read(alloc, lines)?;
    let topology = costs.apply(alloc, told)?;
    match journal {
        None => {
            let book = Book::new(alloc, topology)?;
            let table = RowTable::of_all(alloc, book.topology())?;
            let mut clerk = Clerk {
                alloc,
                core: Core::with_rows(alloc, Plain { book }, table),
                rows: RowsInAdvance::new(),
            };
            done_of_talk(converse(&mut clerk, lines, output))
        }
        Some(name) => {
            let store = open_journal::<C, Decided>(alloc, name, topology, cabinet)?;
            answer_by_journal(alloc, store, lines, output, cabinet)
        }
    }
}

// Answers all lines by a store that was just opened, whose disk is out of the cabinet. The first
// fault is told, and the disk is back then. The rows of all nodes are made first; where there is no
// memory for them, the journal is closed as it is.
fn answer_by_journal<S: Source, O: Sink, C: Cabinet>(
    alloc: Global,
    store: Store<C::Disk>,
    lines: &mut LineReader<S>,
    output: &mut O,
    cabinet: &mut C,
) -> Result<(), Fault>
    requires out { IsSome (C.frame cabinet.old).out }
    requires limit { lines.old.taken ≤ INPUT_LIMIT }
    requires no_fault { lines.old.fault ≡ None }
    ensures talks { (name : List ℕ) → (before : C) → (network : Network)
        → OpensJournal C.Cabinet C.Disk.Disk IsDecidedAt name before cabinet.old network store
        → TalksInCabinet (tellings S.Source O.Sink C.Cabinet C.Disk.Disk) name
        (parts lines.old output.old before) (parts lines.new output.new cabinet.new)
        network result }
    ensures keeps { KeepsRun (tellings S.Source O.Sink C.Cabinet C.Disk.Disk)
        (C.frame cabinet.old).out (parts lines.old output.old cabinet.old)
        (parts lines.new output.new cabinet.new) result }
{
    let Ok(table) = RowTable::of_all(alloc, store.book().topology()) else {
        let _ = close_journal(store, cabinet);
        return Err(Fault::Memory);
    };
    let mut clerk = Clerk {
        alloc,
        core: core_over(alloc, store, table),
        rows: RowsInAdvance::new(),
    };
    let answered = done_of_talk(converse(&mut clerk, lines, output));
    let closed = close_journal(clerk.core.into_books(), cabinet);
    first_fault(answered, closed.0)
}

// A core over a store, which plans by the rows of its network. Where the store was just opened, its
// disk is left, after commits of entries that lines ask for, as closing says.
fn core_over<D: Disk>(alloc: Global, store: Store<D>, table: RowTable) -> Core<Store<D>>
    requires { table.network ≡ store.ledger.network }
    ensures books { result.books ≡ store }
    ensures fits { (history : List Entry) → HasBookOf 0 history store.ledger
        → FitsHistory (store_books D.Disk) result 0 history nothing_held }
    ensures leaves { (lines : List ReadLine) → (replies : List Reply) → (old : D)
        → (network : Network) → (opens : IsJustOpened D.Disk IsDecidedAt old network store)
        → (history : List Entry) → (last : KeptStore D) → (left : D) → (closing : Result ⊤ Failed)
        → GoesOn (store_books D.Disk) (IsAskedBy opens.opened.history lines replies) network
        opens.opened.history store history last → Closes D.Disk last left closing
        → HasLeft D.Disk (IsAskedBy opens.opened.history lines replies) (D.may_leave old)
        (opening_of D.Disk network opens.opened.history old) history left closing }
{
    Core::with_rows(alloc, store, table)
}

// Who answers the lines of a script: where memory is taken, a core of books, and what makes rows.
#[derive(Drop)]
struct Clerk<K: Books + Drop, R: RowMaker> {
    alloc: Global,
    core: Core<K>,
    rows: R,
}

impl<K: Books + Drop, R: RowMaker> Answers for Clerk<K, R> {
    type Reply = Reply;

    ghost use Rattle.std.specs.Prelude.{List, ⊤, false};
    ghost use Rattle.hose_graph.specs.steps.Naming.{NamesPlaces};
    ghost use Rattle.hose_graph.specs.Network.{Network};
    ghost use Rattle.hose_graph.specs.declared.entry.Entry.{Entry};
    ghost use Rattle.hose_law.specs.Script.{ReadLine};
    ghost use Rattle.hose_proto.specs.ReplyText.{line_of, reply_text};
    ghost use Rattle.hose_offline.specs.steps.Talking.{HasAnsweredLines, SaysAlone};

    ghost said = { ReadLine };

    ghost subject = { Network };

    ghost about = { λ clerk. (K.ledger clerk.core.books).network };

    ghost says = { λ network before. SaysAlone network };

    ghost text = { λ network reply. line_of (reply_text network reply) };

    // a history, and who answers from there on
    ghost origin = { List Entry × Self };

    ghost comes = { λ from lines replies clerk.
        HasAnsweredLines K.Books from.0 from.1.core clerk.core lines replies };

    ghost fits = { λ _. ⊤ };

    ghost can_put = { λ clerk reply. NamesPlaces (K.ledger clerk.core.books).network reply };

    ghost over = { λ _. false };

    fn answer(&mut self, line: Line<'_>) -> Reply {
        reply_to(self.alloc, &mut self.core, line, &mut self.rows)
    }

    fn put<O: Sink>(&self, output: &mut O, reply: &Reply) -> Result<(), Failed> {
        put_reply(output, topology_of(&self.core), reply)
    }

    fn is_over(&self) -> bool {
        false
    }
}

// The reply to a line.
fn reply_to<K: Books + Drop, R: RowMaker>(
    alloc: Global,
    core: &mut Core<K>,
    line: Line<'_>,
    rows: &mut R,
) -> Reply
    ensures network { (K.ledger core.new.books).network ≡ (K.ledger core.old.books).network }
    ensures names { NamesPlaces (K.ledger core.old.books).network result }
    ensures answers { (said : ReadLine)
        × SaysRead (K.ledger core.old.books).network line.entry said
        × AnswersLine K.Books core.old core.new said result }
    // The line, whatever its bytes are, could not have been read as another thing.
    ensures alone { (bytes : List ℕ) → Shows line.entry bytes
        → SaysOneThing (K.ledger core.old.books).network bytes }
{
    let Line::Text(text) = line else {
        return Reply::Long;
    };
    match read_line(alloc, topology_of(core), text) {
        Ok(asked) => {
            let customer = asked.0;
            core.step(alloc, &customer, asked.1, rows)
        }
        Err(ReadFault::Bad { word }) => Reply::Bad { word },
        Err(ReadFault::Memory) => Reply::Memory,
    }
}

// The network of a core's book.
fn topology_of<K: Books + Drop>(core: &Core<K>) -> &Topology
    ensures { result.now ≡ (K.ledger core.now.books).network }
{
    core.books().book().topology()
}
