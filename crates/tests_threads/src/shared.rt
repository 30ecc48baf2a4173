// One book on a disk that many passes use at once: a plan is made while another thread has the
// turn.
ghost use Rattle.std.specs.Prelude.{◌≡◌, IfOk};
ghost use Rattle.hose_law.specs.steps.Plan.{AreNodes};
ghost use Rattle.hose_shared.specs.steps.Sharing.{IsPassOf};

use cases_common::{hose, name, named};
use hose_core::Quotes;
use hose_disk::MemDisk;
use hose_graph::{Hose, Name, Reply, Row, Topology};
use hose_links::LinkSet;
use hose_paths::{PlainRows, RowMaker};
use hose_pool::{Gate, PlainGate};
use hose_shared::{AnyStore, Caller, Context, Shared};
use hose_store::Store;
use hose_turn::{ALL_SHARES, Pass};
use std::alloc::{AllocError, Global};
use std::fmt::Debug;
use std::sync::Wait;
use std::sync::atomic::{AtomicBool, Ordering};
use std::test::Fail;
use std::thread;
use std::thread::Threads;

/// How often a thread looks for what another one is to do before it gives up. The other has long
/// done it by then, where it does not wait for the one that looks.
pub const MOST_LOOKS: u32 = 1_000_000_000;

/// The rates 3, 4 and 5 at `a`, `b` and `c` of the star. The links `a h`, `b h` and `c h` reserve
/// 3, 4 and 5 for them, which costs 3·1 + 4·2 + 5·3 = 26.
const LARGE: &str = "admit a:3 b:4 c:5";

/// The rate 1 at `a` and `b`, which costs 1·1 + 1·2 = 3.
const SMALL: &str = "admit a:1 b:1";

/// A book on a disk in memory that many passes use.
pub type ThreadsBook = Shared<MemDisk, AnyStore>;

/// A network's empty book on a disk in memory, and its first pass.
pub fn shared(alloc: Global, top: Topology) -> Result<(ThreadsBook, Pass), Fail>
    ensures of { IfOk result (λ made. IsPassOf made.0 made.1) }
    ensures share { IfOk result (λ made. made.1.share ≡ ALL_SHARES) }
{
    let disk = MemDisk::new(alloc)?;
    share(alloc, disk, top)
}

fn share(alloc: Global, disk: MemDisk, top: Topology) -> Result<(ThreadsBook, Pass), Fail>
    ensures of { IfOk result (λ made. IsPassOf made.0 made.1) }
    ensures share { IfOk result (λ made. made.1.share ≡ ALL_SHARES) }
{
    match Store::open(alloc, disk, top) {
        Ok(store) => Ok(Shared::new(alloc, store)?),
        Err(refused) => Err(Fail::from(refused.0)),
    }
}

/// A customer at a book, with what its calls wait by and where they take memory.
#[derive(Drop)]
pub struct Scene<'a, W> {
    pub rt: &'a W,
    pub alloc: Global,
    pub book: &'a ThreadsBook,
    pub customer: &'a Name,
}

impl<'a, W> Scene<'a, W> {
    /// What its calls are made in, which pass a gate.
    pub fn context<'b, G>(&'b self, gate: &'b G) -> Context<'b, W, G> {
        Context {
            rt: self.rt,
            alloc: self.alloc,
            gate,
        }
    }

    /// Its customer, as one who calls.
    pub fn caller<'b, G>(&'b self, context: &'b Context<'b, W, G>) -> Caller<'b, W, G> {
        Caller {
            context,
            session: 1,
            customer: self.customer,
        }
    }
}

/// What an admission is answered, and the pass.
pub fn admit<W: Wait, G: Gate, R: RowMaker>(
    scene: &Scene<'_, W>,
    gate: &G,
    pass: Pass,
    hose: Hose,
    rows: &mut R,
) -> (Reply, Pass)
    requires of { IsPassOf scene.now.book.now pass }
    requires nodes { AreNodes scene.now.book.now.network hose }
    ensures { IsPassOf scene.now.book.now result.1 }
{
    let context = scene.context(gate);
    scene.book.admit(&scene.caller(&context), pass, hose, rows)
}

/// What a first quote is answered.
fn quote<W: Wait, R: RowMaker>(scene: &Scene<'_, W>, pass: Pass, hose: Hose, rows: &mut R) -> Reply
    requires of { IsPassOf scene.now.book.now pass }
    requires nodes { AreNodes scene.now.book.now.network hose }
{
    let context = scene.context(&PlainGate);
    let caller = scene.caller(&context);
    let mut quotes = Quotes::new();
    let (reply, _pass) = scene.book.quote(&caller, pass, &mut quotes, hose, rows);
    reply
}

/// Waits until a flag is raised, and says whether it was.
fn comes(flag: &AtomicBool) -> bool {
    for _ in 0..MOST_LOOKS {
        if flag.load(Ordering::SeqCst) {
            return true;
        }
    }
    false
}

/// What two threads tell each other.
#[derive(Drop)]
struct Flags {
    /// The first thread plans.
    is_planning: AtomicBool,
    /// The second thread was answered.
    is_answered: AtomicBool,
}

impl Flags {
    fn new() -> Flags {
        Flags {
            is_planning: AtomicBool::new(false),
            is_answered: AtomicBool::new(false),
        }
    }
}

/// Makes plain rows. At the first plan it waits until the other thread was answered.
#[derive(Drop)]
struct WaitingRows<'a> {
    flags: &'a Flags,
    /// Whether the other thread was answered, once that was waited for.
    was_answered: Option<bool>,
}

impl RowMaker for WaitingRows<'_> {
    fn row(
        &mut self,
        alloc: Global,
        top: &Topology,
        links: &LinkSet,
        root: u32,
    ) -> Result<Row, AllocError> {
        PlainRows::new().row(alloc, top, links, root)
    }

    fn expect(&mut self, alloc: Global, top: &Topology, links: &LinkSet) {
        let _ = alloc;
        let _ = top;
        let _ = links;
        if self.was_answered.is_none() {
            self.flags.is_planning.store(true, Ordering::SeqCst);
            self.was_answered = Some(comes(&self.flags.is_answered));
        }
    }
}

/// What a thread asks for.
#[derive(Clone, Copy, Debug)]
enum ThreadAsked {
    Admission,
    Quote,
}

/// What a thread was answered, and whether the other one did what it waited for.
#[derive(Debug, Drop)]
struct Answered {
    reply: Reply,
    is_met: bool,
}

/// What is answered to a hose that is asked for.
fn ask<W: Wait, R: RowMaker>(
    scene: &Scene<'_, W>,
    asked: ThreadAsked,
    pass: Pass,
    hose: Hose,
    rows: &mut R,
) -> Reply
    requires of { IsPassOf scene.now.book.now pass }
    requires nodes { AreNodes scene.now.book.now.network hose }
{
    match asked {
        ThreadAsked::Admission => {
            let (reply, _pass) = admit(scene, &PlainGate, pass, hose, rows);
            reply
        }
        ThreadAsked::Quote => quote(scene, pass, hose, rows),
    }
}

/// Asks for the large hose, and plans it once the other thread was answered.
fn ask_slowly<W: Wait>(
    scene: &Scene<'_, W>,
    asked: ThreadAsked,
    pass: Pass,
    hose: Hose,
    flags: &Flags,
) -> Answered
    requires of { IsPassOf scene.now.book.now pass }
    requires nodes { AreNodes scene.now.book.now.network hose }
{
    let mut rows = WaitingRows {
        flags,
        was_answered: None,
    };
    let reply = ask(scene, asked, pass, hose, &mut rows);
    let is_met = rows.was_answered == Some(true);
    Answered { reply, is_met }
}

/// Admits a hose once the other thread plans.
fn admit_meanwhile<W: Wait>(scene: &Scene<'_, W>, pass: Pass, hose: Hose, flags: &Flags) -> Answered
    requires of { IsPassOf scene.now.book.now pass }
    requires nodes { AreNodes scene.now.book.now.network hose }
{
    let is_met = comes(&flags.is_planning);
    let (reply, _pass) = admit(scene, &PlainGate, pass, hose, &mut PlainRows::new());
    flags.is_answered.store(true, Ordering::SeqCst);
    Answered { reply, is_met }
}

/// One thread asks for the large hose, and plans it only once the small one was admitted for
/// another thread. What the two were answered.
fn ask_beside<W: Wait + Threads + Sync>(
    rt: &W,
    alloc: Global,
    asked: ThreadAsked,
) -> Result<(Answered, Answered), Fail> {
    let (book, pass) = shared(alloc, named(alloc, "star")?)?;
    ask_on(rt, alloc, &book, pass, asked)
}

fn ask_on<W: Wait + Threads + Sync>(
    rt: &W,
    alloc: Global,
    book: &ThreadsBook,
    pass: Pass,
    asked: ThreadAsked,
) -> Result<(Answered, Answered), Fail>
    requires of { IsPassOf book.now pass }
    requires share { pass.share ≡ ALL_SHARES }
{
    let acme = name("acme")?;
    let large = hose(alloc, book.topology(), LARGE)?;
    let small = hose(alloc, book.topology(), SMALL)?;
    Ok(ask_at_once(rt, alloc, book, &acme, pass, asked, large, small))
}

fn ask_at_once<W: Wait + Threads + Sync>(
    rt: &W,
    alloc: Global,
    book: &ThreadsBook,
    customer: &Name,
    pass: Pass,
    asked: ThreadAsked,
    large: Hose,
    small: Hose,
) -> (Answered, Answered)
    requires of { IsPassOf book.now pass }
    requires share { pass.share ≡ ALL_SHARES }
    requires large { AreNodes book.now.network large }
    requires small { AreNodes book.now.network small }
{
    let mut pass = pass;
    let other = book.split(&mut pass);
    let flags = Flags::new();
    thread::join(
        rt,
        || ask_slowly(
            &Scene {
                rt,
                alloc,
                book,
                customer,
            },
            asked,
            pass,
            large,
            &flags,
        ),
        || admit_meanwhile(
            &Scene {
                rt,
                alloc,
                book,
                customer,
            },
            other,
            small,
            &flags,
        ),
    )
}

/// Fails where a value is printed otherwise for those who look for faults.
pub fn tells<T: Debug>(alloc: Global, value: &T, want: &str) -> Result<(), Fail> {
    let got = format!(in alloc; "{value:?}")?;
    if got.as_str() != want {
        return Err(Fail::new(format_args!("{got} in place of {want}")));
    }
    Ok(())
}

/// What the thread is answered that is admitted meanwhile.
const MEANWHILE: &str = "Answered { reply: Admitted { id: 1, cost: 3, at: 1, \
    amounts: Amounts { pairs: [(0, 1), (1, 1)] } }, is_met: true }";

/// What the other one is answered then.
const ADMITTED: &str = "Answered { reply: Admitted { id: 2, cost: 26, at: 2, \
    amounts: Amounts { pairs: [(0, 3), (1, 4), (2, 5)] } }, is_met: true }";

const QUOTED: &str = "Answered { reply: Quoted { quote: 1, cost: 26, at: 0, \
    amounts: Amounts { pairs: [(0, 3), (1, 4), (2, 5)] } }, is_met: true }";

fn is_asked_beside<W: Wait + Threads + Sync>(
    rt: &W,
    alloc: Global,
    asked: ThreadAsked,
    want: &str,
) -> Result<(), Fail> {
    let (first, second) = ask_beside(rt, alloc, asked)?;
    are_answered(alloc, &first, want, &second)
}

fn are_answered(
    alloc: Global,
    first: &Answered,
    want: &str,
    second: &Answered,
) -> Result<(), Fail> {
    tells(alloc, second, MEANWHILE)?;
    tells(alloc, first, want)
}

#[test]
fn a_plan_is_made_outside_of_the_lock(rt: HostRuntime) -> Result<(), Fail> {
    let alloc = rt.alloc();
    is_asked_beside(&rt, alloc, ThreadAsked::Admission, ADMITTED)?;
    is_asked_beside(&rt, alloc, ThreadAsked::Quote, QUOTED)
}
