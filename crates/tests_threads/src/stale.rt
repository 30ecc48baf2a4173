// An admission whose plan goes stale as often as it is made outside of the lock.
ghost use Rattle.std.specs.Prelude.{◌≡◌, ◌≤◌};
ghost use Rattle.hose_graph.specs.declared.limits.TheConstants.{MOST_EPOCH};
ghost use Rattle.hose_law.specs.steps.Plan.{AreNodes};
ghost use Rattle.hose_shared.specs.steps.Sharing.{IsPassOf};

use crate::shared::{MOST_LOOKS, Scene, ThreadsBook, admit, shared, tells};
use cases_common::{hose, name, network};
use hose_graph::{Hose, Name, Reply};
use hose_paths::PlainRows;
use hose_pool::{Gate, PlainGate, Point};
use hose_turn::{ALL_SHARES, Pass};
use std::alloc::Global;
use std::sync::Wait;
use std::sync::atomic::{AtomicU64, Ordering};
use std::test::Fail;
use std::thread;
use std::thread::Threads;

/// A dear link beside a cheap one.
const LANES: &str = "node a\nnode b\nlink a b 10 1\nlink a b 10 5\nend\n";

/// The rate 6 at `a` and `b`: it reserves 6 of the cheap link, for 6, and where that has less than
/// 6 free, of the dear link, for 6·5 = 30.
const WIDE: &str = "admit a:6 b:6";

/// The rate 5 at `a` and `b`: it reserves 5 of the cheap link, for 5, and leaves 5 of it free.
const NARROW: &str = "admit a:5 b:5";

/// How many plans of one thread were made, and how many of them the other one has spoilt.
#[derive(Drop)]
struct Plans {
    made: AtomicU64,
    spoilt: AtomicU64,
}

impl Plans {
    fn new() -> Plans {
        Plans {
            made: AtomicU64::new(0),
            spoilt: AtomicU64::new(0),
        }
    }
}

/// Waits until a count is reached.
fn wait_for(count: &AtomicU64, wanted: u64) {
    for _ in 0..MOST_LOOKS {
        if count.load(Ordering::SeqCst) >= wanted {
            return;
        }
    }
}

/// A plan that was made is not taken before it is spoilt.
impl Gate for Plans {
    fn at(&self, point: Point) {
        if let Point::Planned { .. } = point {
            let made = self.made.load(Ordering::SeqCst).saturating_add(1);
            self.made.store(made, Ordering::SeqCst);
            wait_for(&self.spoilt, made);
        }
    }
}

/// Admits the wide hose, and tells what is answered.
fn admit_wide<W: Wait>(scene: &Scene<'_, W>, pass: Pass, wide: Hose, plans: &Plans) -> Reply
    requires of { IsPassOf scene.now.book.now pass }
    requires nodes { AreNodes scene.now.book.now.network wide }
{
    let (reply, _pass) = admit(scene, plans, pass, wide, &mut PlainRows::new());
    reply
}

/// Takes up a part of the cheap link.
fn narrow_lane<W: Wait>(scene: &Scene<'_, W>, pass: Pass, narrow: Hose) -> (Reply, Pass)
    requires of { IsPassOf scene.now.book.now pass }
    requires nodes { AreNodes scene.now.book.now.network narrow }
    ensures { IsPassOf scene.now.book.now result.1 }
{
    admit(scene, &PlainGate, pass, narrow, &mut PlainRows::new())
}

/// Gives it up again.
fn widen_lane<W: Wait>(scene: &Scene<'_, W>, pass: Pass, id: u64) -> (Reply, Pass)
    requires of { IsPassOf scene.now.book.now pass }
    requires id { id ≤ MOST_EPOCH }
    ensures { IsPassOf scene.now.book.now result.1 }
{
    let context = scene.context(&PlainGate);
    scene.book.release(&scene.caller(&context), pass, id)
}

/// What the thread was answered that spoilt three plans.
#[derive(Debug, Drop)]
struct Spoilt {
    first: Reply,
    second: Reply,
    third: Reply,
}

/// Spoils three plans of the wide hose, each once it is made: the first and the third rest on a
/// cheap link that is free, the second on one that is not.
fn spoil<W: Wait>(
    scene: &Scene<'_, W>,
    pass: Pass,
    narrow: Hose,
    again: Hose,
    plans: &Plans,
) -> Spoilt
    requires of { IsPassOf scene.now.book.now pass }
    requires narrow { AreNodes scene.now.book.now.network narrow }
    requires again { AreNodes scene.now.book.now.network again }
{
    wait_for(&plans.made, 1);
    let (first, pass) = narrow_lane(scene, pass, narrow);
    plans.spoilt.store(1, Ordering::SeqCst);
    wait_for(&plans.made, 2);
    let (second, pass) = widen_lane(scene, pass, 1);
    plans.spoilt.store(2, Ordering::SeqCst);
    wait_for(&plans.made, 3);
    let (third, _pass) = narrow_lane(scene, pass, again);
    plans.spoilt.store(3, Ordering::SeqCst);
    Spoilt {
        first,
        second,
        third,
    }
}

/// What the two were answered, and how many plans were made outside of the lock.
#[derive(Drop)]
struct SpoiltAnswers {
    wide: Reply,
    spoilt: Spoilt,
    made: u64,
}

fn admit_on_spoilt_plans<W: Wait + Threads + Sync>(
    rt: &W,
    alloc: Global,
) -> Result<SpoiltAnswers, Fail> {
    let (lanes, pass) = shared(alloc, network(alloc, LANES)?)?;
    admit_on_lanes(rt, alloc, &lanes, pass)
}

fn admit_on_lanes<W: Wait + Threads + Sync>(
    rt: &W,
    alloc: Global,
    book: &ThreadsBook,
    pass: Pass,
) -> Result<SpoiltAnswers, Fail>
    requires of { IsPassOf book.now pass }
    requires share { pass.share ≡ ALL_SHARES }
{
    let acme = name("acme")?;
    let wide = hose(alloc, book.topology(), WIDE)?;
    let narrow = hose(alloc, book.topology(), NARROW)?;
    let again = hose(alloc, book.topology(), NARROW)?;
    Ok(admit_at_once(rt, alloc, book, &acme, pass, wide, narrow, again))
}

fn admit_at_once<W: Wait + Threads + Sync>(
    rt: &W,
    alloc: Global,
    book: &ThreadsBook,
    customer: &Name,
    pass: Pass,
    wide: Hose,
    narrow: Hose,
    again: Hose,
) -> SpoiltAnswers
    requires of { IsPassOf book.now pass }
    requires share { pass.share ≡ ALL_SHARES }
    requires wide { AreNodes book.now.network wide }
    requires narrow { AreNodes book.now.network narrow }
    requires again { AreNodes book.now.network again }
{
    let mut pass = pass;
    let other = book.split(&mut pass);
    let plans = Plans::new();
    let (wide, spoilt) = thread::join(
        rt,
        || admit_wide(
            &Scene {
                rt,
                alloc,
                book,
                customer,
            },
            pass,
            wide,
            &plans,
        ),
        || spoil(
            &Scene {
                rt,
                alloc,
                book,
                customer,
            },
            other,
            narrow,
            again,
            &plans,
        ),
    );
    let made = plans.made.load(Ordering::SeqCst);
    SpoiltAnswers { wide, spoilt, made }
}

/// After the third plan the hose is decided under the lock, where no plan can go stale.
#[test]
fn three_plans_go_stale(rt: HostRuntime) -> Result<(), Fail> {
    let answers = admit_on_spoilt_plans(&rt, rt.alloc())?;
    are_told(rt.alloc(), &answers)
}

fn are_told(alloc: Global, answers: &SpoiltAnswers) -> Result<(), Fail> {
    tells(
        alloc,
        &answers.spoilt,
        "Spoilt { first: Admitted { id: 1, cost: 5, at: 1, \
            amounts: Amounts { pairs: [(0, 5)] } }, \
            second: Released { id: 1, at: 2 }, \
            third: Admitted { id: 3, cost: 5, at: 3, \
            amounts: Amounts { pairs: [(0, 5)] } } }",
    )?;
    tells(
        alloc,
        &answers.wide,
        "Admitted { id: 4, cost: 30, at: 4, amounts: Amounts { pairs: [(1, 6)] } }",
    )?;
    tells(alloc, &answers.made, "3")
}
