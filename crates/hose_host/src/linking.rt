// The link to a standby, and how replies are held for it.
ghost use Rattle.std.specs.Bool.{MatchBool};
ghost use Rattle.std.specs.Prelude.{◌≡◌, ◌≢◌, ◌⊎◌, ◌<◌, ◌≤◌, ℕ, List, [], Bool, Option, None, Some, true, false, length, IfSome, IsTrue, MatchOption, MatchResult};
ghost use Rattle.hose_net.specs.Story.{Exchange, Link, bound_of};
ghost use Rattle.hose_net.specs.declared.hold.Hold.TheVariants.{Alone};
ghost use Rattle.hose_net.specs.declared.hold.Parting.TheVariants.{Ahead};
ghost use Rattle.hose_host.specs.steps.Answering.{LeavesPlaces};
ghost use Rattle.hose_host.specs.steps.Keeping.{KeepsHost, KeepsLink, KeepsLinkAt, PartsHost, host_of};
ghost use Rattle.hose_host.specs.steps.Seats.{InRound, Resting};

use crate::sending::free_all;
use crate::{HostAnswers, Places};
use hose_net::{Connections, Hold, Parting, Pause};

/// What is said to be heard of a standby where the host goes on alone.
pub const ALONE: u64 = 18_446_744_073_709_551_615;

/// After how many seconds it is told again that the host goes on alone.
const AGAIN: u64 = 60;

// Begins: a host without a standby goes on alone, another one waits for its standby.
pub fn begin<N: Connections, A: HostAnswers>(network: &mut N, answers: &A, places: &mut Places)
    requires none { places.old.seats.items ≡ [] }
    requires heard { places.old.heard ≡ 0 }
    requires alone { A.standby_at (A.about answers.now) ≡ None
        → A.goes_alone (A.about answers.now) ≡ true }
    ensures keeps { KeepsHost N.Connections A.HostAnswers Resting Resting
        (host_of network.old answers.now places.old) (host_of network.new answers.now places.new) }
    ensures alone { A.standby_at (A.about answers.now) ≡ None
        → places.new.heard ≡ bound_of Alone }
{
    match answers.standby() {
        None => places.heard = ALONE,
        Some(_) => network.expect(answers.patience().0),
    }
}

// A second has passed: the link is opened where it is not open, or the standby is asked for a sign
// of life.
pub fn pass_second<N: Connections, A: HostAnswers>(
    network: &mut N,
    answers: &mut A,
    places: &mut Places,
)
    requires { A.fits answers.old }
    ensures keeps { (ended : Bool) → KeepsHost N.Connections A.HostAnswers
        (InRound ended) (InRound ended)
        (host_of network.old answers.old places.old) (host_of network.new answers.new places.new) }
    ensures ends { A.ends answers.new ≡ A.ends answers.old }
    ensures fits { A.fits answers.new }
{
    tell_alone(answers, places);
    if places.opened {
        send_more(network, answers, true);
        return;
    }
    if open_link(network, answers, places.heard) {
        places.opened = true;
        expect_start(network, answers, places);
    }
}

// Tells again that the host goes on alone, where it has for a while.
fn tell_alone<A: HostAnswers>(answers: &mut A, places: &mut Places)
    requires { A.fits answers.old }
    ensures comes { (from : A.origin) (exchanges : List (Exchange A.said A.Reply)) (link : Link)
        → A.comes from exchanges link answers.old → A.comes from exchanges link answers.new }
    ensures ends { A.ends answers.new ≡ A.ends answers.old }
    ensures leaves { LeavesPlaces A.is_new A.over A.about A.count A.waits answers.old answers.new }
    ensures fits { A.fits answers.new }
    ensures seats { places.new.seats.items ≡ places.old.seats.items }
    ensures heard { places.new.heard ≡ places.old.heard }
    ensures opened { places.new.opened ≡ places.old.opened }
{
    if places.heard != ALONE {
        return;
    }
    places.seconds = places.seconds.saturating_add(1);
    if places.seconds < AGAIN {
        return;
    }
    places.seconds = 0;
    answers.tell_hold(Hold::Alone);
}

// Opens the link, where so much was heard, and says whether it did.
fn open_link<N: Connections, A: HostAnswers>(network: &mut N, answers: &mut A, heard: u64) -> bool
    requires { A.fits answers.old }
    ensures keeps { (was : Bool) → MatchBool result
        (KeepsLinkAt N.Connections A.HostAnswers heard was network.old answers.old true network.new
        answers.new)
        (KeepsLinkAt N.Connections A.HostAnswers heard was network.old answers.old was network.new
        answers.new) }
    ensures ends { A.ends answers.new ≡ A.ends answers.old }
    ensures fits { A.fits answers.new }
{
    let Some(path) = answers.standby() else {
        return false;
    };
    if !network.open_link(path) {
        return false;
    }
    answers.link_opened(is_alone(heard));
    send_more(network, answers, false);
    true
}

// Whether the host is alone, where so much was heard.
fn is_alone(heard: u64) -> bool
    ensures { result ≡ true → heard ≡ bound_of Alone }
{
    heard == ALONE
}

// Gives the first link that was opened its time to the first answer.
fn expect_start<N: Connections, A: HostAnswers>(network: &mut N, answers: &A, places: &mut Places)
    ensures keeps { (opened : Bool) → KeepsLink N.Connections A.HostAnswers opened network.old
        answers.now opened network.new answers.now }
    ensures seats { places.new.seats.items ≡ places.old.seats.items }
    ensures heard { places.new.heard ≡ places.old.heard }
    ensures opened { places.new.opened ≡ places.old.opened }
{
    if places.begun {
        return;
    }
    places.begun = true;
    network.expect(answers.patience().0);
}

// Sends what is new to the standby, where the link is open.
pub fn bring<N: Connections, A: HostAnswers>(network: &mut N, answers: &mut A, places: &Places)
    requires { A.fits answers.old }
    ensures keeps { KeepsLink N.Connections A.HostAnswers places.now.opened network.old answers.old
        places.now.opened network.new answers.new }
    ensures ends { A.ends answers.new ≡ A.ends answers.old }
    ensures fits { A.fits answers.new }
{
    if places.opened {
        send_more(network, answers, false);
    }
}

// Gathers what is to be sent at the link, and sends it as far as it is taken.
fn send_more<N: Connections, A: HostAnswers>(network: &mut N, answers: &mut A, asks: bool)
    requires { A.fits answers.old }
    ensures keeps { KeepsLink N.Connections A.HostAnswers true network.old answers.old true
        network.new answers.new }
    ensures ends { A.ends answers.new ≡ A.ends answers.old }
    ensures fits { A.fits answers.new }
{
    answers.gather(asks);
    send_link(network, answers);
}

// Sends what is to be sent at the link, as far as it is taken.
fn send_link<N: Connections, A: HostAnswers>(network: &mut N, answers: &mut A)
    requires { A.fits answers.old }
    ensures keeps { KeepsLink N.Connections A.HostAnswers true network.old answers.old true
        network.new answers.new }
    ensures ends { A.ends answers.new ≡ A.ends answers.old }
    ensures fits { A.fits answers.new }
{
    while send_some(network, answers) {}
}

// Sends a piece of what is to be sent at the link, and says whether it did.
fn send_some<N: Connections, A: HostAnswers>(network: &mut N, answers: &mut A) -> bool
    requires { A.fits answers.old }
    ensures keeps { KeepsLink N.Connections A.HostAnswers true network.old answers.old true
        network.new answers.new }
    ensures progress { IsTrue result
        → length (A.unsent answers.new) < length (A.unsent answers.old) }
    ensures ends { A.ends answers.new ≡ A.ends answers.old }
    ensures fits { A.fits answers.new }
{
    let unsent = answers.unsent();
    if unsent.is_empty() {
        return false;
    }
    match network.write_link(unsent, answers.kept()) {
        Ok(count) => {
            answers.was_sent(count);
            true
        }
        Err(_) => false,
    }
}

// Reads and sends what can be read and sent at the link.
pub fn listen<N: Connections, A: HostAnswers>(
    network: &mut N,
    answers: &mut A,
    places: &mut Places,
    piece: &mut [u8],
)
    requires { A.fits answers.old }
    ensures keeps { (ended : Bool) → KeepsHost N.Connections A.HostAnswers
        (InRound ended) (InRound ended)
        (host_of network.old answers.old places.old) (host_of network.new answers.new places.new) }
    ensures ends { A.ends answers.new ≡ A.ends answers.old }
    ensures fits { A.fits answers.new }
{
    if !places.opened {
        return;
    }
    match read_link(network, answers, piece) {
        Ok(()) => hear(network, answers, places),
        Err(Pause::NotNow) => {}
        Err(Pause::Over) => close(network, answers, places),
    }
}

// Reads a piece at the link, and sends what comes of it.
fn read_link<N: Connections, A: HostAnswers>(
    network: &mut N,
    answers: &mut A,
    piece: &mut [u8],
) -> Result<(), Pause>
    requires { A.fits answers.old }
    ensures keeps { KeepsLink N.Connections A.HostAnswers true network.old answers.old true
        network.new answers.new }
    ensures ends { A.ends answers.new ≡ A.ends answers.old }
    ensures fits { A.fits answers.new }
{
    match network.read_link(piece) {
        Ok(count) => answers.take_in(&piece[..count]),
        Err(Pause::NotNow) => {
            send_link(network, answers);
            return Err(Pause::NotNow);
        }
        Err(Pause::Over) => return Err(Pause::Over),
    }
    send_more(network, answers, false);
    Ok(())
}

// Closes the link. It is opened again at the next second.
fn close<N: Connections, A: HostAnswers>(network: &mut N, answers: &A, places: &mut Places)
    ensures keeps { KeepsLink N.Connections A.HostAnswers places.old.opened network.old answers.now
        places.new.opened network.new answers.now }
    ensures seats { places.new.seats.items ≡ places.old.seats.items }
    ensures heard { places.new.heard ≡ places.old.heard }
{
    network.close_link();
    places.opened = false;
}

// Hears how much the standby gave, and sends what may be sent then; a link that is of no use is
// closed.
fn hear<N: Connections, A: HostAnswers>(network: &mut N, answers: &mut A, places: &mut Places)
    requires fits { A.fits answers.old }
    requires opened { places.old.opened ≡ true }
    ensures keeps { (ended : Bool) → KeepsHost N.Connections A.HostAnswers
        (InRound ended) (InRound ended)
        (host_of network.old answers.old places.old) (host_of network.new answers.new places.new) }
    ensures ends { A.ends answers.new ≡ A.ends answers.old }
    ensures fits { A.fits answers.new }
{
    if is_useless(answers) {
        close(network, answers, places);
        return;
    }
    renew(network, answers);
    let Some(count) = answers.heard() else {
        return;
    };
    join(network, answers, places, count);
}

// Whether a link is of no use any more. One at which it was told that the host has fewer entries is
// kept, since the host ends for it.
fn is_useless<A: HostAnswers>(answers: &A) -> bool {
    if answers.ahead().is_some() {
        return false;
    }
    answers.is_link_over()
}

// Gives the standby its time anew, where what was heard of it is news.
fn renew<N: Connections, A: HostAnswers>(network: &mut N, answers: &A)
    ensures { (opened : Bool) → KeepsLink N.Connections A.HostAnswers opened network.old answers.now
        opened network.new answers.now }
{
    if answers.is_news() {
        network.expect(answers.patience().1);
    }
}

// So much is heard of the standby: replies that need no more may be sent.
fn join<N: Connections, A: HostAnswers>(
    network: &mut N,
    answers: &mut A,
    places: &mut Places,
    count: u64,
)
    requires fits { A.fits answers.old }
    requires opened { places.old.opened ≡ true }
    requires heard { (from : A.origin) (exchanges : List (Exchange A.said A.Reply)) (link : Link)
        → A.comes from exchanges link answers.old → A.leads from exchanges link (Some count) }
    ensures keeps { (ended : Bool) → KeepsHost N.Connections A.HostAnswers
        (InRound ended) (InRound ended)
        (host_of network.old answers.old places.old) (host_of network.new answers.new places.new) }
    ensures ends { A.ends answers.new ≡ A.ends answers.old }
    ensures fits { A.fits answers.new }
{
    let was = places.heard;
    let waited = answers.waits();
    if !joins(answers, was, count) {
        return;
    }
    places.heard = count;
    answers.go_on();
    tell_joined(answers, was, count, waited);
    free_all(
        network,
        answers,
        &mut places.seats,
        &mut places.free,
        count,
        waited,
    );
}

// Whether replies are held from now on until as much is heard of a standby as they need, of which
// so much is heard: more than before; as much, where lines wait for the standby at a link that was
// opened; or all that any reply needs, where the host went on alone.
fn joins<A: HostAnswers>(answers: &A, heard: u64, count: u64) -> bool
    ensures less { result ≡ true → count < bound_of Alone }
    ensures joins { result ≡ true
        → (heard ≤ count) ⊎ ((heard ≡ bound_of Alone) × (A.count answers.now ≤ count)) }
{
    if count == ALONE {
        return false;
    }
    if heard == ALONE {
        return answers.counted() <= count;
    }
    if answers.waits() {
        return heard <= count;
    }
    heard < count
}

// Tells that a standby has joined, where none had before, or lines waited for it.
fn tell_joined<A: HostAnswers>(answers: &mut A, was: u64, count: u64, waited: bool)
    requires { A.fits answers.old }
    ensures comes { (from : A.origin) (exchanges : List (Exchange A.said A.Reply)) (link : Link)
        → A.comes from exchanges link answers.old → A.comes from exchanges link answers.new }
    ensures ends { A.ends answers.new ≡ A.ends answers.old }
    ensures leaves { LeavesPlaces A.is_new A.over A.about A.count A.waits answers.old answers.new }
    ensures fits { A.fits answers.new }
{
    if was == 0 || was == ALONE || waited {
        answers.tell_hold(Hold::Upto(count));
    }
}

// Nothing was heard of the standby for too long: the host goes on alone, where it may.
pub fn go_alone<N: Connections, A: HostAnswers>(
    network: &mut N,
    answers: &mut A,
    places: &mut Places,
)
    requires fits { A.fits answers.old }
    requires may { A.goes_alone (A.about answers.old) ≡ true }
    ensures keeps { (ended : Bool) → KeepsHost N.Connections A.HostAnswers
        (InRound ended) (InRound ended)
        (host_of network.old answers.old places.old) (host_of network.new answers.new places.new) }
    ensures ends { A.ends answers.new ≡ A.ends answers.old }
    ensures fits { A.fits answers.new }
{
    if places.heard >= ALONE {
        return;
    }
    places.heard = ALONE;
    places.seconds = 0;
    let waited = answers.waits();
    answers.go_on();
    answers.tell_hold(Hold::Alone);
    free_all(
        network,
        answers,
        &mut places.seats,
        &mut places.free,
        ALONE,
        waited,
    );
}

// How many entries the standby has, where they are more than the host has.
pub fn told_ahead<N: Connections, A: HostAnswers>(
    _network: &N,
    answers: &A,
    places: &Places,
) -> Option<u64>
    ensures { (ended : Bool) → IfSome result (λ count. PartsHost N.Connections A.HostAnswers
        (Ahead count) (InRound ended) (InRound ended)
        (host_of _network.now answers.now places.now)
        (host_of _network.now answers.now places.now)) }
{
    if !places.opened {
        return None;
    }
    answers.ahead()
}
