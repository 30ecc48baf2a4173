// What is sent, and who is let go.
ghost use Rattle.std.specs.Bool.{MatchBool};
ghost use Rattle.std.specs.Prelude.{◌≡◌, ◌≢◌, ◌↔◌, ◌<◌, ◌≤◌, ◌+◌, ℕ, List, [], ◌∷◌, ◌++◌, true, false, drop, length, max, IfSome, IsTrue, MatchOption};
ghost use Rattle.hose_net.specs.Story.{IsHosted};
ghost use Rattle.hose_host.specs.steps.Keeping.{Keeps, KeepsAll, at, hall, terms_of};
ghost use Rattle.hose_host.specs.steps.Seats.{AllFinished, Anyhow, AtRest, Calm, Finished, FinishedBelow, Freed, FreedBelow, Gone, GrowsByLost, IsSaid, Keeping, Quiet, Resting};

use crate::serving::WAITING;
use crate::{HostAnswers, Seat};
use hose_net::{Connections, Pause};

// Sends what is to be sent, as far as that is taken.
pub fn send<N: Connections, A: HostAnswers>(
    network: &mut N,
    answers: &A,
    place: usize,
    seat: &mut Seat,
)
    ensures { (heard : ℕ) (kept : List ℕ)
        → Keeps N.Connections A.HostAnswers (Freed heard kept) (Quiet heard kept) place heard
        (at network.old answers.now seat.old kept) (at network.new answers.now seat.new kept) }
{
    while send_piece(network, answers, place, seat) {}
}

// Sends a piece of what is to be sent, and says whether it may go on.
fn send_piece<N: Connections, A: HostAnswers>(
    network: &mut N,
    answers: &A,
    place: usize,
    seat: &mut Seat,
) -> bool
    ensures keeps { (heard : ℕ) (kept : List ℕ) → MatchBool result
        (Keeps N.Connections A.HostAnswers (Freed heard kept) (Freed heard kept) place heard
        (at network.old answers.now seat.old kept) (at network.new answers.now seat.new kept))
        (Keeps N.Connections A.HostAnswers (Freed heard kept) (Quiet heard kept) place heard
        (at network.old answers.now seat.old kept) (at network.new answers.now seat.new kept)) }
    ensures progress { IsTrue result → length seat.new.output < length seat.old.output }
{
    if seat.is_lost() {
        return false;
    }
    let unsent = seat.unsent();
    if unsent.is_empty() {
        return false;
    }
    match network.write(place, unsent, answers.kept()) {
        Ok(count) => {
            seat.was_sent(count);
            true
        }
        Err(Pause::NotNow) => false,
        Err(Pause::Over) => {
            seat.lose();
            false
        }
    }
}

// Lets a connection go that was given up.
pub fn leave<N: Connections, A: HostAnswers>(
    network: &mut N,
    answers: &mut A,
    place: usize,
    seat: &Seat,
)
    requires lost { seat.now.lost ≡ true }
    requires fits { A.fits answers.old }
    ensures keeps { (heard : ℕ) (coming : List ℕ) → Keeps N.Connections A.HostAnswers Anyhow
        (Finished false heard) place heard (at network.old answers.old seat.now coming)
        (at network.new answers.new seat.now seat.now.kept) }
    ensures ends { A.ends answers.new ≡ A.ends answers.old }
    ensures fits { A.fits answers.new }
{
    network.close(place);
    answers.leave(place);
}

// Lets a connection go that was given up, or of which no line is answered any more and to which all
// is sent, and says whether it did.
pub fn let_go<N: Connections, A: HostAnswers>(
    network: &mut N,
    answers: &mut A,
    place: usize,
    seat: &mut Seat,
) -> bool
    requires { A.fits answers.old }
    ensures calm { (heard : ℕ) → Keeps N.Connections A.HostAnswers (Calm heard seat.old.kept)
        (AtRest heard seat.new.kept) place heard
        (at network.old answers.old seat.old seat.old.kept)
        (at network.new answers.new seat.new seat.new.kept) }
    ensures quiet { (heard : ℕ) → Keeps N.Connections A.HostAnswers (Quiet heard seat.old.kept)
        (Finished true heard) place heard
        (at network.old answers.old seat.old seat.old.kept)
        (at network.new answers.new seat.new seat.new.kept) }
    ensures ends { A.ends answers.new ≡ A.ends answers.old }
    ensures fits { A.fits answers.new }
{
    if !is_to_go(answers, place, seat) {
        return false;
    }
    seat.lose();
    leave(network, answers, place, seat);
    true
}

// Whether a connection was given up, or no line of it is answered any more and all is sent to it.
fn is_to_go<A: HostAnswers>(answers: &A, place: usize, seat: &Seat) -> bool
    ensures { result ≡ false → seat.now.lost ≡ false }
{
    if seat.is_lost() {
        return true;
    }
    (seat.has_ended() || answers.is_over(place)) && seat.unsent().is_empty() && seat.waiting() == 0
}

// Has what may be sent, now that so much was heard, sent at all places. Where `waited`, lines had
// to wait, and each place is told again.
pub fn free_all<N: Connections, A: HostAnswers>(
    network: &mut N,
    answers: &mut A,
    seats: &mut Vec<Seat>,
    free: &mut Vec<usize>,
    heard: u64,
    waited: bool,
)
    requires { A.fits answers.old }
    ensures keeps { KeepsAll N.Connections A.HostAnswers (FreedBelow 0) (AllFinished true)
        (hall network.old answers.old seats.old.items heard)
        (hall network.new answers.new seats.new.items heard) }
    ensures ends { A.ends answers.new ≡ A.ends answers.old }
    ensures fits { A.fits answers.new }
{
    for place in 0..seats.len() {
        free_at(network, answers, seats, free, heard, waited, place);
    }
}

// Has what may be sent, now that so much was heard, sent at a place.
fn free_at<N: Connections, A: HostAnswers>(
    network: &mut N,
    answers: &mut A,
    seats: &mut Vec<Seat>,
    free: &mut Vec<usize>,
    heard: u64,
    waited: bool,
    place: usize,
)
    requires { A.fits answers.old }
    ensures keeps { KeepsAll N.Connections A.HostAnswers (FreedBelow place) (FreedBelow (place + 1))
        (hall network.old answers.old seats.old.items heard)
        (hall network.new answers.new seats.new.items heard) }
    ensures same { length seats.new.items ≡ length seats.old.items }
    ensures ends { A.ends answers.new ≡ A.ends answers.old }
    ensures fits { A.fits answers.new }
{
    let Some(seat) = seats.get_mut(place) else {
        return;
    };
    if free_seat(network, answers, heard, waited, place, seat) {
        let _ = free.push(place);
    }
}

// Has what may be sent, now that so much was heard, sent to a connection, and says whether it was
// let go.
fn free_seat<N: Connections, A: HostAnswers>(
    network: &mut N,
    answers: &mut A,
    heard: u64,
    waited: bool,
    place: usize,
    seat: &mut Seat,
) -> bool
    requires { A.fits answers.old }
    ensures keeps { Keeps N.Connections A.HostAnswers Gone (Finished true heard) place heard
        (at network.old answers.old seat.old seat.old.kept)
        (at network.new answers.new seat.new seat.new.kept) }
    ensures ends { A.ends answers.new ≡ A.ends answers.old }
    ensures fits { A.fits answers.new }
{
    if seat.is_lost() {
        return false;
    }
    let full = waited || seat.waiting() >= WAITING || seat.has_kept();
    release(network, answers, heard, place, seat);
    send(network, answers, place, seat);
    ask_if(network, answers, full, place, seat);
    let_go(network, answers, place, seat)
}

// Has a place told again that was not read while too much waited there, or all waited.
fn ask_if<N: Connections, A: HostAnswers>(
    network: &mut N,
    _answers: &A,
    full: bool,
    place: usize,
    _seat: &Seat,
)
    ensures { (heard : ℕ) (kept : List ℕ)
        → Keeps N.Connections A.HostAnswers (Quiet heard kept) (Quiet heard kept) place heard
        (at network.old _answers.now _seat.now kept) (at network.new _answers.now _seat.now kept) }
{
    if full {
        network.ask_again(place);
    }
}

// Releases all that may be sent, now that so much was heard.
fn release<N: Connections, A: HostAnswers>(
    network: &N,
    answers: &A,
    heard: u64,
    place: usize,
    seat: &mut Seat,
)
    ensures { (kept : List ℕ)
        → Keeps N.Connections A.HostAnswers (Keeping kept) (Freed heard kept) place heard
        (at network.now answers.now seat.old kept) (at network.now answers.now seat.new kept) }
{
    while release_one(network, answers, heard, place, seat) {}
}

// Releases the first text that waits, where it may be sent, and says whether it did.
fn release_one<N: Connections, A: HostAnswers>(
    _network: &N,
    _answers: &A,
    heard: u64,
    _place: usize,
    seat: &mut Seat,
) -> bool
    ensures keeps { (kept : List ℕ) → MatchBool result
        (Keeps N.Connections A.HostAnswers (Keeping kept) (Keeping kept) _place heard
        (at _network.now _answers.now seat.old kept) (at _network.now _answers.now seat.new kept))
        (Keeps N.Connections A.HostAnswers (Keeping kept) (Freed heard kept) _place heard
        (at _network.now _answers.now seat.old kept) (at _network.now _answers.now seat.new kept)) }
    ensures progress { IsTrue result → length seat.new.later < length seat.old.later }
{
    seat.release(heard)
}
