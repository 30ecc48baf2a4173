// How a host ends.
ghost use Rattle.std.specs.Bool.{MatchBool};
ghost use Rattle.std.specs.Prelude.{◌≡◌, ◌+◌, ℕ, [], true, false, length};
ghost use Rattle.hose_net.specs.Story.{leaves_lines};
ghost use Rattle.hose_net.specs.declared.hold.Parting.TheVariants.{Asked, Told};
ghost use Rattle.hose_host.specs.steps.Keeping.{Host, Keeps, KeepsAll, KeepsHost, PartsHost, at, hall, host_of};
ghost use Rattle.hose_host.specs.steps.Seats.{AllFinished, AtRest, Finished, FinishedBelow, Resting};

use crate::linking::{bring, go_alone, listen, pass_second};
use crate::sending::{free_all, leave, let_go, send};
use crate::serving::take_kept;
use crate::{HostAnswers, Places, Seat};
use hose_net::{Connections, Parting, Ready};

/// How many times at most the network is asked at the end who takes more of what is to be sent.
pub const LAST_ROUNDS: usize = 1_000_000;

// Ends a host for this reason: what may be sent is sent to those who take it. It says why it ended:
// where it was told to stop, and no line is answered any more, it was asked to.
pub fn end<N: Connections, A: HostAnswers>(
    network: &mut N,
    answers: &mut A,
    places: &mut Places,
    piece: &mut [u8],
    why: Parting,
) -> Parting
    requires fits { A.fits answers.old }
    requires asked { why ≡ Asked → A.ends answers.old ≡ true }
    ensures keeps { (first : Host N A) → PartsHost N.Connections A.HostAnswers why Resting Resting
        first (host_of network.old answers.old places.old)
        → PartsHost N.Connections A.HostAnswers result Resting (AllFinished (leaves_lines result))
        first (host_of network.new answers.new places.new) }
    ensures asked { result ≡ Asked → A.ends answers.new ≡ true }
    ensures told { result ≡ Told → A.ends answers.new ≡ false }
    ensures fits { A.fits answers.new }
{
    match why {
        Parting::Asked => {
            finish(network, answers, places, piece);
            Parting::Asked
        }
        Parting::Told => {
            finish(network, answers, places, piece);
            if answers.is_ending() {
                return Parting::Asked;
            }
            Parting::Told
        }
        Parting::Late => {
            write_all(network, answers, places, piece);
            Parting::Late
        }
        Parting::Ahead(count) => {
            write_all(network, answers, places, piece);
            Parting::Ahead(count)
        }
    }
}

// Answers all whole lines that were got, unless no line is answered any more, and sends what is to
// be sent to those who take it.
fn finish<N: Connections, A: HostAnswers>(
    network: &mut N,
    answers: &mut A,
    places: &mut Places,
    piece: &mut [u8],
)
    requires { A.fits answers.old }
    ensures keeps { KeepsHost N.Connections A.HostAnswers Resting (AllFinished (A.ends answers.new))
        (host_of network.old answers.old places.old) (host_of network.new answers.new places.new) }
    ensures ends { A.ends answers.new ≡ false → A.ends answers.old ≡ false }
    ensures fits { A.fits answers.new }
{
    let heard = places.heard;
    finish_all(network, answers, &mut places.seats, &mut places.free, heard);
    bring(network, answers, places);
    if answers.is_ending() {
        write_out(network, answers, places, piece);
    }
}

// Sends what may be sent to those who take it; no line is answered any more.
fn write_all<N: Connections, A: HostAnswers>(
    network: &mut N,
    answers: &mut A,
    places: &mut Places,
    piece: &mut [u8],
)
    requires { A.fits answers.old }
    ensures keeps { KeepsHost N.Connections A.HostAnswers Resting (AllFinished true)
        (host_of network.old answers.old places.old) (host_of network.new answers.new places.new) }
    ensures fits { A.fits answers.new }
{
    let heard = places.heard;
    free_all(
        network,
        answers,
        &mut places.seats,
        &mut places.free,
        heard,
        false,
    );
    write_out(network, answers, places, piece);
}

// Answers all whole lines that were got, at all places, unless no line is answered any more.
pub fn finish_all<N: Connections, A: HostAnswers>(
    network: &mut N,
    answers: &mut A,
    seats: &mut Vec<Seat>,
    free: &mut Vec<usize>,
    heard: u64,
)
    requires { A.fits answers.old }
    ensures keeps { KeepsAll N.Connections A.HostAnswers Resting (AllFinished (A.ends answers.new))
        (hall network.old answers.old seats.old.items heard)
        (hall network.new answers.new seats.new.items heard) }
    ensures ends { A.ends answers.new ≡ false → A.ends answers.old ≡ false }
    ensures fits { A.fits answers.new }
{
    for place in 0..seats.len() {
        finish_at(network, answers, seats, free, heard, place);
    }
}

// Answers all whole lines that were got at a place.
fn finish_at<N: Connections, A: HostAnswers>(
    network: &mut N,
    answers: &mut A,
    seats: &mut Vec<Seat>,
    free: &mut Vec<usize>,
    heard: u64,
    place: usize,
)
    requires { A.fits answers.old }
    ensures keeps { KeepsAll N.Connections A.HostAnswers (FinishedBelow (A.ends answers.old) place)
        (FinishedBelow (A.ends answers.new) (place + 1))
        (hall network.old answers.old seats.old.items heard)
        (hall network.new answers.new seats.new.items heard) }
    ensures same { length seats.new.items ≡ length seats.old.items }
    ensures ends { A.ends answers.new ≡ false → A.ends answers.old ≡ false }
    ensures fits { A.fits answers.new }
{
    let Some(seat) = seats.get_mut(place) else {
        return;
    };
    if finish_seat(network, answers, heard, place, seat) {
        let _ = free.push(place);
    }
}

// Answers all whole lines that a connection gave, and says whether it was let go.
fn finish_seat<N: Connections, A: HostAnswers>(
    network: &mut N,
    answers: &mut A,
    heard: u64,
    place: usize,
    seat: &mut Seat,
) -> bool
    requires { A.fits answers.old }
    ensures keeps { Keeps N.Connections A.HostAnswers (AtRest heard seat.old.kept)
        (Finished (A.ends answers.new) heard) place heard
        (at network.old answers.old seat.old seat.old.kept)
        (at network.new answers.new seat.new seat.new.kept) }
    ensures ends { A.ends answers.new ≡ false → A.ends answers.old ≡ false }
    ensures fits { A.fits answers.new }
{
    if seat.is_lost() {
        return false;
    }
    take_kept(network, answers, heard, place, seat, usize::MAX, usize::MAX);
    send(network, answers, place, seat);
    if is_finished(answers, seat) {
        return false;
    }
    seat.lose();
    leave(network, answers, place, seat);
    true
}

// Whether a connection is not given up, and no lines of it are left or none is answered any more.
fn is_finished<A: HostAnswers>(answers: &A, seat: &Seat) -> bool
    ensures { result ≡ true → (seat.now.lost ≡ false)
        × (A.ends answers.now ≡ false → seat.now.kept ≡ []) }
{
    !seat.is_lost() && (answers.is_ending() || !seat.has_kept())
}

// Sends what is to be sent to those who take it, while the network tells who does.
fn write_out<N: Connections, A: HostAnswers>(
    network: &mut N,
    answers: &mut A,
    places: &mut Places,
    piece: &mut [u8],
)
    requires { A.fits answers.old }
    ensures keeps { KeepsHost N.Connections A.HostAnswers (AllFinished true) (AllFinished true)
        (host_of network.old answers.old places.old) (host_of network.new answers.new places.new) }
    ensures ends { A.ends answers.new ≡ A.ends answers.old }
    ensures fits { A.fits answers.new }
{
    network.end_soon();
    let mut heard = places.heard;
    let mut out = 0;
    for _ in 0..LAST_ROUNDS {
        out = len_out(&places.seats, from_where(out, heard == places.heard));
        heard = places.heard;
        if out == places.seats.len() {
            return;
        }
        if !write_round(network, answers, places, piece) {
            return;
        }
    }
}

// From where on there may be someone to whom something is to be sent: where no more was heard, no
// one is before this place.
fn from_where(out: usize, same: bool) -> usize {
    if same { out } else { 0 }
}

// From this place on, how far to go to the first to whom something is to be sent.
fn len_out(seats: &[Seat], from: usize) -> usize {
    for place in from..seats.len() {
        if !seats[place].is_out() {
            return place;
        }
    }
    seats.len()
}

// Sends what is to be sent to who takes more, or says that the network tells to stop.
fn write_round<N: Connections, A: HostAnswers>(
    network: &mut N,
    answers: &mut A,
    places: &mut Places,
    piece: &mut [u8],
) -> bool
    requires { A.fits answers.old }
    ensures keeps { KeepsHost N.Connections A.HostAnswers (AllFinished true) (AllFinished true)
        (host_of network.old answers.old places.old) (host_of network.new answers.new places.new) }
    ensures ends { A.ends answers.new ≡ A.ends answers.old }
    ensures fits { A.fits answers.new }
{
    match network.next() {
        Ready::Stop => false,
        Ready::Door(_) => true,
        Ready::Place(place) => {
            write_at(network, answers, &mut places.seats, &mut places.free, place);
            true
        }
        Ready::Link => {
            listen(network, answers, places, piece);
            true
        }
        Ready::Second => {
            pass_second(network, answers, places);
            true
        }
        Ready::Late => {
            if !answers.may_go_alone() {
                return true;
            }
            go_alone(network, answers, places);
            true
        }
    }
}

// Sends what is to be sent at a place.
fn write_at<N: Connections, A: HostAnswers>(
    network: &mut N,
    answers: &mut A,
    seats: &mut Vec<Seat>,
    free: &mut Vec<usize>,
    place: usize,
)
    requires { A.fits answers.old }
    ensures keeps { (heard : ℕ)
        → KeepsAll N.Connections A.HostAnswers (AllFinished true) (AllFinished true)
        (hall network.old answers.old seats.old.items heard)
        (hall network.new answers.new seats.new.items heard) }
    ensures ends { A.ends answers.new ≡ A.ends answers.old }
    ensures fits { A.fits answers.new }
{
    let Some(seat) = seats.get_mut(place) else {
        return;
    };
    if write_seat(network, answers, place, seat) {
        let _ = free.push(place);
    }
}

// Sends what is to be sent to a connection, and says whether it was let go.
fn write_seat<N: Connections, A: HostAnswers>(
    network: &mut N,
    answers: &mut A,
    place: usize,
    seat: &mut Seat,
) -> bool
    requires { A.fits answers.old }
    ensures keeps { (heard : ℕ) → Keeps N.Connections A.HostAnswers (Finished true heard)
        (Finished true heard) place heard
        (at network.old answers.old seat.old seat.old.kept)
        (at network.new answers.new seat.new seat.new.kept) }
    ensures ends { A.ends answers.new ≡ A.ends answers.old }
    ensures fits { A.fits answers.new }
{
    if seat.is_lost() {
        return false;
    }
    send(network, answers, place, seat);
    let_go(network, answers, place, seat)
}
