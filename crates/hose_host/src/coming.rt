// Who comes, and who is turned out for them.
ghost use Rattle.std.specs.Bool.{MatchBool};
ghost use Rattle.std.specs.Prelude.{◌≡◌, ◌≢◌, ◌↔◌, ◌<◌, ◌≤◌, ◌+◌, ℕ, List, [], ◌∷◌, ◌++◌, true, false, drop, length, max, IfSome, IsTrue, MatchOption};
ghost use Rattle.hose_net.specs.Story.{IsHosted};
ghost use Rattle.hose_host.specs.steps.Keeping.{Keeps, KeepsAll, at, hall, terms_of};
ghost use Rattle.hose_host.specs.steps.Seats.{AllFinished, Anyhow, AtRest, Calm, Finished, FinishedBelow, Freed, FreedBelow, Gone, GrowsByLost, IsSaid, Keeping, Quiet, Resting};

use crate::sending::leave;
use crate::{HostAnswers, Seat};
use hose_net::Connections;
use std::alloc::Global;

/// How many places there are at most.
pub const MOST: usize = 10_000;

/// How many of them only who comes to the first door is given, so that others cannot shut it.
pub const OF_FIRST_DOOR: usize = 16;

/// How many connections of a door that gave no line yet are kept.
pub const SILENT: usize = 256;

// Gives a place to who came to a door.
pub fn come<N: Connections, A: HostAnswers>(
    alloc: Global,
    network: &mut N,
    answers: &mut A,
    seats: &mut Vec<Seat>,
    free: &mut Vec<usize>,
    came: &mut u64,
    door: usize,
)
    requires { A.fits answers.old }
    ensures keeps { (heard : ℕ) → KeepsAll N.Connections A.HostAnswers Resting Resting
        (hall network.old answers.old seats.old.items heard)
        (hall network.new answers.new seats.new.items heard) }
    ensures fits { A.fits answers.new }
{
    let Some(place) = free_place(alloc, seats, free, door) else {
        network.put_off(door);
        return;
    };
    let Some(seat) = seats.get_mut(place) else {
        return;
    };
    if !seat.is_lost() {
        return;
    }
    *came = came.saturating_add(1);
    if !admit(alloc, network, answers, seat, *came, door, place) {
        let _ = free.push(place);
    }
}

// Lets the oldest connection of a door go that gave no line yet, where too many gave none.
pub fn make_room<N: Connections, A: HostAnswers>(
    network: &mut N,
    answers: &mut A,
    seats: &mut Vec<Seat>,
    free: &mut Vec<usize>,
    door: usize,
)
    requires { A.fits answers.old }
    ensures keeps { (heard : ℕ) → KeepsAll N.Connections A.HostAnswers Resting Resting
        (hall network.old answers.old seats.old.items heard)
        (hall network.new answers.new seats.new.items heard) }
    ensures fits { A.fits answers.new }
{
    let Some(place) = oldest_silent(seats, door) else {
        return;
    };
    let Some(seat) = seats.get_mut(place) else {
        return;
    };
    if turn_out(network, answers, place, seat) {
        let _ = free.push(place);
    }
}

// The place of the oldest connection of a door that gave no line yet, where too many gave none.
fn oldest_silent(seats: &[Seat], door: usize) -> Option<usize> {
    let mut count = 0;
    let mut oldest = None;
    let mut since = u64::MAX;
    for place in 0..seats.len() {
        let seat = &seats[place];
        if seat.is_silent_at(door) {
            count += 1;
            if seat.since() < since {
                since = seat.since();
                oldest = Some(place);
            }
        }
    }
    if count <= SILENT { None } else { oldest }
}

// Lets a connection go, and says whether there was one.
fn turn_out<N: Connections, A: HostAnswers>(
    network: &mut N,
    answers: &mut A,
    place: usize,
    seat: &mut Seat,
) -> bool
    requires { A.fits answers.old }
    ensures keeps { (heard : ℕ) → Keeps N.Connections A.HostAnswers (AtRest heard seat.old.kept)
        (AtRest heard seat.new.kept) place heard
        (at network.old answers.old seat.old seat.old.kept)
        (at network.new answers.new seat.new seat.new.kept) }
    ensures fits { A.fits answers.new }
{
    if seat.is_lost() {
        return false;
    }
    seat.lose();
    leave(network, answers, place, seat);
    true
}

// A place where no one is, which is made where there is none.
fn free_place(
    alloc: Global,
    seats: &mut Vec<Seat>,
    free: &mut Vec<usize>,
    door: usize,
) -> Option<usize>
    ensures { GrowsByLost seats.old.items seats.new.items }
{
    let taken = seats.len().saturating_sub(free.len());
    if door != 0 && taken >= MOST - OF_FIRST_DOOR {
        return None;
    }
    if let Some(place) = free.pop() {
        return Some(place);
    }
    let place = seats.len();
    if place >= MOST {
        return None;
    }
    seats.push(Seat::vacant(alloc)).ok()?;
    Some(place)
}

// Gives this place to who came to a door, if someone did.
fn admit<N: Connections, A: HostAnswers>(
    alloc: Global,
    network: &mut N,
    answers: &mut A,
    seat: &mut Seat,
    since: u64,
    door: usize,
    place: usize,
) -> bool
    requires lost { seat.old.lost ≡ true }
    requires fits { A.fits answers.old }
    ensures keeps { (heard : ℕ) → Keeps N.Connections A.HostAnswers (AtRest heard seat.old.kept)
        (AtRest heard seat.new.kept) place heard
        (at network.old answers.old seat.old seat.old.kept)
        (at network.new answers.new seat.new seat.new.kept) }
    ensures fits { A.fits answers.new }
{
    let Ok(()) = answers.begin(door, place) else {
        network.put_off(door);
        return false;
    };
    if !network.accept(door, place) {
        answers.leave(place);
        return false;
    }
    *seat = Seat::new(alloc, door, since);
    true
}
