// The loop over the connections, whose lines it answers.
ghost use Rattle.std.specs.Prelude.{◌≡◌, ℕ, List, [], Bool, None, true, false, IfSome, MatchOption};
ghost use Rattle.hose_net.specs.Story.{IsHosted, Link, leaves_lines, no_link};
ghost use Rattle.hose_net.specs.declared.hold.Parting.TheVariants.{Asked, Told};
ghost use Rattle.hose_host.specs.steps.Keeping.{Host, KeepsHost, PartsHost, host_of};
ghost use Rattle.hose_host.specs.steps.Seats.{AllFinished, Resting};

use crate::coming::{come, make_room};
use crate::ending::end;
use crate::linking::{begin, bring, go_alone, listen, pass_second, told_ahead};
use crate::serving::attend;
use crate::{HostAnswers, Places};
use hose_net::{Connections, Parting, Ready};
use std::alloc::Global;
use std::sync::Wait;

/// How many bytes are read at once.
pub const PIECE: usize = 4_096;

/// Answers the lines of all connections of a network, in the order in which they become whole,
/// until the network tells to stop or no line is answered any more; then what is to be sent is sent
/// to those who take it. Where there is a standby, replies wait until it is heard to have what they
/// need, or the host goes on alone. It says why it ended.
pub fn host<R: Wait, N: Connections, A: HostAnswers>(
    rt: &R,
    alloc: Global,
    network: &mut N,
    answers: &mut A,
) -> Parting
    requires fits { A.fits answers.old }
    requires alone { A.standby_at (A.about answers.old) ≡ None
        → A.goes_alone (A.about answers.old) ≡ true }
    ensures hosted { (from : A.origin) → A.comes from [] no_link answers.old
        → IsHosted (record {
          did = N.did;
          saw = N.saw A.Kept;
          stands = A.stands from;
          says = A.says (A.about answers.old);
          text = A.text (A.about answers.old);
          standby = A.standby_at (A.about answers.old);
          may_be_alone = A.goes_alone (A.about answers.old);
          leads = A.leads from;
          is_ahead = A.is_ahead from;
        }) (λ exchanges. (link : Link) × A.comes from exchanges link answers.new) result
        network.old network.new }
    ensures asked { result ≡ Asked → A.ends answers.new ≡ true }
    ensures told { result ≡ Told → A.ends answers.new ≡ false }
    ensures fits { A.fits answers.new }
{
    let mut places = Places::new(alloc);
    let mut piece = [0; PIECE];
    begin(network, answers, &mut places);
    for _ in rt.forever() {
        if let Some(why) = round(alloc, network, answers, &mut places, &mut piece) {
            return why;
        }
    }
    unreachable!()
}

// Does one round, and ends the host where it is to end.
fn round<N: Connections, A: HostAnswers>(
    alloc: Global,
    network: &mut N,
    answers: &mut A,
    places: &mut Places,
    piece: &mut [u8],
) -> Option<Parting>
    requires { A.fits answers.old }
    ensures keeps { MatchOption result
        (KeepsHost N.Connections A.HostAnswers Resting Resting
        (host_of network.old answers.old places.old) (host_of network.new answers.new places.new))
        (λ why. PartsHost N.Connections A.HostAnswers why Resting (AllFinished (leaves_lines why))
        (host_of network.old answers.old places.old) (host_of network.new answers.new places.new)) }
    ensures asked { IfSome result (λ why. why ≡ Asked → A.ends answers.new ≡ true) }
    ensures told { IfSome result (λ why. why ≡ Told → A.ends answers.new ≡ false) }
    ensures fits { A.fits answers.new }
{
    let Some(why) = turn(alloc, network, answers, places, piece) else {
        return None;
    };
    Some(end(network, answers, places, piece, why))
}

/// Waits for what is ready and does what is to be done there, or says why the host is to end: a
/// round of the host.
pub fn turn<N: Connections, A: HostAnswers>(
    alloc: Global,
    network: &mut N,
    answers: &mut A,
    places: &mut Places,
    piece: &mut [u8],
) -> Option<Parting>
    requires { A.fits answers.old }
    ensures keeps { MatchOption result
        (KeepsHost N.Connections A.HostAnswers Resting Resting
        (host_of network.old answers.old places.old) (host_of network.new answers.new places.new))
        (λ why. PartsHost N.Connections A.HostAnswers why Resting Resting
        (host_of network.old answers.old places.old) (host_of network.new answers.new places.new)) }
    ensures asked { IfSome result (λ why. why ≡ Asked → A.ends answers.new ≡ true) }
    ensures fits { A.fits answers.new }
{
    match network.next() {
        Ready::Stop => Some(Parting::Told),
        Ready::Door(door) => {
            come(
                alloc,
                network,
                answers,
                &mut places.seats,
                &mut places.free,
                &mut places.came,
                door,
            );
            make_room(network, answers, &mut places.seats, &mut places.free, door);
            None
        }
        Ready::Place(place) => serve_place(network, answers, places, place, piece),
        Ready::Link => serve_link(network, answers, places, piece),
        Ready::Second => {
            pass_second(network, answers, places);
            None
        }
        Ready::Late => {
            if !answers.may_go_alone() {
                return Some(Parting::Late);
            }
            go_alone(network, answers, places);
            None
        }
    }
}

// Sends and reads what can be sent and read at a place, and brings to the standby what came of it.
fn serve_place<N: Connections, A: HostAnswers>(
    network: &mut N,
    answers: &mut A,
    places: &mut Places,
    place: usize,
    piece: &mut [u8],
) -> Option<Parting>
    requires { A.fits answers.old }
    ensures keeps { MatchOption result
        (KeepsHost N.Connections A.HostAnswers Resting Resting
        (host_of network.old answers.old places.old) (host_of network.new answers.new places.new))
        (λ why. PartsHost N.Connections A.HostAnswers why Resting Resting
        (host_of network.old answers.old places.old) (host_of network.new answers.new places.new)) }
    ensures asked { IfSome result (λ why. why ≡ Asked → A.ends answers.new ≡ true) }
    ensures fits { A.fits answers.new }
{
    let heard = places.heard;
    attend(
        network,
        answers,
        &mut places.seats,
        &mut places.free,
        heard,
        place,
        piece,
    );
    bring(network, answers, places);
    if answers.is_ending() {
        return Some(Parting::Asked);
    }
    None
}

// Reads and sends what can be read and sent at the link, and says that the host is to end where the
// standby has more entries.
fn serve_link<N: Connections, A: HostAnswers>(
    network: &mut N,
    answers: &mut A,
    places: &mut Places,
    piece: &mut [u8],
) -> Option<Parting>
    requires { A.fits answers.old }
    ensures keeps { MatchOption result
        (KeepsHost N.Connections A.HostAnswers Resting Resting
        (host_of network.old answers.old places.old) (host_of network.new answers.new places.new))
        (λ why. PartsHost N.Connections A.HostAnswers why Resting Resting
        (host_of network.old answers.old places.old) (host_of network.new answers.new places.new)) }
    ensures asked { IfSome result (λ why. why ≡ Asked → A.ends answers.new ≡ true) }
    ensures fits { A.fits answers.new }
{
    listen(network, answers, places, piece);
    let Some(count) = told_ahead(network, answers, places) else {
        return None;
    };
    Some(Parting::Ahead(count))
}
