// What is read and answered, a turn at a time.
ghost use Rattle.std.specs.Bool.{MatchBool};
ghost use Rattle.std.specs.Prelude.{◌≡◌, ◌≢◌, ◌↔◌, ◌<◌, ◌≤◌, ◌+◌, ℕ, List, [], ◌∷◌, ◌++◌, true, false, drop, length, max, IfSome, IsTrue, MatchOption};
ghost use Rattle.hose_net.specs.Story.{IsHosted};
ghost use Rattle.hose_host.specs.steps.Keeping.{Keeps, KeepsAll, at, hall, terms_of};
ghost use Rattle.hose_host.specs.steps.Seats.{AllFinished, Anyhow, AtRest, Calm, Finished, FinishedBelow, Freed, FreedBelow, Gone, GrowsByLost, IsSaid, Keeping, Quiet, Resting};

use crate::lines::len_before_feed;
use crate::sending::{let_go, send};
use crate::{HostAnswers, Seat};
use hose_io::MemSink;
use hose_net::{Connections, Pause};
use std::alloc::Global;

/// How many lines of a connection are answered at most before others have their turn.
pub const TURN: usize = 16;

/// How many bytes of replies are kept for a connection before its lines are left alone. With the
/// last reply there may be more.
pub const OUTPUT: usize = 65_536;

/// How many replies of a connection wait at most, with those of one turn, before it is not read.
pub const WAITING: usize = 64;

// Sends and reads what can be sent and read at a place.
pub fn attend<N: Connections, A: HostAnswers>(
    network: &mut N,
    answers: &mut A,
    seats: &mut Vec<Seat>,
    free: &mut Vec<usize>,
    heard: u64,
    place: usize,
    piece: &mut [u8],
)
    requires { A.fits answers.old }
    ensures keeps { KeepsAll N.Connections A.HostAnswers Resting Resting
        (hall network.old answers.old seats.old.items heard)
        (hall network.new answers.new seats.new.items heard) }
    ensures fits { A.fits answers.new }
{
    let Some(seat) = seats.get_mut(place) else {
        return;
    };
    if serve(network, answers, heard, place, seat, piece) {
        let _ = free.push(place);
    }
}

// Sends and reads what can be sent and read, and says whether the connection was let go.
fn serve<N: Connections, A: HostAnswers>(
    network: &mut N,
    answers: &mut A,
    heard: u64,
    place: usize,
    seat: &mut Seat,
    piece: &mut [u8],
) -> bool
    requires { A.fits answers.old }
    ensures keeps { Keeps N.Connections A.HostAnswers (AtRest heard seat.old.kept)
        (AtRest heard seat.new.kept) place heard
        (at network.old answers.old seat.old seat.old.kept)
        (at network.new answers.new seat.new seat.new.kept) }
    ensures fits { A.fits answers.new }
{
    if seat.is_lost() {
        return false;
    }
    send_due(network, answers, place, seat);
    read(network, answers, heard, place, seat, piece);
    let_go(network, answers, place, seat)
}

// Sends what is to be sent, unless lines of a piece are left and there is room for their replies.
fn send_due<N: Connections, A: HostAnswers>(
    network: &mut N,
    answers: &A,
    place: usize,
    seat: &mut Seat,
)
    ensures { (heard : ℕ) → Keeps N.Connections A.HostAnswers (Calm heard seat.old.kept)
        (Calm heard seat.new.kept) place heard
        (at network.old answers.now seat.old seat.old.kept)
        (at network.new answers.now seat.new seat.new.kept) }
{
    if seat.has_kept() && seat.size() < OUTPUT {
        return;
    }
    send(network, answers, place, seat);
}

// Answers lines of the bytes that are kept, or reads a piece, and sends the replies once the piece
// is at its end.
fn read<N: Connections, A: HostAnswers>(
    network: &mut N,
    answers: &mut A,
    heard: u64,
    place: usize,
    seat: &mut Seat,
    piece: &mut [u8],
)
    requires { A.fits answers.old }
    ensures keeps { Keeps N.Connections A.HostAnswers (Calm heard seat.old.kept)
        (Calm heard seat.new.kept)
        place heard (at network.old answers.old seat.old seat.old.kept)
        (at network.new answers.new seat.new seat.new.kept) }
    ensures fits { A.fits answers.new }
{
    if seat.is_lost() || !has_turn(answers, place, seat) {
        return;
    }
    take_turn(network, answers, heard, place, seat, piece);
    end_turn(network, answers, place, seat);
}

// Whether lines of a connection may be answered, or it may be read. While all lines wait a piece is
// read and kept.
fn has_turn<A: HostAnswers>(answers: &A, place: usize, seat: &Seat) -> bool {
    if answers.is_over(place) || answers.is_ending() || seat.waiting() >= WAITING {
        return false;
    }
    if seat.has_kept() {
        return !answers.waits() && seat.size() < OUTPUT;
    }
    is_read(seat)
}

// Whether a connection is read: it was sent all that may be sent, and gives bytes still.
fn is_read(seat: &Seat) -> bool
    ensures { result ≡ true → seat.now.output ≡ [] }
{
    !seat.has_ended() && seat.unsent().is_empty()
}

// Whether a line of who is at a place is answered.
pub fn takes_lines<A: HostAnswers>(answers: &A, place: usize) -> bool
    ensures { result ≡ true → (A.over answers.now place ≡ false) × (A.ends answers.now ≡ false)
        × (A.waits answers.now ≡ false) }
{
    !answers.is_over(place) && !answers.is_ending() && !answers.waits()
}

// Answers lines of the bytes that are kept, or of the piece that is read where none are.
fn take_turn<N: Connections, A: HostAnswers>(
    network: &mut N,
    answers: &mut A,
    heard: u64,
    place: usize,
    seat: &mut Seat,
    piece: &mut [u8],
)
    requires fits { A.fits answers.old }
    requires sits { seat.old.lost ≡ false }
    ensures keeps { Keeps N.Connections A.HostAnswers (Calm heard seat.old.kept)
        (Freed heard seat.new.kept)
        place heard (at network.old answers.old seat.old seat.old.kept)
        (at network.new answers.new seat.new seat.new.kept) }
    ensures fits { A.fits answers.new }
{
    if seat.has_kept() {
        take_kept(network, answers, heard, place, seat, TURN, OUTPUT);
        return;
    }
    if is_read(seat) {
        read_piece(network, answers, heard, place, seat, piece);
    }
}

// Ends a turn: the rest of a piece is told again, and else what is to be sent is sent.
fn end_turn<N: Connections, A: HostAnswers>(
    network: &mut N,
    answers: &A,
    place: usize,
    seat: &mut Seat,
)
    ensures { (heard : ℕ) → Keeps N.Connections A.HostAnswers (Freed heard seat.old.kept)
        (Calm heard seat.new.kept) place heard
        (at network.old answers.now seat.old seat.old.kept)
        (at network.new answers.now seat.new seat.new.kept) }
{
    if goes_on(answers, place, seat) {
        network.ask_again(place);
        return;
    }
    send(network, answers, place, seat);
    ask_for_rest(network, answers, place, seat);
}

// Whether lines of a piece are left, which may be answered in the next turn.
fn goes_on<A: HostAnswers>(answers: &A, place: usize, seat: &Seat) -> bool
    ensures { result ≡ true → 0 < length seat.now.kept }
{
    seat.has_kept() && has_turn(answers, place, seat)
}

// Has a place told again where lines of a piece are left.
fn ask_for_rest<N: Connections, A: HostAnswers>(
    network: &mut N,
    answers: &A,
    place: usize,
    seat: &Seat,
)
    ensures { (heard : ℕ) (kept : List ℕ)
        → Keeps N.Connections A.HostAnswers (Quiet heard kept) (Quiet heard kept) place heard
        (at network.old answers.now seat.now kept) (at network.new answers.now seat.now kept) }
{
    if goes_on(answers, place, seat) {
        network.ask_again(place);
    }
}

// Answers lines of the bytes that are kept, so many at most and while so many bytes of replies are
// not kept.
pub fn take_kept<N: Connections, A: HostAnswers>(
    network: &N,
    answers: &mut A,
    heard: u64,
    place: usize,
    seat: &mut Seat,
    lines: usize,
    output: usize,
)
    requires { A.fits answers.old }
    ensures keeps { Keeps N.Connections A.HostAnswers (Calm heard seat.old.kept)
        (Freed heard seat.new.kept)
        place heard (at network.now answers.old seat.old seat.old.kept)
        (at network.now answers.new seat.new seat.new.kept) }
    ensures ends { A.ends answers.new ≡ false → A.ends answers.old ≡ false }
    ensures fits { A.fits answers.new }
{
    let (piece, looked) = seat.take_kept();
    let looked = take_some(
        network, answers, heard, place, seat, &piece, looked, lines, output,
    );
    seat.keep_rest(piece, looked);
}

// Reads a piece and answers lines that become whole by it.
fn read_piece<N: Connections, A: HostAnswers>(
    network: &mut N,
    answers: &mut A,
    heard: u64,
    place: usize,
    seat: &mut Seat,
    piece: &mut [u8],
)
    requires fits { A.fits answers.old }
    requires sits { seat.old.lost ≡ false }
    requires out { seat.old.output ≡ [] }
    ensures keeps { Keeps N.Connections A.HostAnswers (Calm heard []) (Freed heard seat.new.kept)
        place heard (at network.old answers.old seat.old [])
        (at network.new answers.new seat.new seat.new.kept) }
    ensures fits { A.fits answers.new }
{
    match network.read(place, piece) {
        Ok(count) => take_piece(network, answers, heard, place, seat, &piece[..count]),
        Err(Pause::NotNow) => {}
        Err(Pause::Over) => seat.end(),
    }
}

// Answers lines that become whole by a piece, as many as a turn has, and keeps the rest of it.
fn take_piece<N: Connections, A: HostAnswers>(
    network: &N,
    answers: &mut A,
    heard: u64,
    place: usize,
    seat: &mut Seat,
    piece: &[u8],
)
    requires { A.fits answers.old }
    ensures keeps { Keeps N.Connections A.HostAnswers (Freed heard []) (Freed heard seat.new.kept)
        place heard (at network.now answers.old seat.old piece.now)
        (at network.now answers.new seat.new seat.new.kept) }
    ensures fits { A.fits answers.new }
{
    let looked = take_some(network, answers, heard, place, seat, piece, 0, TURN, OUTPUT);
    seat.keep(&piece[looked..]);
}

// Answers lines that become whole by the bytes of a piece that are not looked at, so many at most
// and while so many bytes of replies are not kept, and says how many bytes are looked at then.
fn take_some<N: Connections, A: HostAnswers>(
    network: &N,
    answers: &mut A,
    heard: u64,
    place: usize,
    seat: &mut Seat,
    piece: &[u8],
    looked: usize,
    lines: usize,
    output: usize,
) -> usize
    requires fits { A.fits answers.old }
    requires bound { looked ≤ length piece.now }
    ensures keeps { Keeps N.Connections A.HostAnswers (Freed heard []) (Freed heard []) place heard
        (at network.now answers.old seat.old (drop looked piece.now))
        (at network.now answers.new seat.new (drop result piece.now)) }
    ensures bound { result ≤ length piece.now }
    ensures ends { A.ends answers.new ≡ false → A.ends answers.old ≡ false }
    ensures fits { A.fits answers.new }
{
    let mut now = looked;
    for _ in 0..lines {
        if now == piece.len() || seat.size() >= output || !takes_lines(answers, place) {
            return now;
        }
        now += take_line(network, answers, heard, place, seat, &piece[now..]);
    }
    now
}

// Answers the first line that becomes whole by bytes, or takes in all of them, and says how many
// are looked at then.
fn take_line<N: Connections, A: HostAnswers>(
    network: &N,
    answers: &mut A,
    heard: u64,
    place: usize,
    seat: &mut Seat,
    bytes: &[u8],
) -> usize
    requires fits { A.fits answers.old }
    requires open { A.over answers.old place ≡ false }
    requires goes_on { A.ends answers.old ≡ false }
    requires now { A.waits answers.old ≡ false }
    ensures keeps { Keeps N.Connections A.HostAnswers (Freed heard []) (Freed heard []) place heard
        (at network.now answers.old seat.old bytes.now)
        (at network.now answers.new seat.new (drop result bytes.now)) }
    ensures bound { result ≤ length bytes.now }
    ensures fits { A.fits answers.new }
{
    let len = len_before_feed(bytes);
    seat.take_in(&bytes[..len]);
    if len == bytes.len() {
        return len;
    }
    answer_line(network, answers, heard, place, seat);
    len + 1
}

// Answers the line of a connection, which is whole.
fn answer_line<N: Connections, A: HostAnswers>(
    _network: &N,
    answers: &mut A,
    heard: u64,
    place: usize,
    seat: &mut Seat,
)
    requires fits { A.fits answers.old }
    requires open { A.over answers.old place ≡ false }
    requires goes_on { A.ends answers.old ≡ false }
    requires now { A.waits answers.old ≡ false }
    ensures keeps { (coming : List ℕ)
        → Keeps N.Connections A.HostAnswers (Freed heard []) (Freed heard []) place heard
        (at _network.now answers.old seat.old (10 ∷ coming))
        (at _network.now answers.new seat.new coming) }
    ensures fits { A.fits answers.new }
{
    if seat.is_lost() {
        return;
    }
    let reply = answers.answer(place, seat.door(), seat.line());
    seat.clear_line();
    put_reply(answers, heard, &reply, seat);
}

// Has the text of a reply sent, once all is heard to be had that stands.
fn put_reply<A: HostAnswers>(answers: &A, heard: u64, reply: &A::Reply, seat: &mut Seat)
    requires { A.can_put answers.now reply.now }
    ensures { seat.new.lost ≡ false → IsSaid heard (A.count answers.now)
        (A.text (A.about answers.now) reply.now) seat.old seat.new }
{
    let Ok(mut text) = MemSink::new(seat.alloc()) else {
        seat.lose();
        return;
    };
    if answers.put(&mut text, reply).is_err() {
        seat.lose();
        return;
    }
    seat.say(heard, answers.counted(), text.bytes());
}
