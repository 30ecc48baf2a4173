// Who answers the lines of many connections.
ghost use Rattle.std.specs.Prelude.{◌≡◌, ◌≢◌, ◌≤◌, ℕ, List, Bool, Option, Some, true, false, drop, length, option_map, take, IfOk, IfSome};
ghost use Rattle.hose_io.specs.steps.Writing.{IsPut};
ghost use Rattle.hose_net.specs.Happening.{Gave, Opened, Took};
ghost use Rattle.hose_net.specs.Story.{Exchange, Link, link_after, link_answered};
ghost use Rattle.hose_host.specs.steps.Answering.{AnswersAt, LeavesPlaces, LeavesOthers};

use hose_io::{Failed, Sink};
use hose_net::Hold;
use hose_words::Line;
use std::alloc::AllocError;

/// Who answers the lines of many connections, one after the other. Each connection has a place, and
/// what is known of it is kept here; and so is what is known of the link to a standby, where
/// replies wait for one.
pub trait HostAnswers {
    /// What is answered to a line.
    type Reply: Drop;

    /// What is kept of the lines that were answered, as books.
    type Kept;

    /// What a line says.
    ghost said: { Type 0 };

    /// What lines and replies are about, as a network, which stays as it is.
    ghost subject: { Type 0 };

    ghost about: { Self → subject };

    /// What bytes of a line say, by whether it is the first line of its connection and by the door
    /// that this came by.
    ghost says: { subject → Bool → ℕ → List ℕ → said → Type 0 };

    /// The text of a reply.
    ghost text: { subject → Self.Reply → List ℕ };

    /// The path of the standby's Unix socket, if there is a standby.
    ghost standby_at: { subject → Option (List ℕ) };

    /// Replies are told where the standby is gone, or there is none.
    ghost goes_alone: { subject → Bool };

    /// Where the exchanges begin, as a history.
    ghost origin: { Type 0 };

    /// What all exchanges, of all connections, and the link to the standby have come to from there
    /// on.
    ghost comes: { origin → List (Exchange said Self.Reply) → Link → Self → Type 0 };

    /// The lines that were answered stand in what is kept.
    ghost stands: { origin → List (Exchange said Self.Reply) → Self.Kept → Type 0 };

    /// Where these lines were answered, what was sent at a link is what a standby is sent, and by
    /// what the link gave so much is heard of it: as many entries as it has, or the answer behind
    /// as many lines.
    ghost leads: { origin → List (Exchange said Self.Reply) → Link → Option ℕ → Type 0 };

    /// Where these lines were answered, the standby told at a link that it has so many entries,
    /// which are more than there are.
    ghost is_ahead: { origin → List (Exchange said Self.Reply) → Link → ℕ → Type 0 };

    /// What holds of it before each call.
    ghost fits: { Self → Type 0 };

    /// A reply that it can put.
    ghost can_put: { Self → Self.Reply → Type 0 };

    /// No line of who is at this place was answered yet.
    ghost is_new: { Self → ℕ → Bool };

    /// No line of who is at this place is answered any more.
    ghost over: { Self → ℕ → Bool };

    /// No line of anyone is answered any more.
    ghost ends: { Self → Bool };

    /// No line of anyone is answered for now: a link was opened, and its standby has not joined.
    ghost waits: { Self → Bool };

    /// How much is to be heard of a standby before a reply is sent that is given now.
    ghost count: { Self → ℕ };

    /// What is to be sent to the standby next.
    ghost unsent: { Self → List ℕ };

    /// Someone may come to this door, and will be at this place, where no one is.
    fn begin(&mut self, door: usize, place: usize) -> Result<(), AllocError>
        requires { fits self.old }
        ensures fits { fits self.new }
        ensures begins { IfOk result
            (λ _. (is_new self.new place ≡ true) × (over self.new place ≡ false)) }
        ensures others { LeavesOthers is_new over place self.old self.new }
        ensures comes { (from : origin) (exchanges : List (Exchange said Self.Reply)) (link : Link)
            → comes from exchanges link self.old → comes from exchanges link self.new }
        ensures about { about self.new ≡ about self.old }
        ensures ends { ends self.new ≡ ends self.old }
        ensures waits { waits self.new ≡ waits self.old }
        ensures count { count self.new ≡ count self.old };

    /// Who was at this place is gone: what is known of it is given up.
    fn leave(&mut self, place: usize)
        requires { fits self.old }
        ensures fits { fits self.new }
        ensures others { LeavesOthers is_new over place self.old self.new }
        ensures comes { (from : origin) (exchanges : List (Exchange said Self.Reply)) (link : Link)
            → comes from exchanges link self.old → comes from exchanges link self.new }
        ensures about { about self.new ≡ about self.old }
        ensures ends { ends self.new ≡ ends self.old }
        ensures waits { waits self.new ≡ waits self.old }
        ensures count { count self.new ≡ count self.old };

    /// The reply to a line of who came by a door and is at this place.
    fn answer(&mut self, place: usize, door: usize, line: Line<'_>) -> Self::Reply
        requires fits { fits self.old }
        requires open { over self.old place ≡ false }
        requires goes_on { ends self.old ≡ false }
        ensures fits { fits self.new }
        ensures answers { (from : origin) (link : Link) → AnswersAt
            (λ exchanges. comes from exchanges link)
            (λ exchanges. comes from exchanges (link_answered link)) (says (about self.old)) place
            door line.entry (is_new self.old place) (count self.new) self.old self.new result }
        ensures known { is_new self.new place ≡ false }
        ensures others { LeavesOthers is_new over place self.old self.new }
        ensures can_put { can_put self.new result }
        ensures about { about self.new ≡ about self.old }
        ensures rises { count self.old ≤ count self.new };

    /// Puts the text of a reply out.
    fn put<O: Sink>(&self, output: &mut O, reply: &Self::Reply) -> Result<(), Failed>
        requires { can_put self.now reply.now }
        ensures { IsPut O.Sink output.old output.new (text (about self.now) reply.now) result };

    /// What is kept: all lines that were answered stand there.
    fn kept(&self) -> &Self::Kept
        ensures { (from : origin) (exchanges : List (Exchange said Self.Reply)) (link : Link)
            → comes from exchanges link self.now → stands from exchanges result.now };

    /// How much is to be heard of a standby before a reply is sent that is given now.
    fn counted(&self) -> u64
        ensures { result ≡ count self.now };

    /// No line of who is at this place is answered any more.
    fn is_over(&self, place: usize) -> bool
        ensures { result ≡ over self.now place };

    /// No line of anyone is answered any more.
    fn is_ending(&self) -> bool
        ensures { result ≡ ends self.now };

    /// No line of anyone is answered for now.
    fn waits(&self) -> bool
        ensures { result ≡ waits self.now };

    /// The path of the standby's Unix socket, if there is a standby.
    fn standby(&self) -> Option<&str>
        ensures { option_map (λ path. path.now) result ≡ standby_at (about self.now) };

    /// Whether replies are told where the standby is gone, or there is none.
    fn may_go_alone(&self) -> bool
        ensures { result ≡ goes_alone (about self.now) };

    /// For how many seconds nothing may be heard of the standby. The first number bounds how long a
    /// link that was just opened may take to its first answer.
    fn patience(&self) -> (u64, u64);

    /// A link to the standby was opened, where the host is alone or not. Where it is not, and may
    /// go on alone, no line is answered until the standby at the link has joined: the one that was
    /// heard before may be another one.
    fn link_opened(&mut self, alone: bool)
        requires { fits self.old }
        ensures fits { fits self.new }
        ensures comes { (from : origin) (exchanges : List (Exchange said Self.Reply)) (link : Link)
            (path : List ℕ) → comes from exchanges link self.old
            → comes from exchanges (link_after link (Opened path)) self.new }
        ensures ends { ends self.new ≡ ends self.old }
        ensures waits { goes_alone (about self.old) ≡ true → waits self.new ≡ false
            → alone ≡ true }
        ensures leaves { LeavesPlaces is_new over about count (λ _. false) self.old self.new };

    /// Lines are answered again: it is told how replies are held from now on.
    fn go_on(&mut self)
        requires { fits self.old }
        ensures fits { fits self.new }
        ensures comes { (from : origin) (exchanges : List (Exchange said Self.Reply)) (link : Link)
            → comes from exchanges link self.old → comes from exchanges link self.new }
        ensures ends { ends self.new ≡ ends self.old }
        ensures leaves { LeavesPlaces is_new over about count (λ _. false) self.old self.new };

    /// Takes in bytes that the link gave.
    fn take_in(&mut self, bytes: &[u8])
        requires { fits self.old }
        ensures fits { fits self.new }
        ensures comes { (from : origin) (exchanges : List (Exchange said Self.Reply)) (link : Link)
            → comes from exchanges link self.old
            → comes from exchanges (link_after link (Gave bytes.now)) self.new }
        ensures ends { ends self.new ≡ ends self.old }
        ensures leaves { LeavesPlaces is_new over about count waits self.old self.new };

    /// Gathers what is to be sent to the standby next. Where `asks`, it is asked for a sign of
    /// life.
    fn gather(&mut self, asks: bool)
        requires { fits self.old }
        ensures fits { fits self.new }
        ensures comes { (from : origin) (exchanges : List (Exchange said Self.Reply)) (link : Link)
            → comes from exchanges link self.old → comes from exchanges link self.new }
        ensures ends { ends self.new ≡ ends self.old }
        ensures leaves { LeavesPlaces is_new over about count waits self.old self.new };

    /// What is to be sent to the standby next.
    fn unsent(&self) -> &[u8]
        ensures is { result.now ≡ unsent self.now }
        ensures leads { (from : origin) (exchanges : List (Exchange said Self.Reply)) (link : Link)
            (many : ℕ) → comes from exchanges link self.now → (heard : Option ℕ)
            × leads from exchanges (link_after link (Took (take many result.now))) heard };

    /// So many bytes of it were sent.
    fn was_sent(&mut self, sent: usize)
        requires fits { fits self.old }
        requires within { sent ≤ length (unsent self.old) }
        ensures fits { fits self.new }
        ensures unsent { unsent self.new ≡ drop sent (unsent self.old) }
        ensures comes { (from : origin) (exchanges : List (Exchange said Self.Reply)) (link : Link)
            → comes from exchanges link self.old → comes from exchanges
            (link_after link (Took (take sent (unsent self.old)))) self.new }
        ensures ends { ends self.new ≡ ends self.old }
        ensures leaves { LeavesPlaces is_new over about count waits self.old self.new };

    /// How much is heard of the standby, by the link.
    fn heard(&self) -> Option<u64>
        ensures { (from : origin) (exchanges : List (Exchange said Self.Reply)) (link : Link)
            → comes from exchanges link self.now
            → IfSome result (λ many. leads from exchanges link (Some many)) };

    /// Whether what was heard of the standby last is news: it has more entries than before, or
    /// lacks none. One of which nothing is news for too long is late.
    fn is_news(&self) -> bool;

    /// How many entries the standby told to have, where they are more than there are.
    fn ahead(&self) -> Option<u64>
        ensures { (from : origin) (exchanges : List (Exchange said Self.Reply)) (link : Link)
            → comes from exchanges link self.now
            → IfSome result (is_ahead from exchanges link) };

    /// Whether the link is of no use any more, by what it gave, and is to be closed.
    fn is_link_over(&self) -> bool;

    /// Tells a log how replies are held from now on.
    fn tell_hold(&mut self, hold: Hold)
        requires { fits self.old }
        ensures fits { fits self.new }
        ensures comes { (from : origin) (exchanges : List (Exchange said Self.Reply)) (link : Link)
            → comes from exchanges link self.old → comes from exchanges link self.new }
        ensures ends { ends self.new ≡ ends self.old }
        ensures leaves { LeavesPlaces is_new over about count waits self.old self.new };
}
