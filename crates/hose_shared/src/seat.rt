// A customer's seat at a shared book.
ghost use Rattle.std.specs.Prelude.{◌≡◌, length};
ghost use Rattle.hose_graph.specs.steps.Naming.{AsksOf};
ghost use Rattle.hose_shared.specs.steps.Providing.{CanProvide, Provides};
ghost use Rattle.hose_shared.specs.steps.Sharing.{HasSeenMore, IsPassOf};

use crate::caller::{Caller, Context};
use crate::kept::Begun;
use crate::shared::Shared;
use hose_core::{Admission, Quotes};
use hose_disk::Disk;
use hose_graph::{Command, Name, Reply};
use hose_paths::RowMaker;
use hose_pool::Gate;
use hose_turn::Pass;
use std::mem::replace;
use std::sync::Wait;

/// A customer's seat at a shared book: the pass along which the book answers, and the quotes that
/// the customer holds.
#[derive(Drop)]
pub struct Seat<'a, W, D: Disk, B: Begun<D>, G: Gate> {
    pub context: &'a Context<'a, W, G>,
    pub shared: &'a Shared<D, B>,
    /// The number of the customer's session at the gate.
    pub session: u64,
    pub pass: Pass,
    pub quotes: Quotes,
}

impl<'a, W: Wait, D: Disk, B: Begun<D>, G: Gate> Seat<'a, W, D, B, G> {
    /// How many entries the history has, now or later than all that the pass has seen.
    pub fn now(&mut self) -> u64
        requires { IsPassOf self.old.shared.now self.old.pass }
        ensures epoch { result ≡ length self.new.pass.seen }
        ensures more { HasSeenMore self.old.pass self.new.pass }
        ensures of { IsPassOf self.new.shared.now self.new.pass }
        ensures shared { self.new.shared ≡ self.old.shared }
        ensures quotes { self.new.quotes ≡ self.old.quotes }
    {
        let pass = replace(&mut self.pass, Pass::blank());
        let (epoch, pass) = self.shared.now(self.context.rt, pass);
        self.pass = pass;
        epoch
    }

    /// The reply to a customer's command. The nodes and links that it names are those of the
    /// network, and a number to be released is at most 4,000,000,000. The next command can be
    /// answered then, and what the seat answers with stays.
    pub fn step<R: RowMaker>(&mut self, customer: &Name, command: Command, rows: &mut R) -> Reply
        requires can { CanProvide self.old.shared.now self.old.quotes self.old.pass }
        requires asks { AsksOf self.old.shared.now.network command }
        ensures provides { Provides self.old.shared.now.network
            (record { pass = self.old.pass; quotes = self.old.quotes })
            (record { pass = self.new.pass; quotes = self.new.quotes }) customer.now command
            result }
        ensures can { CanProvide self.new.shared.now self.new.quotes self.new.pass }
        ensures context { self.new.context ≡ self.old.context }
        ensures shared { self.new.shared ≡ self.old.shared }
        ensures session { self.new.session ≡ self.old.session }
    {
        let pass = replace(&mut self.pass, Pass::blank());
        let (shared, quotes) = (self.shared, &mut self.quotes);
        let caller = &Caller {
            context: self.context,
            session: self.session,
            customer,
        };
        let (reply, pass) = match command {
            Command::Admit(hose) => {
                let asked = Admission { known: None, hose };
                shared.admit_bound(caller, pass, asked, rows)
            }
            Command::AdmitAfter { known, hose } => {
                let known = Some(known);
                shared.admit_bound(caller, pass, Admission { known, hose }, rows)
            }
            Command::Quote(hose) => shared.quote(caller, pass, quotes, hose, rows),
            Command::Take(number) => shared.take(caller, pass, quotes, number),
            Command::Release(id) => shared.release(caller, pass, id),
            Command::Show(id) => shared.show(caller, pass, id),
            Command::Vpns => shared.vpns(caller, pass),
            Command::Link(link) => shared.link(caller, pass, link),
            Command::Down(link) => shared.operate(caller, pass, link, true),
            Command::Up(link) => shared.operate(caller, pass, link, false),
        };
        self.pass = pass;
        reply
    }
}
