// Where connections arrive: the contract of a door, which a borrow of one meets too.
ghost use Rattle.std.specs.Prelude.{◌≡◌, ℕ, Option, Some, ◌∷◌, MatchOption, MatchResult};
ghost use Rattle.hose_io.specs.Connections.{Connection, Connections};
ghost use Rattle.hose_io.specs.steps.Connections.{Accepts, AreAccounted, AreUsedUp, ComesBack, HasEnded, IsConnection, MayComeBack};
ghost use Rattle.hose_io.specs.Frame.{Frame, Met};

use crate::{Failed, Sink, Source};

/// A place where connections arrive, one after another: a port of the network, or a list in memory.
pub trait Door {
    /// What a peer writes.
    type In: Source + Send;

    /// What a peer is written.
    type Out: Sink + Send;

    /// A connection that ended.
    type Done: Send + Drop;

    /// How often opening it or accepting has failed, its number, and the borrows that lead to it.
    ghost frame: { Self → Frame };

    /// The port at which it was opened last; none before.
    ghost opened_at: { Self → Option ℕ };

    /// Its connections, where it tells.
    ghost told: { Self → Option Connections };

    /// What a connection that ended came to, where that is told.
    ghost came_to: { Self.Done → Option Connection };

    /// Begins to listen at a port.
    fn open(&mut self, port: u16) -> Result<(), Failed>
        ensures told { told self.new ≡ told self.old }
        ensures accounted { AreAccounted (told self.new) }
        ensures met { Met (frame self.old) (frame self.new) result }
        ensures port { MatchResult result
            (λ _. opened_at self.new ≡ Some port)
            (λ _. opened_at self.new ≡ opened_at self.old) };

    /// Waits for the next connection, and gives its input and its output. None means that no more
    /// will come.
    fn accept(&mut self) -> Result<Option<(Self::In, Self::Out)>, Failed>
        ensures accepted { MatchResult result
            (λ found. MatchOption found
            (AreUsedUp (told self.old) × (told self.new ≡ told self.old))
            (λ ends. IsConnection Self.In.Source Self.Out.Sink ends.0 ends.1
            × Accepts (told self.old) (told self.new) (Self.In.content ends.0)
            (Self.Out.content ends.1) (Self.In.frame ends.0).number))
            (λ _. told self.new ≡ told self.old) }
        ensures accounted { AreAccounted (told self.new) }
        ensures met { Met (frame self.old) (frame self.new) result }
        ensures port { opened_at self.new ≡ opened_at self.old };

    /// No more are to be accepted. Connections that come later may be refused.
    fn close(&mut self)
        ensures told { told self.new ≡ told self.old }
        ensures frame { frame self.new ≡ frame self.old }
        ensures port { opened_at self.new ≡ opened_at self.old }
    {}

    /// Ends a connection.
    fn done(input: Self::In, output: Self::Out) -> Self::Done
        requires { (Self.In.frame input).number ≡ (Self.Out.frame output).number }
        ensures { HasEnded Self.In.Source Self.Out.Sink input output (came_to result) };

    /// Takes back a connection that it accepted and that ended.
    fn back(&mut self, done: Self::Done)
        requires { MayComeBack (told self.old) (came_to done) }
        ensures back { ComesBack (told self.old) (told self.new) (came_to done) }
        ensures frame { frame self.new ≡ frame self.old }
        ensures port { opened_at self.new ≡ opened_at self.old };
}

impl<L: Door> Door for &mut L {
    type In = L::In;

    type Out = L::Out;

    type Done = L::Done;

    ghost frame = { λ d. record (L.frame d.now) { loan = d.ghost_name ∷ (L.frame d.now).loan } };

    ghost opened_at = { λ d. L.opened_at d.now };

    ghost told = { λ d. L.told d.now };

    ghost came_to = { L.came_to };

    fn open(&mut self, port: u16) -> Result<(), Failed> {
        Door::open(&mut **self, port)
    }

    fn accept(&mut self) -> Result<Option<(L::In, L::Out)>, Failed> {
        Door::accept(&mut **self)
    }

    fn close(&mut self) {
        Door::close(&mut **self)
    }

    fn done(input: L::In, output: L::Out) -> L::Done {
        L::done(input, output)
    }

    fn back(&mut self, done: L::Done) {
        Door::back(&mut **self, done)
    }
}
