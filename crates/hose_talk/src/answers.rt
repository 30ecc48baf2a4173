// Who answers the lines of a talk.
ghost use Rattle.std.specs.Prelude.{◌≡◌, ℕ, List, Bool, false};
ghost use Rattle.hose_io.specs.steps.Writing.{IsPut};
ghost use Rattle.hose_talk.specs.steps.Said.{ComesOn};

use hose_io::{Failed, Sink};
use hose_words::Line;

/// Who answers the lines of a talk, one after the other.
pub trait Answers {
    /// What is answered to a line.
    type Reply: Drop;

    /// What a line says.
    ghost said: { Type 0 };

    /// What lines and replies are about, as a network, which stays as it is.
    ghost subject: { Type 0 };

    ghost about: { Self → subject };

    /// What a line of bytes says, which may rest on what the lines before it said.
    ghost says: { subject → List said → List ℕ → said → Type 0 };

    /// The text of a reply.
    ghost text: { subject → Self.Reply → List ℕ };

    /// Where a talk begins, as a history.
    ghost origin: { Type 0 };

    /// What lines and their replies have come to from there on.
    ghost comes: { origin → List said → List Self.Reply → Self → Type 0 };

    /// What holds of it before each line.
    ghost fits: { Self → Type 0 };

    /// A reply that it can put.
    ghost can_put: { Self → Self.Reply → Type 0 };

    /// No line is answered any more.
    ghost over: { Self → Bool };

    /// The reply to a line.
    fn answer(&mut self, line: Line<'_>) -> Self::Reply
        requires fits { fits self.old }
        requires goes_on { over self.old ≡ false }
        ensures fits { fits self.new }
        ensures answers { (from : origin) → ComesOn (says (about self.old)) (comes from)
            line.entry self.old self.new result }
        ensures can_put { can_put self.new result }
        ensures about { about self.new ≡ about self.old };

    /// Puts the text of a reply out.
    fn put<O: Sink>(&self, output: &mut O, reply: &Self::Reply) -> Result<(), Failed>
        requires { can_put self.now reply.now }
        ensures { IsPut O.Sink output.old output.new (text (about self.now) reply.now) result };

    /// No line is answered any more.
    fn is_over(&self) -> bool
        ensures { result ≡ over self.now };
}
