// What is written: the contract of a sink, which a borrow of one meets too.
ghost use Rattle.std.specs.Prelude.{◌≡◌, ◌<◌, ◌≤◌, ℕ, Option, None, Some, List, ◌∷◌, IfOk, MatchResult, length, take};
ghost use Rattle.std.specs.Borrow.{GName};
ghost use Rattle.hose_io.specs.steps.Count.{pieces_after};
ghost use Rattle.hose_io.specs.Frame.{Frame, Met};
ghost use Rattle.hose_io.specs.Stream.{Grows};

use crate::Failed;

/// A stream of bytes that is written: standard output, a connection, a text in memory.
pub trait Sink: Drop {
    /// How often it has failed, its number, and the borrows that lead to it. The source and the
    /// sink of one connection have the same number.
    ghost frame: { Self → Frame };

    /// The bytes that it was given, where it tells.
    ghost content: { Self → Option (List ℕ) };

    /// How many calls took all that they were given. So a text that is put by calls of which each
    /// but the last took a part, and the next was given the rest, counts once: it went out as one
    /// piece.
    ghost pieces: { Self → ℕ };

    /// Appends bytes from the front of `bytes`, one at least, and says how many.
    fn put(&mut self, bytes: &[u8]) -> Result<usize, Failed>
        requires { 0 < length bytes.now }
        ensures some { IfOk result (λ k. 0 < k) }
        ensures room { IfOk result (λ k. k ≤ length bytes.now) }

        // A call that fails appends nothing.
        ensures appended { MatchResult result
            (λ k. Grows (content self.old) (content self.new) (take k bytes.now))
            (λ _. content self.new ≡ content self.old) }

        ensures pieces { MatchResult result
            (λ k. pieces self.new ≡ pieces_after (pieces self.old) k (length bytes.now))
            (λ _. pieces self.new ≡ pieces self.old) }
        ensures met { Met (frame self.old) (frame self.new) result };
}

impl<S: Sink> Sink for &mut S {
    ghost frame = { λ s. record (S.frame s.now) { loan = s.ghost_name ∷ (S.frame s.now).loan } };

    ghost content = { λ s. S.content s.now };

    ghost pieces = { λ s. S.pieces s.now };

    fn put(&mut self, bytes: &[u8]) -> Result<usize, Failed> {
        Sink::put(&mut **self, bytes)
    }
}
