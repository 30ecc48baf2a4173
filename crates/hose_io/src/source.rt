// What is read: the contract of a source, which a borrow of one meets too.
ghost use Rattle.std.specs.Prelude.{◌≡◌, ◌+◌, ◌<◌, ◌≤◌, Option, Ok, ◌∷◌, IfOk, MatchResult, drop, length, take, ⊤};
ghost use Rattle.hose_io.specs.Frame.{Frame, Met};
ghost use Rattle.hose_io.specs.Stream.{Stream, Gives, IsAtEnd};

use crate::Failed;

/// A stream of bytes that is read: standard input, a connection, a text in memory.
pub trait Source: Drop {
    /// How often it has failed, its number, and the borrows that lead to it. The source and the
    /// sink of one connection have the same number.
    ghost frame: { Self → Frame };

    /// The bytes that it has given and those that it has left, where it tells.
    ghost content: { Self → Option Stream };

    /// What a call does to what lies behind it, as the cabinet of a text: the source before the
    /// call, and after it. A source in memory says nothing.
    ghost went: { Self → Self → Type 0 } = { λ _ _. ⊤ };

    /// Puts the next bytes at the front of `into`, and says how many. What stands after them is
    /// left open.
    fn take(&mut self, into: &mut [u8]) -> Result<usize, Failed>
        requires { 0 < length into.old }
        ensures room { IfOk result (λ k. k ≤ length into.new) }

        // A call that fails takes nothing.
        ensures taken { MatchResult result
            (λ k. Gives (content self.old) (content self.new) (take k into.new))
            (λ _. content self.new ≡ content self.old) }
        ensures none_only_at_end { result ≡ Ok 0 → IsAtEnd (content self.old) }

        ensures met { Met (frame self.old) (frame self.new) result }
        ensures went { went self.old self.new };
}

impl<S: Source> Source for &mut S {
    ghost frame = { λ s. record (S.frame s.now) { loan = s.ghost_name ∷ (S.frame s.now).loan } };

    ghost content = { λ s. S.content s.now };

    ghost went = { λ old new. S.went old.now new.now };

    fn take(&mut self, into: &mut [u8]) -> Result<usize, Failed> {
        Source::take(&mut **self, into)
    }
}

/// Takes at most `most` bytes of the source, after the first `end` bytes.
pub fn take_after<S: Source>(
    source: &mut S,
    bytes: &mut [u8],
    end: usize,
    most: usize,
) -> Result<usize, Failed>
    requires some { 0 < most }
    requires room { end + most ≤ length bytes.old }
    ensures most { IfOk result (λ count. count ≤ most) }
    ensures before { take end bytes.new ≡ take end bytes.old }
    ensures taken { MatchResult result
        (λ count. Gives (S.content source.old) (S.content source.new)
        (take count (drop end bytes.new)))
        (λ _. S.content source.new ≡ S.content source.old) }
    ensures none_only_at_end { result ≡ Ok 0 → IsAtEnd (S.content source.old) }
    ensures met { Met (S.frame source.old) (S.frame source.new) result }
    ensures went { S.went source.old source.new }
{
    source.take(&mut bytes[end..end + most])
}
