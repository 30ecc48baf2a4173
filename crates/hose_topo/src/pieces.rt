// What takes a text piece by piece: a sink by way of a gatherer, or a hasher.
ghost use Rattle.std.specs.Prelude.{◌≡◌, ℕ, List, [], ◌++◌, decimal, refl};
ghost use Rattle.std.proofs.Common.{◌∙◌};
ghost use Rattle.hose_io.specs.steps.Gather.{IsAdded};
ghost use Rattle.hose_io.proofs.Gathering.{IsAdded-none, IsAdded-next};
ghost use Rattle.hose_topo.specs.steps.Hashing.{Hashes, Hashes-none, Hashes-next};

use hose_io::{Gather, Sink};
use itoa::Buffer;
use sha2::{Digest, Sha256};

/// What takes a text piece by piece.
pub trait Pieces {
    /// This text was added between the one state and the other.
    ghost adds: { Self → Self → List ℕ → Type 0 };

    /// Adds a piece.
    fn add(&mut self, bytes: &[u8])
        ensures { adds self.old self.new bytes.now };

    /// Adds a number in decimal.
    fn add_number(&mut self, number: u64)
        ensures { adds self.old self.new (decimal number) }
    {
        let mut buffer = Buffer::new();
        self.add(buffer.format(number).as_bytes());
    }

    ghost none: { (pieces : Self) → adds pieces pieces [] };

    ghost next: { (a b c : Self) (first more : List ℕ) → adds a b first → adds b c more
        → adds a c (first ++ more) };
}

/// A sink and the gatherer before it.
#[derive(Drop)]
pub struct GatheringSink<'a, S: Sink> {
    pub gather: Gather,
    pub sink: &'a mut S,
}

impl<'a, S: Sink> Pieces for GatheringSink<'a, S> {
    // The sink stays the one that was lent.
    ghost adds = { λ old new text.
        IsAdded S.Sink old.gather old.sink.now new.gather new.sink.now text
        × (new.sink.ghost_name ≡ old.sink.ghost_name) };

    ghost none = { λ out. (IsAdded-none S.Sink out.gather out.sink.now, refl) };

    ghost next = { λ a b c first more p q. (IsAdded-next p.0 q.0, q.1 ∙ p.1) };

    fn add(&mut self, bytes: &[u8]) {
        self.gather.add(self.sink, bytes);
    }
}

impl Pieces for Sha256 {
    ghost adds = { λ old new text. Hashes old new text };

    ghost none = { λ hasher. Hashes-none hasher };

    ghost next = { λ a b c first more p q. Hashes-next a b c first more p q };

    fn add(&mut self, bytes: &[u8]) {
        self.update(bytes);
    }
}
