// The line of a follower that is coming.
ghost use Rattle.std.specs.Prelude.{◌≡◌, ◌∷◌, ◌++◌, [], true, false};

use std::marker::Model;

/// The greatest number of bytes of an answer: `differs at`, a number and two chain values.
pub const ANSWER_LIMIT: usize = 161;

/// The bytes of a line that has not ended yet.
#[derive(Drop)]
pub struct ComingLine {
    bytes: [u8; ANSWER_LIMIT],
    len: usize,
}

impl Model for ComingLine {
    ghost use Rattle.std.specs.Prelude.{ℕ, List, ◌≤◌, take};
    ghost use Rattle.hose_lead.specs.declared.coming.TheConstants.{ANSWER_LIMIT};

    ghost Value = { List ℕ };

    ghost view = { λ line. take line.len line.bytes };

    ghost invariant = { λ line. line.len ≤ ANSWER_LIMIT };
}

impl ComingLine {
    /// A line of which nothing came.
    pub fn new() -> ComingLine
        ensures { result ≡ [] }
    {
        ComingLine {
            bytes: [0; ANSWER_LIMIT],
            len: 0,
        }
    }

    /// Its bytes.
    pub fn bytes(&self) -> &[u8]
        ensures { result.now ≡ self.now }
    {
        &self.bytes[..self.len]
    }

    /// Takes in one byte more, unless the line is longer than any answer.
    pub fn push(&mut self, byte: u8) -> bool
        ensures more { result ≡ true → self.new ≡ self.old ++ byte ∷ [] }
        ensures same { result ≡ false → self.new ≡ self.old }
    {
        if self.len == ANSWER_LIMIT {
            return false;
        }
        self.bytes[self.len] = byte;
        self.len += 1;
        true
    }

    /// Lets go of them.
    pub fn clear(&mut self)
        ensures { self.new ≡ [] }
    {
        self.len = 0;
    }
}
