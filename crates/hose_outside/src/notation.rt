// How a topology is written, and why one is refused.
ghost use Rattle.std.specs.Prelude.{◌≡◌};
ghost use Rattle.hose_outside.specs.TopologyTold.{notation_of};

/// How the text of a topology is written.
#[derive(Clone, Copy, Debug, PartialEq, Eq)]
pub enum Notation {
    /// Line by line, up to `end`.
    Lines,
    /// As an object in JSON.
    Json,
}

impl Notation {
    /// That of the text of a name, which ends in `.json` where it is JSON.
    pub fn of(name: &str) -> Notation
        ensures { result ≡ notation_of name.now }
    {
        if name.as_bytes().ends_with(b".json") {
            Notation::Json
        } else {
            Notation::Lines
        }
    }
}

/// Why the text of a topology is refused: where it is wrong first.
#[derive(Clone, Copy, Debug, PartialEq, Eq)]
pub enum Refusal {
    /// The first word that is not allowed, by its line and its number in it.
    Word { line: u64, word: u64 },
    /// It is not JSON, or not an object.
    Json,
    /// `nodes` is not an array of 1 to 512 elements.
    Nodes,
    /// The lowest element of `nodes` that is not a new name, counted from 0.
    Node { index: u64 },
    /// `links` is not an array of at most 2,048 elements.
    Links,
    /// The lowest element of `links` that is not a link, counted from 0.
    Link { index: u64 },
}
