// What networks and scripts are made of: numbers that follow one from another, from a seed on, and
// names that are a letter and a number.
ghost use Rattle.std.specs.Prelude.{◌≡◌, ◌<◌, ◌∷◌, IsTrue, decimal};
ghost use Rattle.std.specs.Char.{is_ascii_lowercase};
ghost use Rattle.hose_gen.specs.Draws.{draw};

use hose_graph::{MOST_NAME_BYTES, Name};
use itoa::Buffer;

// Those of a linear congruential generator over 64 bits.
const MULTIPLIER: u64 = 6_364_136_223_846_793_005;

const INCREMENT: u64 = 1_442_695_040_888_963_407;

/// The numbers that follow a seed, which is the first state.
#[derive(Drop)]
pub struct Draws {
    pub state: u64,
}

impl Draws {
    /// The next number below a limit, of the upper 31 bits of the next state.
    pub fn draw(&mut self, limit: u32) -> u32
        requires { 0 < limit }
        ensures number { result ≡ (draw limit self.old.state).0 }
        ensures state { self.new.state ≡ (draw limit self.old.state).1 }
        ensures below { result < limit }
    {
        self.state = self.state.wrapping_mul(MULTIPLIER).wrapping_add(INCREMENT);
        ((self.state >> 33) % u64::from(limit)) as u32
    }
}

/// The name of a letter and a number.
pub fn numbered(letter: u8, number: u32) -> Name
    requires { IsTrue (is_ascii_lowercase letter) }
    ensures { result ≡ letter ∷ decimal number }
{
    let mut buffer = Buffer::new();
    let digits = buffer.format(number).as_bytes();
    let mut bytes = [letter; MOST_NAME_BYTES];
    let end = 1 + digits.len();
    bytes[1..end].copy_from_slice(digits);
    Name::read(&bytes[..end]).unwrap()
}
