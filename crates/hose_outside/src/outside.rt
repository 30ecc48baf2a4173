// What is beside a command, as one value.
ghost use Rattle.std.specs.Prelude.{◌≡◌};

use hose_disk::Cabinet;
use hose_io::{Sink, Source};

/// What a command reads, what it writes, and the files that it can reach, as they are lent to it.
#[derive(Drop)]
pub struct Outside<'a, I: Source, O: Sink, C: Cabinet> {
    pub input: &'a mut I,
    pub output: &'a mut O,
    pub cabinet: &'a mut C,
}

impl<'a, I: Source, O: Sink, C: Cabinet> Outside<'a, I, O, C> {
    /// Of three that are lent. (A literal of borrows is known to no clause.)
    pub fn of(input: &'a mut I, output: &'a mut O, cabinet: &'a mut C) -> Outside<'a, I, O, C>
        ensures { result ≡ record {
          input = input.entry;
          output = output.entry;
          cabinet = cabinet.entry;
        } }
    {
        Outside {
            input,
            output,
            cabinet,
        }
    }
}
