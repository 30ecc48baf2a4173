// An output of which it is noted that who reads it has gone.

use std::cell::Cell;
use std::io;
use std::io::{ErrorKind, Write};

/// A writer that writes as another one does, and notes it where who reads that has gone, which was
/// their choice, as of `head`.
#[derive(Drop)]
pub struct Watched<'g, W> {
    writer: W,
    gone: &'g Cell<bool>,
}

impl<'g, W> Watched<'g, W> {
    pub fn new(writer: W, gone: &'g Cell<bool>) -> Watched<'g, W> {
        Watched { writer, gone }
    }
}

impl<'g, W: Write> Write for Watched<'g, W> {
    ghost contents = { λ watched. W.contents watched.writer };

    fn write(&mut self, bytes: &[u8]) -> io::Result<usize> {
        let written = self.writer.write(bytes);
        if let Err(error) = &written {
            if error.kind() == ErrorKind::BrokenPipe {
                self.gone.set(true);
            }
        }
        written
    }

    fn flush(&mut self) -> io::Result<()> {
        self.writer.flush()
    }
}
