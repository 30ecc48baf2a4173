// Who is told what a host did, and has a clock.
ghost use Rattle.std.specs.Prelude.{◌≡◌};

/// Where a host tells what it did, and whose clock says how long that took. Nobody waits for it.
pub trait Log: Drop {
    /// A customer's line and the reply to it, both without the line feed at their end.
    fn tell(&mut self, customer: &[u8], line: &[u8], reply: &[u8]);

    /// How many lines found no room, or could not be written.
    fn lost(&self) -> u64;

    /// Nanoseconds since a time of its own, by a clock that never goes back; 0 where none tells.
    fn nanos(&self) -> u64;

    /// An orderly end: what was told is written, as far as that is done within a second.
    fn end(&mut self);
}

/// No log: it loses nothing, since it keeps nothing, and has no clock.
#[derive(Debug, Drop)]
pub struct NoLog;

impl Log for NoLog {
    fn tell(&mut self, _customer: &[u8], _line: &[u8], _reply: &[u8]) {}

    fn lost(&self) -> u64
        ensures { result ≡ 0 }
    {
        0
    }

    fn nanos(&self) -> u64
        ensures { result ≡ 0 }
    {
        0
    }

    fn end(&mut self) {}
}
