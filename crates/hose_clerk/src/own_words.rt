// The lines that a host has besides those of sessions.
ghost use Rattle.std.specs.Prelude.{◌↔◌, IsTrue};
ghost use Rattle.hose_clerk.specs.HostLines.{IsCount, IsEnd};

use hose_words::Cursor;

/// Whether the only word of a line is `end`.
pub fn is_end(line: &[u8]) -> bool
    ensures { IsTrue result ↔ IsEnd line.now }
{
    let mut words = Cursor::new(line);
    words.expect(b"end").is_ok() && words.finish().is_ok()
}

/// Whether the only word of a line is `figures`.
pub fn is_count(line: &[u8]) -> bool
    ensures { IsTrue result ↔ IsCount line.now }
{
    let mut words = Cursor::new(line);
    words.expect(b"figures").is_ok() && words.finish().is_ok()
}
