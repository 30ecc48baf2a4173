// The layout: a head, and records between gates. A gate is open where it has one value and closed
// where it has any other. In the first version a record is a length and a body; in the second one a
// chain value stands between them.
ghost use Rattle.std.specs.Prelude.{◌≡◌};
ghost use Rattle.hose_journal.specs.Layout.{chained_version, digest_bytes, empty_bytes, head_mark, length_bytes, open_gate, plain_version, seal_body_bytes, seal_kind, version_place};
ghost use Rattle.hose_journal.specs.steps.Layout.{closed_gate, head_bytes};

use hose_codec::MOST_SPELLING;

/// The value of an open gate.
pub const OPEN: u8 = 1;

/// The value that closes a gate.
pub const CLOSED: u8 = 0;

/// The letters of the format, after the first gate.
pub const MARK: [u8; 4] = [72, 79, 83, 69];

/// The place of the version, after the mark.
pub const VERSION_AT: usize = 5;

/// The version whose records have no chain values, unless a seal stands before them.
pub const PLAIN: u8 = 1;

/// The version whose records have chain values.
pub const CHAINED: u8 = 2;

/// The number of bytes of a topology's digest, after the version, and of a chain value.
pub const DIGEST_BYTES: usize = 32;

/// The first byte of a seal's body. No entry's spelling begins with it.
pub const SEAL: u8 = 5;

/// The number of bytes of a seal's body: that byte, and a chain value.
pub const SEAL_BYTES: usize = 1 + DIGEST_BYTES;

/// The number of bytes of the head with the first record's gate: a journal without an entry.
pub const EMPTY_BYTES: usize = 39;

/// The number of bytes of a journal without an entry, after its first gate.
pub const HEAD_BYTES: usize = EMPTY_BYTES - 1;

/// The number of bytes of a record's length.
pub const LENGTH_BYTES: usize = 4;

/// The number of bytes of a seal's record with the gate before it.
pub const SEAL_RECORD: usize = 1 + LENGTH_BYTES + SEAL_BYTES;

/// The greatest number of bytes of a record with the gate after it.
pub const BUFFER_BYTES: usize = LENGTH_BYTES + DIGEST_BYTES + MOST_SPELLING + 1;

/// The greatest number of bytes of a record with the gates before and after it.
pub const MOST_PART: usize = 1 + BUFFER_BYTES;

/// The number of bytes that a reading asks the disk for at once.
pub const PIECE_BYTES: usize = 65_536;

/// Each of these constants is the literal that definitions cite.
pub fn law_layout()
    ensures open_gate { OPEN ≡ open_gate }
    ensures closed_gate { CLOSED ≡ closed_gate }
    ensures head_mark { MARK ≡ head_mark }
    ensures version_place { VERSION_AT ≡ version_place }
    ensures plain_version { PLAIN ≡ plain_version }
    ensures chained_version { CHAINED ≡ chained_version }
    ensures digest_bytes { DIGEST_BYTES ≡ digest_bytes }
    ensures seal_kind { SEAL ≡ seal_kind }
    ensures seal_body_bytes { SEAL_BYTES ≡ seal_body_bytes }
    ensures empty_bytes { EMPTY_BYTES ≡ empty_bytes }
    ensures head_bytes { HEAD_BYTES ≡ head_bytes }
    ensures length_bytes { LENGTH_BYTES ≡ length_bytes }
{}
