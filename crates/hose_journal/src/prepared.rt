// What is prepared for the disk: an entry's spelling, and records in a journal's buffer.
ghost use Rattle.std.specs.Prelude.{◌≡◌, ◌+◌, ◌≤◌, ◌∷◌, ◌++◌, [], length, true, vec_capacity};
ghost use Rattle.byteorder.specs.Endian.{big_bytes};
ghost use Rattle.hose_codec.specs.declared.limits.TheConstants.{MOST_SPELLING};
ghost use Rattle.hose_journal.specs.Entries.{record_bytes, seal_bytes};
ghost use Rattle.hose_journal.specs.declared.layout.TheConstants.{BUFFER_BYTES, CLOSED, LENGTH_BYTES};

use crate::layout::{CLOSED, DIGEST_BYTES, LENGTH_BYTES, SEAL, SEAL_BYTES};
use byteorder::{BigEndian, ByteOrder};

/// An entry that is ready for the disk: its spelling.
#[derive(Drop)]
pub struct Ready {
    pub bytes: Vec<u8>,
}

/// Makes the buffer the record of a body with a chain value, and the closed gate after it.
pub fn fill_record(buffer: &mut Vec<u8>, value: &[u8; DIGEST_BYTES], body: &[u8])
    requires room { BUFFER_BYTES ≤ vec_capacity buffer.old }
    requires short { length body.now ≤ MOST_SPELLING }
    ensures room { BUFFER_BYTES ≤ vec_capacity buffer.new }
    ensures bytes { buffer.new.items ≡ record_bytes true value.now body.now ++ CLOSED ∷ [] }
{
    begin(buffer, body.len() as u32);
    add(buffer, value);
    add(buffer, body);
    add(buffer, &[CLOSED]);
}

/// Makes the buffer the record of a seal with a chain value, and the closed gate after it.
pub fn fill_seal(buffer: &mut Vec<u8>, value: &[u8; DIGEST_BYTES])
    requires room { BUFFER_BYTES ≤ vec_capacity buffer.old }
    ensures room { BUFFER_BYTES ≤ vec_capacity buffer.new }
    ensures bytes { buffer.new.items ≡ seal_bytes value.now ++ CLOSED ∷ [] }
{
    begin(buffer, SEAL_BYTES as u32);
    add(buffer, &[SEAL]);
    add(buffer, value);
    add(buffer, &[CLOSED]);
}

// Makes the buffer the length of a body.
fn begin(buffer: &mut Vec<u8>, len: u32)
    requires { BUFFER_BYTES ≤ vec_capacity buffer.old }
    ensures items { buffer.new.items ≡ big_bytes LENGTH_BYTES len }
    ensures room { vec_capacity buffer.old ≤ vec_capacity buffer.new }
{
    let mut field = [0; LENGTH_BYTES];
    BigEndian::write_u32(&mut field, len);
    buffer.clear();
    let _added = buffer.extend_from_slice(&field);
}

// Adds bytes for which there is room.
fn add(buffer: &mut Vec<u8>, bytes: &[u8])
    requires { length buffer.old.items + length bytes.now ≤ vec_capacity buffer.old }
    ensures items { buffer.new.items ≡ buffer.old.items ++ bytes.now }
    ensures room { vec_capacity buffer.old ≤ vec_capacity buffer.new }
{
    let _added = buffer.extend_from_slice(bytes);
}
