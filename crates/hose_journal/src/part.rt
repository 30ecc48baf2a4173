// What stands at a gate.
ghost use Rattle.std.specs.Prelude.{◌≡◌, ◌↔◌, ◌<◌, ◌≤◌, ◌^◌, ◌++◌, ◌∷◌, [], ℕ, List, IfNone, IfSome, IsTrue, length};
ghost use Rattle.byteorder.specs.Endian.{big_bytes};
ghost use Rattle.hose_graph.specs.declared.entry.Entry.{Entry};
ghost use Rattle.hose_journal.specs.steps.AtGate.{BeginsSeal, HasFields, HasNoFields, IsFoundIn, IsPart};
ghost use Rattle.hose_journal.specs.Chain.{chain};
ghost use Rattle.hose_journal.specs.Entries.{seal_bytes};

use crate::chaining::{chain_after, value_part};
use crate::layout::{DIGEST_BYTES, LENGTH_BYTES, OPEN, SEAL, SEAL_BYTES, SEAL_RECORD};
use byteorder::{BigEndian, ByteOrder};
use hose_codec::{CodecFault, MOST_SPELLING, decode};
use hose_graph::Entry;
use std::alloc::Global;

/// An entry that was read, the chain value with it, and the distance from its gate to the next one.
#[derive(Drop)]
pub struct Found {
    pub entry: Entry,
    pub value: [u8; DIGEST_BYTES],
    pub distance: usize,
}

/// The entry whose record begins these bytes, after an open gate and the entries with this chain
/// value; none at a gate that is not open. A record has a chain value where `chained` says so.
pub fn part(
    alloc: Global,
    bytes: &[u8],
    chained: bool,
    value: &[u8; DIGEST_BYTES],
) -> Result<Option<Found>, CodecFault>
    ensures { (digest : List ℕ) → (entries : List Entry) → length digest ≡ DIGEST_BYTES →
        value.now ≡ chain digest entries → IsPart chained digest entries bytes.now result }
{
    let [gate, rest @ ..] = bytes else {
        return Err(CodecFault::Bad);
    };
    if *gate != OPEN {
        return Ok(None);
    }
    match read_record(alloc, rest, chained, value) {
        Ok(found) => Ok(Some(found)),
        Err(fault) => Err(fault),
    }
}

// The entry whose record begins these bytes. The chain value is compared before memory is taken.
fn read_record(
    alloc: Global,
    bytes: &[u8],
    chained: bool,
    value: &[u8; DIGEST_BYTES],
) -> Result<Found, CodecFault>
    ensures { (digest : List ℕ) → (entries : List Entry) → length digest ≡ DIGEST_BYTES →
        value.now ≡ chain digest entries → IsFoundIn chained digest entries bytes.now result }
{
    let width = value_part(chained, value).len();
    let Some(fields) = split_record(bytes, width) else {
        return Err(CodecFault::Bad);
    };
    let body = fields.body;
    let next = chain_after(value, body);
    if !is_same(fields.value, value_part(chained, &next)) {
        return Err(CodecFault::Bad);
    }
    match decode(alloc, body) {
        Ok(entry) => Ok(Found {
            entry,
            value: next,
            distance: 1 + LENGTH_BYTES + width + body.len(),
        }),
        Err(fault) => Err(fault),
    }
}

// The fields of a record after its length.
#[derive(Clone, Copy)]
struct RecordFields<'a> {
    value: &'a [u8],
    body: &'a [u8],
}

// The fields of the record that begins these bytes, with a value of so many bytes, where a gate
// follows it.
fn split_record(bytes: &[u8], width: usize) -> Option<RecordFields<'_>>
    requires { width ≤ DIGEST_BYTES }
    ensures fields { IfSome result (λ fields.
        HasFields bytes.now fields.value.now fields.body.now) }
    ensures width { IfSome result (λ fields. length fields.value.now ≡ width) }
    ensures none { IfNone result (HasNoFields bytes.now width) }
{
    if bytes.len() < LENGTH_BYTES + width {
        return None;
    }
    let (field, after) = bytes.split_at(LENGTH_BYTES);
    let (value, rest) = after.split_at(width);
    let len = number_of_four(field) as usize;
    if len > MOST_SPELLING || rest.len() <= len {
        return None;
    }
    Some(RecordFields {
        value,
        body: &rest[..len],
    })
}

// The number whose bytes these four are.
fn number_of_four(bytes: &[u8]) -> u32
    requires { length bytes.now ≡ 4 }
    ensures { big_bytes 4 result ≡ bytes.now }
{
    BigEndian::read_u32(bytes)
}

/// Whether the record of a seal begins these bytes, after an open gate and the entries with this
/// chain value, and a gate follows it.
pub fn begins_seal(bytes: &[u8], value: &[u8; DIGEST_BYTES]) -> bool
    ensures { IsTrue result ↔ BeginsSeal value.now bytes.now }
{
    if bytes.len() <= SEAL_RECORD {
        return false;
    }
    is_same(&bytes[..SEAL_RECORD], &sealing(value))
}

// An open gate and the record of a seal with this chain value.
fn sealing(value: &[u8; DIGEST_BYTES]) -> [u8; SEAL_RECORD]
    ensures { result ≡ OPEN ∷ seal_bytes value.now }
{
    let mut bytes = [OPEN; SEAL_RECORD];
    BigEndian::write_u32(&mut bytes[1..1 + LENGTH_BYTES], SEAL_BYTES as u32);
    bytes[1 + LENGTH_BYTES] = SEAL;
    bytes[2 + LENGTH_BYTES..].copy_from_slice(value);
    bytes
}

/// Whether these are the same bytes.
pub fn is_same(one: &[u8], other: &[u8]) -> bool
    ensures { IsTrue result ↔ (one.now ≡ other.now) }
{
    one == other
}
