// Packets as bytes, and their layout.
ghost use Rattle.std.specs.Prelude.{◌≡◌, ◌≤◌, ◌<◌, length};
ghost use Rattle.byteorder.specs.Endian.{big_bytes};
ghost use Rattle.hose_io.specs.steps.Gather.{IsAdded};
ghost use Rattle.hose_codec.specs.declared.limits.TheConstants.{MOST_SPELLING};
ghost use Rattle.hose_follow.specs.steps.Arriving.{IsFrontOf};
ghost use Rattle.hose_follow.specs.Packet.{packet_bytes};
ghost use Rattle.hose_follow.specs.Layout.{body_length_bytes, epoch_bytes, front_bytes, value_bytes};

use byteorder::{BigEndian, ByteOrder};
use hose_codec::{MOST_SPELLING, number_of_four, number_of_two};
use hose_io::{Gather, Sink};

/// The number of bytes of the length of a packet's body, at its front.
pub const LENGTH_BYTES: usize = 2;

/// The number of bytes of a packet's epoch, after the length.
pub const EPOCH_BYTES: usize = 4;

/// The number of bytes of a packet's chain value, after the epoch.
pub const VALUE_BYTES: usize = 32;

/// The number of bytes of a packet before its body.
pub const FRONT_BYTES: usize = LENGTH_BYTES + EPOCH_BYTES + VALUE_BYTES;

/// The greatest number of bytes of a packet.
pub const MOST_PACKET: usize = FRONT_BYTES + MOST_SPELLING;

/// Each of these constants is the literal that definitions cite.
pub fn law_layout()
    ensures body_length_bytes { LENGTH_BYTES ≡ body_length_bytes }
    ensures epoch_bytes { EPOCH_BYTES ≡ epoch_bytes }
    ensures value_bytes { VALUE_BYTES ≡ value_bytes }
    ensures front_bytes { FRONT_BYTES ≡ front_bytes }
{}

/// What stands at the front of bytes that were taken of an input.
#[derive(Clone, Copy)]
pub enum Front<'a> {
    /// A whole packet.
    Whole {
        epoch: u64,
        chain: [u8; VALUE_BYTES],
        body: &'a [u8],
    },
    /// The front of one, and not all of it.
    Part,
    /// No packet begins so.
    Bad,
}

/// What stands at the front of these bytes.
pub fn front_of(bytes: &[u8]) -> Front<'_>
    ensures { IsFrontOf bytes.now result }
{
    if bytes.len() < LENGTH_BYTES {
        return Front::Part;
    }
    let (field, after) = bytes.split_at(LENGTH_BYTES);
    let len = number_of_two(field) as usize;
    if len == 0 || len > MOST_SPELLING {
        return Front::Bad;
    }
    if bytes.len() < FRONT_BYTES + len {
        return Front::Part;
    }
    let (epoch, after) = after.split_at(EPOCH_BYTES);
    let (value, after) = after.split_at(VALUE_BYTES);
    Front::Whole {
        epoch: u64::from(number_of_four(epoch)),
        chain: value_of(value),
        body: &after[..len],
    }
}

// These bytes, which are as many as a chain value has.
fn value_of(bytes: &[u8]) -> [u8; VALUE_BYTES]
    requires { length bytes.now ≡ VALUE_BYTES }
    ensures { result ≡ bytes.now }
{
    let mut value = [0; VALUE_BYTES];
    value.copy_from_slice(bytes);
    value
}

/// Adds the bytes of a packet.
pub fn add_packet<S: Sink>(
    gather: &mut Gather,
    sink: &mut S,
    epoch: u32,
    chain: &[u8; VALUE_BYTES],
    body: &[u8],
)
    requires { length body.now ≤ MOST_SPELLING }
    ensures { IsAdded S.Sink gather.old sink.old gather.new sink.new
        (packet_bytes (record { epoch = epoch; chain = chain.now; body = body.now })) }
{
    gather.add(sink, &length_field(body.len() as u16));
    gather.add(sink, &epoch_field(epoch));
    gather.add(sink, chain);
    gather.add(sink, body);
}

// The bytes of a length.
fn length_field(len: u16) -> [u8; LENGTH_BYTES]
    ensures { result ≡ big_bytes 2 len }
{
    let mut field = [0; LENGTH_BYTES];
    BigEndian::write_u16(&mut field, len);
    field
}

// The bytes of an epoch.
fn epoch_field(epoch: u32) -> [u8; EPOCH_BYTES]
    ensures { result ≡ big_bytes 4 epoch }
{
    let mut field = [0; EPOCH_BYTES];
    BigEndian::write_u32(&mut field, epoch);
    field
}
