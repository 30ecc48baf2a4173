// Packets as bytes.
ghost use Rattle.std.specs.Prelude.{◌≡◌, ◌≤◌, ◌∷◌, [], IfOk, length};
ghost use Rattle.byteorder.specs.Endian.{big_bytes};
ghost use Rattle.hose_codec.specs.declared.limits.TheConstants.{MOST_SPELLING};
ghost use Rattle.hose_follow.specs.Packet.{packet_bytes};
ghost use Rattle.hose_lead.specs.Leading.{probe};

use crate::history::VALUE_BYTES;
use byteorder::{BigEndian, ByteOrder};
use hose_codec::MOST_SPELLING;
use std::alloc::{AllocError, Global};

/// The number of bytes of a probe, whose body is one byte.
pub const PROBE_BYTES: usize = 39;

/// The bytes of a packet: its body's length, its epoch, the chain value before it, and its body.
pub fn packet(
    alloc: Global,
    epoch: u32,
    before: &[u8; VALUE_BYTES],
    body: &[u8],
) -> Result<Vec<u8>, AllocError>
    requires { length body.now ≤ MOST_SPELLING }
    ensures { IfOk result (λ bytes. bytes.items
        ≡ packet_bytes (record { epoch = epoch; chain = before.now; body = body.now })) }
{
    let mut bytes = Vec::new(alloc);
    bytes.extend_from_slice(&length_field(body.len() as u16))?;
    bytes.extend_from_slice(&epoch_field(epoch))?;
    bytes.extend_from_slice(before)?;
    bytes.extend_from_slice(body)?;
    Ok(bytes)
}

/// The bytes of a probe.
pub fn probe_packet(epoch: u32) -> [u8; PROBE_BYTES]
    ensures { result ≡ packet_bytes (probe epoch) }
{
    let mut bytes = [0; PROBE_BYTES];
    BigEndian::write_u16(&mut bytes, 1);
    BigEndian::write_u32(&mut bytes[2..], epoch);
    bytes
}

// The bytes of a length.
fn length_field(len: u16) -> [u8; 2]
    ensures { result ≡ big_bytes 2 len }
{
    let mut field = [0; 2];
    BigEndian::write_u16(&mut field, len);
    field
}

// The bytes of an epoch.
fn epoch_field(epoch: u32) -> [u8; 4]
    ensures { result ≡ big_bytes 4 epoch }
{
    let mut field = [0; 4];
    BigEndian::write_u32(&mut field, epoch);
    field
}
