// A topology in JSON that is read of a source.
ghost use Rattle.std.specs.Prelude.{◌≡◌, ◌≢◌, ◌↔◌, ◌+◌, ◌<◌, ◌≤◌, ℕ, List, Err, IfErr, IfOk, OnOk, length};
ghost use Rattle.hose_io.specs.steps.Calls.{HasGone};
ghost use Rattle.hose_io.specs.Frame.{Rose, Stays};
ghost use Rattle.hose_io.specs.Stream.{Gives, IsAtEnd};
ghost use Rattle.hose_outside.specs.steps.JsonRead.{IsJsonOf, IsPieceFault};

use crate::fault::Fault;
use hose_graph::Topology;
use hose_io::Source;
use hose_topo_json::read_json;
use std::alloc::Global;

/// How many bytes of a topology in JSON are read at most; one more is too many. It is 16 MiB.
pub const JSON_LIMIT: u64 = 1 << 24;

// How many bytes are taken at once.
const PIECE: usize = 16_384;

/// Reads a topology of all that a source has left. A source that fails is told as a text that
/// could not be read.
pub fn read_whole_json<S: Source>(alloc: Global, source: &mut S) -> Result<Topology, Fault>
    ensures takes { (bytes : List ℕ) × Gives (S.content source.old) (S.content source.new) bytes
        × (length bytes ≤ JSON_LIMIT + 1)
        × ((result ≡ Err Fault.TooLong) ↔ (JSON_LIMIT < length bytes)) }
    ensures json { IsJsonOf (S.content source.old) (S.content source.new) result }
    ensures failed { result ≡ Err Fault.Text → Rose (S.frame source.old) (S.frame source.new) }
    ensures held { result ≢ Err Fault.Text → S.frame source.new ≡ S.frame source.old }
    ensures stays { Stays (S.frame source.old) (S.frame source.new) }
    ensures gone { HasGone S.Source source.old source.new }
{
    let bytes = take_all(alloc, source)?;
    let topology = read_json(alloc, &bytes)?;
    Ok(topology)
}

// All that a source has left, where that is not too long.
fn take_all<S: Source>(alloc: Global, source: &mut S) -> Result<Vec<u8>, Fault>
    ensures bytes { IfOk result (λ bytes. Gives (S.content source.old) (S.content source.new)
        bytes.items) }
    ensures short { IfOk result (λ bytes. length bytes.items ≤ JSON_LIMIT) }
    ensures whole { OnOk result (IsAtEnd (S.content source.new)) }
    ensures fault { IfErr result (IsPieceFault (S.content source.old) (S.content source.new)) }
    ensures failed { result ≡ Err Fault.Text → Rose (S.frame source.old) (S.frame source.new) }
    ensures held { result ≢ Err Fault.Text → S.frame source.new ≡ S.frame source.old }
    ensures stays { Stays (S.frame source.old) (S.frame source.new) }
    ensures gone { HasGone S.Source source.old source.new }
{
    let mut bytes = Vec::new(alloc);
    let mut piece = [0; PIECE];
    loop {
        let room = (JSON_LIMIT as usize + 1 - bytes.len()).min(PIECE);
        let Ok(count) = source.take(&mut piece[..room]) else {
            return Err(Fault::Text);
        };
        if count == 0 {
            return Ok(bytes);
        }
        if bytes.len() + count > JSON_LIMIT as usize {
            return Err(Fault::TooLong);
        }
        bytes.extend_from_slice(&piece[..count])?;
    }
}
