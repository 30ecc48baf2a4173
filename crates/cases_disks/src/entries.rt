// Bytes that are read as entries.
use cases_common::{CaseText, Trouble};
use hose_codec::{CodecFault, decode, encode};
use std::alloc::Global;

/// Whether bytes are the spelling of an entry, and whether of the one as which they are read.
pub fn tell_verdict(bytes: &[u8], told: &mut CaseText) -> Result<(), Trouble> {
    told.put(verdict(told.alloc(), bytes)?);
    Ok(())
}

fn verdict(alloc: Global, bytes: &[u8]) -> Result<&'static str, Trouble> {
    match decode(alloc, bytes) {
        Ok(entry) => {
            let is_same = encode(alloc, &entry)?.as_slice() == bytes;
            Ok(if is_same { "spelling" } else { "of another" })
        }
        Err(CodecFault::Bad) => Ok("bad"),
        Err(fault) => Err(Trouble::Entry(fault)),
    }
}

/// The entry of a spelling, as it is printed for those who look for faults.
pub fn tell_text(bytes: &[u8], told: &mut CaseText) -> Result<(), Trouble> {
    told.show(&decode(told.alloc(), bytes)?);
    Ok(())
}
