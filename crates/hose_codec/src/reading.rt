// Reading an entry. No memory is taken before the bytes are known to be the spelling of one.
ghost use Rattle.std.specs.Prelude.{◌≡◌, ◌↔◌, ◌∷◌, ◌++◌, [], List, ℕ, ◌<◌, IfOk, IsErrOf};
ghost use Rattle.hose_graph.specs.declared.entry.Entry.{Entry};
ghost use Rattle.hose_codec.specs.Spelling.{IsEntry, IsSpelling, spelling};
ghost use Rattle.hose_codec.specs.steps.Spelling.{IsNoSpelling, Decodes};
ghost use Rattle.hose_graph.specs.steps.Ranges.{IsInRanges};
ghost use Rattle.hose_codec.specs.Fields.{link_field};
ghost use Rattle.hose_codec.specs.steps.Reading.{ReadsWhole};

use crate::fields::{EntryReader, pairs_of};
use crate::limits::{ADMIT, CodecFault, DOWN, RELEASE, UP};
use hose_graph::{Amounts, Entry, Hose, MOST_LINKS};
use std::alloc::Global;

/// The entry that these bytes are the spelling of.
pub fn decode(alloc: Global, bytes: &[u8]) -> Result<Entry, CodecFault>
    ensures read { IfOk result (λ entry. IsSpelling entry bytes.now) }
    // What was encoded is decoded again, but for want of memory.
    ensures again { (entry : Entry) → IsSpelling entry bytes.now →
        IfOk result (λ read. read ≡ entry) }
    // What was decoded can be encoded.
    ensures fits { IfOk result IsInRanges }
    // No other spelling begins the bytes.
    ensures alone { IfOk result (λ entry. (other : Entry) (rest : List ℕ) → IsEntry other →
        bytes.now ≡ spelling other ++ rest → (other ≡ entry) × (rest ≡ [])) }

    ensures bad { IsErrOf result CodecFault.Bad ↔ IsNoSpelling bytes.now }
    ensures memory { IsErrOf result CodecFault.Memory →
        (entry : Entry) × IsSpelling entry bytes.now }
{
    entry_of(alloc, bytes)
}

fn entry_of(alloc: Global, bytes: &[u8]) -> Result<Entry, CodecFault>
    ensures { Decodes bytes.now result }
{
    let mut fields = EntryReader::new(bytes);
    match fields.byte()? {
        ADMIT => admission(alloc, fields),
        RELEASE => release(fields),
        DOWN => Ok(Entry::Down {
            link: only_link(fields)?,
        }),
        UP => Ok(Entry::Up {
            link: only_link(fields)?,
        }),
        _ => Err(CodecFault::Bad),
    }
}

// The admission whose fields these are, after its kind.
fn admission(alloc: Global, mut fields: EntryReader) -> Result<Entry, CodecFault>
    ensures { Decodes (ADMIT ∷ fields.entry) result }
{
    let Some(customer) = fields.name() else {
        return Err(CodecFault::Bad);
    };
    let ends = fields.ends()?;
    let amounts = fields.amounts()?;
    fields.end()?;
    Ok(Entry::Admit {
        customer,
        hose: Hose::from_vec(pairs_of(alloc, ends)?),
        amounts: Amounts::from_vec(pairs_of(alloc, amounts)?),
    })
}

// The release whose fields these are, after its kind.
fn release(mut fields: EntryReader) -> Result<Entry, CodecFault>
    ensures { Decodes (RELEASE ∷ fields.entry) result }
{
    let Some(customer) = fields.name() else {
        return Err(CodecFault::Bad);
    };
    let id = fields.id()?;
    fields.end()?;
    Ok(Entry::Release { customer, id })
}

// The link whose number is all that these fields have.
fn only_link(mut fields: EntryReader) -> Result<u32, CodecFault>
    ensures { ReadsWhole link_field (λ link. link < MOST_LINKS) (λ link. link)
        fields.entry result }
{
    let link = fields.link()?;
    fields.end()?;
    Ok(link)
}
