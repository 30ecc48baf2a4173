// Writing an entry, field by field.
ghost use Rattle.std.specs.Prelude.{◌≡◌, ◌<◌, ◌≤◌, ◌^◌, ◌++◌, All, OnOk, IfOk, length, vec_len};
ghost use Rattle.byteorder.specs.Endian.{big_bytes};
ghost use Rattle.hose_graph.specs.Name.{IsName};
ghost use Rattle.hose_graph.specs.Hose.{IsHose};
ghost use Rattle.hose_codec.specs.Fields.{name_field, pairs_field, ends_field, amounts_field, id_field};
ghost use Rattle.hose_codec.specs.steps.Fields.{FitsPair};
ghost use Rattle.hose_graph.specs.Ranges.{AreInRanges};
ghost use Rattle.hose_codec.specs.Spelling.{spelling, IsEntry, IsSpelling};
ghost use Rattle.hose_graph.specs.steps.Ranges.{IsInRanges};

use crate::limits::{ADMIT, DOWN, MOST_SPELLING, PAIR_BYTES, RELEASE, UP};
use byteorder::{BigEndian, ByteOrder};
use hose_graph::{Endpoint, Entry, Name, ReservedLink};
use std::alloc::{AllocError, Global};

/// The spelling of an entry whose numbers are in the ranges of the format.
pub fn encode(alloc: Global, entry: &Entry) -> Result<Vec<u8>, AllocError>
    requires { IsInRanges entry.now }
    ensures spelling { IfOk result (λ bytes. IsSpelling entry.now bytes.items) }
    ensures short { IfOk result (λ bytes. vec_len bytes ≤ MOST_SPELLING) }
{
    let mut out = Vec::with_capacity(alloc, spelling_len(entry))?;
    put_entry(&mut out, entry)?;
    Ok(out)
}

// How many bytes the spelling of the entry has.
fn spelling_len(entry: &Entry) -> usize
    requires { IsInRanges entry.now }
    ensures { result ≡ length (spelling entry.now) }
{
    match entry {
        Entry::Admit {
            customer,
            hose,
            amounts,
        } => 5 + customer.bytes().len() + PAIR_BYTES * (hose.ends().len() + amounts.pairs().len()),
        Entry::Release { customer, .. } => 6 + customer.bytes().len(),
        Entry::Down { .. } | Entry::Up { .. } => 3,
    }
}

fn put_entry(out: &mut Vec<u8>, entry: &Entry) -> Result<(), AllocError>
    requires { IsInRanges entry.now }
    ensures put { OnOk result (out.new.items ≡ out.old.items ++ spelling entry.now) }
    ensures is_entry { OnOk result (IsEntry entry.now) }
{
    match entry {
        Entry::Admit {
            customer,
            hose,
            amounts,
        } => {
            out.push(ADMIT)?;
            put_name(out, customer)?;
            put_ends(out, hose.ends())?;
            put_amounts(out, amounts.pairs())
        }
        Entry::Release { customer, id } => {
            out.push(RELEASE)?;
            put_name(out, customer)?;
            put_id(out, *id)
        }
        Entry::Down { link } => {
            out.push(DOWN)?;
            put_two_bytes(out, *link)
        }
        Entry::Up { link } => {
            out.push(UP)?;
            put_two_bytes(out, *link)
        }
    }
}

fn put_name(out: &mut Vec<u8>, name: &Name) -> Result<(), AllocError>
    ensures put { OnOk result (out.new.items ≡ out.old.items ++ name_field name.now) }
    ensures is_name { OnOk result (IsName name.now) }
{
    let bytes = name.bytes();
    out.push(bytes.len() as u8)?;
    out.extend_from_slice(bytes)
}

fn put_ends(out: &mut Vec<u8>, ends: &[Endpoint]) -> Result<(), AllocError>
    requires { IsHose ends.now }
    ensures { OnOk result (out.new.items ≡ out.old.items ++ ends_field ends.now) }
{
    out.push(ends.len() as u8)?;
    put_pairs(out, ends)
}

fn put_amounts(out: &mut Vec<u8>, amounts: &[ReservedLink]) -> Result<(), AllocError>
    requires { AreInRanges amounts.now }
    ensures { OnOk result (out.new.items ≡ out.old.items ++ amounts_field amounts.now) }
{
    put_two_bytes(out, amounts.len() as u32)?;
    put_pairs(out, amounts)
}

fn put_id(out: &mut Vec<u8>, id: u64) -> Result<(), AllocError>
    requires { id < 2 ^ 32 }
    ensures { OnOk result (out.new.items ≡ out.old.items ++ id_field id) }
{
    let mut field = [0; 4];
    BigEndian::write_u32(&mut field, id as u32);
    out.extend_from_slice(&field)
}

fn put_two_bytes(out: &mut Vec<u8>, number: u32) -> Result<(), AllocError>
    requires { number < 2 ^ 16 }
    ensures { OnOk result (out.new.items ≡ out.old.items ++ big_bytes 2 number) }
{
    let mut field = [0; 2];
    BigEndian::write_u16(&mut field, number as u16);
    out.extend_from_slice(&field)
}

fn put_pairs(out: &mut Vec<u8>, pairs: &[(u32, u64)]) -> Result<(), AllocError>
    requires { All FitsPair pairs.now }
    ensures { OnOk result (out.new.items ≡ out.old.items ++ pairs_field pairs.now) }
{
    for (first, second) in pairs {
        let mut field = [0; 6];
        BigEndian::write_u16(&mut field, *first as u16);
        BigEndian::write_u32(&mut field[2..], *second as u32);
        out.extend_from_slice(&field)?;
    }
    Ok(())
}
