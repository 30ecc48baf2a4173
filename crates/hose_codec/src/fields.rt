// A reader of fields, which takes them from the front of bytes.
ghost use Rattle.std.specs.Prelude.{◌≡◌, ◌+◌, ◌<◌, ◌≤◌, ◌^◌, ◌*◌, ℕ, [], ◌∷◌, length, IfOk, OnErr, IsOk, IsTrue, ⊤, ◌↔◌};
ghost use Rattle.byteorder.specs.Endian.{big_bytes};
ghost use Rattle.hose_graph.specs.Name.{IsName};
ghost use Rattle.hose_graph.specs.Hose.{IsHose};
ghost use Rattle.hose_codec.specs.Fields.{name_field, pair_field, pairs_field, ends_field, amounts_field, id_field, link_field, AreFormatAmounts};
ghost use Rattle.hose_codec.specs.steps.Reading.{ReadsField, TakesField, ArePairsFrom, AreCountedPairs, TakesPair, pairs_of};

use crate::limits::{CodecFault, MOST_PAIRS, PAIR_BYTES};
use byteorder::{BigEndian, ByteOrder};
use hose_graph::{
    LEAST_ENDS, MOST_AMOUNT, MOST_ENDS, MOST_EPOCH, MOST_LINKS, MOST_NODES, MOST_RATE, Name,
};
use std::alloc::{AllocError, Global};
use std::marker::Model;

/// The bytes that are left to be read. A contract sees them as a list.
#[derive(Drop)]
pub struct EntryReader<'a> {
    rest: &'a [u8],
}

impl<'a> Model for EntryReader<'a> {
    ghost use Rattle.std.specs.Prelude.{ℕ, List};

    ghost Value = { List ℕ };

    ghost view = { λ fields. fields.rest.now };
}

impl<'a> EntryReader<'a> {
    pub fn new(bytes: &'a [u8]) -> EntryReader<'a>
        ensures { result ≡ bytes.now }
    {
        EntryReader { rest: bytes }
    }

    /// Makes sure that nothing is left.
    pub fn end(&self) -> Result<(), CodecFault>
        ensures ok { IsOk result ↔ (self.now ≡ []) }
        ensures bad { OnErr result (result ≡ Err CodecFault.Bad) }
    {
        if !self.rest.is_empty() {
            return Err(CodecFault::Bad);
        }
        Ok(())
    }

    pub fn byte(&mut self) -> Result<u8, CodecFault>
        ensures { ReadsField (λ byte. byte ∷ []) (λ _. ⊤) (λ byte. byte) self.old self.new result }
    {
        let [byte, rest @ ..] = self.rest else {
            return Err(CodecFault::Bad);
        };
        self.rest = rest;
        Ok(*byte)
    }

    /// The name that is next, if there is one.
    // An option and no result: a name in one value with a fault would be copied in pieces.
    pub fn name(&mut self) -> Option<Name>
        ensures { TakesField name_field IsName self.old self.new result }
    {
        let Ok(len) = self.byte() else {
            return None;
        };
        let Ok(bytes) = self.part(usize::from(len)) else {
            return None;
        };
        Name::read(bytes)
    }

    /// The bytes of the endpoints of a hose.
    pub fn ends(&mut self) -> Result<&'a [u8], CodecFault>
        ensures { ReadsField ends_field IsHose (λ ends. pairs_of ends.now) self.old self.new
            result }
    {
        let count = usize::from(self.byte()?);
        if !(LEAST_ENDS..=MOST_ENDS).contains(&count) {
            return Err(CodecFault::Bad);
        }
        self.pairs(count, MOST_NODES, MOST_RATE)
    }

    /// The bytes of amounts.
    pub fn amounts(&mut self) -> Result<&'a [u8], CodecFault>
        ensures { ReadsField amounts_field AreFormatAmounts (λ amounts. pairs_of amounts.now)
            self.old self.new result }
    {
        let count = usize::from(self.two_bytes()?);
        if !(1..=MOST_PAIRS).contains(&count) {
            return Err(CodecFault::Bad);
        }
        self.pairs(count, MOST_LINKS, MOST_AMOUNT)
    }

    /// The number of a VPN.
    pub fn id(&mut self) -> Result<u64, CodecFault>
        ensures { ReadsField id_field (λ id. id ≤ MOST_EPOCH) (λ id. id) self.old self.new result }
    {
        let id = u64::from(self.four_bytes()?);
        if id > MOST_EPOCH {
            return Err(CodecFault::Bad);
        }
        Ok(id)
    }

    /// The number of a link.
    pub fn link(&mut self) -> Result<u32, CodecFault>
        ensures { ReadsField link_field (λ link. link < MOST_LINKS) (λ link. link)
            self.old self.new result }
    {
        let link = u32::from(self.two_bytes()?);
        if link >= MOST_LINKS {
            return Err(CodecFault::Bad);
        }
        Ok(link)
    }

    // The bytes of so many pairs, whose first numbers ascend and are below `bound`, and whose
    // second ones are from 1 to `most`.
    fn pairs(&mut self, count: usize, bound: u32, most: u64) -> Result<&'a [u8], CodecFault>
        requires count { count < 2 ^ 16 }
        requires bound { bound ≤ 2 ^ 16 }
        requires most { most < 2 ^ 32 }
        ensures { ReadsField pairs_field (AreCountedPairs bound most count)
            (λ pairs. pairs_of pairs.now) self.old self.new result }
    {
        let bytes = self.part(PAIR_BYTES * count)?;
        if !are_pairs(bytes, bound, most) {
            return Err(CodecFault::Bad);
        }
        Ok(bytes)
    }

    // The next pair, if there are bytes for one.
    fn next_pair(&mut self) -> Option<(u32, u64)>
        ensures { TakesPair self.old self.new result }
    {
        if self.rest.len() < PAIR_BYTES {
            return None;
        }
        let (pair, rest) = self.rest.split_at(PAIR_BYTES);
        self.rest = rest;
        let first = number_of_two(&pair[..2]);
        let second = number_of_four(&pair[2..]);
        Some((u32::from(first), u64::from(second)))
    }

    fn two_bytes(&mut self) -> Result<u16, CodecFault>
        ensures { ReadsField (big_bytes 2) (λ number. number < 2 ^ 16) (λ number. number)
            self.old self.new result }
    {
        Ok(number_of_two(self.part(2)?))
    }

    fn four_bytes(&mut self) -> Result<u32, CodecFault>
        ensures { ReadsField (big_bytes 4) (λ number. number < 2 ^ 32) (λ number. number)
            self.old self.new result }
    {
        Ok(number_of_four(self.part(4)?))
    }

    // The next bytes, so many of them.
    fn part(&mut self, len: usize) -> Result<&'a [u8], CodecFault>
        ensures { ReadsField (λ part. part) (λ part. length part ≡ len) (λ part. part.now)
            self.old self.new result }
    {
        if self.rest.len() < len {
            return Err(CodecFault::Bad);
        }
        let (part, rest) = self.rest.split_at(len);
        self.rest = rest;
        Ok(part)
    }
}

// Whether the first numbers of the pairs that these bytes spell ascend and are below `bound`, and
// the second ones are from 1 to `most`.
fn are_pairs(bytes: &[u8], bound: u32, most: u64) -> bool
    ensures are { IsTrue result ↔ ArePairsFrom bound most 0 (pairs_of bytes.now) }
    // Where no byte is left over, these are the bytes of the pairs.
    ensures spelled { (count : ℕ) → length bytes.now ≡ PAIR_BYTES * count →
        pairs_field (pairs_of bytes.now) ≡ bytes.now }
{
    let mut fields = EntryReader::new(bytes);
    let mut least = 0;
    while let Some((first, second)) = fields.next_pair() {
        if !(least..bound).contains(&first) || !(1..=most).contains(&second) {
            return false;
        }
        least = first + 1;
    }
    true
}

/// The pairs whose bytes these are.
// A list that a call hands out passes through memory twice.
#[inline(always)]
pub fn pairs_of(alloc: Global, bytes: &[u8]) -> Result<Vec<(u32, u64)>, AllocError>
    ensures { IfOk result (λ pairs. pairs.items ≡ pairs_of bytes.now) }
{
    let mut pairs = Vec::with_capacity(alloc, bytes.len() / PAIR_BYTES)?;
    let mut fields = EntryReader::new(bytes);
    while let Some(pair) = fields.next_pair() {
        pairs.push_reserved(pair);
    }
    Ok(pairs)
}

/// The number whose bytes these two are, highest byte first.
pub fn number_of_two(bytes: &[u8]) -> u16
    requires { length bytes.now ≡ 2 }
    ensures { big_bytes 2 result ≡ bytes.now }
{
    BigEndian::read_u16(bytes)
}

/// The number whose bytes these four are, highest byte first.
pub fn number_of_four(bytes: &[u8]) -> u32
    requires { length bytes.now ≡ 4 }
    ensures { big_bytes 4 result ≡ bytes.now }
{
    BigEndian::read_u32(bytes)
}
