// What ends a run before its input is all read, and how that is told.
ghost use Rattle.std.specs.Prelude.{◌≡◌, ◌++◌, [], decimal};
ghost use Rattle.hex.specs.Hex.{encode_lower};
ghost use Rattle.hose_io.specs.steps.Gather.{IsAdded};
ghost use Rattle.hose_io.specs.steps.Writing.{IsPut};
ghost use Rattle.hose_proto.specs.ReplyText.{line_of};
ghost use Rattle.hose_outside.specs.declared.fault.Fault.TheVariants.{Memory, Read, Write};
ghost use Rattle.hose_outside.specs.Fault.{status_of, last_line, of_store, refusal_words};
ghost use Rattle.hose_outside.specs.steps.Fault.{of_json, of_topology};

use crate::notation::Refusal;
use hose_io::{Failed, Gather, Sink, write_all};
use hose_store::StoreFault;
use hose_topo::TopoFault;
use hose_topo_json::JsonFault;
use std::alloc::{AllocError, AllocFailed};

/// Why a run ended early.
#[derive(Clone, Copy, Debug, PartialEq, Eq)]
pub enum Fault {
    /// The program's word of this number, counted from 1, is not one that it takes there.
    Words(u64),
    /// The topology was refused, and is wrong first there.
    Topology(Refusal),
    /// The text of the topology could not be read.
    Text,
    /// The input failed.
    Read,
    /// The output failed.
    Write,
    /// The journal is that of another network: the digest that it keeps, and the network's.
    Other { kept: [u8; 32], given: [u8; 32] },
    /// No whole record stands at this place of the journal, or one of an entry that the book does
    /// not take.
    Damaged { at: u64 },
    /// The journal could not be opened, or not be closed.
    Cabinet,
    /// There was no memory to begin with.
    Memory,
    /// The input is too long.
    TooLong,
    /// The door could not be opened, or it failed.
    Door,
    /// At this byte of the input no packet begins, or one that is not there whole.
    Packet { at: u64 },
}

impl Fault {
    /// What a fault of reading a topology is, where a source that fails is told so.
    pub fn of_topology(fault: TopoFault, failed: Fault) -> Fault
        ensures { result ≡ of_topology failed fault }
    {
        match fault {
            TopoFault::At { line, word } => Fault::Topology(Refusal::Word { line, word }),
            TopoFault::Read => failed,
            TopoFault::TooLong => Fault::TooLong,
            TopoFault::Memory => Fault::Memory,
        }
    }

    /// The status with which the program ends.
    pub fn status(self) -> u8
        ensures { result ≡ status_of self }
    {
        match self {
            Fault::Words(_) => 1,
            Fault::Topology(_) => 2,
            Fault::Read => 3,
            Fault::Write => 4,
            Fault::Other { .. } | Fault::Damaged { .. } => 5,
            Fault::Text | Fault::Cabinet => 6,
            Fault::Memory => 7,
            Fault::TooLong => 8,
            Fault::Door => 9,
            Fault::Packet { .. } => 11,
        }
    }

    /// Writes the last line, which tells the fault. Where the output failed there is none.
    pub fn put<O: Sink>(self, output: &mut O) -> Result<(), Failed>
        ensures put { IsPut O.Sink output.old output.new (last_line self) result }
        ensures calls_none { last_line self ≡ [] → output.new ≡ output.old }
    {
        match self {
            Fault::Words(word) => put_numbered(output, b"words ", word),
            Fault::Topology(refusal) => put_refusal(output, refusal),
            Fault::Text => write_all(output, b"cabinet\n"),
            Fault::Read => write_all(output, b"read\n"),
            Fault::Write => Ok(()),
            Fault::Other { kept, given } => put_digests(output, &kept, &given),
            Fault::Damaged { at } => put_numbered(output, b"journal damaged at ", at),
            Fault::Cabinet => write_all(output, b"cabinet\n"),
            Fault::Memory => write_all(output, b"no memory\n"),
            Fault::TooLong => write_all(output, b"too long\n"),
            Fault::Door => write_all(output, b"door\n"),
            Fault::Packet { at } => put_numbered(output, b"packet ", at),
        }
    }
}

impl From<AllocError> for Fault {
    ghost from_gives = { λ _ fault. fault ≡ Memory };

    fn from(_error: AllocError) -> Fault {
        Fault::Memory
    }
}

impl<T: Drop> From<AllocFailed<T>> for Fault {
    ghost from_gives = { λ _ fault. fault ≡ Memory };

    fn from(_failed: AllocFailed<T>) -> Fault {
        Fault::Memory
    }
}

impl From<Failed> for Fault {
    ghost from_gives = { λ _ fault. fault ≡ Write };

    fn from(_error: Failed) -> Fault {
        Fault::Write
    }
}

impl From<TopoFault> for Fault {
    ghost from_gives = { λ topology fault. fault ≡ of_topology Read topology };

    fn from(fault: TopoFault) -> Fault {
        Fault::of_topology(fault, Fault::Read)
    }
}

impl From<JsonFault> for Fault {
    ghost from_gives = { λ topology fault. fault ≡ of_json topology };

    fn from(fault: JsonFault) -> Fault {
        match fault {
            JsonFault::Json => Fault::Topology(Refusal::Json),
            JsonFault::Nodes => Fault::Topology(Refusal::Nodes),
            JsonFault::Node { index } => Fault::Topology(Refusal::Node { index }),
            JsonFault::Links => Fault::Topology(Refusal::Links),
            JsonFault::Link { index } => Fault::Topology(Refusal::Link { index }),
            JsonFault::Memory => Fault::Memory,
        }
    }
}

impl From<StoreFault> for Fault {
    ghost from_gives = { λ store fault. fault ≡ of_store store };

    fn from(fault: StoreFault) -> Fault {
        match fault {
            StoreFault::Disk => Fault::Cabinet,
            StoreFault::Other { kept, given } => Fault::Other { kept, given },
            StoreFault::Damaged { at } => Fault::Damaged { at },
            StoreFault::Memory => Fault::Memory,
        }
    }
}

/// Writes a line of words and the number after them.
pub fn put_numbered<O: Sink>(output: &mut O, words: &[u8], number: u64) -> Result<(), Failed>
    ensures { IsPut O.Sink output.old output.new (line_of (words.now ++ decimal number)) result }
{
    let mut gather = Gather::new();
    gather.add(output, words);
    gather.add_number(output, number);
    gather.add(output, b"\n");
    gather.finish(output)
}

// Writes the last line that tells where the topology is wrong.
fn put_refusal<O: Sink>(output: &mut O, refusal: Refusal) -> Result<(), Failed>
    ensures { IsPut O.Sink output.old output.new (last_line (Fault.Topology refusal)) result }
{
    let mut gather = Gather::new();
    gather.add(output, b"topology ");
    add_refusal(&mut gather, output, refusal);
    gather.add(output, b"\n");
    gather.finish(output)
}

// Adds the words that tell where a topology is wrong.
fn add_refusal<O: Sink>(gather: &mut Gather, output: &mut O, refusal: Refusal)
    ensures { IsAdded O.Sink gather.old output.old gather.new output.new (refusal_words refusal) }
{
    match refusal {
        Refusal::Word { line, word } => {
            gather.add_number(output, line);
            gather.add(output, b" ");
            gather.add_number(output, word);
        }
        Refusal::Json => gather.add(output, b"json"),
        Refusal::Nodes => gather.add(output, b"nodes"),
        Refusal::Node { index } => add_element(gather, output, b"nodes ", index),
        Refusal::Links => gather.add(output, b"links"),
        Refusal::Link { index } => add_element(gather, output, b"links ", index),
    }
}

// Adds an element by its number.
fn add_element<O: Sink>(gather: &mut Gather, output: &mut O, of: &[u8], index: u64)
    ensures { IsAdded O.Sink gather.old output.old gather.new output.new
        (of.now ++ decimal index) }
{
    gather.add(output, of);
    gather.add_number(output, index);
}

// Writes the last line that tells which journal is kept in place of which.
fn put_digests<O: Sink>(output: &mut O, kept: &[u8; 32], given: &[u8; 32]) -> Result<(), Failed>
    ensures { IsPut O.Sink output.old output.new (last_line (Fault.Other kept.now given.now))
        result }
{
    let mut gather = Gather::new();
    gather.add(output, b"journal other ");
    add_digest(&mut gather, output, kept);
    gather.add(output, b" ");
    add_digest(&mut gather, output, given);
    gather.add(output, b"\n");
    gather.finish(output)
}

// Adds a digest in hexadecimal digits.
fn add_digest<O: Sink>(gather: &mut Gather, output: &mut O, digest: &[u8; 32])
    ensures { IsAdded O.Sink gather.old output.old gather.new output.new
        (encode_lower digest.now) }
{
    let mut digits = [0; 64];
    // There are two digits for each byte.
    let _ = hex::encode_to_slice(digest.as_slice(), &mut digits);
    gather.add(output, &digits);
}
