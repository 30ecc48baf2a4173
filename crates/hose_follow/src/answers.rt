// The answers of a follower, and how they are written.
ghost use Rattle.std.specs.Prelude.{◌++◌, decimal};
ghost use Rattle.hex.specs.Hex.{encode_lower};
ghost use Rattle.hose_io.specs.steps.Gather.{IsAdded};
ghost use Rattle.hose_io.specs.steps.Writing.{IsPut};
ghost use Rattle.hose_follow.specs.Answers.{answer_line, offered_text};

use crate::packet::VALUE_BYTES;
use hose_io::{Failed, Gather, Sink};

/// What a follower answers to a packet.
#[derive(Clone, Copy, Debug, PartialEq, Eq)]
pub enum Offered {
    /// It has the entries up to this epoch.
    Have {
        n: u64,
    },
    /// The packet is too far on: the one of this epoch is wanted.
    Want {
        n: u64,
    },
    /// The packet is the next one, of another history: the follower's epoch, its chain value, and
    /// the packet's.
    Differs {
        at: u64,
        own: [u8; VALUE_BYTES],
        given: [u8; VALUE_BYTES],
    },
    /// There was too little memory.
    Memory,
    /// The packet of this epoch has no entry that the book takes.
    Unsound {
        epoch: u64,
    },
    /// The disk failed. The follower's epoch stays.
    Disk {
        at: u64,
    },
}

/// Writes the line of an answer, as one piece.
pub fn put_answer<O: Sink>(sink: &mut O, answer: &Offered) -> Result<(), Failed>
    ensures { IsPut O.Sink sink.old sink.new (answer_line answer.now) result }
{
    let mut gather = Gather::new();
    add_answer(&mut gather, sink, answer);
    gather.add(sink, b"\n");
    gather.finish(sink)
}

// Adds the words of an answer.
fn add_answer<O: Sink>(gather: &mut Gather, sink: &mut O, answer: &Offered)
    ensures { IsAdded O.Sink gather.old sink.old gather.new sink.new (offered_text answer.now) }
{
    match answer {
        Offered::Have { n } => add_numbered(gather, sink, b"have ", *n),
        Offered::Want { n } => add_numbered(gather, sink, b"want ", *n),
        Offered::Differs { at, own, given } => add_differs(gather, sink, *at, own, given),
        Offered::Memory => gather.add(sink, b"memory"),
        Offered::Unsound { epoch } => add_numbered(gather, sink, b"unsound ", *epoch),
        Offered::Disk { at } => add_numbered(gather, sink, b"disk at ", *at),
    }
}

// Adds the words of an answer that tells two chain values.
fn add_differs<O: Sink>(
    gather: &mut Gather,
    sink: &mut O,
    at: u64,
    own: &[u8; VALUE_BYTES],
    given: &[u8; VALUE_BYTES],
)
    ensures { IsAdded O.Sink gather.old sink.old gather.new sink.new
        (offered_text (Offered.Differs at own.now given.now)) }
{
    add_numbered(gather, sink, b"differs at ", at);
    gather.add(sink, b" ");
    add_value(gather, sink, own);
    gather.add(sink, b" ");
    add_value(gather, sink, given);
}

// Adds words, and a number after them.
fn add_numbered<O: Sink>(gather: &mut Gather, sink: &mut O, words: &[u8], number: u64)
    ensures { IsAdded O.Sink gather.old sink.old gather.new sink.new
        (words.now ++ decimal number) }
{
    gather.add(sink, words);
    gather.add_number(sink, number);
}

// Adds a chain value in hexadecimal digits.
fn add_value<O: Sink>(gather: &mut Gather, sink: &mut O, value: &[u8; VALUE_BYTES])
    ensures { IsAdded O.Sink gather.old sink.old gather.new sink.new (encode_lower value.now) }
{
    let mut digits = [0; 2 * VALUE_BYTES];
    // There are two digits for each byte.
    let _ = hex::encode_to_slice(value.as_slice(), &mut digits);
    gather.add(sink, &digits);
}
