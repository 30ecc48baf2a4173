// Sources, sinks and lines: bytes in pieces, calls that fail, readers and writers of std.
ghost use Rattle.std.specs.Prelude.{◌<◌, length};

use cases_common::{CaseText, Trouble, first, number};
use hose_io::{Failed, Gather, MemSink, MemSource, Sink, Source, StdSink, StdSource, write_all};
use hose_words::LineReader;
use std::alloc::{AllocError, Global};
use std::io::{self, ErrorKind, Read, Write};

/// What comes of four takes of four bytes from a source of `abc` in pieces of two, of which the
/// last fails; and what was taken, how many calls failed and how many bytes are left then.
pub fn tell_source(told: &mut CaseText) -> Result<(), Trouble> {
    tell_of_source(&mut MemSource::new(told.alloc(), b"abc", 2)?, told)
}

fn tell_of_source(source: &mut MemSource, told: &mut CaseText) -> Result<(), Trouble> {
    source.fail(4)?;
    tell_takes(source, 4, told);
    let (bytes, faults, left) = (source.taken(), source.faults().count, source.left().len());
    let alloc = told.alloc();
    told.add(format!(in alloc; " {bytes:?} {faults} {left}"));
    Ok(())
}

// What comes of so many takes of four bytes.
fn tell_takes<S: Source>(source: &mut S, count: u32, told: &mut CaseText) {
    for number in 0..count {
        told.put(before(number));
        told.show(&source.take(&mut [0; 4]));
    }
    told.put("]");
}

// What stands in a list before its item of a number.
fn before(number: u32) -> &'static str {
    if number == 0 { "[" } else { ", " }
}

/// What comes of three puts of two bytes at a sink of which the first call fails; and what it has,
/// how many calls failed and how many found no memory then.
pub fn tell_sink(told: &mut CaseText) -> Result<(), Trouble> {
    tell_of_sink(&mut MemSink::new(told.alloc())?, told)
}

fn tell_of_sink(sink: &mut MemSink, told: &mut CaseText) -> Result<(), Trouble> {
    sink.fail(1)?;
    tell_puts(sink, b"ab", 3, told);
    let (bytes, faults) = (sink.bytes(), sink.faults());
    let alloc = told.alloc();
    told.add(format!(in alloc; " {bytes:?} {} {}", faults.count, faults.starved));
    Ok(())
}

// What comes of so many puts of the same bytes.
fn tell_puts<O: Sink>(sink: &mut O, bytes: &[u8], count: u32, told: &mut CaseText)
    requires { 0 < length bytes.now }
{
    for number in 0..count {
        told.put(before(number));
        told.show(&sink.put(bytes));
    }
    told.put("]");
}

/// What comes of a text of 4,096 bytes and then a few where this call fails, and how much is out.
pub fn tell_gathered(failing: u64, told: &mut CaseText) -> Result<(), Trouble> {
    tell_gathered_in(&mut MemSink::new(told.alloc())?, failing, told)
}

fn tell_gathered_in(sink: &mut MemSink, nth: u64, told: &mut CaseText) -> Result<(), Trouble> {
    sink.fail(nth)?;
    told.show(&gather(sink));
    told.put(" ");
    told.show(&sink.bytes().len());
    Ok(())
}

fn gather(sink: &mut MemSink) -> Result<(), Failed> {
    let mut text = Gather::new();
    text.add(sink, &[b'a'; 4_096]);
    text.add(sink, b"b");
    text.add_number(sink, 10);
    text.finish(sink)
}

// Gives and takes a byte in each of its calls. The second is interrupted, the fourth moves nothing,
// and the sixth fails.
#[derive(Drop)]
struct Trickle {
    calls: u8,
}

impl Trickle {
    fn count(&mut self) -> io::Result<usize> {
        self.calls = self.calls.saturating_add(1);
        match self.calls {
            2 => Err(ErrorKind::Interrupted.into()),
            4 => Ok(0),
            6 => Err(ErrorKind::BrokenPipe.into()),
            _ => Ok(1),
        }
    }
}

impl Read for Trickle {
    fn read(&mut self, into: &mut [u8]) -> io::Result<usize> {
        Ok(self.count()?.min(into.len()))
    }
}

impl Write for Trickle {
    fn write(&mut self, bytes: &[u8]) -> io::Result<usize> {
        Ok(self.count()?.min(bytes.len()))
    }

    fn flush(&mut self) -> io::Result<()> {
        Ok(())
    }
}

/// What comes of six takes from a reader that is interrupted, ends and fails, of six puts to such a
/// writer, and of three whole texts.
pub fn tell_trickled(told: &mut CaseText) {
    tell_takes(&mut StdSource::new(Trickle { calls: 0 }), 6, told);
    told.put("\n");
    tell_puts(&mut StdSink::new(Trickle { calls: 0 }), b"abc", 6, told);
    told.put("\n");
    tell_whole(&mut StdSink::new(Trickle { calls: 0 }), told);
}

fn tell_whole<O: Sink>(sink: &mut O, told: &mut CaseText) {
    for number in 0..3 {
        told.put(before(number));
        told.show(&write_all(sink, b"abc"));
    }
    told.put("]");
}

/// What two bytes are that pass through a reader and a writer of std.
pub fn tell_passed(told: &mut CaseText) -> Result<(), Trouble> {
    let mut piece = [0; 3];
    let count = StdSource::new(b"ab".as_slice()).take(&mut piece)?;
    tell_written(&mut Vec::new(told.alloc()), &piece[..count], told)
}

fn tell_written(to: &mut Vec<u8>, bytes: &[u8], told: &mut CaseText) -> Result<(), Trouble> {
    write_all(&mut StdSink::new(&mut *to), bytes)?;
    told.show(to);
    Ok(())
}

/// The next four lines of a text, given in pieces, of which a call fails, and what is left of it
/// then. The words are the call, and the lines, between which a slash stands.
pub fn tell_lines(piece: u64, words: &str, told: &mut CaseText) -> Result<(), Trouble> {
    let (failing, text) = first(words);
    let failing = number(failing)?;
    let mut source = parted(told.alloc(), piece, text)?;
    source.fail(failing)?;
    tell_all(LineReader::new(source), told);
    Ok(())
}

// The lines of a text, between which a slash stands.
fn parted(alloc: Global, piece: u64, text: &str) -> Result<MemSource, AllocError> {
    let mut bytes = Vec::from_slice(alloc, text.as_bytes())?;
    for byte in &mut bytes {
        if *byte == b'/' {
            *byte = b'\n';
        }
    }
    MemSource::new(alloc, &bytes, piece.max(1))
}

fn tell_all(mut lines: LineReader<MemSource>, told: &mut CaseText) {
    let alloc = told.alloc();
    for _ in 0..4 {
        told.add(format!(in alloc; "{:?}\n", lines.next()));
    }
    told.show(&lines.into_source().left());
}
