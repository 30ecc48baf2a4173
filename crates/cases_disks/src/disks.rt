// Disks in memory: calls, some of which fail, and what a stop then leaves.
use crate::change::Range;
use cases_common::{CaseText, Trouble, disk_call, from_hex, number};
use hose_disk::{Disk, Failed, MemDisk, Pick};
use std::alloc::Global;

// How many bytes of a disk are read at most.
const HELD: usize = 8;

const PICKS: [Pick; 4] = [Pick::Kept, Pick::Lost, Pick::Fill(0), Pick::Fill(9)];

/// What comes of the calls of these words on an empty disk: a point for each call that is done and
/// an `x` for each that fails, and what the disk holds or what the words ask for.
pub fn tell_outcome(words: &str, told: &mut CaseText) -> Result<(), Trouble> {
    tell_words(&mut MemDisk::new(told.alloc())?, words, told)
}

fn tell_words(disk: &mut MemDisk, words: &str, told: &mut CaseText) -> Result<(), Trouble> {
    for word in words.split_whitespace() {
        tell_word(disk, word, told)?;
    }
    Ok(())
}

fn tell_word(disk: &mut MemDisk, word: &str, told: &mut CaseText) -> Result<(), Trouble> {
    let (call, rest) = word.split_once(':').unwrap_or((word, ""));
    match call {
        "fail" => fail(disk, rest),
        "held" => tell_held(disk, told),
        "count" => {
            tell_counts(disk, told);
            Ok(())
        }
        "stops" => tell_stops(disk, Range::read(rest)?, told),
        _ => {
            told.put(made(told.alloc(), disk, call, rest)?);
            Ok(())
        }
    }
}

/// The calls of this kind and number are to fail.
pub fn fail(disk: &mut MemDisk, rest: &str) -> Result<(), Trouble> {
    let (kind, nth) = rest.split_once(':').ok_or(Trouble::Word)?;
    disk.fail(disk_call(kind).ok_or(Trouble::Word)?, number(nth)?)?;
    Ok(())
}

// How each call went that a word makes: the length is asked before a write and a cut.
fn made(
    alloc: Global,
    disk: &mut MemDisk,
    call: &str,
    rest: &str,
) -> Result<&'static str, Trouble> {
    match call {
        "len" => Ok(mark(&disk.len())),
        "read" => Ok(mark(&disk.read_at(0, &mut [0; HELD]))),
        "sync" => Ok(mark(&disk.sync())),
        "cut" => Ok(marks(cut(disk, number(rest)?))),
        "write" => {
            let (at, digits) = rest.split_once(':').ok_or(Trouble::Word)?;
            let bytes = from_hex(alloc, digits)?;
            Ok(marks(write(disk, number(at)?, &bytes)))
        }
        _ => Err(Trouble::Word),
    }
}

fn mark<T>(outcome: &Result<T, Failed>) -> &'static str {
    match outcome {
        Ok(_) => ".",
        Err(Failed) => "x",
    }
}

// The marks of a length and of what follows it, which is not made where the first fails.
fn marks(outcome: Result<Result<(), Failed>, Failed>) -> &'static str {
    match outcome {
        Ok(Ok(())) => "..",
        Ok(Err(Failed)) => ".x",
        Err(Failed) => "x",
    }
}

// Writes at the place, at most at the eighth, or at the end where that lies before it.
fn write(disk: &mut MemDisk, at: u64, bytes: &[u8]) -> Result<Result<(), Failed>, Failed> {
    let at = disk.len()?.min(at).min(HELD as u64);
    if bytes.len() > HELD {
        return Err(Failed);
    }
    Ok(disk.write_at(at, bytes))
}

// Cuts to the length, where the disk is longer.
fn cut(disk: &mut MemDisk, to: u64) -> Result<Result<(), Failed>, Failed> {
    let to = disk.len()?.min(to);
    Ok(disk.cut(to))
}

// What the disk holds, in digits.
fn tell_held(disk: &mut MemDisk, told: &mut CaseText) -> Result<(), Trouble> {
    let mut bytes = [0; HELD];
    let len = disk.read_at(0, &mut bytes)?;
    told.put(" ");
    if len == 0 {
        told.put("empty");
    } else {
        told.add(hex::encode(told.alloc(), &bytes[..len]));
    }
    Ok(())
}

fn tell_counts(disk: &MemDisk, told: &mut CaseText) {
    let (calls, faults) = (disk.calls(), disk.faults());
    let (failed, starved) = (faults.count, faults.starved);
    let alloc = told.alloc();
    told.add(format!(in alloc; " {calls} calls {failed} faults {starved} starved"));
}

// What a stop after each of these numbers of calls leaves by each pick.
fn tell_stops(disk: &MemDisk, range: Range, told: &mut CaseText) -> Result<(), Trouble> {
    for calls in range.from..range.to {
        told.put(" /");
        for pick in PICKS {
            tell_stop(disk, calls, pick, told)?;
        }
    }
    Ok(())
}

fn tell_stop(disk: &MemDisk, calls: u64, pick: Pick, told: &mut CaseText) -> Result<(), Trouble> {
    tell_held(&mut stopped(told.alloc(), disk, calls, pick)?, told)
}

/// The disk that a stop leaves after so many calls.
pub fn stopped(alloc: Global, disk: &MemDisk, calls: u64, pick: Pick) -> Result<MemDisk, Trouble> {
    if calls > disk.calls() {
        return Err(Trouble::Word);
    }
    Ok(disk.stop_image(alloc, calls, pick)?)
}
