// A cabinet in memory with a disk and a text: texts that are read, disks that are taken out and put
// back, and calls that fail.
//
// Bytes are told as the digits of a number, as 134 for 1, 3 and 4, and none as 0.
ghost use Rattle.std.specs.Prelude.{◌≡◌, None, IfOk};
ghost use Rattle.hose_disk.specs.steps.CabinetState.{cabinet_frame};

use cases_common::{CaseText, Trouble, from_hex, number};
use hose_disk::{Cabinet, Disk, DiskCall, Failed, MemCabinet, MemDisk};
use std::alloc::Global;

/// What comes of the calls of these words on a cabinet with the text `t` of 5, 6 and 7 and the disk
/// `j`, whose second write fails.
pub fn tell_outcome(words: &str, told: &mut CaseText) -> Result<(), Trouble> {
    tell_words(&mut filled(told.alloc())?, words, told)
}

fn filled(alloc: Global) -> Result<MemCabinet, Trouble>
    ensures { IfOk result (λ cabinet. (cabinet_frame cabinet).out ≡ None) }
{
    let mut disk = MemDisk::new(alloc)?;
    disk.fail(DiskCall::Write, 2)?;
    let mut cabinet = MemCabinet::of(alloc, b"j", disk)?;
    cabinet.add_text(alloc, b"t", &[5, 6, 7])?;
    Ok(cabinet)
}

fn tell_words(cabinet: &mut MemCabinet, words: &str, told: &mut CaseText) -> Result<(), Trouble>
    requires { (cabinet_frame cabinet.old).out ≡ None }
{
    for word in words.split_whitespace() {
        tell_word(cabinet, word, told)?;
    }
    Ok(())
}

fn tell_word(cabinet: &mut MemCabinet, word: &str, told: &mut CaseText) -> Result<(), Trouble>
    requires { (cabinet_frame cabinet.old).out ≡ None }
    ensures { (cabinet_frame cabinet.new).out ≡ None }
{
    let (call, rest) = word.split_once(':').ok_or(Trouble::Word)?;
    if call == "fail" {
        return Ok(cabinet.fail(number(rest)?)?);
    }
    let got = made(told.alloc(), cabinet, call, rest)?;
    tell(got, cabinet.faults().count, cabinet.absent(), told);
    Ok(())
}

// What a call gives: a text is read, or a disk is written at its end.
fn made(
    alloc: Global,
    cabinet: &mut MemCabinet,
    call: &str,
    rest: &str,
) -> Result<Result<u64, Failed>, Trouble>
    requires { (cabinet_frame cabinet.old).out ≡ None }
    ensures { (cabinet_frame cabinet.new).out ≡ None }
{
    let (name, rest) = rest.split_once(':').ok_or(Trouble::Word)?;
    if call == "text" {
        return Ok(text(cabinet, name, number(rest)?));
    }
    let bytes = from_hex(alloc, rest)?;
    Ok(append_in(cabinet, name, &bytes))
}

// What a call gave, and how many calls have failed by then and how many texts were not there.
fn tell(got: Result<u64, Failed>, faults: u64, absent: u64, told: &mut CaseText) {
    if !told.is_empty() {
        told.put(" ");
    }
    let alloc = told.alloc();
    match got {
        Ok(digits) => told.add(format!(in alloc; "{digits}")),
        Err(Failed) => told.add(format!(in alloc; "failed {faults} absent {absent}")),
    }
}

fn digits(bytes: &[u8]) -> u64 {
    let mut number = 0u64;
    for byte in bytes {
        number = number.saturating_mul(10).saturating_add(u64::from(*byte));
    }
    number
}

// What a text has from a place on, of at most eight bytes.
fn text<C: Cabinet>(cabinet: &mut C, name: &str, from: u64) -> Result<u64, Failed>
    ensures { (C.frame cabinet.new).out ≡ (C.frame cabinet.old).out }
{
    let mut bytes = [0; 8];
    let count = cabinet.text(name, from, &mut bytes)?;
    Ok(digits(&bytes[..count]))
}

// Writes at the end of a disk. What it then holds, of at most eight bytes.
fn append<D: Disk>(disk: &mut D, bytes: &[u8]) -> Result<u64, Failed> {
    let len = disk.len()?;
    if len < 8 && bytes.len() < 8 {
        disk.write_at(len, bytes)?;
    }
    let mut held = [0; 8];
    let count = disk.read_at(0, &mut held)?;
    Ok(digits(&held[..count]))
}

// Takes a disk out, writes at its end, and puts it back.
fn append_in<C: Cabinet>(cabinet: &mut C, name: &str, bytes: &[u8]) -> Result<u64, Failed>
    requires { (C.frame cabinet.old).out ≡ None }
    ensures { (C.frame cabinet.new).out ≡ None }
{
    let mut disk = cabinet.disk(name)?;
    let held = append(&mut disk, bytes);
    cabinet.back(disk);
    held
}
