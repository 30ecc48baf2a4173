// What a disk in memory held at first, a record of its calls, and which images a stop may leave.
ghost use Rattle.std.specs.Prelude.{◌≡◌, ◌≤◌, ◌+◌, ◌^◌, ◌<◌, [], ◌∷◌, length, OnOk, OnErr, IfOk, IsFalse, IsTrue};
ghost use Rattle.hose_disk.specs.steps.Disk.{IsOverwritten};
ghost use Rattle.hose_disk.specs.steps.Picks.{filled, pick_after, picked};
ghost use Rattle.hose_disk.specs.steps.Images as images;
ghost use Rattle.hose_disk.specs.steps.Images.{idle, wrote, tried_write, cut_to, tried_cut, synced, IsImage, calls_at};
ghost use Rattle.hose_disk.specs.steps.Recording.{with_call, reads, step_of, steps_of};

use std::alloc::{AllocError, Global};
use std::marker::Model;

/// Which image a stop leaves.
#[derive(Clone, Copy, Debug, PartialEq, Eq)]
pub enum Pick {
    /// What a read would have given.
    Kept,
    /// As at the last sync that succeeded.
    Lost,
    /// The greatest length, and this value in each byte that is not synced.
    Fill(u8),
}

/// A call, as far as it changes what a read gives or what a stop may leave.
#[derive(Debug, Drop)]
enum Recorded {
    Idle,
    Wrote(usize, Vec<u8>),
    TriedWrite(usize, usize),
    CutTo(usize),
    TriedCut(usize),
    Synced,
}

/// The content at first, what a read gives now, and the calls between.
#[derive(Debug, Drop)]
pub struct Recording {
    alloc: Global,
    first: Vec<u8>,
    bytes: Vec<u8>,
    calls: Vec<Recorded>,
}

impl Model for Recording {
    ghost use Rattle.std.specs.Prelude.{◌≡◌, ◌<◌, ◌^◌, length};
    ghost use Rattle.hose_disk.specs.steps.Images.{read_of, AreInRange};
    ghost use Rattle.hose_disk.specs.steps.Recording.{CallRecord, steps_of};

    ghost Value = { CallRecord };

    ghost view = { λ made. record { first = made.first.items; calls = steps_of made.calls.items } };

    ghost invariant = { λ made.
        (made.bytes.items ≡ read_of made.first.items (steps_of made.calls.items))
        × (length made.bytes.items < 2 ^ 62)
        × AreInRange made.first.items (steps_of made.calls.items) };
}

impl Recording {
    /// No call on this content.
    pub fn new(alloc: Global, bytes: &[u8]) -> Result<Recording, AllocError>
        requires { length bytes.now < 2 ^ 62 }
        ensures { IfOk result (λ made. made ≡ record { first = bytes.now; calls = [] }) }
    {
        Ok(Recording {
            alloc,
            first: Vec::from_slice(alloc, bytes)?,
            bytes: Vec::from_slice(alloc, bytes)?,
            calls: Vec::new(alloc),
        })
    }

    /// What a read gives.
    pub fn bytes(&self) -> &[u8]
        ensures value { result.now ≡ reads self.now }
        ensures small { length result.now < 2 ^ 62 }
    {
        &self.bytes
    }

    /// How many calls are recorded.
    pub fn calls(&self) -> usize
        ensures { result ≡ length self.now.calls }
    {
        self.calls.len()
    }

    /// A call that changes nothing.
    pub fn idle(&mut self) -> Result<(), AllocError>
        ensures ok { OnOk result (self.new ≡ with_call self.old idle) }
        ensures err { OnErr result (self.new ≡ self.old) }
    {
        note(&mut self.calls, Recorded::Idle)
    }

    /// A write, which is only begun where it fails.
    pub fn write(&mut self, at: usize, bytes: &[u8], fails: bool) -> Result<(), AllocError>
        requires small { at + length bytes.now < 2 ^ 62 }
        requires within { at ≤ length (reads self.old) }
        ensures done { IsFalse fails → OnOk result
            (self.new ≡ with_call self.old (wrote at bytes.now)) }
        ensures begun { IsTrue fails → OnOk result
            (self.new ≡ with_call self.old (tried_write at (length bytes.now))) }
        ensures err { OnErr result (self.new ≡ self.old) }
    {
        if fails {
            return note(&mut self.calls, Recorded::TriedWrite(at, bytes.len()));
        }
        let next = overwrite(self.alloc, &self.bytes, at, bytes)?;
        let kept = Vec::from_slice(self.alloc, bytes)?;
        note(&mut self.calls, Recorded::Wrote(at, kept))?;
        self.bytes = next;
        Ok(())
    }

    /// A cut, which is only begun where it fails.
    pub fn cut(&mut self, len: usize, fails: bool) -> Result<(), AllocError>
        ensures done { IsFalse fails → OnOk result (self.new ≡ with_call self.old (cut_to len)) }
        ensures begun { IsTrue fails → OnOk result
            (self.new ≡ with_call self.old (tried_cut len)) }
        ensures err { OnErr result (self.new ≡ self.old) }
    {
        if fails {
            return note(&mut self.calls, Recorded::TriedCut(len));
        }
        note(&mut self.calls, Recorded::CutTo(len))?;
        self.bytes.truncate(len);
        Ok(())
    }

    /// A sync, which changes nothing where it fails.
    pub fn sync(&mut self, fails: bool) -> Result<(), AllocError>
        ensures done { IsFalse fails → OnOk result (self.new ≡ with_call self.old synced) }
        ensures begun { IsTrue fails → OnOk result (self.new ≡ with_call self.old idle) }
        ensures err { OnErr result (self.new ≡ self.old) }
    {
        if fails {
            return note(&mut self.calls, Recorded::Idle);
        }
        note(&mut self.calls, Recorded::Synced)
    }

    /// The picked image of a stop at the moment at which so many calls were done.
    pub fn image(&self, alloc: Global, calls: usize, pick: Pick) -> Result<Vec<u8>, AllocError>
        requires { calls ≤ length self.now.calls }
        ensures picked { IfOk result
            (λ image. image.items ≡ picked pick self.now.first (calls_at self.now.calls calls)) }
        ensures small { IfOk result (λ image. length image.items < 2 ^ 62) }
        ensures image { IfOk result
            (λ image. IsImage self.now.first (calls_at self.now.calls calls) image.items) }
    {
        let image = replay(alloc, &self.first, &self.calls[..calls], pick)?;
        Ok(image)
    }
}

// The picked image after these calls on a content.
fn replay(
    alloc: Global,
    first: &[u8],
    calls: &[Recorded],
    pick: Pick,
) -> Result<Vec<u8>, AllocError>
    ensures { IfOk result (λ image. image.items ≡ picked pick first.now (steps_of calls.now)) }
{
    let mut read = Vec::from_slice(alloc, first)?;
    let mut image = Vec::from_slice(alloc, first)?;
    for call in calls {
        image = image_after(alloc, call, pick, &read, image)?;
        read = read_after(alloc, call, read)?;
    }
    Ok(image)
}

// What a read gives after a call.
fn read_after(alloc: Global, call: &Recorded, read: Vec<u8>) -> Result<Vec<u8>, AllocError>
    ensures { IfOk result (λ new. new.items ≡ images.read_after (step_of call.now) read.items) }
{
    match call {
        Recorded::Wrote(at, bytes) => overwrite(alloc, &read, *at, bytes),
        Recorded::CutTo(len) => {
            let mut read = read;
            read.truncate(*len);
            Ok(read)
        }
        _ => Ok(read),
    }
}

// The picked image after a call, by what a read gave and the picked image before it.
fn image_after(
    alloc: Global,
    call: &Recorded,
    pick: Pick,
    read: &[u8],
    image: Vec<u8>,
) -> Result<Vec<u8>, AllocError>
    ensures { IfOk result
        (λ new. new.items ≡ pick_after pick (step_of call.now) read.now image.items) }
{
    match pick {
        Pick::Kept => read_after(alloc, call, image),
        Pick::Lost => match call {
            Recorded::Synced => Vec::from_slice(alloc, read),
            _ => Ok(image),
        },
        Pick::Fill(byte) => match call {
            Recorded::Wrote(at, bytes) => fill(alloc, &image, *at, bytes.len(), byte),
            Recorded::TriedWrite(at, count) => fill(alloc, &image, *at, *count, byte),
            Recorded::Synced => Vec::from_slice(alloc, read),
            _ => Ok(image),
        },
    }
}

// The bytes with one value all over a range.
fn fill(alloc: Global, old: &[u8], at: usize, count: usize, byte: u8) -> Result<Vec<u8>, AllocError>
    ensures { IfOk result (λ new. new.items ≡ filled at count byte old.now) }
{
    let bytes = Vec::from_elem(alloc, byte, count)?;
    overwrite(alloc, old, at, &bytes)
}

fn note(calls: &mut Vec<Recorded>, call: Recorded) -> Result<(), AllocError>
    ensures ok { OnOk result (steps_of calls.new.items ≡ step_of call ∷ steps_of calls.old.items) }
    ensures err { OnErr result (calls.new.items ≡ calls.old.items) }
{
    calls.push(call)?;
    Ok(())
}

// The bytes with others at a place.
fn overwrite(alloc: Global, old: &[u8], at: usize, bytes: &[u8]) -> Result<Vec<u8>, AllocError>
    ensures { IfOk result (λ new. IsOverwritten at bytes.now old.now new.items) }
{
    let mut new = Vec::from_slice(alloc, &old[..at.min(old.len())])?;
    new.extend_from_slice(bytes)?;
    let end = at.saturating_add(bytes.len());
    if end < old.len() {
        new.extend_from_slice(&old[end..])?;
    }
    Ok(new)
}
