// A disk in memory, which keeps a record of its calls.
ghost use Rattle.std.specs.Prelude.{◌≡◌, ◌+◌, ◌<◌, ◌≤◌, ◌^◌, ℕ, ◌∷◌, ◌++◌, [], IfOk, OnOk, OnErr, length, take};
ghost use Rattle.hose_disk.specs.steps.CabinetState.{reopened};
ghost use Rattle.hose_disk.specs.Disk.{NoneNew};
ghost use Rattle.hose_disk.specs.steps.Disk.{IsCalled, IsOverwritten, Torn, IsCut, IsTruncated, IsReadAt, ContentSteps, StepsTo, Only, Elapses};
ghost use Rattle.hose_disk.specs.steps.Images.{IsImage, calls_at, idle, wrote, tried_write, cut_to, tried_cut, synced};
ghost use Rattle.hose_disk.specs.steps.MemState.{of_kind, with_kind, fresh_disk, mem_disk_frame, content_of, moment_of, image_of, left_since_of, EndsCall, IsMemCall};
ghost use Rattle.hose_disk.specs.steps.Picks.{picked};
ghost use Rattle.hose_disk.specs.steps.Recording.{reads};
ghost use Rattle.hose_disk.specs.declared.call.DiskCall.TheVariants.{Len, Read, Write, Cut, Sync};

use crate::call::{DiskCall, FailingByKind};
use crate::disk::Disk;
use crate::recording::{Pick, Recording};
use hose_io::{Failed, Faults};
use std::alloc::{AllocError, Global};
use std::marker::Model;

/// A disk in memory, which only an embedding or a test uses. A call fails where it was told to, and
/// where no memory is left for its record; such a call is not begun and not recorded.
#[derive(Debug, Drop)]
pub struct MemDisk {
    made: Recording,
    failing: FailingByKind,
    opened: usize,
    faults: Faults,
    has_failed: bool,
}

impl Model for MemDisk {
    ghost use Rattle.hose_disk.specs.steps.MemState.{MemState};

    ghost Value = { MemState };

    ghost view = { λ disk. record {
      made = disk.made;
      failing = disk.failing;
      opened = disk.opened;
      faults = disk.faults;
      has_failed = disk.has_failed;
    } };
}

impl MemDisk {
    /// An empty disk.
    pub fn new(alloc: Global) -> Result<MemDisk, AllocError>
        ensures { IfOk result (λ disk. disk ≡ fresh_disk []) }
    {
        MemDisk::of(alloc, &[])
    }

    /// The `nth` call of this kind from now on, counted from 1, is to fail.
    pub fn fail(&mut self, kind: DiskCall, nth: u64) -> Result<(), AllocError>
        ensures ok { OnOk result (self.new ≡ record self.old {
          failing = with_kind kind self.old.failing (of_kind kind self.old.failing ++ nth ∷ []);
        }) }
        ensures err { OnErr result (self.new ≡ self.old) }
    {
        self.failing.add(kind, nth)
    }

    /// What it counts of its calls that failed.
    pub fn faults(&self) -> Faults
        ensures { result ≡ self.now.faults }
    {
        self.faults
    }

    /// How many calls were made and recorded.
    pub fn calls(&self) -> u64
        ensures { result ≡ length self.now.made.calls }
    {
        self.made.calls() as u64
    }

    /// A new disk, whose content is the picked image of a stop at the moment at which so many of
    /// the recorded calls were done.
    pub fn stop_image(&self, alloc: Global, calls: u64, pick: Pick) -> Result<MemDisk, AllocError>
        requires { calls ≤ length self.now.made.calls }
        ensures fresh { IfOk result (λ disk. disk
            ≡ fresh_disk (picked pick self.now.made.first (calls_at self.now.made.calls calls))) }
        // It is one of the images at that moment, and so one that was left since each earlier one.
        ensures image { IfOk result (λ disk.
            IsImage self.now.made.first (calls_at self.now.made.calls calls) (reads disk.made)) }
        ensures left { IfOk result (λ disk. (t : ℕ) → t ≤ calls →
            left_since_of self.now t (reads disk.made)) }
    {
        let image = self.made.image(alloc, calls as usize, pick)?;
        let disk = MemDisk::of(alloc, &image)?;
        Ok(disk)
    }

    // A disk of this content, without a call.
    fn of(alloc: Global, bytes: &[u8]) -> Result<MemDisk, AllocError>
        requires { length bytes.now < 2 ^ 62 }
        ensures { IfOk result (λ disk. disk ≡ fresh_disk bytes.now) }
    {
        Ok(MemDisk {
            made: Recording::new(alloc, bytes)?,
            failing: FailingByKind::new(alloc),
            opened: 0,
            faults: Faults::none(),
            has_failed: false,
        })
    }

    /// Whether its last call failed.
    pub(crate) fn has_failed(&self) -> bool
        ensures { result ≡ self.now.has_failed }
    {
        self.has_failed
    }

    /// This disk as one that is opened now: it has failed in no call yet.
    pub(crate) fn opened_again(mut self) -> MemDisk
        ensures { result ≡ reopened self }
    {
        self.opened = self.made.calls();
        self.faults = Faults::none();
        self.has_failed = false;
        self
    }

    // Ends a call whose record found no memory, or that was to fail, or that is done.
    fn end(&mut self, starves: bool, fails: bool) -> Result<(), Failed>
        ensures ends { EndsCall starves fails self.old self.new result }
        ensures call { IsCalled (mem_disk_frame self.old) (mem_disk_frame self.new) result }
    {
        self.has_failed = starves | fails;
        if starves {
            return Err(self.faults.starve());
        }
        if fails {
            return Err(self.faults.fail());
        }
        Ok(())
    }

    // A call that changes nothing.
    fn make_idle(&mut self, kind: DiskCall) -> Result<(), Failed>
        ensures same { content_of self.new ≡ content_of self.old }
        ensures images { NoneNew (image_of self.old) (image_of self.new) }
        ensures time { Elapses (moment_of self.old) (moment_of self.new)
            (left_since_of self.old) (left_since_of self.new) (image_of self.new) }
        ensures call { IsCalled (mem_disk_frame self.old) (mem_disk_frame self.new) result }
        ensures exact { IsMemCall kind idle idle self.old self.new result }
    {
        let fails = self.failing.next(kind);
        let recorded = self.made.idle();
        self.end(recorded.is_err(), fails)
    }
}

impl Disk for MemDisk {
    ghost use Rattle.std.specs.Prelude.{refl};
    ghost use Rattle.std.proofs.Common.{inl};
    ghost use Rattle.hose_disk.specs.steps.Images.{only_now};
    ghost use Rattle.hose_disk.specs.steps.MemState.{mem_disk_frame, content_of, moment_of, image_of, left_since_of, some_is_told};

    ghost frame = { mem_disk_frame };

    ghost content = { content_of };

    ghost may_leave = { image_of };

    ghost moment = { moment_of };

    ghost left_since = { left_since_of };

    ghost counts_now = { λ disk t image within now. inl now };

    ghost only_now = { λ disk image left. only_now disk.made.first disk.made.calls image left };

    ghost reads_an_image = { λ disk. inl refl };

    ghost untold = { λ disk t image none left. some_is_told none };

    fn len(&mut self) -> Result<u64, Failed>
        ensures small { IfOk result (λ len. len < 2 ^ 62) }
        ensures length { IfOk result (λ len. len ≡ length (reads self.old.made)) }
        ensures same { content_of self.new ≡ content_of self.old }
        ensures images { NoneNew (image_of self.old) (image_of self.new) }
        ensures time { Elapses (moment_of self.old) (moment_of self.new)
            (left_since_of self.old) (left_since_of self.new) (image_of self.new) }
        ensures call { IsCalled (mem_disk_frame self.old) (mem_disk_frame self.new) result }
        ensures exact { IsMemCall Len idle idle self.old self.new result }
    {
        let len = self.made.bytes().len() as u64;
        self.make_idle(DiskCall::Len)?;
        Ok(len)
    }

    fn read_at(&mut self, at: u64, into: &mut [u8]) -> Result<usize, Failed>
        requires { at + length into.old < 2 ^ 62 }
        ensures room { IfOk result (λ count. count ≤ length into.new) }
        ensures read { IfOk result
            (λ count. IsReadAt at (length into.old) (reads self.old.made) (take count into.new)) }
        ensures same { content_of self.new ≡ content_of self.old }
        ensures images { NoneNew (image_of self.old) (image_of self.new) }
        ensures time { Elapses (moment_of self.old) (moment_of self.new)
            (left_since_of self.old) (left_since_of self.new) (image_of self.new) }
        ensures call { IsCalled (mem_disk_frame self.old) (mem_disk_frame self.new) result }
        ensures exact { IsMemCall Read idle idle self.old self.new result }
    {
        let count = read(self.made.bytes(), at as usize, into);
        self.make_idle(DiskCall::Read)?;
        Ok(count)
    }

    fn write_at(&mut self, at: u64, bytes: &[u8]) -> Result<(), Failed>
        requires small { at + length bytes.now < 2 ^ 62 }
        requires within { at ≤ length (reads self.old.made) }
        ensures written { OnOk result (ContentSteps (IsOverwritten at bytes.now)
            (content_of self.old) (content_of self.new)) }
        ensures begun { OnErr result (ContentSteps (Torn at (length bytes.now))
            (content_of self.old) (content_of self.new)) }
        ensures images { StepsTo (Torn at (length bytes.now))
            (image_of self.old) (image_of self.new) }
        ensures time { Elapses (moment_of self.old) (moment_of self.new)
            (left_since_of self.old) (left_since_of self.new) (image_of self.new) }
        ensures call { IsCalled (mem_disk_frame self.old) (mem_disk_frame self.new) result }
        ensures exact { IsMemCall Write (wrote at bytes.now) (tried_write at (length bytes.now))
            self.old self.new result }
    {
        let fails = self.failing.next(DiskCall::Write);
        let recorded = self.made.write(at as usize, bytes, fails);
        self.end(recorded.is_err(), fails)
    }

    fn cut(&mut self, len: u64) -> Result<(), Failed>
        requires small { len < 2 ^ 62 }
        requires within { len ≤ length (reads self.old.made) }
        ensures cut { OnOk result
            (ContentSteps (IsTruncated len) (content_of self.old) (content_of self.new)) }
        ensures begun { OnErr result
            (ContentSteps (IsCut len) (content_of self.old) (content_of self.new)) }
        ensures images { StepsTo (IsCut len) (image_of self.old) (image_of self.new) }
        ensures time { Elapses (moment_of self.old) (moment_of self.new)
            (left_since_of self.old) (left_since_of self.new) (image_of self.new) }
        ensures call { IsCalled (mem_disk_frame self.old) (mem_disk_frame self.new) result }
        ensures exact { IsMemCall Cut (cut_to len) (tried_cut len) self.old self.new result }
    {
        let fails = self.failing.next(DiskCall::Cut);
        let recorded = self.made.cut(len as usize, fails);
        self.end(recorded.is_err(), fails)
    }

    fn sync(&mut self) -> Result<(), Failed>
        ensures durable { OnOk result (Only (reads self.old.made) (image_of self.new)) }
        ensures same { content_of self.new ≡ content_of self.old }
        ensures images { NoneNew (image_of self.old) (image_of self.new) }
        ensures time { Elapses (moment_of self.old) (moment_of self.new)
            (left_since_of self.old) (left_since_of self.new) (image_of self.new) }
        ensures call { IsCalled (mem_disk_frame self.old) (mem_disk_frame self.new) result }
        ensures exact { IsMemCall Sync synced idle self.old self.new result }
    {
        let fails = self.failing.next(DiskCall::Sync);
        let recorded = self.made.sync(fails);
        self.end(recorded.is_err(), fails)
    }
}

/// Reads from a place what there is room for.
pub(crate) fn read(bytes: &[u8], at: usize, into: &mut [u8]) -> usize
    ensures room { result ≤ length into.new }
    ensures read { IsReadAt at (length into.old) bytes.now (take result into.new) }
{
    if at >= bytes.len() {
        return 0;
    }
    let rest = &bytes[at..];
    let count = rest.len().min(into.len());
    into[..count].copy_from_slice(&rest[..count]);
    count
}
