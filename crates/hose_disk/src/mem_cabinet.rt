// A cabinet in memory, whose disks keep records of their calls.
ghost use Rattle.std.specs.Prelude.{◌≡◌, ◌≢◌, ◌⊎◌, ◌↔◌, ◌-◌, ◌<◌, ◌≤◌, ℕ, List, [], ◌∷◌, ◌++◌, None, Some, true, false, Contains, IfNone, IfOk, IfSome, IsErr, IsFalse, IsSome, IsTrue, MatchResult, OnErr, OnOk, length, min};
ghost use Rattle.hose_io.specs.steps.Faults.{no_faults, one_fault};
ghost use Rattle.hose_disk.specs.Cabinet.{Has, IsDiskCall, after_back, opened_at, where_told};
ghost use Rattle.hose_disk.specs.steps.Cabinet.{IsTextAt, IsTextCall, absent_after};
ghost use Rattle.hose_disk.specs.steps.CabinetState.{IsMemOpening, cabinet_after_done, cabinet_after_refusal, cabinet_after_return, cabinet_frame, held_of, item_of, text_of};
ghost use Rattle.hose_disk.specs.Disk.{NoneNew};
ghost use Rattle.hose_disk.specs.steps.MemState.{content_of, mem_disk_frame, image_of, moment_of};

use crate::cabinet::Cabinet;
use crate::mem_disk::{MemDisk, read};
use crate::named::{Named, place_of};
use crate::shelf::Shelf;
use hose_io::{Failed, FailingCalls, Faults};
use std::alloc::{AllocError, Global};
use std::marker::Model;

#[derive(Debug, Drop)]
struct Text {
    bytes: Vec<u8>,
}

impl Model for Text {
    ghost use Rattle.std.specs.Prelude.{List, ℕ};

    ghost Value = { List ℕ };

    ghost view = { λ text. text.bytes.items };
}

/// A cabinet in memory, which only an embedding or a test uses. A call of `text`, `disk` or
/// `disk_to_read` fails where it was told to, where it asks for a text that is not there, and where
/// no memory is left. Each name is of a disk of its own.
#[derive(Debug, Drop)]
pub struct MemCabinet {
    texts: Vec<Named<Text>>,
    shelf: Shelf,
    faults: Faults,
    absent: u64,
    returned: u64,
    failing: FailingCalls,
}

impl Model for MemCabinet {
    ghost use Rattle.hose_disk.specs.steps.CabinetState.{CabinetState};

    ghost Value = { CabinetState };

    ghost view = { λ cabinet. record {
      texts = cabinet.texts.items;
      shelf = cabinet.shelf;
      faults = cabinet.faults;
      absent = cabinet.absent;
      returned = cabinet.returned;
      failing = cabinet.failing;
    } };
}

impl MemCabinet {
    /// A cabinet of one disk under a name, and of no text.
    pub fn of(alloc: Global, name: &[u8], disk: MemDisk) -> Result<MemCabinet, AllocError>
        ensures { IfOk result (λ cabinet. cabinet ≡ record {
          texts = [];
          shelf = record { disks = record { name = name.now; item = disk } ∷ []; out = None };
          faults = no_faults;
          absent = 0;
          returned = 0;
          failing = [];
        }) }
    {
        Ok(MemCabinet {
            texts: Vec::new(alloc),
            shelf: Shelf::of(alloc, name, disk)?,
            faults: Faults::none(),
            absent: 0,
            returned: 0,
            failing: FailingCalls::new(alloc),
        })
    }

    /// Adds a text under a name, in place of one that is there.
    pub fn add_text(&mut self, alloc: Global, name: &[u8], bytes: &[u8]) -> Result<(), AllocError>
        ensures ok { OnOk result (self.new ≡ record self.old {
          texts = record { name = name.now; item = bytes.now } ∷ self.old.texts;
        }) }
        ensures err { OnErr result (self.new ≡ self.old) }
    {
        let name = Vec::from_slice(alloc, name)?;
        let item = Text {
            bytes: Vec::from_slice(alloc, bytes)?,
        };
        self.texts.insert(0, Named { name, item })?;
        Ok(())
    }

    /// The `nth` call of `text`, `disk` and `disk_to_read` together from now on, counted from 1, is
    /// to fail.
    pub fn fail(&mut self, nth: u64) -> Result<(), AllocError>
        ensures ok { OnOk result
            (self.new ≡ record self.old { failing = self.old.failing ++ nth ∷ [] }) }
        ensures err { OnErr result (self.new ≡ self.old) }
    {
        self.failing.add(nth)
    }

    /// What it counts of its calls that failed. A disk that is put back counts as one of them where
    /// its last call failed.
    pub fn faults(&self) -> Faults
        ensures { result ≡ self.now.faults }
    {
        self.faults
    }

    /// How many texts were asked for that are not there.
    pub fn absent(&self) -> u64
        ensures { result ≡ self.now.absent }
    {
        self.absent
    }

    // Takes out the disk of a name.
    fn take_out(&mut self, name: &str) -> Result<MemDisk, Failed>
        requires { self.old.shelf.out ≡ None }
        ensures opened { IfOk result (λ disk. mem_disk_frame disk ≡ opened_at (moment_of disk)) }
        ensures content { IfOk result (λ disk. Has true (held_of self.old name.now)
            (λ was. content_of disk ≡ content_of was)) }
        ensures images { IfOk result (λ disk. Has true (held_of self.old name.now)
            (λ was. NoneNew (image_of was) (image_of disk))) }
        ensures untold { IfOk result (λ disk. IsFalse true → content_of disk ≡ None) }
        ensures texts { text_of self.new ≡ text_of self.old }
        ensures others { (other : List ℕ) → other ≢ name.now →
            held_of self.new other ≡ held_of self.old other }
        ensures same { OnErr result (held_of self.new ≡ held_of self.old) }
        ensures call { IsDiskCall name.now
            (cabinet_frame self.old) (cabinet_frame self.new) result }

        ensures exact { IsMemOpening name.now self.old self.new result }
    {
        if self.failing.next() {
            return Err(self.faults.fail());
        }
        match self.shelf.take_out(name.as_bytes()) {
            Ok(disk) => Ok(disk.opened_again()),
            Err(_) => Err(self.faults.starve()),
        }
    }
}

impl Cabinet for MemCabinet {
    ghost use Rattle.hose_disk.specs.steps.CabinetState.{cabinet_frame, held_of, text_of};

    type Disk = MemDisk;

    ghost frame = { cabinet_frame };

    ghost apart = { λ _ one other. one ≢ other };

    ghost text = { text_of };

    ghost held = { held_of };

    fn text(&mut self, name: &str, from: u64, into: &mut [u8]) -> Result<usize, Failed>
        requires { 0 < length into.old }
        ensures room { IfOk result (λ count. count ≤ length into.new) }
        ensures read { IfOk result (λ count. Has true (text_of self.old name.now)
            (λ bytes. IsTextAt from count bytes into.new)) }
        ensures refused { IsTrue true → text_of self.old name.now ≡ None → IsErr result }
        ensures absent { IsTrue true → self.new.absent
            ≡ absent_after (text_of self.old name.now) self.old.absent }
        ensures texts { text_of self.new ≡ text_of self.old }
        ensures disks { held_of self.new ≡ held_of self.old }
        ensures call { IsTextCall (cabinet_frame self.old) (cabinet_frame self.new) result }

        ensures fails { IsErr result
            ↔ (Contains self.old.failing 1 ⊎ (text_of self.old name.now ≡ None)) }
        ensures amount { IfOk result (λ count. Has true (text_of self.old name.now)
            (λ bytes. count ≡ min (length into.old) (length bytes - from))) }
        ensures after { MatchResult result
            (λ _. self.new ≡ cabinet_after_done self.old)
            (λ _. self.new ≡ cabinet_after_refusal name.now self.old) }
    {
        let read = read_text(&self.texts, name.as_bytes(), from as usize, into);
        let fails = self.failing.next();
        let Some(count) = read else {
            self.absent = self.absent.saturating_add(1);
            return Err(self.faults.fail());
        };
        if fails {
            return Err(self.faults.fail());
        }
        Ok(count)
    }

    fn tell_apart(&mut self, one: &str, other: &str) -> Result<(), Failed>
        ensures apart { OnOk result (one.now ≢ other.now) }
        ensures refused { one.now ≡ other.now → IsErr result }
        ensures texts { text_of self.new ≡ text_of self.old }
        ensures disks { held_of self.new ≡ held_of self.old }
        ensures call { IsTextCall (cabinet_frame self.old) (cabinet_frame self.new) result }

        ensures ok { OnOk result (self.new ≡ self.old) }
        ensures err { OnErr result (self.new ≡ record self.old {
          faults = one_fault self.old.faults;
        }) }
    {
        if one == other {
            return Err(self.faults.fail());
        }
        Ok(())
    }

    fn disk(&mut self, name: &str) -> Result<MemDisk, Failed>
        requires { self.old.shelf.out ≡ None }
        ensures opened { IfOk result (λ disk. mem_disk_frame disk ≡ opened_at (moment_of disk)) }
        ensures content { IfOk result (λ disk. Has true (held_of self.old name.now)
            (λ was. content_of disk ≡ content_of was)) }
        ensures images { IfOk result (λ disk. Has true (held_of self.old name.now)
            (λ was. NoneNew (image_of was) (image_of disk))) }
        ensures untold { IfOk result (λ disk. IsFalse true → content_of disk ≡ None) }
        ensures texts { text_of self.new ≡ text_of self.old }
        ensures others { (other : List ℕ) → other ≢ name.now →
            held_of self.new other ≡ held_of self.old other }
        ensures same { OnErr result (held_of self.new ≡ held_of self.old) }
        ensures call { IsDiskCall name.now
            (cabinet_frame self.old) (cabinet_frame self.new) result }

        ensures exact { IsMemOpening name.now self.old self.new result }
    {
        self.take_out(name)
    }

    fn disk_to_read(&mut self, name: &str) -> Result<MemDisk, Failed>
        requires { self.old.shelf.out ≡ None }
        ensures opened { IfOk result (λ disk. mem_disk_frame disk ≡ opened_at (moment_of disk)) }
        ensures content { IfOk result (λ disk. Has true (held_of self.old name.now)
            (λ was. content_of disk ≡ content_of was)) }
        ensures images { IfOk result (λ disk. Has true (held_of self.old name.now)
            (λ was. NoneNew (image_of was) (image_of disk))) }
        ensures untold { IfOk result (λ disk. IsFalse true → content_of disk ≡ None) }
        ensures texts { text_of self.new ≡ text_of self.old }
        ensures others { (other : List ℕ) → other ≢ name.now →
            held_of self.new other ≡ held_of self.old other }
        ensures same { OnErr result (held_of self.new ≡ held_of self.old) }
        ensures call { IsDiskCall name.now
            (cabinet_frame self.old) (cabinet_frame self.new) result }

        ensures exact { IsMemOpening name.now self.old self.new result }
    {
        self.take_out(name)
    }

    fn back(&mut self, disk: MemDisk)
        requires { IsSome self.old.shelf.out }
        ensures held { IfSome self.old.shelf.out
            (λ name. held_of self.new name ≡ where_told true disk) }
        ensures others { IfSome self.old.shelf.out (λ name. (other : List ℕ) → other ≢ name →
            held_of self.new other ≡ held_of self.old other) }
        ensures texts { text_of self.new ≡ text_of self.old }
        ensures never_falls { self.old.faults.count ≤ self.new.faults.count }
        ensures call { cabinet_frame self.new
            ≡ after_back (mem_disk_frame disk) (cabinet_frame self.old) }

        ensures exact { IfSome self.old.shelf.out
            (λ name. self.new ≡ cabinet_after_return name disk self.old) }
    {
        self.returned = disk.faults().count;
        if disk.has_failed() {
            self.faults.fail();
        }
        self.shelf.put_back(disk);
    }
}

// Reads a text from a place, where there is one of the name.
fn read_text(texts: &[Named<Text>], name: &[u8], from: usize, into: &mut [u8]) -> Option<usize>
    requires { 0 < length into.old }
    ensures none { IfNone result (item_of name.now texts.now ≡ None) }
    ensures room { IfSome result (λ count. count ≤ length into.new) }
    ensures read { IfSome result (λ count. Has true (item_of name.now texts.now)
        (λ bytes. IsTextAt from count bytes into.new
        × (count ≡ min (length into.old) (length bytes - from)))) }
{
    let place = place_of(texts, name)?;
    let named = &texts[place];
    let text = &named.item;
    Some(read(&text.bytes, from, into))
}
