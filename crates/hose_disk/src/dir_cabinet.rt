// A cabinet of the file system.
ghost use Rattle.std.specs.Prelude.{◌≡◌, ◌≤◌, IfOk, None, false};
ghost use Rattle.hose_io.specs.Count.{one_more};
ghost use Rattle.hose_io.specs.Frame.{Rose};
ghost use Rattle.hose_disk.specs.Cabinet.{IsDiskCall, object_of, opened_at};

use crate::cabinet::Cabinet;
use crate::file_disk::FileDisk;
use crate::files::{FileId, Looked, OpenDisk, OpenText, open_disk, open_to_read, read_text};
use crate::trouble::Trouble;
use hose_io::Failed;
use std::fs::File;
use std::io;
use std::io::ErrorKind;
use std::marker::Model;
use std::rt::Files;

// A disk that was put back: its name, and which file it is.
#[derive(Drop)]
struct Returned {
    name: Vec<u8>,
    id: FileId,
}

/// A cabinet whose names are paths, and whose texts and disks are regular files: another kind of
/// file is a failure. A disk that is out is locked by the system's advisory lock, and one that
/// another program has locked so is a failure. So is the file that was put back last, where it is
/// asked for by another name: two names are two disks. A text is the file that was at its path when
/// its first piece was asked for, until its end is given or another text is asked for.
///
/// It tells nothing, and nothing is proved of what the files hold: that is up to the system, and is
/// tried by tests. What stands at a path is looked at before it is opened, since to open a pipe may
/// wait for ever; where another program puts a pipe there in between, it does.
#[derive(Drop)]
pub struct DirCabinet<F> {
    rt: F,
    reading: Option<OpenText>,
    faults: u64,
    absent: u64,
    returned: u64,
    out: Option<Vec<u8>>,
    out_id: Option<FileId>,
    last: Option<Returned>,
    looked: Option<Looked>,
    trouble: Option<Trouble>,
}

impl<F> Model for DirCabinet<F> {
    ghost use Rattle.std.specs.Prelude.{false, option_map};
    ghost use Rattle.hose_disk.specs.steps.DirState.{DirState};

    ghost Value = { DirState };

    ghost view = { λ cabinet. record {
      frame = record {
        faults = cabinet.faults;
        absent = cabinet.absent;
        returned = cabinet.returned;
        out = option_map (λ name. name.items) cabinet.out;
        tells = false;
      };
      looked = cabinet.looked;
    } };
}

impl<F: Files<File = File> + AllocGlobal + Drop> DirCabinet<F> {
    /// The files that the runtime reaches. A path that is not absolute begins at the folder where
    /// the program runs.
    pub fn new(rt: F) -> DirCabinet<F>
        ensures { result ≡ record {
          frame = record { faults = 0; absent = 0; returned = 0; out = None; tells = false };
          looked = None;
        } }
    {
        DirCabinet {
            rt,
            reading: None,
            faults: 0,
            absent: 0,
            returned: 0,
            out: None,
            out_id: None,
            last: None,
            looked: None,
            trouble: None,
        }
    }

    /// How many calls have failed. A disk that is put back counts as one of them where its last
    /// call failed.
    pub fn faults(&self) -> u64
        ensures { result ≡ self.now.frame.faults }
    {
        self.faults
    }

    /// How many texts were asked for that are not there.
    pub fn absent(&self) -> u64
        ensures { result ≡ self.now.frame.absent }
    {
        self.absent
    }

    /// Why a call failed last, as far as the system says it. No clause speaks of it.
    pub fn trouble(&self) -> Option<Trouble> {
        self.trouble
    }

    // Counts a call that failed for this cause.
    fn fault(&mut self, trouble: Trouble) -> Failed
        ensures after { self.new ≡ record self.old {
          frame = record self.old.frame { faults = one_more self.old.frame.faults };
        } }
        ensures rose { Rose (object_of self.old.frame) (object_of self.new.frame) }
        ensures never_falls { self.old.frame.faults ≤ self.new.frame.faults }
    {
        self.faults = self.faults.saturating_add(1);
        self.trouble = Some(trouble);
        Failed
    }

    // Notes the disk of a name as the one that is out, where it was opened.
    fn lend(&mut self, name: Vec<u8>, opened: io::Result<OpenDisk>) -> Result<FileDisk, Failed>
        ensures opened { IfOk result (λ disk. disk ≡ opened_at 0) }
        ensures call { IsDiskCall name.items self.old.frame self.new.frame result }
    {
        let opened = match opened {
            Ok(opened) => opened,
            Err(error) => return Err(self.fault(Trouble::of(error.kind()))),
        };
        if is_by_another_name(self.last.as_ref(), &name, opened.id) {
            return Err(self.fault(Trouble::OneFile));
        }
        self.out = Some(name);
        self.out_id = Some(opened.id);
        Ok(FileDisk::new(opened.file))
    }
}

impl<F: Files<File = File> + AllocGlobal + Drop> Cabinet for DirCabinet<F> {
    ghost use Rattle.hose_disk.specs.steps.DirState.{HasLookedAtTwo};
    ghost use Rattle.hose_disk.specs.steps.Untold.{untold_bytes, untold_disk};

    type Disk = FileDisk;

    ghost frame = { λ cabinet. cabinet.frame };

    ghost apart = { λ cabinet _ _. HasLookedAtTwo cabinet.looked };

    ghost text = { λ _ _. untold_bytes };

    ghost held = { λ _ _. untold_disk };

    fn text(&mut self, name: &str, from: u64, into: &mut [u8]) -> Result<usize, Failed> {
        match read_text(&self.rt, &mut self.reading, name, from, into) {
            Ok(count) => Ok(count),
            Err(error) => {
                if error.kind() == ErrorKind::NotFound {
                    self.absent = self.absent.saturating_add(1);
                }
                Err(self.fault(Trouble::of(error.kind())))
            }
        }
    }

    fn tell_apart(&mut self, one: &str, other: &str) -> Result<(), Failed> {
        let looked = Looked::at(&self.rt, one, other);
        self.looked = Some(looked);
        if one == other {
            return Err(self.fault(Trouble::OneFile));
        }
        if !looked.is_at_two() {
            return Err(self.fault(Trouble::OneFile));
        }
        Ok(())
    }

    fn disk(&mut self, name: &str) -> Result<FileDisk, Failed> {
        let Ok(out) = Vec::from_slice(self.rt.alloc(), name.as_bytes()) else {
            return Err(self.fault(Trouble::Memory));
        };
        let opened = open_disk(&self.rt, name);
        self.lend(out, opened)
    }

    fn disk_to_read(&mut self, name: &str) -> Result<FileDisk, Failed> {
        let Ok(out) = Vec::from_slice(self.rt.alloc(), name.as_bytes()) else {
            return Err(self.fault(Trouble::Memory));
        };
        let opened = open_to_read(&self.rt, name);
        self.lend(out, opened)
    }

    fn back(&mut self, disk: FileDisk) {
        let name = self.out.take();
        self.last = returned_as(name, self.out_id);
        self.returned = disk.faults();
        if disk.has_failed() {
            self.fault(disk.trouble().unwrap_or(Trouble::Disk));
        }
    }
}

// What is noted of a disk that is put back.
fn returned_as(name: Option<Vec<u8>>, id: Option<FileId>) -> Option<Returned> {
    match (name, id) {
        (Some(name), Some(id)) => Some(Returned { name, id }),
        _ => None,
    }
}

// Whether a file is the one that was put back last, under another name.
fn is_by_another_name(last: Option<&Returned>, name: &[u8], id: FileId) -> bool {
    match last {
        Some(last) => last.id == id && last.name.as_slice() != name,
        None => false,
    }
}
