// A disk over a file of the system.
ghost use Rattle.std.specs.Prelude.{◌≡◌, ◌+◌, ◌<◌, ◌≤◌, ◌^◌, Ok, IfOk, false, length};
ghost use Rattle.hose_disk.specs.steps.Disk.{IsCalled};

use crate::disk::Disk;
use crate::trouble::Trouble;
use hose_io::Failed;
use std::fs::File;
use std::io;
use std::io::ErrorKind;
use std::marker::Model;
use std::os::unix::fs::FileExt;

const LENGTH_END: u64 = 1 << 62;

/// A disk over a file that is open for reading and writing, or for reading alone, where each write
/// and cut fails. It tells nothing of its content, and
/// nothing is proved of what the file holds: that is up to the system, and is tried by tests.
#[derive(Drop)]
pub struct FileDisk {
    file: File,
    faults: u64,
    has_failed: bool,
    trouble: Option<Trouble>,
}

impl Model for FileDisk {
    ghost use Rattle.hose_disk.specs.Disk.{DiskFrame};

    ghost Value = { DiskFrame };

    ghost view = { λ disk. record {
      faults = disk.faults;
      opened = 0;
      has_failed = disk.has_failed;
    } };
}

impl FileDisk {
    /// A disk that has not failed.
    pub fn new(file: File) -> FileDisk
        ensures { result ≡ record { faults = 0; opened = 0; has_failed = false } }
    {
        FileDisk {
            file,
            faults: 0,
            has_failed: false,
            trouble: None,
        }
    }

    pub(crate) fn faults(&self) -> u64
        ensures { result ≡ self.now.faults }
    {
        self.faults
    }

    pub(crate) fn has_failed(&self) -> bool
        ensures { result ≡ self.now.has_failed }
    {
        self.has_failed
    }

    /// Why a call of it failed last.
    pub(crate) fn trouble(&self) -> Option<Trouble> {
        self.trouble
    }

    // Counts a call that failed.
    fn noted<T: Drop>(&mut self, answer: io::Result<T>) -> Result<T, Failed>
        ensures same { IfOk result (λ value. answer ≡ Ok value) }
        ensures call { IsCalled self.old self.new result }
    {
        self.has_failed = answer.is_err();
        match answer {
            Ok(value) => Ok(value),
            Err(error) => {
                self.faults = self.faults.saturating_add(1);
                self.trouble = Some(Trouble::of(error.kind()));
                Err(Failed)
            }
        }
    }
}

impl Disk for FileDisk {
    ghost use Rattle.hose_disk.specs.steps.Untold.{no_image, untold_bytes};

    ghost frame = { λ disk. disk };

    ghost content = { λ _. untold_bytes };

    ghost may_leave = { λ _. no_image };

    ghost moment = { λ _. 0 };

    ghost left_since = { λ _ _. no_image };

    ghost counts_now = { λ _ _ _ _ now. now };

    ghost only_now = { λ _ _ left. left };

    ghost reads_an_image = { λ _. tt };

    ghost untold = { λ _ _ _ _ left. left };

    fn len(&mut self) -> Result<u64, Failed> {
        let answer = measure(&self.file);
        self.noted(answer)
    }

    fn read_at(&mut self, at: u64, into: &mut [u8]) -> Result<usize, Failed> {
        let answer = read(&self.file, at, into);
        self.noted(answer)
    }

    fn write_at(&mut self, at: u64, bytes: &[u8]) -> Result<(), Failed> {
        let answer = self.file.write_all_at(bytes, at);
        self.noted(answer)
    }

    fn cut(&mut self, len: u64) -> Result<(), Failed> {
        let answer = self.file.set_len(len);
        self.noted(answer)
    }

    fn sync(&mut self) -> Result<(), Failed> {
        let answer = self.file.sync_data();
        self.noted(answer)
    }
}

// The length. One of 2^62 or more is a failure.
fn measure(file: &File) -> io::Result<u64>
    ensures { IfOk result (λ len. len < 2 ^ 62) }
{
    let len = file.metadata()?.len();
    if len >= LENGTH_END {
        return Err(ErrorKind::FileTooLarge.into());
    }
    Ok(len)
}

// Reads until `into` is full or the file ends.
fn read(file: &File, at: u64, into: &mut [u8]) -> io::Result<usize>
    requires { at + length into.old < 2 ^ 62 }
    ensures { IfOk result (λ count. count ≤ length into.new) }
{
    let mut count = 0;
    while count < into.len() {
        let more = read_some(file, at + count as u64, &mut into[count..])?;
        if more == 0 {
            break;
        }
        count += more;
    }
    Ok(count)
}

/// Reads once. A read that was interrupted is tried again.
pub(crate) fn read_some(file: &File, at: u64, into: &mut [u8]) -> io::Result<usize>
    ensures { IfOk result (λ count. count ≤ length into.new) }
{
    for _ in 0..u64::MAX {
        match file.read_at(into, at) {
            Err(error) if error.kind() == ErrorKind::Interrupted => {}
            answer => return answer,
        }
    }
    Err(ErrorKind::Interrupted.into())
}
