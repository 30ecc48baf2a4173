// How the files of a cabinet are opened.
ghost use Rattle.std.specs.Prelude.{◌≤◌, ◌↔◌, IfOk, IsOk, IsTrue, length};
ghost use Rattle.std.specs.Fs.{IsFile, file_type};
ghost use Rattle.hose_disk.specs.steps.DirState.{AreTwoFiles};

use crate::file_disk::read_some;
use std::fs::{File, Metadata, OpenOptions};
use std::io::ErrorKind;
use std::os::fd::AsRawFd;
use std::os::unix::fs::{MetadataExt, OpenOptionsExt};
use std::path::PathBuf;
use std::rt::Files;
use std::{fs, io};

// The greatest descriptor of a standard stream.
const STANDARD_END: i32 = 2;

// The mode of a new disk: its owner alone reads and writes it.
const OWNER_ALONE: u32 = 0o600;

/// A text that is being read.
#[derive(Drop)]
pub struct OpenText {
    path: Vec<u8>,
    file: File,
}

/// Reads a piece of a text. It stays open until its end is given, so that all its pieces are of one
/// file.
pub fn read_text<F: Files<File = File> + AllocGlobal>(
    rt: &F,
    reading: &mut Option<OpenText>,
    path: &str,
    from: u64,
    into: &mut [u8],
) -> io::Result<usize>
    ensures { IfOk result (λ count. count ≤ length into.new) }
{
    let text = text_at(rt, reading.take(), path)?;
    let count = read_some(&text.file, from, into)?;
    if count > 0 {
        *reading = Some(text);
    }
    Ok(count)
}

// The text that is being read where it was opened at this path, or else the one that is there.
fn text_at<F: Files<File = File> + AllocGlobal>(
    rt: &F,
    reading: Option<OpenText>,
    path: &str,
) -> io::Result<OpenText> {
    if let Some(text) = reading {
        if text.path.as_slice() == path.as_bytes() {
            return Ok(text);
        }
    }
    require_file(&fs::metadata(rt, path)?)?;
    let file = open_above(rt, File::options().read(true), path)?;
    require_file(&file.metadata()?)?;
    Ok(OpenText {
        path: Vec::from_slice(rt.alloc(), path.as_bytes())?,
        file,
    })
}

/// Which file one is, by whatever name.
#[derive(Clone, Copy, PartialEq, Eq)]
pub struct FileId {
    device: u64,
    inode: u64,
}

/// Which files two names lead to; none where none is seen.
#[derive(Clone, Copy)]
pub struct Looked {
    one: Option<FileId>,
    other: Option<FileId>,
}

impl Looked {
    /// Looks where two names lead to, and opens nothing.
    pub fn at<F: Files<File = File>>(rt: &F, one: &str, other: &str) -> Looked {
        Looked {
            one: file_at(rt, one),
            other: file_at(rt, other),
        }
    }

    /// Whether they lead to two files.
    pub fn is_at_two(self) -> bool
        ensures { IsTrue result ↔ AreTwoFiles self.one self.other }
    {
        match (self.one, self.other) {
            (Some(one), Some(other)) => one.device != other.device || one.inode != other.inode,
            _ => true,
        }
    }
}

// Which file a path leads to, where one is seen.
fn file_at<F: Files<File = File>>(rt: &F, path: &str) -> Option<FileId> {
    match fs::metadata(rt, path) {
        Ok(there) => Some(id_of(&there)),
        Err(_) => None,
    }
}

// Which file this is of.
fn id_of(there: &Metadata) -> FileId {
    FileId {
        device: there.dev(),
        inode: there.ino(),
    }
}

/// A disk that was opened.
#[derive(Drop)]
pub struct OpenDisk {
    pub file: File,
    pub id: FileId,
}

/// Opens a disk and locks it; one that is not there is made. Then its path leads to it, its name is
/// durable, and what is read of it comes from the device.
pub fn open_disk<F: Files<File = File> + AllocGlobal>(rt: &F, path: &str) -> io::Result<OpenDisk> {
    match fs::metadata(rt, path) {
        Ok(there) => require_file(&there)?,
        Err(error) if error.kind() == ErrorKind::NotFound => {}
        Err(error) => return Err(error),
    }
    let mut options = File::options();
    options
        .read(true)
        .write(true)
        .create(true)
        .mode(OWNER_ALONE);
    let file = open_above(rt, &options, path)?;
    let opened = file.metadata()?;
    require_file(&opened)?;
    file.try_lock()?;
    // Until the lock was there, another program might have put another file at the path.
    let real = fs::canonicalize(rt, path)?;
    require_same(&opened, &fs::metadata(rt, real.as_str())?)?;
    settle(&file)?;
    sync_folder(rt, real)?;
    Ok(OpenDisk {
        file,
        id: id_of(&opened),
    })
}

/// Opens a disk to be read alone, and locks it against who would write; others may read it as well.
/// One that is not there is not made, and nothing is made durable but what others wrote.
pub fn open_to_read<F: Files<File = File>>(rt: &F, path: &str) -> io::Result<OpenDisk> {
    require_file(&fs::metadata(rt, path)?)?;
    let file = open_above(rt, File::options().read(true), path)?;
    let opened = file.metadata()?;
    require_file(&opened)?;
    file.try_lock_shared()?;
    require_same(&opened, &fs::metadata(rt, path)?)?;
    match settle(&file) {
        // A file system that is never written has no sync, and nothing to sync.
        Err(error) if error.kind() == ErrorKind::InvalidInput => {}
        settled => settled?,
    }
    Ok(OpenDisk {
        file,
        id: id_of(&opened),
    })
}

// Opens a file with a descriptor above those of the standard streams. Where one of these is closed,
// the system gives its descriptor to the file, and what is meant for the stream would go there.
fn open_above<F: Files<File = File>>(
    rt: &F,
    options: &OpenOptions,
    path: &str,
) -> io::Result<File> {
    let file = options.open(rt, path)?;
    if file.as_raw_fd() > STANDARD_END {
        return Ok(file);
    }
    file.try_clone()
}

// Has what is read of a file from now on come from the device. Where a sync failed in an earlier
// program, the system may hold pages that the device does not, and takes them for written.
fn settle(file: &File) -> io::Result<()> {
    file.sync_all()?;
    match libc::posix_fadvise(file.as_raw_fd(), 0, 0, libc::POSIX_FADV_DONTNEED) {
        0 => Ok(()),
        error => Err(io::Error::from_raw_os_error(error)),
    }
}

// Makes the names in a file's folder durable. A file that was moved there may have one that is not.
fn sync_folder<F: Files<File = File>>(rt: &F, path: PathBuf) -> io::Result<()> {
    let mut folder = path;
    folder.pop();
    open_above(rt, File::options().read(true), folder.as_str())?.sync_all()
}

// Fails where this is no regular file.
fn require_file(there: &Metadata) -> io::Result<()>
    ensures { IsOk result ↔ IsFile (file_type there.now) }
{
    if there.is_file() {
        Ok(())
    } else if there.is_dir() {
        Err(ErrorKind::IsADirectory.into())
    } else {
        Err(ErrorKind::InvalidInput.into())
    }
}

// Fails where these are not of one file.
fn require_same(one: &Metadata, other: &Metadata) -> io::Result<()> {
    if one.dev() == other.dev() && one.ino() == other.ino() {
        Ok(())
    } else {
        Err(ErrorKind::NotFound.into())
    }
}
