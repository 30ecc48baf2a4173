// Why a call on a file of the system failed.
use std::io::ErrorKind;

/// Why a call of a cabinet of the file system failed, as far as the system says it.
#[derive(Clone, Copy, Debug, PartialEq, Eq)]
pub enum Trouble {
    /// No such file.
    NotFound,
    /// Rights are missing.
    Denied,
    /// Another program holds it.
    Held,
    /// It is a folder.
    Folder,
    /// A part of its path is no folder.
    NoFolder,
    /// It is no regular file.
    NotRegular,
    /// Its file system is read-only.
    ReadOnly,
    /// Its path is a loop of links.
    Loop,
    /// Its name is too long.
    NameTooLong,
    /// Another name leads to it.
    OneFile,
    /// Its disk is full.
    Full,
    /// Memory is wanting.
    Memory,
    /// Its disk failed, or the system says no more.
    Disk,
}

impl Trouble {
    /// What an error of the system means for a file.
    pub(crate) fn of(kind: ErrorKind) -> Trouble {
        match kind {
            ErrorKind::NotFound => Trouble::NotFound,
            ErrorKind::PermissionDenied => Trouble::Denied,
            ErrorKind::WouldBlock => Trouble::Held,
            ErrorKind::IsADirectory => Trouble::Folder,
            ErrorKind::NotADirectory => Trouble::NoFolder,
            ErrorKind::InvalidInput => Trouble::NotRegular,
            ErrorKind::ReadOnlyFilesystem => Trouble::ReadOnly,
            ErrorKind::FilesystemLoop => Trouble::Loop,
            ErrorKind::InvalidFilename => Trouble::NameTooLong,
            ErrorKind::StorageFull | ErrorKind::QuotaExceeded => Trouble::Full,
            ErrorKind::OutOfMemory => Trouble::Memory,
            _ => Trouble::Disk,
        }
    }
}
