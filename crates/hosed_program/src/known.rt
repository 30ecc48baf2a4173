// What is known of what ended the program, beside the reason that its calls hand on.

use hose_disk::{DirCabinet, Trouble};
use std::cell::Cell;
use std::fs::File;
use std::rt::Files;

/// By what a sentence is told: standard error, and whether it was noted that who reads the output
/// has gone.
#[derive(Clone, Copy)]
pub struct Hints<'h, E> {
    pub rt: &'h E,
    pub unread: &'h Cell<bool>,
}

/// What is known besides of what ended the program.
#[derive(Clone, Copy)]
pub struct Known {
    /// Who reads the output has gone.
    pub unread: bool,
    /// What the system said where a call on a file failed last.
    pub trouble: Option<Trouble>,
}

impl Known {
    /// Nothing is known.
    pub fn nothing() -> Known {
        Known {
            unread: false,
            trouble: None,
        }
    }
}

/// Who can tell what the system said where a call on a file failed last.
pub trait Troubled {
    fn last_trouble(&self) -> Option<Trouble>;
}

impl<F: Files<File = File> + AllocGlobal + Drop> Troubled for DirCabinet<F> {
    fn last_trouble(&self) -> Option<Trouble> {
        self.trouble()
    }
}

/// What the system said, in words.
pub fn told(trouble: Trouble) -> &'static str {
    match trouble {
        Trouble::NotFound => "no such file",
        Trouble::Denied => "permission denied",
        Trouble::Held => "another program holds it",
        Trouble::Folder => "it is a folder",
        Trouble::NoFolder => "a part of its path is no folder",
        Trouble::NotRegular => "it is no regular file",
        Trouble::ReadOnly => "its file system is read-only",
        Trouble::Loop => "its path is a loop of links",
        Trouble::NameTooLong => "its name is too long",
        Trouble::OneFile => "it and the other journal are one file",
        Trouble::Full => "its disk is full",
        Trouble::Memory => "there was not enough memory",
        Trouble::Disk => "the system refused it, or its disk failed",
    }
}
