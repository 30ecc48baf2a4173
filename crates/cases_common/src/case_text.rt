// What is told of a case, put together piece by piece.
use std::alloc::{AllocError, Global};
use std::fmt::Debug;

/// What is told of a case. That there was no memory for a piece of it shows at its end.
#[derive(Drop)]
pub struct CaseText {
    alloc: Global,
    text: String,
    is_whole: bool,
}

impl CaseText {
    pub fn new(alloc: Global) -> CaseText {
        CaseText {
            alloc,
            text: String::new(alloc),
            is_whole: true,
        }
    }

    /// Where memory is taken from for what is told, and for what is told of.
    pub fn alloc(&self) -> Global {
        self.alloc
    }

    /// Adds a piece, where there was memory for it.
    pub fn add(&mut self, piece: Result<String, AllocError>) {
        match piece {
            Ok(piece) => self.put(piece.as_str()),
            Err(AllocError) => self.is_whole = false,
        }
    }

    /// Adds a piece that is a part of a text.
    pub fn put(&mut self, piece: &str) {
        if self.text.push_str(piece).is_err() {
            self.is_whole = false;
        }
    }

    /// Adds a value, as it is printed for those who look for faults.
    pub fn show<T: Debug>(&mut self, value: &T) {
        self.add(debugged(self.alloc, value));
    }

    /// Forgets what was told so far.
    pub fn clear(&mut self) {
        self.text = String::new(self.alloc);
    }

    /// Whether nothing was added.
    pub fn is_empty(&self) -> bool {
        self.text.is_empty()
    }

    /// What was told so far.
    pub fn told(&self) -> Result<&str, AllocError> {
        if self.is_whole {
            Ok(self.text.as_str())
        } else {
            Err(AllocError)
        }
    }

    pub fn finish(self) -> Result<String, AllocError> {
        if self.is_whole {
            Ok(self.text)
        } else {
            Err(AllocError)
        }
    }
}

/// How a value is printed for those who look for faults.
pub fn debugged<T: Debug>(alloc: Global, value: &T) -> Result<String, AllocError> {
    format!(in alloc; "{value:?}")
}
