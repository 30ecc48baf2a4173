// A case: one call of the server, and what must come of it.
ghost use Rattle.std.specs.Prelude.{◌≡◌, ◌≤◌, ◌↔◌, IfOk, IsErr};

use crate::line::{CaseLine, CasePlace};
use crate::pattern::{Pattern, number};
use crate::trouble::{
    BAD_DIGITS, CaseTrouble, NO_SUCH_BOOK, NO_SUCH_CALL, NO_SUCH_CONNECTION, NO_SUCH_LINE, ZERO,
};
use cases_common::{disk_call, first};
use hose_disk::DiskCall;
use std::alloc::{AllocError, Global};

// How many bytes a call moves where a file does not say.
const PIECE: u64 = 4_096;

/// How many bytes a stream moves in a call at most, one at least.
#[derive(Clone, Copy)]
pub struct CasePiece {
    pub bytes: u64,
    ghost some: { 1 ≤ bytes },
}

impl CasePiece {
    /// A piece of so many bytes.
    pub fn new(bytes: u64) -> Result<CasePiece, CaseTrouble>
        ensures ok { IfOk result (λ piece. piece.bytes ≡ bytes) }
        ensures zero { IsErr result ↔ (bytes ≡ 0) }
    {
        if bytes == 0 {
            return Err(CaseTrouble::Case(ZERO));
        }
        Ok(CasePiece { bytes })
    }
}

/// The input of a case.
#[derive(Drop)]
pub struct CaseInput {
    pub bytes: Vec<u8>,
    pub piece: CasePiece,
    /// The numbers of its calls that fail, counted from 1.
    pub failing: Vec<u64>,
    /// How many more bytes it has, and whether they are its lines again and again.
    pub more: u64,
    pub repeats: bool,
}

/// The output of a case.
#[derive(Drop)]
pub struct CaseOutput {
    /// What must come out.
    pub bytes: Vec<u8>,
    pub piece: CasePiece,
    /// The numbers of its calls that fail, counted from 1.
    pub failing: Vec<u64>,
    /// Whether each call of it fails in turn.
    pub cuts: bool,
    /// How many bytes of that come, where not all do.
    pub front: Option<u64>,
}

/// A connection of the door, which is accepted after those before it.
#[derive(Drop)]
pub struct CaseConnection {
    /// What it gives.
    pub bytes: Vec<u8>,
    /// What it must be given.
    pub wanted: Vec<u8>,
    /// The number of the call of its input that fails, counted from 1; 0 where none does.
    pub failing: u64,
}

/// The door of a case.
#[derive(Drop)]
pub struct CaseDoor {
    pub connections: Vec<CaseConnection>,
    /// The numbers of its calls that fail, counted from 1.
    pub failing: Vec<u64>,
}

/// The disk of the journal `j`, in the cabinet of a case.
#[derive(Drop)]
pub struct CaseJournal {
    pub bytes: Vec<u8>,
    /// The calls of it that fail, by their kinds and their numbers, counted from 1.
    pub failing: Vec<(DiskCall, u64)>,
}

/// Another network, which the journal is moved to.
#[derive(Drop)]
pub struct CaseMove {
    /// The text `u` of the cabinet. Where it has no byte, it is not there.
    pub text: Vec<u8>,
    /// What the disk `k` of the cabinet holds at first.
    pub bytes: Vec<u8>,
    /// What it holds afterwards.
    pub left: Option<Vec<u8>>,
}

/// Stops of the program after so many calls of its disk.
#[derive(Drop)]
pub struct CaseStop {
    pub from: u64,
    /// The last number of calls, which is one of them.
    pub to: u64,
    /// The numbers of the books of which one must be found, counted from 1.
    pub books: Vec<u64>,
}

/// What a case calls.
#[derive(Clone, Copy)]
pub enum Call {
    /// The program.
    Program,
    /// A session, and one before it, on one shared book.
    Session,
    /// Two sessions at once, each of which admits and releases so often.
    Conversation(u64),
}

/// What must come of a case, besides what is put out and what connections are given.
#[derive(Drop)]
pub struct Wanted {
    /// Whether the case says anything of what must come of it.
    pub is_said: bool,
    pub status: u64,
    /// How many bytes of the input are taken.
    pub taken: Option<u64>,
    /// At which epoch the book of the journal is found afterwards.
    pub at: Option<u64>,
    /// What the disk of the journal holds afterwards.
    pub left: Option<Vec<u8>>,
    /// What is found after stops of the program.
    pub stops: Vec<CaseStop>,
    /// The audits of the books that stops name.
    pub books: Vec<Vec<u8>>,
}

/// One call of the server, and what must come of it.
#[derive(Drop)]
pub struct Case {
    pub name: String,
    pub call: Call,
    /// The words after the program's name.
    pub words: Vec<String>,
    pub input: CaseInput,
    pub output: CaseOutput,
    /// The text `t` of the cabinet. Where it has no byte, it is not there.
    pub text: Vec<u8>,
    /// The number of the cabinet's call for a text or a disk that fails, counted from 1.
    pub failing: Option<u64>,
    pub journal: CaseJournal,
    pub moved: CaseMove,
    pub door: CaseDoor,
    pub wanted: Wanted,
    /// Whether the gate holds sessions up.
    pub holds: bool,
    /// Whether connections are judged by the rules of replies, and not by their bytes.
    pub is_judged: bool,
}

// Each part has a call for the lines that begin with a word, which answers whether the word is one
// of the part's.

impl CaseInput {
    fn new(alloc: Global) -> CaseInput {
        CaseInput {
            bytes: Vec::new(alloc),
            piece: CasePiece { bytes: PIECE },
            failing: Vec::new(alloc),
            more: 0,
            repeats: false,
        }
    }

    fn set(&mut self, alloc: Global, word: &str, rest: &str) -> Result<bool, CaseTrouble> {
        match word {
            "read" => self.piece = CasePiece::new(number(rest)?)?,
            "read-fails" => self.failing = calls_of(alloc, rest)?,
            "more" => self.more = number(rest)?,
            "again" => {
                self.more = number(rest)?;
                self.repeats = true;
            }
            _ => return Ok(false),
        }
        Ok(true)
    }
}

impl CaseOutput {
    fn new(alloc: Global) -> CaseOutput {
        CaseOutput {
            bytes: Vec::new(alloc),
            piece: CasePiece { bytes: PIECE },
            failing: Vec::new(alloc),
            cuts: false,
            front: None,
        }
    }

    fn set(&mut self, alloc: Global, word: &str, rest: &str) -> Result<bool, CaseTrouble> {
        match word {
            "write" => self.piece = CasePiece::new(number(rest)?)?,
            "write-fails" => self.failing = calls_of(alloc, rest)?,
            "cuts" => self.cuts = true,
            "front" => self.front = Some(number(rest)?),
            _ => return Ok(false),
        }
        Ok(true)
    }
}

impl CaseDoor {
    fn new(alloc: Global) -> CaseDoor {
        CaseDoor {
            connections: Vec::new(alloc),
            failing: Vec::new(alloc),
        }
    }

    fn set(&mut self, alloc: Global, word: &str, rest: &str) -> Result<bool, CaseTrouble> {
        match word {
            "door-fails" => self.failing = calls_of(alloc, rest)?,
            "peer-fails" => set_failing(&mut self.connections, rest)?,
            _ => return Ok(false),
        }
        Ok(true)
    }

    // Adds bytes that the connection of this number gives, or must be given. It is the next or one
    // before it.
    fn add(
        &mut self,
        alloc: Global,
        nth: u64,
        is_wanted: bool,
        pattern: Pattern<'_>,
    ) -> Result<(), CaseTrouble> {
        add_connection(alloc, &mut self.connections, nth)?;
        match self.connections.get_mut(nth.wrapping_sub(1) as usize) {
            Some(connection) => connection.add(is_wanted, pattern),
            None => Err(CaseTrouble::Case(NO_SUCH_CONNECTION)),
        }
    }
}

impl CaseConnection {
    fn add(&mut self, is_wanted: bool, pattern: Pattern<'_>) -> Result<(), CaseTrouble> {
        pattern.add_to(if is_wanted {
            &mut self.wanted
        } else {
            &mut self.bytes
        })
    }
}

impl CaseJournal {
    fn new(alloc: Global) -> CaseJournal {
        CaseJournal {
            bytes: Vec::new(alloc),
            failing: Vec::new(alloc),
        }
    }

    fn set(&mut self, alloc: Global, word: &str, rest: &str) -> Result<bool, CaseTrouble> {
        match word {
            "journal" => self.bytes = bytes_of(alloc, rest)?,
            "disk-fails" => add_disk_calls(alloc, &mut self.failing, rest)?,
            _ => return Ok(false),
        }
        Ok(true)
    }
}

impl CaseMove {
    fn new(alloc: Global) -> CaseMove {
        CaseMove {
            text: Vec::new(alloc),
            bytes: Vec::new(alloc),
            left: None,
        }
    }

    fn set(&mut self, alloc: Global, word: &str, rest: &str) -> Result<bool, CaseTrouble> {
        match word {
            "new-journal" => self.bytes = bytes_of(alloc, rest)?,
            "new-left" => self.left = Some(bytes_of(alloc, rest)?),
            _ => return Ok(false),
        }
        Ok(true)
    }
}

impl Wanted {
    fn new(alloc: Global) -> Wanted {
        Wanted {
            is_said: false,
            status: 0,
            taken: None,
            at: None,
            left: None,
            stops: Vec::new(alloc),
            books: Vec::new(alloc),
        }
    }

    fn set(&mut self, alloc: Global, word: &str, rest: &str) -> Result<bool, CaseTrouble> {
        match word {
            "status" => self.status = number(rest)?,
            "taken" => self.taken = Some(number(rest)?),
            "at" => self.at = Some(number(rest)?),
            "left" => self.left = Some(bytes_of(alloc, rest)?),
            "stop" => self.stops.push(stop_of(alloc, rest)?)?,
            _ => return Ok(false),
        }
        self.is_said = true;
        Ok(true)
    }
}

impl Case {
    /// A case of which no line is read yet.
    pub fn new(alloc: Global, name: String) -> Case {
        Case {
            name,
            call: Call::Program,
            words: Vec::new(alloc),
            input: CaseInput::new(alloc),
            output: CaseOutput::new(alloc),
            text: Vec::new(alloc),
            failing: None,
            journal: CaseJournal::new(alloc),
            moved: CaseMove::new(alloc),
            door: CaseDoor::new(alloc),
            wanted: Wanted::new(alloc),
            holds: false,
            is_judged: false,
        }
    }

    /// Adds what a line says. A line that begins a case says nothing of this one.
    pub fn add(&mut self, alloc: Global, line: CaseLine<'_>) -> Result<(), CaseTrouble> {
        match line {
            CaseLine::Nothing | CaseLine::Case(_) => Ok(()),
            CaseLine::Bytes(place, pattern) => self.add_bytes(alloc, place, pattern),
            CaseLine::Setting(word, rest) => self.set(alloc, word, rest),
        }
    }

    fn add_bytes(
        &mut self,
        alloc: Global,
        place: CasePlace,
        pattern: Pattern<'_>,
    ) -> Result<(), CaseTrouble> {
        match place {
            CasePlace::Input => pattern.add_to(&mut self.input.bytes),
            CasePlace::Text => pattern.add_to(&mut self.text),
            CasePlace::NewText => pattern.add_to(&mut self.moved.text),
            CasePlace::Says(nth) => self.door.add(alloc, nth, false, pattern),
            CasePlace::Book(nth) => add_audited(alloc, &mut self.wanted.books, nth, pattern),
            CasePlace::Output => {
                self.wanted.is_said = true;
                pattern.add_to(&mut self.output.bytes)
            }
            CasePlace::Told(nth) => {
                self.wanted.is_said = true;
                self.door.add(alloc, nth, true, pattern)
            }
        }
    }

    // Does what a line says that begins with a word.
    fn set(&mut self, alloc: Global, word: &str, rest: &str) -> Result<(), CaseTrouble> {
        if self.input.set(alloc, word, rest)? {
            return Ok(());
        }
        if self.output.set(alloc, word, rest)? {
            return Ok(());
        }
        if self.door.set(alloc, word, rest)? {
            return Ok(());
        }
        if self.journal.set(alloc, word, rest)? {
            return Ok(());
        }
        if self.moved.set(alloc, word, rest)? {
            return Ok(());
        }
        if self.wanted.set(alloc, word, rest)? {
            return Ok(());
        }
        self.set_own(alloc, word, rest)
    }

    fn set_own(&mut self, alloc: Global, word: &str, rest: &str) -> Result<(), CaseTrouble> {
        match word {
            "words" => self.words = words_of(alloc, rest)?,
            "session" => self.call = Call::Session,
            "converse" => self.call = Call::Conversation(number(rest)?),
            "cabinet-fails" => self.failing = Some(number(rest)?),
            "holds" => self.holds = true,
            "judged" => self.is_judged = true,
            _ => return Err(CaseTrouble::Case(NO_SUCH_LINE)),
        }
        Ok(())
    }
}

// Adds the connection of this number, where it is the next.
fn add_connection(
    alloc: Global,
    connections: &mut Vec<CaseConnection>,
    nth: u64,
) -> Result<(), AllocError> {
    if nth == (connections.len() as u64).saturating_add(1) {
        connections.push(CaseConnection {
            bytes: Vec::new(alloc),
            wanted: Vec::new(alloc),
            failing: 0,
        })?;
    }
    Ok(())
}

// Adds bytes to the audit of the book of this number, which is the next or one before it.
fn add_audited(
    alloc: Global,
    books: &mut Vec<Vec<u8>>,
    nth: u64,
    pattern: Pattern<'_>,
) -> Result<(), CaseTrouble> {
    if nth == (books.len() as u64).saturating_add(1) {
        books.push(Vec::new(alloc))?;
    }
    match books.get_mut(nth.wrapping_sub(1) as usize) {
        Some(book) => pattern.add_to(book),
        None => Err(CaseTrouble::Case(NO_SUCH_BOOK)),
    }
}

// The stops of a line: the first and the last number of calls, and the numbers of books.
fn stop_of(alloc: Global, rest: &str) -> Result<CaseStop, CaseTrouble> {
    let (from, rest) = first(rest);
    let (to, books) = first(rest);
    let (from, to) = (number(from)?, number(to)?);
    let books = calls_of(alloc, books)?;
    Ok(CaseStop { from, to, books })
}

// Has a call of a connection fail. The words are the numbers of both.
fn set_failing(connections: &mut [CaseConnection], rest: &str) -> Result<(), CaseTrouble> {
    let (connection, call) = first(rest);
    let (nth, call) = (number(connection)?, number(call)?);
    match connections.get_mut(nth.wrapping_sub(1) as usize) {
        Some(connection) => {
            connection.failing = call;
            Ok(())
        }
        None => Err(CaseTrouble::Case(NO_SUCH_CONNECTION)),
    }
}

// The words of a line.
fn words_of(alloc: Global, rest: &str) -> Result<Vec<String>, AllocError> {
    let mut words = Vec::new(alloc);
    for word in rest.split_whitespace() {
        words.push(String::from_str(alloc, word)?)?;
    }
    Ok(words)
}

// The numbers of calls in a line.
fn calls_of(alloc: Global, rest: &str) -> Result<Vec<u64>, CaseTrouble> {
    let mut calls = Vec::new(alloc);
    for word in rest.split_whitespace() {
        let nth = number(word)?;
        if nth == 0 {
            return Err(CaseTrouble::Case(ZERO));
        }
        calls.push(nth)?;
    }
    Ok(calls)
}

// The bytes of a line, which may be parted by spaces.
fn bytes_of(alloc: Global, rest: &str) -> Result<Vec<u8>, CaseTrouble> {
    let mut bytes = Vec::new(alloc);
    for word in rest.split_whitespace() {
        let part = hex::decode(alloc, word)
            .ok()
            .ok_or(CaseTrouble::Case(BAD_DIGITS))?;
        bytes.extend_from_slice(&part)?;
    }
    Ok(bytes)
}

// Adds the calls of a line: their kind, and their numbers.
fn add_disk_calls(
    alloc: Global,
    failing: &mut Vec<(DiskCall, u64)>,
    rest: &str,
) -> Result<(), CaseTrouble> {
    let (kind, numbers) = first(rest);
    let kind = disk_call(kind).ok_or(CaseTrouble::Case(NO_SUCH_CALL))?;
    for nth in &calls_of(alloc, numbers)? {
        failing.push((kind, *nth))?;
    }
    Ok(())
}
