// A script: the words of a host, if it has any, a door that is shut, and what connections do.
use crate::ROOM;
use hose_net::{Act, DoorTrouble};
use std::alloc::{AllocError, Global};
use std::collections::VecDeque;

#[derive(Drop)]
pub struct Script {
    /// The words by which a host answers by a book; none where one counts lines.
    pub words: Vec<String>,
    /// The door that cannot be opened, by its place, and why.
    pub shut: Option<(usize, DoorTrouble)>,
    /// The path of a standby, where lines are counted.
    pub standby: Option<String>,
    /// How many bytes a write takes at most.
    pub room: usize,
    pub acts: VecDeque<Act>,
}

impl Script {
    pub fn new(alloc: Global) -> Script {
        Script {
            words: Vec::new(alloc),
            shut: None,
            standby: None,
            room: ROOM,
            acts: VecDeque::new(alloc),
        }
    }

    /// Adds what a line says, as often as the number before it says.
    pub fn add(&mut self, alloc: Global, line: &str) -> Result<(), AllocError> {
        let (number, rest) = line.split_once(' ').unwrap_or((line, ""));
        let count: Option<usize> = number.parse().ok();
        let Some(count) = count else {
            return self.add_once(alloc, line);
        };
        for _ in 0..count {
            self.add_once(alloc, rest)?;
        }
        Ok(())
    }

    fn add_once(&mut self, alloc: Global, line: &str) -> Result<(), AllocError> {
        let (verb, words) = line.split_once(' ').unwrap_or((line, ""));
        if verb == "host" {
            return self.add_words(alloc, line);
        }
        if verb == "standby" {
            self.standby = Some(String::from_str(alloc, words)?);
        }
        let (number, text) = words.split_once(' ').unwrap_or((words, ""));
        let at: usize = number.parse().ok().unwrap_or(0);
        if verb == "room" {
            self.room = at;
        }
        if verb == "shut" {
            self.shut = Some((at, trouble_of(text)));
        }
        if let Some(act) = act_of(alloc, verb, words, at, text)? {
            self.acts.push_back(act)?;
        }
        Ok(())
    }

    fn add_words(&mut self, alloc: Global, line: &str) -> Result<(), AllocError> {
        for word in line.split(' ') {
            self.words.push(String::from_str(alloc, word)?)?;
        }
        Ok(())
    }
}

// The act that a line is, if it is one.
fn act_of(
    alloc: Global,
    verb: &str,
    words: &str,
    at: usize,
    text: &str,
) -> Result<Option<Act>, AllocError> {
    match verb {
        "comes" => Ok(Some(Act::Comes(at))),
        "gives" => Ok(Some(Act::Gives(at, bytes_of(alloc, text)?))),
        "stalls" => Ok(Some(Act::Stalls(at))),
        "takes" => Ok(Some(Act::Takes(at))),
        "ends" => Ok(Some(Act::Ends(at))),
        "reaches" => Ok(Some(Act::Reaches)),
        "passes" => Ok(Some(Act::Passes)),
        "answers" => Ok(Some(Act::Answers(bytes_of(alloc, words)?))),
        "breaks" => Ok(Some(Act::Breaks)),
        "late" => Ok(Some(Act::IsLate)),
        _ => Ok(None),
    }
}

fn trouble_of(text: &str) -> DoorTrouble {
    match text {
        "served" => DoorTrouble::Served,
        "denied" => DoorTrouble::NotAllowed,
        "no folder" => DoorTrouble::NoFolder,
        "no socket" => DoorTrouble::NoSocket,
        _ => DoorTrouble::Other,
    }
}

fn bytes_of(alloc: Global, text: &str) -> Result<Vec<u8>, AllocError> {
    let mut bytes = Vec::new(alloc);
    for byte in text.bytes() {
        bytes.push(if byte == b'/' { b'\n' } else { byte })?;
    }
    Ok(bytes)
}
