// The doors of a host, as words name them.
ghost use Rattle.std.specs.Prelude.{◌≡◌, ◌↔◌, IfNone, IfSome, IsTrue, decimal, map};
ghost use Rattle.hose_graph.specs.Name.{IsName};
ghost use Rattle.hose_words.specs.Numbers.{IsWithin};
ghost use Rattle.hose_words.specs.steps.Form.{TellsNumber};
ghost use Rattle.std.specs.String.{string_bytes};
ghost use Rattle.hose_doors.specs.Doors.{IsAt, IsDoor, IsSocketPath, NamesDoor, OpensAs, bound_name, door_word};
ghost use Rattle.hose_doors.specs.steps.Doors.{AreDoorsUpTo};

use hose_graph::Name;
use hose_net::Address;
use hose_words::number;

/// How many doors a host has at most, beside that of the operator.
pub const MOST_DOORS: usize = 64;

// The longest path of a socket that the system takes.
const LONGEST_PATH: usize = 107;

/// A door of a host, as a word names it.
#[derive(Drop)]
pub enum HostDoor<'w> {
    /// A port of this machine, 1 to 65,535, at 127.0.0.1.
    Port(u16),
    /// The path of a Unix socket, at which each name may be said.
    Path(&'w str),
    /// The path of a Unix socket, at which this name alone may be said.
    Bound(&'w str, Name),
}

/// How many of these words name doors, from the first one on: at most 64.
pub fn doors_named(words: &[String]) -> usize
    ensures { AreDoorsUpTo (map string_bytes words.now) result }
{
    let mut place = 0;
    while place < words.len() && place < MOST_DOORS {
        if !names_door(&words[place]) {
            return place;
        }
        place += 1;
    }
    place
}

// Whether a word names a door.
fn names_door(word: &str) -> bool
    ensures { IsTrue result ↔ NamesDoor word.now }
{
    door_of(word).is_some()
}

/// The door that a word names, if it names one.
pub fn door_of(word: &str) -> Option<HostDoor<'_>>
    ensures some { IfSome result (λ door. (word.now ≡ door_word door) × IsDoor door) }
    ensures none { IfNone result (¬ NamesDoor word.now) }
{
    if let Some(port) = port_of(word) {
        return Some(HostDoor::Port(port));
    }
    if is_socket_path(word.as_bytes()) {
        return Some(HostDoor::Path(word));
    }
    match word.split_once('=') {
        Some((path, name)) => bound_door(path, name),
        None => None,
    }
}

/// A door as it is opened: where, and the one name that may be said there, if it is bound to one.
#[derive(Clone, Copy, Debug)]
pub struct Opening<'w> {
    pub address: Address<'w>,
    pub bound: Option<Name>,
}

/// How the door that a word names is opened, if it names one.
pub fn opening_of(word: &str) -> Option<Opening<'_>>
    ensures some { IfSome result (λ opening. OpensAs word.now opening.address opening.bound) }
    ensures none { IfNone result (¬ NamesDoor word.now) }
{
    match door_of(word) {
        Some(door) => Some(opened(door)),
        None => None,
    }
}

// How a door is opened.
fn opened(door: HostDoor<'_>) -> Opening<'_>
    ensures at { IsAt result.address door.entry }
    ensures bound { result.bound ≡ bound_name door.entry }
{
    match door {
        HostDoor::Port(port) => Opening {
            address: Address::Port(port),
            bound: None,
        },
        HostDoor::Path(path) => Opening {
            address: Address::Path(path),
            bound: None,
        },
        HostDoor::Bound(path, name) => Opening {
            address: Address::Path(path),
            bound: Some(name),
        },
    }
}

// The door at a path at which a name alone may be said.
fn bound_door<'w>(path: &'w str, name: &str) -> Option<HostDoor<'w>>
    ensures some { IfSome result (λ door. (door ≡ HostDoor.Bound path.entry name.now)
        × IsSocketPath path.entry.now × IsName name.now) }
    ensures none { IfNone result (IsSocketPath path.entry.now → ¬ IsName name.now) }
{
    if !is_socket_path(path.as_bytes()) {
        return None;
    }
    Some(HostDoor::Bound(path, Name::read(name.as_bytes())?))
}

// The port that a word tells, if it tells one.
fn port_of(word: &str) -> Option<u16>
    ensures some { IfSome result (λ port. (word.now ≡ decimal port) × IsWithin 1 65535 port) }
    ensures none { IfNone result (¬ TellsNumber (IsWithin 1 65535) word.now) }
{
    let Some(port) = number(word.as_bytes(), u16::MAX as u64) else {
        return None;
    };
    if port < 1 { None } else { Some(port as u16) }
}

/// Whether a word may be the path of a socket.
pub fn is_socket_path(word: &[u8]) -> bool
    ensures { IsTrue result ↔ IsSocketPath word.now }
{
    !word.is_empty()
        && word.len() <= LONGEST_PATH
        && word[0] != b'-'
        && word.iter().any(|byte| *byte == b'/')
        && word.iter().all(|byte| *byte != b'=')
}
