// The doors of a host, as they are opened.
ghost use Rattle.std.specs.Prelude.{◌≡◌, ◌+◌, ◌<◌, ◌≤◌, ℕ, List, [], IfOk, None, Option, get_or, length, map, take};
ghost use Rattle.std.specs.String.{string_bytes};
ghost use Rattle.hose_doors.specs.Doors.{NamesDoor};
ghost use Rattle.hose_doors.specs.Limits.{most_doors};
ghost use Rattle.hose_graph.specs.Limits.{operator};
ghost use Rattle.hose_graph.specs.Name.{IsName};
ghost use Rattle.hosed_host.specs.HostDoors.{AreOpenedAt, OpensAt, door_words, number_of, rule_for};
ghost use Rattle.hosed_host.specs.steps.HostOutcome.{AreServable, asked_of};

use hose_clerk::DoorRule;
use hose_doors::{MOST_DOORS, opening_of};
use hose_graph::{Name, OPERATOR};
use hose_net::Address;
use std::alloc::{AllocError, Global};

// How many doors are opened at most: those that words name, and the operator's.
const MOST_OPENED: usize = MOST_DOORS + 1;

/// The doors that words ask for: the operator's socket, if there is one, with the number of its
/// word, and the words of the others, of which the first has this number; and the standby that
/// replies wait for, if there is one.
#[derive(Clone, Copy)]
pub struct HostDoors<'w> {
    pub operator: Option<(&'w str, u64)>,
    pub words: &'w [String],
    pub first: u64,
    pub standby: Option<StandbyPlan<'w>>,
}

/// The standby that replies wait for.
#[derive(Clone, Copy)]
pub struct StandbyPlan<'w> {
    /// The path of its Unix socket.
    pub path: &'w str,
    /// For how many seconds nothing may be heard of it.
    pub seconds: u64,
    /// No reply is told without it: the host ends where it is gone.
    pub or_stop: bool,
}

/// A door, as it is opened: where, and who may greet there.
#[derive(Clone, Copy)]
pub struct GuardedDoor<'w> {
    pub address: Address<'w>,
    pub rule: DoorRule,
}

/// All doors, as they are opened: where, as many as there are rules, and who may greet at each.
#[derive(Drop)]
pub struct Opened<'w> {
    pub addresses: [Address<'w>; MOST_OPENED],
    pub rules: Vec<DoorRule>,
}

impl<'w> HostDoors<'w> {
    /// How many doors there are.
    pub fn count(&self) -> usize
        requires { AreServable self.now }
        ensures many { result ≡ length (door_words (asked_of self.now)) }
        ensures few { result ≤ most_doors + 1 }
    {
        match self.operator {
            Some(_) => self.words.len() + 1,
            None => self.words.len(),
        }
    }

    /// The number of the word of a door, by its place, the operator's first.
    pub fn number(&self, place: usize) -> u64
        requires servable { AreServable self.now }
        requires there { place < length (door_words (asked_of self.now)) }
        ensures { result ≡ number_of (asked_of self.now).operator (asked_of self.now).first place }
    {
        match self.operator {
            Some(path) if place == 0 => path.1,
            Some(_) => self.first + (place as u64 - 1),
            None => self.first + place as u64,
        }
    }

    /// The door at a place, the operator's first.
    pub fn door(&self, place: usize) -> GuardedDoor<'w>
        requires servable { AreServable self.now }
        requires there { place < length (door_words (asked_of self.now)) }
        ensures { OpensAt (asked_of self.now).operator
            (get_or (door_words (asked_of self.now)) place []) result.address result.rule }
    {
        match self.operator {
            Some(path) if place == 0 => GuardedDoor {
                address: Address::Path(path.0),
                rule: operator_rule(),
            },
            Some(_) => named(self.word(place - 1), DoorRule::AnyButOperator),
            None => named(self.word(place), DoorRule::Any),
        }
    }

    // A word by its place.
    fn word(&self, place: usize) -> &'w str
        requires { place < length self.now.words.now }
        ensures { result.now ≡ get_or (map string_bytes self.now.words.now) place [] }
    {
        self.words[place].as_str()
    }
}

// The door that a word names, with this rule where no name is bound.
fn named(word: &str, plain: DoorRule) -> GuardedDoor<'_>
    requires { NamesDoor word.now }
    ensures { (operators : Option (List ℕ × ℕ)) → rule_for None operators ≡ plain
        → OpensAt operators word.now result.address result.rule }
{
    let Some(opening) = opening_of(word) else {
        unreachable!()
    };
    GuardedDoor {
        address: opening.address,
        rule: rule_for(opening.bound, plain),
    }
}

// The rule of a door that is bound to this name, or of one that is bound to none.
fn rule_for(bound: Option<Name>, plain: DoorRule) -> DoorRule
    ensures { (operators : Option (List ℕ × ℕ)) → rule_for None operators ≡ plain
        → result ≡ rule_for bound operators }
{
    match bound {
        Some(name) => DoorRule::Only(name),
        None => plain,
    }
}

// The rule of the operator's socket.
fn operator_rule() -> DoorRule
    ensures rule { result ≡ DoorRule.Only operator }
    ensures name { IsName operator }
{
    match Name::read(OPERATOR.as_bytes()) {
        Some(operator) => DoorRule::Only(operator),
        None => unreachable!(),
    }
}

/// How all doors are opened.
pub fn opened_as(alloc: Global, asked: HostDoors<'_>) -> Result<Opened<'_>, AllocError>
    requires { AreServable asked }
    ensures few { IfOk result (λ opened. length opened.rules.items ≤ length opened.addresses) }
    ensures opened { IfOk result (λ opened. AreOpenedAt (asked_of asked.entry)
        (take (length opened.rules.items) opened.addresses) opened.rules.items) }
{
    let count = asked.count();
    let mut addresses = [Address::Port(0); MOST_OPENED];
    let mut rules = Vec::new(alloc);
    let mut place = 0;
    while place < count {
        let door = asked.door(place);
        addresses[place] = door.address;
        rules.push(door.rule)?;
        place += 1;
    }
    Ok(Opened { addresses, rules })
}
