// The words of a host, and what they ask for.
ghost use Rattle.std.specs.Prelude.{◌≡◌, ◌↔◌, ◌+◌, ◌≤◌, IfErr, IfNone, IfOk, IfSome, IsTrue, length, map};
ghost use Rattle.std.specs.String.{string_bytes};
ghost use Rattle.hose_doors.specs.Doors.{IsSocketPath};
ghost use Rattle.hose_doors.specs.Limits.{most_doors};
ghost use Rattle.hose_words.specs.Words.{IsFirst};
ghost use Rattle.hose_words.specs.steps.Cursor.{IsWrong, Took};
ghost use Rattle.hosed_requests.specs.HostWords.{AreDoorWords, AsksToHost, IsFirstWrongOfHost};
ghost use Rattle.hosed_requests.specs.steps.HostForms.{doors_form, files_first};
ghost use Rattle.hosed_requests.specs.steps.Arguments.{first_form};
ghost use Rattle.hosed_requests.specs.HostNaming.{ReadsHost};
ghost use Rattle.hosed_requests.specs.steps.HostReading.{ChoosesFlag, ChoosesOperator, ChoosesSeconds, ChoosesStandby, HasStandby, MissesStandby, NamesHosted, NamesNoOperator, NamesNoSeconds, NamesNoStandby};
ghost use Rattle.hosed_requests.specs.HostWords.{quiet_option, stop_option};
ghost use Rattle.hosed_requests.specs.steps.ProgramWords.{at_word};

use crate::words::{name_at, number_at, tariff_at, word_at};
use hose_doors::{doors_named, is_socket_path};
use hose_tariff::Tariff;

/// The longest time, in seconds, for which nothing may be heard of a standby.
pub const MOST_PATIENCE: u64 = 3_600;

/// The standby of a host, as words say it.
#[derive(Clone, Copy)]
pub struct StandbyWords<'w> {
    /// The path of its socket.
    pub path: &'w str,
    /// For how many seconds nothing may be heard of it, 1 to 3,600, where that is said.
    pub seconds: Option<u64>,
    /// The host ends where the standby is gone.
    pub or_stop: bool,
}

/// What a host is to do, as words say it.
#[derive(Clone, Copy)]
pub struct HostWords<'w> {
    /// The place of the tariff that is chosen.
    pub tariff: Option<usize>,
    /// The path of the operator's socket, and the number of that word, counted from 1.
    pub operator: Option<(&'w str, u64)>,
    /// No log is written.
    pub quiet: bool,
    /// The standby for which replies wait.
    pub standby: Option<StandbyWords<'w>>,
    /// The names of the text of its topology and of its journal.
    pub topology: &'w str,
    pub journal: &'w str,
    /// The words of the other doors, and the number of the first of them.
    pub doors: &'w [String],
    pub first: u64,
}

/// Whether the first word is that of a host.
pub fn asks_to_host(words: &[String]) -> bool
    ensures { IsTrue result ↔ AsksToHost (map string_bytes words.now) }
{
    match word_at(words, 1) {
        Some(word) => word == "host",
        None => false,
    }
}

/// What the words of a host say, or the first of them that is not allowed, counted from 1. A word
/// that is missing counts as one that is not allowed.
pub fn host_words<'w>(words: &'w [String], tariffs: &[Tariff]) -> Result<HostWords<'w>, u64>
    requires { AsksToHost (map string_bytes words.now) }
    ensures ok { IfOk result (ReadsHost (map (λ tariff. tariff.name) tariffs.now)
        (map string_bytes words.now)) }
    ensures few { IfOk result (λ found. length found.doors.now ≤ most_doors) }
    ensures early { IfOk result (λ found. found.first ≤ 14) }
    ensures wrong { IfErr result (IsFirstWrongOfHost (map (λ tariff. tariff.name) tariffs.now)
        (map string_bytes words.now)) }
{
    let (tariff, from) = tariff_at(words, tariffs)?;
    let (operator, later) = operator_at(words, from)?;
    let (quiet, then) = quiet_at(words, later);
    let (standby, at) = standby_at(words, then)?;
    let (topology, journal, doors) = hosted_at(words, at)?;
    Ok(HostWords {
        tariff,
        operator,
        quiet,
        standby,
        topology,
        journal,
        doors,
        first: at + 2,
    })
}

// The path of the operator's socket and its number, where this word, counted from 1, says that
// there is one, and the number of the word from which on the others follow; or the number of the
// word that is no such path.
fn operator_at(words: &[String], from: u64) -> Result<(Option<(&str, u64)>, u64), u64>
    requires some { 1 ≤ from }
    requires few { from ≤ 4 }
    ensures ok { IfOk result (λ found. ChoosesOperator (map string_bytes words.now) from
        found.0 found.1) }
    ensures at { IfOk result (λ found. (from ≤ found.1) × (found.1 ≤ from + 2)) }
    ensures wrong { IfErr result (NamesNoOperator (map string_bytes words.now) from) }
{
    match word_at(words, from) {
        Some(option) if option == "--operator" => match path_at(words, from + 1) {
            Some(path) => Ok((Some((path, from + 1)), from + 2)),
            None => Err(from + 1),
        },
        _ => Ok((None, from)),
    }
}

// The path of a socket that this word is, counted from 1, if it is one.
fn path_at(words: &[String], at: u64) -> Option<&str>
    requires { 1 ≤ at }
    ensures some { IfSome result (λ path. Took (at_word at (map string_bytes words.now))
        (at_word (at + 1) (map string_bytes words.now)) path.now) }
    ensures is { IfSome result (λ path. IsSocketPath path.now) }
    ensures none { IfNone result
        (¬ IsFirst IsSocketPath (at_word at (map string_bytes words.now)).left) }
{
    match word_at(words, at) {
        Some(path) if is_socket_path(path.as_bytes()) => Some(path),
        _ => None,
    }
}

// Whether this word, counted from 1, says that no log is written, and the number of the word after
// it; or its own number.
fn quiet_at(words: &[String], from: u64) -> (bool, u64)
    requires some { 1 ≤ from }
    requires few { from ≤ 6 }
    ensures chooses { ChoosesFlag quiet_option (map string_bytes words.now) from result.0 result.1 }
    ensures at { (from ≤ result.1) × (result.1 ≤ from + 1) }
{
    match word_at(words, from) {
        Some(option) if option == "--quiet" => (true, from + 1),
        _ => (false, from),
    }
}

// The standby, where this word, counted from 1, says that there is one, and the number of the word
// from which on the others follow; or the number of the word that is not allowed.
fn standby_at(words: &[String], from: u64) -> Result<(Option<StandbyWords<'_>>, u64), u64>
    requires some { 1 ≤ from }
    requires few { from ≤ 7 }
    ensures ok { IfOk result (λ found. ChoosesStandby (map string_bytes words.now) from
        found.0 found.1) }
    ensures at { IfOk result (λ found. (from ≤ found.1) × (found.1 ≤ from + 5)) }
    ensures wrong { IfErr result (NamesNoStandby (map string_bytes words.now) from) }
{
    match word_at(words, from) {
        Some(option) if option == "--standby" => {
            let (standby, at) = standby_of(words, from + 1)?;
            Ok((Some(standby), at))
        }
        _ => Ok((None, from)),
    }
}

// The standby whose socket this word, counted from 1, names, and what the words after it say of it.
fn standby_of(words: &[String], from: u64) -> Result<(StandbyWords<'_>, u64), u64>
    requires some { 1 ≤ from }
    requires few { from ≤ 8 }
    ensures ok { IfOk result (λ found. HasStandby (map string_bytes words.now) from
        found.0 found.1) }
    ensures at { IfOk result (λ found. (from ≤ found.1) × (found.1 ≤ from + 4)) }
    ensures wrong { IfErr result (MissesStandby (map string_bytes words.now) from) }
{
    let Some(path) = path_at(words, from) else {
        return Err(from);
    };
    let (seconds, later) = seconds_at(words, from + 1)?;
    let (or_stop, at) = or_stop_at(words, later);
    let standby = StandbyWords {
        path,
        seconds,
        or_stop,
    };
    Ok((standby, at))
}

// For how many seconds nothing may be heard of the standby, where this word, counted from 1, says
// that it is told, and the number of the word from which on the others follow; or the number of the
// word that is no such number.
fn seconds_at(words: &[String], from: u64) -> Result<(Option<u64>, u64), u64>
    requires some { 1 ≤ from }
    requires few { from ≤ 9 }
    ensures ok { IfOk result (λ found. ChoosesSeconds (map string_bytes words.now) from
        found.0 found.1) }
    ensures at { IfOk result (λ found. (from ≤ found.1) × (found.1 ≤ from + 2)) }
    ensures wrong { IfErr result (NamesNoSeconds (map string_bytes words.now) from) }
{
    match word_at(words, from) {
        Some(option) if option == "--standby-seconds" => {
            match number_at(words, from + 1, 1, MOST_PATIENCE) {
                Ok(seconds) => Ok((Some(seconds), from + 2)),
                Err(wrong) => Err(wrong),
            }
        }
        _ => Ok((None, from)),
    }
}

// Whether this word, counted from 1, says that the host ends where the standby is gone, and the
// number of the word after it; or its own number.
fn or_stop_at(words: &[String], from: u64) -> (bool, u64)
    requires some { 1 ≤ from }
    requires few { from ≤ 11 }
    ensures chooses { ChoosesFlag stop_option (map string_bytes words.now) from result.0 result.1 }
    ensures at { (from ≤ result.1) × (result.1 ≤ from + 1) }
{
    match word_at(words, from) {
        Some(option) if option == "--standby-or-stop" => (true, from + 1),
        _ => (false, from),
    }
}

// The names of a topology and of a journal from this word on, counted from 1, and the words of
// doors after them, up to the last one.
fn hosted_at(words: &[String], at: u64) -> Result<(&str, &str, &[String]), u64>
    requires some { 1 ≤ at }
    requires few { at ≤ 12 }
    ensures ok { IfOk result (λ found. NamesHosted (map string_bytes words.now) at found.0.now
        found.1.now (map string_bytes found.2.now)) }
    ensures wrong { IfErr result
        (IsWrong (first_form files_first) (at_word at (map string_bytes words.now))) }
{
    let topology = name_at(words, at)?;
    let journal = name_at(words, at + 1)?;
    let doors = doors_at(words, at + 2)?;
    Ok((topology, journal, doors))
}

// The words from this one on, counted from 1, where they are those of the doors of a host; else the
// number of the first that is not allowed.
fn doors_at(words: &[String], at: u64) -> Result<&[String], u64>
    requires some { 1 ≤ at }
    requires there { at ≤ length words.now + 1 }
    ensures ok { IfOk result (λ doors.
        map string_bytes doors.now ≡ (at_word at (map string_bytes words.now)).left) }
    ensures some { IfOk result (λ doors. 1 ≤ length (map string_bytes doors.now)) }
    ensures are { IfOk result (λ doors. AreDoorWords (map string_bytes doors.now)) }
    ensures wrong { IfErr result
        (IsWrong doors_form (at_word at (map string_bytes words.now))) }
{
    let doors = &words[at as usize - 1..];
    let count = doors_named(doors);
    if count < doors.len() {
        return Err(at + count as u64);
    }
    if count < 1 { Err(at) } else { Ok(doors) }
}
