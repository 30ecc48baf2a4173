// The words of the program, and what they ask for.
ghost use Rattle.std.specs.Prelude.{◌≡◌, ◌↔◌, ℕ, ◌+◌, ◌<◌, ◌≤◌, List, [], IfErr, IfNone, IfOk, IfSome, IsTrue, OnOk, decimal, get_or, map};
ghost use Rattle.std.specs.String.{string_bytes};
ghost use Rattle.hose_words.specs.steps.Cursor.{IsWrong, Misses, Took};
ghost use Rattle.hose_words.specs.Numbers.{IsWithin};
ghost use Rattle.hose_words.specs.steps.Form.{TellsNumber, finish};
ghost use Rattle.hose_words.specs.Words.{IsFirst};
ghost use Rattle.hosed_requests.specs.ProgramWords.{ArePriceable, AsksFor, AsksToServe, IsFileName, IsFirstNamed};
ghost use Rattle.hosed_requests.specs.steps.Arguments.{IsFirstUnfit, IsOtherFile, IsTariffName, file_first, first_form, moved_names, program_form};
ghost use Rattle.hosed_requests.specs.steps.ProgramWords.{AreServeWords, at_word};
ghost use Rattle.hosed_requests.specs.steps.Reading.{AreJournalWords, Chooses, ChoosesLive, NamesJournal, NamesMove, NamesNoJournal, NamesNoTariff, NamesNoTopology, NamesTopology, ReadsRequest};
ghost use Rattle.hosed_requests.specs.declared.verb.ProgramVerb.TheVariants as command;

use crate::end_words::ends_at;
use crate::verb::{ProgramVerb, verb_of};
use hose_gen::{LEAST_NODES, MOST_HOSES};
use hose_graph::{MOST_EPOCH, MOST_LINKS, MOST_NODES};
use hose_outside::{Move, Names, Sizes};
use hose_pool::MOST_WORKERS;
use hose_price::MOST_TARIFFS;
use hose_tariff::{Tariff, find};
use hose_words::number;

/// The most connections that a server may be told to accept.
pub const MOST_CONNECTIONS: u32 = 10_000;

/// What the program is to do, where it waits for nobody. A tariff is chosen by its place.
#[derive(Clone, Copy)]
pub enum Request<'w> {
    /// Answers lines, by a book in the journal that is named, or in memory.
    Run {
        tariff: Option<usize>,
        journal: Option<&'w str>,
    },
    /// Tells the book of a journal.
    Audit(OfJournal<'w>),
    /// Runs a script that is made of four numbers.
    Generate(Sizes),
    /// Writes a certificate for the hose of these endpoints, of which the first is the word of this
    /// number.
    Prove {
        of: OfTopology<'w>,
        ends: &'w [String],
        first: u64,
    },
    /// Judges a certificate.
    Check(OfTopology<'w>),
    /// Prices a sheet of hoses under all tariffs.
    Price {
        topology: &'w str,
    },
    /// Writes the entries of a journal as packets, from the one of an epoch on.
    Ship {
        of: OfJournal<'w>,
        from: u64,
    },
    /// Answers packets by a journal that follows the one that they come from.
    Follow(OfJournal<'w>),
    /// Writes what a journal of one network holds into a journal of another one.
    Move {
        tariff: Option<usize>,
        of: Move<'w>,
    },
    /// Writes the first entries of a journal, so many of them, into another one.
    Cut {
        of: OfJournal<'w>,
        count: u64,
        to: &'w str,
    },
}

/// The tariff that is chosen, and the name of the text of a topology.
#[derive(Clone, Copy)]
pub struct OfTopology<'w> {
    pub tariff: Option<usize>,
    pub topology: &'w str,
}

/// The tariff that is chosen, and the names of the text of a topology and of a journal.
#[derive(Clone, Copy)]
pub struct OfJournal<'w> {
    pub tariff: Option<usize>,
    pub names: Names<'w>,
}

/// A server: the callers of a door are answered by the book of a journal.
#[derive(Clone, Copy)]
pub struct ServeRequest<'w> {
    /// The place of the tariff that is chosen.
    pub tariff: Option<usize>,
    /// The names of the text of its topology and of its journal.
    pub topology: &'w str,
    pub journal: &'w str,
    /// The port of its door.
    pub port: u16,
    /// How many connections it accepts before it ends.
    pub connections: u32,
    /// How many workers answer them.
    pub workers: u32,
}

/// The request of words that do not ask to serve, or the first of them that is not allowed, counted
/// from 1. A word that is missing counts as one that is not allowed.
pub fn request_of<'w>(words: &'w [String], tariffs: &[Tariff]) -> Result<Request<'w>, u64>
    requires { ¬ AsksToServe (map string_bytes words.now) }
    ensures { ReadsRequest (map (λ tariff. tariff.name) tariffs.now)
        (map string_bytes words.now) result }
{
    match verb_of(words) {
        Some(ProgramVerb::Run) => run_of(words, tariffs),
        Some(ProgramVerb::Audit) => Ok(Request::Audit(journal_of(words, tariffs)?)),
        Some(ProgramVerb::Generate) => generate_of(words),
        Some(ProgramVerb::Prove) => prove_of(words, tariffs),
        Some(ProgramVerb::Check) => check_of(words, tariffs),
        Some(ProgramVerb::Price) => price_of(words, tariffs),
        Some(ProgramVerb::Ship) => ship_of(words, tariffs),
        Some(ProgramVerb::Follow) => Ok(Request::Follow(journal_of(words, tariffs)?)),
        Some(ProgramVerb::Move) => move_of(words, tariffs),
        Some(ProgramVerb::Cut) => cut_of(words, tariffs),
        Some(ProgramVerb::Serve) => Err(1),
        None => Err(1),
    }
}

// The run that the words ask for: a tariff and the name of a journal may follow, and nothing else.
fn run_of<'w>(words: &'w [String], tariffs: &[Tariff]) -> Result<Request<'w>, u64>
    requires { AsksFor command.Run (map string_bytes words.now) }
    ensures { ReadsRequest (map (λ tariff. tariff.name) tariffs.now)
        (map string_bytes words.now) result }
{
    let (tariff, at) = tariff_at(words, tariffs)?;
    if (words.len() as u64) < at {
        return Ok(Request::Run {
            tariff,
            journal: None,
        });
    }
    let journal = name_at(words, at)?;
    none_at(words, at + 1)?;
    Ok(Request::Run {
        tariff,
        journal: Some(journal),
    })
}

// The tariff that the words choose, and the names of a topology and of a journal, after which
// nothing follows.
fn journal_of<'w>(words: &'w [String], tariffs: &[Tariff]) -> Result<OfJournal<'w>, u64>
    ensures ok { IfOk result (AreJournalWords (map (λ tariff. tariff.name) tariffs.now)
        (map string_bytes words.now)) }
    ensures wrong { IfErr result (IsWrong
        (program_form (map (λ tariff. tariff.name) tariffs.now) command.Audit)
        (at_word 2 (map string_bytes words.now))) }
{
    let (of, at) = journal_at(words, tariffs)?;
    none_at(words, at)?;
    Ok(of)
}

// The four numbers that the words tell, and nothing else.
fn generate_of(words: &[String]) -> Result<Request<'_>, u64>
    requires { AsksFor command.Generate (map string_bytes words.now) }
    ensures { (names : List (List ℕ)) → ReadsRequest names (map string_bytes words.now) result }
{
    let seed = number_at(words, 2, 0, u64::MAX)?;
    let nodes = number_at(words, 3, LEAST_NODES as u64, MOST_NODES as u64)?;
    let links = number_at(words, 4, nodes - 1, MOST_LINKS as u64)?;
    let hoses = number_at(words, 5, 0, MOST_HOSES as u64)?;
    none_at(words, 6)?;
    Ok(Request::Generate(Sizes {
        seed,
        nodes: nodes as u32,
        links: links as u32,
        hoses: hoses as u32,
    }))
}

// The certificate that the words ask for: the endpoints of a hose follow the name of the topology,
// and nothing else.
fn prove_of<'w>(words: &'w [String], tariffs: &[Tariff]) -> Result<Request<'w>, u64>
    requires { AsksFor command.Prove (map string_bytes words.now) }
    ensures { ReadsRequest (map (λ tariff. tariff.name) tariffs.now)
        (map string_bytes words.now) result }
{
    let (of, at) = topology_at(words, tariffs)?;
    let ends = ends_at(words, at)?;
    Ok(Request::Prove {
        of,
        ends,
        first: at,
    })
}

// The judgement that the words ask for: nothing follows the name of the topology.
fn check_of<'w>(words: &'w [String], tariffs: &[Tariff]) -> Result<Request<'w>, u64>
    requires { AsksFor command.Check (map string_bytes words.now) }
    ensures { ReadsRequest (map (λ tariff. tariff.name) tariffs.now)
        (map string_bytes words.now) result }
{
    let (of, at) = topology_at(words, tariffs)?;
    none_at(words, at)?;
    Ok(Request::Check(of))
}

// The sheet of prices that the words ask for, where there are tariffs to price under: the name of a
// topology has to follow, and nothing else.
fn price_of<'w>(words: &'w [String], tariffs: &[Tariff]) -> Result<Request<'w>, u64>
    requires { AsksFor command.Price (map string_bytes words.now) }
    ensures { ReadsRequest (map (λ tariff. tariff.name) tariffs.now)
        (map string_bytes words.now) result }
{
    if !are_priceable(tariffs) {
        return Err(1);
    }
    let topology = name_at(words, 2)?;
    none_at(words, 3)?;
    Ok(Request::Price { topology })
}

// Whether there are tariffs to price under, and no more than there may be.
fn are_priceable(tariffs: &[Tariff]) -> bool
    ensures { IsTrue result ↔ ArePriceable (map (λ tariff. tariff.name) tariffs.now) }
{
    (1..=MOST_TARIFFS).contains(&tariffs.len())
}

// The shipping that the words ask for: an epoch follows the name of the journal, and nothing else.
fn ship_of<'w>(words: &'w [String], tariffs: &[Tariff]) -> Result<Request<'w>, u64>
    requires { AsksFor command.Ship (map string_bytes words.now) }
    ensures { ReadsRequest (map (λ tariff. tariff.name) tariffs.now)
        (map string_bytes words.now) result }
{
    let (of, at) = journal_at(words, tariffs)?;
    let from = number_at(words, at, 1, MOST_EPOCH)?;
    none_at(words, at + 1)?;
    Ok(Request::Ship { of, from })
}

// The move that the words ask for: after a tariff, if one is chosen, the choice of live VPNs alone
// or of all entries, then the names of a topology and of a journal, twice, and nothing else.
fn move_of<'w>(words: &'w [String], tariffs: &[Tariff]) -> Result<Request<'w>, u64>
    requires { AsksFor command.Move (map string_bytes words.now) }
    ensures { ReadsRequest (map (λ tariff. tariff.name) tariffs.now)
        (map string_bytes words.now) result }
{
    let (tariff, from) = tariff_at(words, tariffs)?;
    let (live, at) = live_at(words, from);
    let (of, to) = moved_at(words, at)?;
    none_at(words, at + 4)?;
    Ok(Request::Move {
        tariff,
        of: Move { live, from: of, to },
    })
}

// Whether this word, counted from 1, says that the live VPNs alone are moved, and the number of the
// word after it; or its own number.
fn live_at(words: &[String], from: u64) -> (bool, u64)
    requires some { 1 ≤ from }
    requires few { from ≤ 4 }
    ensures chooses { ChoosesLive (map string_bytes words.now) from result.0 result.1 }
    ensures at { (from ≤ result.1) × (result.1 ≤ from + 1) }
{
    match word_at(words, from) {
        Some(option) if option == "--live" => (true, from + 1),
        _ => (false, from),
    }
}

// The names of a topology and of a journal from this word on, counted from 1, and after them those
// of a new topology and of a journal of another name.
fn moved_at(words: &[String], at: u64) -> Result<(Names<'_>, Names<'_>), u64>
    requires some { 1 ≤ at }
    requires few { at ≤ 5 }
    ensures ok { IfOk result (λ found. NamesMove (map string_bytes words.now) at
        (at + 4) found.0 found.1) }
    ensures wrong { IfErr result (IsWrong (first_form (file_first moved_names))
        (at_word at (map string_bytes words.now))) }
{
    let topology = name_at(words, at)?;
    let journal = name_at(words, at + 1)?;
    let new_topology = name_at(words, at + 2)?;
    let new_journal = other_at(words, at + 3, journal)?;
    let from = Names { topology, journal };
    let to = Names {
        topology: new_topology,
        journal: new_journal,
    };
    Ok((from, to))
}

// The cut that the words ask for: a number of entries, and the name of another journal, follow the
// name of the journal, and nothing else.
fn cut_of<'w>(words: &'w [String], tariffs: &[Tariff]) -> Result<Request<'w>, u64>
    requires { AsksFor command.Cut (map string_bytes words.now) }
    ensures { ReadsRequest (map (λ tariff. tariff.name) tariffs.now)
        (map string_bytes words.now) result }
{
    let (of, at) = journal_at(words, tariffs)?;
    let count = number_at(words, at, 0, MOST_EPOCH)?;
    let to = other_at(words, at + 1, of.names.journal)?;
    none_at(words, at + 2)?;
    Ok(Request::Cut { of, count, to })
}

// The name of a file that this word is, counted from 1, where it is another one than that of this
// name; else its number is told.
fn other_at<'w>(words: &'w [String], at: u64, name: &str) -> Result<&'w str, u64>
    requires { 1 ≤ at }
    ensures ok { IfOk result (λ other. Took (at_word at (map string_bytes words.now))
        (at_word (at + 1) (map string_bytes words.now)) other.now) }
    ensures named { IfOk result (λ other. IsOtherFile name.now other.now) }
    ensures wrong { IfErr result
        (Misses (IsOtherFile name.now) (at_word at (map string_bytes words.now))) }
{
    match word_at(words, at) {
        Some(other) if is_other_file(other, name) => Ok(other),
        _ => Err(at),
    }
}

// Whether a word may name a file, and another one than this name does.
fn is_other_file(word: &str, name: &str) -> bool
    ensures { IsTrue result ↔ IsOtherFile name.now word.now }
{
    is_file_name(word.as_bytes()) && word != name
}

/// The server that the words ask for, or the first of them that is not allowed.
pub fn serve_of<'w>(words: &'w [String], tariffs: &[Tariff]) -> Result<ServeRequest<'w>, u64>
    requires { AsksToServe (map string_bytes words.now) }
    ensures ok { IfOk result (AreServeWords (map (λ tariff. tariff.name) tariffs.now)
        (map string_bytes words.now)) }
    ensures wrong { IfErr result (IsFirstUnfit (map (λ tariff. tariff.name) tariffs.now)
        (map string_bytes words.now)) }
{
    let (of, at) = journal_at(words, tariffs)?;
    let port = number_at(words, at, 1, u16::MAX as u64)?;
    let connections = number_at(words, at + 1, 1, MOST_CONNECTIONS as u64)?;
    let workers = number_at(words, at + 2, 1, MOST_WORKERS as u64)?;
    none_at(words, at + 3)?;
    Ok(ServeRequest {
        tariff: of.tariff,
        topology: of.names.topology,
        journal: of.names.journal,
        port: port as u16,
        connections: connections as u32,
        workers: workers as u32,
    })
}

// The tariff that the words choose, the names of a topology and of a journal that have to follow,
// and the number of the word after them.
fn journal_at<'w>(words: &'w [String], tariffs: &[Tariff]) -> Result<(OfJournal<'w>, u64), u64>
    ensures ok { IfOk result (λ found. NamesJournal (map (λ tariff. tariff.name) tariffs.now)
        (map string_bytes words.now) found.0 found.1) }
    ensures at { IfOk result (λ found. (4 ≤ found.1) × (found.1 ≤ 6)) }
    ensures wrong { IfErr result (NamesNoJournal (map (λ tariff. tariff.name) tariffs.now)
        (map string_bytes words.now)) }
{
    let (of, at) = topology_at(words, tariffs)?;
    let journal = name_at(words, at)?;
    let names = Names {
        topology: of.topology,
        journal,
    };
    let tariff = of.tariff;
    Ok((OfJournal { tariff, names }, at + 1))
}

// The tariff that the words choose, the name of a topology that has to follow, and the number of
// the word after it.
fn topology_at<'w>(words: &'w [String], tariffs: &[Tariff]) -> Result<(OfTopology<'w>, u64), u64>
    ensures ok { IfOk result (λ found. NamesTopology (map (λ tariff. tariff.name) tariffs.now)
        (map string_bytes words.now) found.0 found.1) }
    ensures at { IfOk result (λ found. (3 ≤ found.1) × (found.1 ≤ 5)) }
    ensures wrong { IfErr result (NamesNoTopology (map (λ tariff. tariff.name) tariffs.now)
        (map string_bytes words.now)) }
{
    let (tariff, at) = tariff_at(words, tariffs)?;
    let topology = name_at(words, at)?;
    Ok((OfTopology { tariff, topology }, at + 1))
}

/// The tariff that the words after the first choose, and the number of the word from which on the
/// others follow; or the first of them that is not allowed.
pub fn tariff_at(words: &[String], tariffs: &[Tariff]) -> Result<(Option<usize>, u64), u64>
    ensures ok { IfOk result (λ found. Chooses (map (λ tariff. tariff.name) tariffs.now)
        (map string_bytes words.now) found.0 found.1) }
    ensures at { IfOk result (λ found. (2 ≤ found.1) × (found.1 ≤ 4)) }
    ensures wrong { IfErr result (NamesNoTariff (map (λ tariff. tariff.name) tariffs.now)
        (map string_bytes words.now)) }
{
    match word_at(words, 2) {
        Some(option) if option == "--tariff" => match named_at(words, tariffs) {
            Some(place) => Ok((Some(place), 4)),
            None => Err(3),
        },
        _ => Ok((None, 2)),
    }
}

// The place of the tariff that the third word names, if it names one.
fn named_at(words: &[String], tariffs: &[Tariff]) -> Option<usize>
    ensures some { IfSome result (λ place. IsFirstNamed (map (λ tariff. tariff.name) tariffs.now)
        place × Took (at_word 3 (map string_bytes words.now))
        (at_word 4 (map string_bytes words.now))
        (get_or (map (λ tariff. tariff.name) tariffs.now) place [])) }
    ensures none { IfNone result (¬ IsFirst
        (IsTariffName (map (λ tariff. tariff.name) tariffs.now))
        (at_word 3 (map string_bytes words.now)).left) }
{
    find(tariffs, word_at(words, 3)?.as_bytes())
}

/// The name of a file that this word is, counted from 1; else its number is told.
pub fn name_at(words: &[String], at: u64) -> Result<&str, u64>
    requires { 1 ≤ at }
    ensures ok { IfOk result (λ name. Took (at_word at (map string_bytes words.now))
        (at_word (at + 1) (map string_bytes words.now)) name.now) }
    ensures named { IfOk result (λ name. IsFileName name.now) }
    ensures wrong { IfErr result (Misses IsFileName (at_word at (map string_bytes words.now))) }
{
    match word_at(words, at) {
        Some(name) if is_file_name(name.as_bytes()) => Ok(name),
        _ => Err(at),
    }
}

/// The number that this word tells, counted from 1, which has to be from the least to the most.
pub fn number_at(words: &[String], at: u64, least: u64, most: u64) -> Result<u64, u64>
    requires { 1 ≤ at }
    ensures ok { IfOk result (λ value. Took (at_word at (map string_bytes words.now))
        (at_word (at + 1) (map string_bytes words.now)) (decimal value)) }
    ensures within { IfOk result (IsWithin least most) }
    ensures wrong { IfErr result
        (Misses (TellsNumber (IsWithin least most)) (at_word at (map string_bytes words.now))) }
{
    match word_at(words, at) {
        Some(word) => number_of(word, least, most).ok_or(at),
        None => Err(at),
    }
}

// The number from the least to the most that a word tells, if it tells one.
fn number_of(word: &str, least: u64, most: u64) -> Option<u64>
    ensures some { IfSome result
        (λ value. (word.now ≡ decimal value) × IsWithin least most value) }
    ensures none { IfNone result (¬ TellsNumber (IsWithin least most) word.now) }
{
    let Some(value) = number(word.as_bytes(), most) else {
        return None;
    };
    if value < least { None } else { Some(value) }
}

// Makes sure that there is no such word, counted from 1; else its number is told.
fn none_at(words: &[String], at: u64) -> Result<(), u64>
    requires { 1 ≤ at }
    ensures ok { OnOk result ((at_word at (map string_bytes words.now)).left ≡ []) }
    ensures wrong { IfErr result (IsWrong finish (at_word at (map string_bytes words.now))) }
{
    if words.len() as u64 >= at {
        Err(at)
    } else {
        Ok(())
    }
}

/// This word, counted from 1, if there is one.
pub fn word_at(words: &[String], at: u64) -> Option<&str>
    requires { 1 ≤ at }
    ensures some { IfSome result (λ word. Took (at_word at (map string_bytes words.now))
        (at_word (at + 1) (map string_bytes words.now)) word.now) }
    ensures none { IfNone result ((at_word at (map string_bytes words.now)).left ≡ []) }
{
    Some(words.get(at as usize - 1)?.as_str())
}

// Whether a word may name a file.
fn is_file_name(word: &[u8]) -> bool
    ensures { IsTrue result ↔ IsFileName word.now }
{
    !word.is_empty() && word.len() <= 255 && word[0] != b'-'
}
