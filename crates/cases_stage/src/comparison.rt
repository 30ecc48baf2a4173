// What came of a case beside what must come of it.
ghost use Rattle.std.specs.Prelude.{◌≤◌, length};

use crate::outcome::Outcome;
use crate::places::{admitted, never_go_back};
use crate::running::Runs;
use crate::stops::{cuts_that_differ, epoch_of, stops_that_differ, topology_of};
use crate::wanted::{from_difference, is_as_wanted, is_front};
use cases_common::CaseText;
use cases_files::{Call, Case, CaseTrouble};
use std::alloc::{AllocError, Global};

// How many bytes of an output are shown, and how many of them stand before the first that differs.
const SHOWN: usize = 72;

const BEFORE: usize = 24;

/// Runs a case, and gives a line for each thing that is not as it says.
pub fn differences<C: Runs>(runs: &C, alloc: Global, case: &Case) -> Result<String, CaseTrouble> {
    let mut told = CaseText::new(alloc);
    add_differences(runs, &mut told, case)?;
    Ok(told.finish()?)
}

fn add_differences<C: Runs>(runs: &C, told: &mut CaseText, case: &Case) -> Result<(), CaseTrouble> {
    add_run(runs, told, case)?;
    let lost = cuts_that_differ(runs, told.alloc(), case)?;
    add_lost(told, lost, "failed calls something else comes");
    Ok(())
}

fn add_run<C: Runs>(runs: &C, told: &mut CaseText, case: &Case) -> Result<(), CaseTrouble> {
    let mut outcome = runs.run(told.alloc(), case, 0)?;
    add_outcome(runs, told, case, &mut outcome)
}

// Adds what is otherwise in what came of a case.
fn add_outcome<C: Runs>(
    runs: &C,
    told: &mut CaseText,
    case: &Case,
    outcome: &mut Outcome,
) -> Result<(), CaseTrouble> {
    add_numbers(told, case, outcome);
    add_output(told, case, outcome);
    add_rules(told, case, &outcome.given)?;
    add_given(told, case, &outcome.given);
    add_stops(runs, told, case, outcome)?;
    let left = outcome.left(told.alloc())?;
    add_journals(told, case, outcome, &left);
    add_epoch(runs, told, case, &left)
}

// Adds how many stops or failed calls lost something, if any did.
fn add_lost(told: &mut CaseText, lost: u64, what: &str) {
    if lost > 0 {
        told.add(format!(in told.alloc(); "after {lost} {what}\n"));
    }
}

// Adds how many stops leave another book than one of those that are wanted.
fn add_stops<C: Runs>(
    runs: &C,
    told: &mut CaseText,
    case: &Case,
    outcome: &Outcome,
) -> Result<(), CaseTrouble> {
    let Some(disk) = &outcome.disk else {
        return Ok(());
    };
    let lost = stops_that_differ(runs, told.alloc(), case, disk)?;
    add_lost(told, lost, "stops another book is found");
    Ok(())
}

// Adds a line where the sessions of a case were not beside each other, one for the status, and one
// for how much is taken.
fn add_numbers(told: &mut CaseText, case: &Case, outcome: &Outcome) {
    if outcome.is_alone {
        told.put("a session went on before the other had come so far\n");
    }
    add_status(told, outcome.status, case.wanted.status);
    add_taken(
        told,
        outcome.taken,
        case.wanted.taken.unwrap_or(outcome.taken),
    );
}

fn add_status(told: &mut CaseText, status: u64, wanted: u64) {
    if status != wanted {
        told.add(format!(in told.alloc(); "the status is {status}, and {wanted} is wanted\n"));
    }
}

fn add_taken(told: &mut CaseText, taken: u64, wanted: u64) {
    if taken != wanted {
        told.add(format!(in told.alloc();
            "{taken} bytes of the input are taken, and {wanted} are wanted\n"
        ));
    }
}

// Adds a line for the output. Of connections that are judged the last line alone can be known.
fn add_output(told: &mut CaseText, case: &Case, outcome: &Outcome) {
    let (output, wanted) = (outcome.output.as_slice(), case.output.bytes.as_slice());
    if case.is_judged && output.ends_with(wanted) {
        return;
    }
    match case.output.front {
        Some(count) => add_front(told, output, wanted, count),
        None => add_bytes(told, "the output", output, wanted),
    }
}

// Adds a line where other bytes came than the first ones of what is wanted, so many.
fn add_front(told: &mut CaseText, output: &[u8], wanted: &[u8], count: u64) {
    let len = output.len() as u64;
    if len != count {
        told.add(format!(in told.alloc();
            "{len} bytes of the output come, and the first {count} are wanted\n"
        ));
    } else if !is_front(output, wanted) {
        add_difference(told, "the output", output, wanted);
    }
}

// Adds a line for how many connections do not keep the rules.
fn add_rules(told: &mut CaseText, case: &Case, given: &[Vec<u8>]) -> Result<(), AllocError> {
    let wrong = match case.call {
        Call::Conversation(_) => going_back(given),
        _ if case.is_judged => wrongly_answered(told.alloc(), given)?,
        _ => 0,
    };
    if wrong > 0 {
        told.add(format!(in told.alloc(); "{wrong} connections are answered against the rules\n"));
    }
    Ok(())
}

// Adds a line for each connection that was given other bytes than it must be, where they are not
// judged.
fn add_given(told: &mut CaseText, case: &Case, given: &[Vec<u8>]) {
    if case.is_judged {
        return;
    }
    for place in 0..case.door.connections.len() {
        let wanted = case.door.connections[place].wanted.as_slice();
        add_connection(told, place, given_at(given, place), wanted);
    }
}

fn add_connection(told: &mut CaseText, place: usize, given: &[u8], wanted: &[u8]) {
    let number = place.saturating_add(1);
    match format!(in told.alloc(); "connection {number}") {
        Ok(name) => add_bytes(told, name.as_str(), given, wanted),
        Err(error) => told.add(Err(error)),
    }
}

fn given_at(given: &[Vec<u8>], place: usize) -> &[u8] {
    match given.get(place) {
        Some(bytes) => bytes,
        None => &[],
    }
}

// How many of these tell a place before one that they told.
fn going_back(given: &[Vec<u8>]) -> usize {
    let mut wrong = 0usize;
    for output in given {
        if !never_go_back(output) {
            wrong = wrong.saturating_add(1);
        }
    }
    wrong
}

// How many of these are not told one admission each, of an id that no other is told.
fn wrongly_answered(alloc: Global, given: &[Vec<u8>]) -> Result<usize, AllocError> {
    let mut ids = Vec::new(alloc);
    for output in given {
        if let Some(id) = admitted(output) {
            if !ids.contains(&id) {
                ids.push(id)?;
            }
        }
    }
    Ok(given.len().saturating_sub(ids.len()))
}

// Adds a line for what each journal has in place of what it should.
fn add_journals(told: &mut CaseText, case: &Case, outcome: &Outcome, left: &[u8]) {
    add_left(told, "the journal", &case.wanted.left, left);
    add_left(told, "the new journal", &case.moved.left, &outcome.moved);
}

// Adds a line where bytes are wanted, and others are left.
fn add_left(told: &mut CaseText, name: &str, wanted: &Option<Vec<u8>>, left: &[u8]) {
    if let Some(wanted) = wanted {
        if wanted.as_slice() != left {
            add_hex(told, name, left);
        }
    }
}

fn add_hex(told: &mut CaseText, name: &str, left: &[u8]) {
    match hex::encode(told.alloc(), left) {
        Ok(is) => told.add(format!(in told.alloc(); "{name} has {is}\n")),
        Err(error) => told.add(Err(error)),
    }
}

// Adds a line for the epoch that is found.
fn add_epoch<C: Runs>(
    runs: &C,
    told: &mut CaseText,
    case: &Case,
    journal: &[u8],
) -> Result<(), CaseTrouble> {
    let Some(at) = case.wanted.at else {
        return Ok(());
    };
    let found = epoch_of(runs, told.alloc(), topology_of(&case.text), journal)?;
    if found != Some(at) {
        told.add(format!(in told.alloc(); "the book is found at {found:?}, and {at} is wanted\n"));
    }
    Ok(())
}

// Adds a line for where what was written differs first, and what stands there.
fn add_bytes(told: &mut CaseText, name: &str, output: &[u8], wanted: &[u8]) {
    if !is_as_wanted(output, wanted) {
        add_difference(told, name, output, wanted);
    }
}

fn add_difference(told: &mut CaseText, name: &str, output: &[u8], wanted: &[u8]) {
    let (rest, form) = from_difference(output, wanted);
    let same = common(rest, form);
    let place = place_in(output, rest, same);
    let line = line_at(output, place);
    told.add(format!(in told.alloc(); "line {line} of {name} has "));
    add_shown(told, output, place);
    told.put(", and ");
    add_shown(told, wanted, place_in(wanted, form, same));
    told.put(" is wanted\n");
}

// Where a place in the rest of some bytes stands in all of them.
fn place_in(bytes: &[u8], rest: &[u8], place: usize) -> usize
    ensures { result ≤ length bytes.now }
{
    let behind = rest.len().saturating_sub(place);
    bytes.len().saturating_sub(behind)
}

// Adds what stands round a place.
fn add_shown(told: &mut CaseText, bytes: &[u8], place: usize)
    requires { place ≤ length bytes.now }
{
    match shown(told.alloc(), bytes, place) {
        Ok(text) => told.show(&text),
        Err(error) => told.add(Err(error)),
    }
}

// The number of the line in which a place stands, counted from 1.
fn line_at(bytes: &[u8], place: usize) -> usize
    requires { place ≤ length bytes.now }
{
    let mut line = 1usize;
    for byte in &bytes[..place] {
        if *byte == b'\n' {
            line = line.saturating_add(1);
        }
    }
    line
}

// How many bytes they begin with in common.
fn common(one: &[u8], other: &[u8]) -> usize
    ensures one { result ≤ length one.now }
    ensures other { result ≤ length other.now }
{
    let shorter = one.len().min(other.len());
    for place in 0..shorter {
        if one[place] != other[place] {
            return place;
        }
    }
    shorter
}

// What stands round a place.
fn shown(alloc: Global, bytes: &[u8], place: usize) -> Result<String, AllocError>
    requires { place ≤ length bytes.now }
{
    let start = place.saturating_sub(BEFORE);
    let end = bytes.len().min(start.saturating_add(SHOWN));
    String::from_utf8_lossy(alloc, &bytes[start..end])
}
