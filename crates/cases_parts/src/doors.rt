// Doors in memory: connections that come from a list, and come back.
ghost use Rattle.std.specs.Prelude.{◌≡◌, length, IfOk};
ghost use Rattle.hose_io.specs.Frame.{Stays};

use cases_common::{CaseText, Trouble};
use hose_io::{Door, Failed, MemDoor, MemSource, Sink, Source};
use std::alloc::{AllocError, Global};

// What is passed may go to another thread.
fn is_movable<D: Door + Send>(_door: &D) {}

/// What became of the only connection of a door, of which two bytes are taken and to which three
/// are put, and whether another one comes.
pub fn tell_only_one(told: &mut CaseText) -> Result<(), Trouble> {
    let mut door = one_comes(told.alloc())?;
    is_movable(&door);
    tell_served(&mut door, told)
}

fn tell_served(door: &mut MemDoor, told: &mut CaseText) -> Result<(), Trouble>
    requires { door.old.accepted ≡ length door.old.ended }
{
    door.open(1)?;
    serve_one(door)?;
    let comes = comes(door);
    tell_ended(door, told)?;
    let alloc = told.alloc();
    told.add(format!(in alloc; "\nanother one comes: {comes:?}"));
    Ok(())
}

// A door to which one connection comes, with three bytes.
fn one_comes(alloc: Global) -> Result<MemDoor, AllocError>
    ensures { IfOk result (λ door. door.accepted ≡ length door.ended) }
{
    let mut inputs = Vec::new(alloc);
    inputs.push(MemSource::new(alloc, b"abc", 4)?)?;
    MemDoor::new(alloc, inputs)
}

// The number of the one connection that ended, what was taken of it, what is left, and what was
// put.
fn tell_ended(door: &MemDoor, told: &mut CaseText) -> Result<(), Trouble> {
    let [done] = door.ended() else {
        return Err(Trouble::Word);
    };
    let (taken, left, put) = (done.input.taken(), done.input.left(), done.output.bytes());
    let alloc = told.alloc();
    told.add(format!(in alloc; "{} {taken:?} {left:?} {put:?}", done.number));
    Ok(())
}

// Uses the next connection, and ends it. Fails where none comes.
fn serve_one(door: &mut MemDoor) -> Result<(), Failed>
    requires { door.old.accepted ≡ length door.old.ended }
{
    let Some((mut input, mut output)) = door.accept()? else {
        return Err(Failed);
    };
    let used = use_ends(&mut input, &mut output);
    door.back(MemDoor::done(input, output));
    used
}

// Takes two bytes, and puts three.
fn use_ends<S: Source, O: Sink>(input: &mut S, output: &mut O) -> Result<(), Failed>
    ensures input { Stays (S.frame input.old) (S.frame input.new) }
    ensures output { Stays (O.frame output.old) (O.frame output.new) }
{
    input.take(&mut [0; 2])?;
    output.put(b"yes")?;
    Ok(())
}

fn comes(door: &mut MemDoor) -> Result<bool, Failed> {
    Ok(door.accept()?.is_some())
}

/// What comes of opening a door and of accepting twice, of which the first and the third call fail,
/// and how many calls failed then.
pub fn tell_failing(told: &mut CaseText) -> Result<(), Trouble> {
    let alloc = told.alloc();
    tell_failures(&mut MemDoor::new(alloc, Vec::new(alloc))?, told)
}

fn tell_failures(door: &mut MemDoor, told: &mut CaseText) -> Result<(), Trouble> {
    door.fail(1)?;
    door.fail(3)?;
    let opened = door.open(1);
    let comes = [comes(door), comes(door)];
    let alloc = told.alloc();
    told.add(format!(in alloc; "{opened:?} {comes:?} {}", door.faults().count));
    Ok(())
}
