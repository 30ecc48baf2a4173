// What a case is run over: streams, a cabinet and a door in memory; and what came of them.
ghost use Rattle.std.specs.Prelude.{◌≡◌, All, IfOk, IsOk, None};
ghost use Rattle.hose_disk.specs.steps.CabinetState.{cabinet_frame};
ghost use Rattle.hose_io.specs.steps.DoorState.{IsFresh};

use crate::outcome::{Outcome, held, whole};
use crate::streams::{CaseEnds, LongSource, NarrowSink};
use cases_files::{
    Case, CaseConnection, CaseDoor, CaseInput, CaseJournal, CaseOutput, CaseTrouble,
};
use hose_disk::{Cabinet, Disk, DiskCall, MemCabinet, MemDisk};
use hose_graph::Topology;
use hose_io::{MemDoor, MemSink, MemSource};
use hose_topo::read;
use hose_words::LineReader;
use std::alloc::{AllocError, Global};

/// The name of the journal in the cabinet.
pub const JOURNAL: &str = "j";

/// The name of the text in it.
pub const TEXT: &str = "t";

// The names of another network's text and of its journal.
const NEW_TEXT: &str = "u";

const NEW_JOURNAL: &str = "k";

// The status at which the disk of the journal may be gone: there was no memory to share it.
const NO_MEMORY: u8 = 7;

// How many bytes a connection gives in a call.
const PIECE: u64 = 4_096;

// How many bytes that are no line come again at once.
const FILLING: usize = 65_536;

/// What a run of the program is handed of a case.
#[derive(Drop)]
pub struct CaseStage {
    pub input: LongSource,
    pub output: NarrowSink,
    pub cabinet: MemCabinet,
    pub door: MemDoor,
}

/// What a run of the program is handed of a case.
pub fn stage_of(alloc: Global, case: &Case) -> Result<CaseStage, AllocError>
    ensures { IfOk result (λ stage. (cabinet_frame stage.cabinet).out ≡ None) }
{
    let (cabinet, door) = around_of(alloc, case)?;
    let CaseEnds { source, sink } = ends_of(alloc, case, 0)?;
    Ok(CaseStage {
        input: source,
        output: sink,
        cabinet,
        door,
    })
}

fn around_of(alloc: Global, case: &Case) -> Result<(MemCabinet, MemDoor), AllocError>
    ensures { IfOk result (λ around. (cabinet_frame around.0).out ≡ None) }
{
    let cabinet = cabinet_of(alloc, case)?;
    let door = door_of(alloc, &case.door)?;
    Ok((cabinet, door))
}

/// What came of a run with this status.
pub fn outcome_of(
    alloc: Global,
    case: &Case,
    status: u8,
    mut stage: CaseStage,
) -> Result<Outcome, AllocError>
    requires { (cabinet_frame stage.cabinet).out ≡ None }
{
    let mut outcome = Outcome::new(alloc, u64::from(status), None);
    let told = tell_stage(alloc, case, status, &mut stage, &mut outcome);
    whole(outcome, told)
}

fn tell_stage(
    alloc: Global,
    case: &Case,
    status: u8,
    stage: &mut CaseStage,
    outcome: &mut Outcome,
) -> Result<(), AllocError>
    requires { (cabinet_frame stage.old.cabinet).out ≡ None }
{
    tell_disks(alloc, status, &mut stage.cabinet, outcome)?;
    tell_streams(alloc, stage, case.door.connections.len(), outcome)
}

// Tells what both journals hold, where they were put back.
fn tell_disks(
    alloc: Global,
    status: u8,
    cabinet: &mut MemCabinet,
    outcome: &mut Outcome,
) -> Result<(), AllocError>
    requires { (cabinet_frame cabinet.old).out ≡ None }
{
    if status != NO_MEMORY {
        outcome.moved = held_in(alloc, cabinet, NEW_JOURNAL)?;
        outcome.disk = cabinet.disk(JOURNAL).ok();
    }
    Ok(())
}

// What the disk of a name in a cabinet holds.
fn held_in(alloc: Global, cabinet: &mut MemCabinet, name: &str) -> Result<Vec<u8>, AllocError>
    requires { (cabinet_frame cabinet.old).out ≡ None }
    ensures { (cabinet_frame cabinet.new).out ≡ None }
{
    let Ok(mut disk) = cabinet.disk(name) else {
        return Ok(Vec::new(alloc));
    };
    let bytes = held(alloc, &mut disk);
    cabinet.back(disk);
    bytes
}

fn tell_streams(
    alloc: Global,
    stage: &CaseStage,
    connections: usize,
    outcome: &mut Outcome,
) -> Result<(), AllocError> {
    outcome.taken = stage.input.taken();
    outcome.output.extend_from_slice(stage.output.bytes())?;
    add_given(alloc, &stage.door, connections, &mut outcome.given)
}

/// The ends of the session of a case. One more call of its output fails, if its number is not 0.
pub fn ends_of(
    alloc: Global,
    case: &Case,
    cut: u64,
) -> Result<CaseEnds<LongSource, NarrowSink>, AllocError> {
    let source = source_of(alloc, &case.input)?;
    let sink = sink_of(alloc, &case.output, cut)?;
    Ok(CaseEnds { source, sink })
}

/// The ends of a session that a connection of a case has.
pub fn peer_ends(
    alloc: Global,
    connection: &CaseConnection,
) -> Result<CaseEnds<MemSource, MemSink>, AllocError> {
    let source = MemSource::new(alloc, &connection.bytes, PIECE)?;
    let sink = MemSink::new(alloc)?;
    Ok(CaseEnds { source, sink })
}

fn source_of(alloc: Global, input: &CaseInput) -> Result<LongSource, AllocError> {
    let stored = stored_of(alloc, input)?;
    let again = again_of(alloc, input)?;
    Ok(LongSource::new(stored, input.piece, again, input.more))
}

fn stored_of(alloc: Global, input: &CaseInput) -> Result<MemSource, AllocError> {
    let mut source = MemSource::new(alloc, &input.bytes, input.piece.bytes)?;
    fail_takes(&mut source, &input.failing)?;
    Ok(source)
}

fn fail_takes(source: &mut MemSource, calls: &[u64]) -> Result<(), AllocError> {
    for nth in calls {
        source.fail(*nth)?;
    }
    Ok(())
}

// What comes again and again after the input.
fn again_of(alloc: Global, input: &CaseInput) -> Result<Vec<u8>, AllocError> {
    if input.repeats {
        return Vec::from_slice(alloc, &input.bytes);
    }
    if input.more > 0 {
        return Vec::from_elem(alloc, b'x', FILLING);
    }
    Ok(Vec::new(alloc))
}

// A sink as the case says, of which one more call fails where its number is not 0.
fn sink_of(alloc: Global, output: &CaseOutput, cut: u64) -> Result<NarrowSink, AllocError> {
    Ok(NarrowSink::new(taking(alloc, &output.failing, cut)?, output.piece))
}

fn taking(alloc: Global, failing: &[u64], cut: u64) -> Result<MemSink, AllocError> {
    let mut sink = MemSink::new(alloc)?;
    fail_puts(&mut sink, failing, cut)?;
    Ok(sink)
}

fn fail_puts(sink: &mut MemSink, calls: &[u64], cut: u64) -> Result<(), AllocError> {
    for nth in calls {
        sink.fail(*nth)?;
    }
    sink.fail(cut)
}

// A cabinet with the journal, and the texts that there are.
fn cabinet_of(alloc: Global, case: &Case) -> Result<MemCabinet, AllocError>
    ensures { IfOk result (λ cabinet. (cabinet_frame cabinet).out ≡ None) }
{
    let disk = disk_of(alloc, &case.journal)?;
    let mut cabinet = MemCabinet::of(alloc, JOURNAL.as_bytes(), disk)?;
    fill(alloc, &mut cabinet, case)?;
    Ok(cabinet)
}

fn fill(alloc: Global, cabinet: &mut MemCabinet, case: &Case) -> Result<(), AllocError>
    requires { (cabinet_frame cabinet.old).out ≡ None }
    ensures { IsOk result → (cabinet_frame cabinet.new).out ≡ None }
{
    if !case.text.is_empty() {
        add_text(alloc, cabinet, &case.text)?;
    }
    if !case.moved.text.is_empty() {
        add_network(alloc, cabinet, case)?;
    }
    match case.failing {
        Some(nth) => cabinet.fail(nth),
        None => Ok(()),
    }
}

// Adds the text, under names that say how it may be written.
fn add_text(alloc: Global, cabinet: &mut MemCabinet, text: &[u8]) -> Result<(), AllocError>
    requires { (cabinet_frame cabinet.old).out ≡ None }
    ensures { IsOk result → (cabinet_frame cabinet.new).out ≡ None }
{
    cabinet.add_text(alloc, TEXT.as_bytes(), text)?;
    cabinet.add_text(alloc, b"t.json", text)?;
    cabinet.add_text(alloc, b".json", text)
}

// Adds another network's text and journal. A journal that is moved is looked for as a text first,
// as in a folder, where both are files.
fn add_network(alloc: Global, cabinet: &mut MemCabinet, case: &Case) -> Result<(), AllocError>
    requires { (cabinet_frame cabinet.old).out ≡ None }
    ensures { IsOk result → (cabinet_frame cabinet.new).out ≡ None }
{
    cabinet.add_text(alloc, NEW_TEXT.as_bytes(), &case.moved.text)?;
    if !case.journal.bytes.is_empty() {
        cabinet.add_text(alloc, JOURNAL.as_bytes(), &case.journal.bytes)?;
    }
    write_new(cabinet, &case.moved.bytes);
    Ok(())
}

fn write_new(cabinet: &mut MemCabinet, bytes: &[u8])
    requires { (cabinet_frame cabinet.old).out ≡ None }
    ensures { (cabinet_frame cabinet.new).out ≡ None }
{
    if let Ok(mut disk) = cabinet.disk(NEW_JOURNAL) {
        write_durably(&mut disk, bytes);
        cabinet.back(disk);
    }
}

/// The network of a case.
pub fn network_of(alloc: Global, case: &Case) -> Result<Topology, CaseTrouble> {
    let source = MemSource::new(alloc, &case.text, PIECE)?;
    match read(alloc, &mut LineReader::new(source)) {
        Ok(top) => Ok(top),
        Err(_) => Err(CaseTrouble::opening()),
    }
}

/// A disk on which a journal is durable, and of which calls fail as its case says.
pub fn disk_of(alloc: Global, journal: &CaseJournal) -> Result<MemDisk, AllocError> {
    let mut disk = MemDisk::new(alloc)?;
    write_durably(&mut disk, &journal.bytes);
    fail_disk(&mut disk, &journal.failing)?;
    Ok(disk)
}

// Writes at the front of a disk of which no call is to fail yet.
fn write_durably(disk: &mut MemDisk, bytes: &[u8]) {
    if !bytes.is_empty() && (bytes.len() as u64) < 1 << 62 {
        let _ = disk.write_at(0, bytes);
        let _ = disk.sync();
    }
}

fn fail_disk(disk: &mut MemDisk, calls: &[(DiskCall, u64)]) -> Result<(), AllocError> {
    for (kind, nth) in calls {
        disk.fail(*kind, *nth)?;
    }
    Ok(())
}

// What the connections of a case give, in the order in which they are accepted.
#[derive(Drop)]
struct Peers {
    sources: Vec<MemSource>,
    ghost fresh: { All IsFresh sources.items },
}

impl Peers {
    fn add(&mut self, alloc: Global, connection: &CaseConnection) -> Result<(), AllocError> {
        let mut source = MemSource::new(alloc, &connection.bytes, PIECE)?;
        source.fail(connection.failing)?;
        self.sources.push(source)?;
        Ok(())
    }

    fn into_door(self, alloc: Global) -> Result<MemDoor, AllocError> {
        MemDoor::new(alloc, self.sources)
    }
}

// A door that the connections of a case come to.
fn door_of(alloc: Global, door: &CaseDoor) -> Result<MemDoor, AllocError> {
    let mut opening = peers_of(alloc, &door.connections)?.into_door(alloc)?;
    fail_door(&mut opening, &door.failing)?;
    Ok(opening)
}

fn peers_of(alloc: Global, connections: &[CaseConnection]) -> Result<Peers, AllocError> {
    let mut peers = Peers {
        sources: Vec::new(alloc),
    };
    add_peers(alloc, &mut peers, connections)?;
    Ok(peers)
}

fn add_peers(
    alloc: Global,
    peers: &mut Peers,
    connections: &[CaseConnection],
) -> Result<(), AllocError> {
    for connection in connections {
        peers.add(alloc, connection)?;
    }
    Ok(())
}

fn fail_door(door: &mut MemDoor, calls: &[u64]) -> Result<(), AllocError> {
    for nth in calls {
        door.fail(*nth)?;
    }
    Ok(())
}

// Adds what each of so many connections was given, in their order: nothing where it did not end.
fn add_given(
    alloc: Global,
    door: &MemDoor,
    count: usize,
    given: &mut Vec<Vec<u8>>,
) -> Result<(), AllocError> {
    for number in 1..=count as u64 {
        given.push(Vec::from_slice(alloc, given_to(door, number))?)?;
    }
    Ok(())
}

fn given_to(door: &MemDoor, number: u64) -> &[u8] {
    for done in door.ended() {
        if done.number == number {
            return done.output.bytes();
        }
    }
    &[]
}
