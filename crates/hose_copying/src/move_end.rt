// How a move ends: why it ended early, or what it brought, and how both are told.
ghost use Rattle.std.specs.Prelude.{◌≡◌, ◌<◌, Ok, length};
ghost use Rattle.hose_io.specs.steps.Gather.{IsAdded};
ghost use Rattle.hose_io.specs.steps.Writing.{IsPut};
ghost use Rattle.hose_copying.specs.steps.MoveEnd.{IsWhyOfMove};
ghost use Rattle.hose_outside.specs.steps.Ending.{WroteWhy};
ghost use Rattle.hose_outside.specs.Why.{why_status};
ghost use Rattle.hose_copying.specs.MoveEnd.{EndsMoved, moved_done, moved_line, number_line, number_lines, stop_of_change};

use hose_io::{Failed, Gather, Sink, write_all};
use hose_move::{MoveFault, NetworkChange};
use hose_outside::{Fault, MoveStop, Why};

/// What a move brought: how many entries the new journal has, and how many VPNs are live.
#[derive(Clone, Copy, Debug, PartialEq, Eq)]
pub struct Moved {
    pub entries: u64,
    pub live: u64,
}

/// Why a move ends at this first change of a network.
pub fn stop_of_change(change: NetworkChange) -> MoveStop
    ensures { result ≡ stop_of_change change }
{
    match change {
        NetworkChange::Node(node) => MoveStop::Node(node),
        NetworkChange::Link(link) => MoveStop::Link(link),
    }
}

/// What came of moving so many entries into a journal.
pub fn as_moved(entries: u64, moved: Result<usize, MoveFault>) -> Result<Moved, MoveStop>
    ensures { result ≡ moved_done entries moved }
{
    match moved {
        Ok(live) => Ok(Moved {
            entries,
            live: live as u64,
        }),
        Err(MoveFault::Store(fault)) => Err(MoveStop::New(Fault::from(fault))),
        Err(MoveFault::Differs { epoch }) => Err(MoveStop::Differs { epoch }),
        Err(MoveFault::Unsound { epoch }) => Err(MoveStop::Unsound { epoch }),
        Err(MoveFault::Disk) => Err(MoveStop::New(Fault::Cabinet)),
        Err(MoveFault::Memory) => Err(MoveStop::New(Fault::Memory)),
    }
}

/// Writes a line for each VPN that has another number in the new journal: the old one, and the new
/// one.
pub fn put_numbers<O: Sink>(numbers: &[u64], output: &mut O) -> Result<(), Failed>
    ensures { IsPut O.Sink output.old output.new (number_lines numbers.now) result }
{
    let mut gather = Gather::new();
    add_numbers(&mut gather, output, numbers);
    gather.finish(output)
}

// Adds the lines of all numbers.
fn add_numbers<O: Sink>(gather: &mut Gather, output: &mut O, numbers: &[u64])
    ensures { IsAdded O.Sink gather.old output.old gather.new output.new
        (number_lines numbers.now) }
{
    for place in 0..numbers.len() {
        add_number_line(gather, output, numbers, place);
    }
}

// Adds the line of the number of a place.
fn add_number_line<O: Sink>(gather: &mut Gather, output: &mut O, numbers: &[u64], place: usize)
    requires { place < length numbers.now }
    ensures { IsAdded O.Sink gather.old output.old gather.new output.new
        (number_line numbers.now place) }
{
    gather.add_numbered(output, b"vpn ", numbers[place]);
    gather.add_numbered(output, b" is ", place as u64 + 1);
    gather.add(output, b"\n");
}

/// Why a move ended, after its last line.
pub fn end_move<O: Sink>(moved: Result<Moved, MoveStop>, output: &mut O) -> Why
    ensures { WroteWhy O.Sink output.old output.new result
        (EndsMoved O.Sink output.old output.new (why_status result) moved)
        (IsWhyOfMove moved result) }
{
    match moved {
        Ok(moved) => end_whole(moved, output),
        Err(stop) => {
            // Why stays the fault where its line cannot be written.
            let _ = stop.put(output);
            Why::NotMoved(stop)
        }
    }
}

// Why a move ended that came to its end, after its last line.
fn end_whole<O: Sink>(moved: Moved, output: &mut O) -> Why
    ensures { WroteWhy O.Sink output.old output.new result
        (EndsMoved O.Sink output.old output.new (why_status result) (Ok moved))
        (IsWhyOfMove (Ok moved) result) }
{
    match put_moved(output, moved) {
        Ok(()) => Why::Done,
        Err(_) => Why::Stopped(Fault::Write),
    }
}

// Writes the last line of a move that came to its end.
fn put_moved<O: Sink>(output: &mut O, moved: Moved) -> Result<(), Failed>
    ensures { IsPut O.Sink output.old output.new (moved_line moved) result }
{
    let mut gather = Gather::new();
    gather.add_numbered(output, b"moved ", moved.entries);
    gather.add_numbered(output, b" live ", moved.live);
    gather.add(output, b"\n");
    gather.finish(output)
}
