// What of a session is told to the log.
ghost use Rattle.hose_graph.specs.steps.Naming.{NamesPlaces};

use hose_graph::{Command, Name, Reply, Topology};
use hose_io::MemSink;
use hose_log::Log;
use hose_proto::put_reply;
use std::alloc::Global;

/// Whether a command is an order: it may change the book.
pub fn is_order(command: &Command) -> bool {
    match command {
        Command::Admit(_) => true,
        Command::AdmitAfter { .. } => true,
        Command::Take(_) => true,
        Command::Release(_) => true,
        Command::Down(_) => true,
        Command::Up(_) => true,
        Command::Quote(_) => false,
        Command::Show(_) => false,
        Command::Vpns => false,
        Command::Link(_) => false,
    }
}

/// Tells the log of a line and its reply, where the line is an order or the reply tells a failure.
/// Where there is no memory for the text of the reply, the log does without.
pub fn tell<L: Log>(
    alloc: Global,
    log: &mut L,
    top: &Topology,
    customer: &Name,
    line: &[u8],
    reply: &Reply,
    is_order: bool,
)
    requires { NamesPlaces top.now reply.now }
{
    if !is_order && !is_failure(reply) {
        return;
    }
    let Ok(mut text) = MemSink::new(alloc) else {
        return;
    };
    if put_reply(&mut text, top, reply).is_err() {
        return;
    }
    let told = text.bytes();
    let told = match told.split_last() {
        Some((_feed, front)) => front,
        None => told,
    };
    log.tell(customer.bytes(), line, told);
}

fn is_failure(reply: &Reply) -> bool {
    match reply {
        Reply::Disk { .. } => true,
        Reply::Memory => true,
        _ => false,
    }
}
