//! Streams of bytes as the rest of `hosed` sees them: sources that are read, sinks that are
//! written, and what their failures are counted by.
#![tactic(auto)]

mod door;
mod failing;
mod faults;
mod gather;
mod mem_door;
mod mem_sink;
mod mem_source;
mod sink;
mod source;
mod std_streams;

pub use door::Door;
pub use failing::FailingCalls;
pub use faults::Faults;
pub use gather::{GATHER_LIMIT, Gather, write_all};
pub use mem_door::{MemDone, MemDoor};
pub use mem_sink::MemSink;
pub use mem_source::MemSource;
pub use sink::Sink;
pub use source::{Source, take_after};
pub use std_streams::{StdSink, StdSource};

/// A call of a source or a sink failed. The object's count of faults rose in that call.
#[derive(Clone, Copy, Debug, PartialEq, Eq)]
pub struct Failed;
