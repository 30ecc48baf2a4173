// Why a program of cases stops before all cases are done.
use hose_codec::CodecFault;
use hose_graph::HoseFault;
use hose_io::Failed;
use hose_proto::ReadFault;
use hose_topo::TopoFault;
use std::alloc::AllocError;
use std::io;
use thiserror::Error;

/// Why a program of cases stops before all cases are done.
#[derive(Debug, Drop, Error)]
pub enum Trouble {
    #[error("a line has a word that data/README.md does not know, or names what is not there")]
    Word,
    #[error("a text is no network: {0}")]
    Network(#[from] TopoFault),
    #[error("a line is no command or no reply: {0:?}")]
    Line(#[from] ReadFault),
    #[error("endpoints make no hose: {0:?}")]
    Hose(#[from] HoseFault),
    #[error("bytes are no entry: {0}")]
    Entry(#[from] CodecFault),
    #[error("a call fails that no line has told to fail")]
    Failed(#[from] Failed),
    #[error("no memory")]
    Memory(#[from(alloc)] AllocError),
    #[error("{0}")]
    System(#[from] io::Error),
}
