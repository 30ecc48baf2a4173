// What a line of a certificate says, the words that begin it, and the limits of its numbers.
ghost use Rattle.std.specs.Prelude.{◌≡◌};
ghost use Rattle.hose_cert.specs.Limits.{line_numbers, most_number};

use hose_graph::{Hose, ReservedLink};

/// The greatest cost and the greatest number of a certificate, above each cost of a plan.
pub const MOST_NUMBER: u64 = 40_000_000_000_000_000;

/// How many numbers of a root stand in a line at most.
pub const LINE_NUMBERS: u32 = 64;

/// Each of these constants is the literal that definitions cite.
pub fn law_limits()
    ensures most_number { MOST_NUMBER ≡ most_number }
    ensures line_numbers { LINE_NUMBERS ≡ line_numbers }
{}

/// What a line of a certificate says.
#[derive(Drop)]
pub enum Statement {
    Cost(u64),
    Hose(Hose),
    Use(ReservedLink),
    Without(u32),
    Pot(Pot),
    End,
}

/// Numbers of a root, for one node after the other from the first one on.
#[derive(Drop)]
pub struct Pot {
    pub root: u32,
    pub from: u32,
    pub numbers: Vec<u64>,
}

/// What the first word of a line says that it is.
#[derive(Clone, Copy, Debug)]
pub enum StatementKind {
    Cost,
    Hose,
    Use,
    Without,
    Pot,
    End,
}

pub(crate) const KINDS: [(StatementKind, &[u8]); 6] = [
    (StatementKind::Cost, b"cost"),
    (StatementKind::Hose, b"hose"),
    (StatementKind::Use, b"use"),
    (StatementKind::Without, b"without"),
    (StatementKind::Pot, b"pot"),
    (StatementKind::End, b"end"),
];
