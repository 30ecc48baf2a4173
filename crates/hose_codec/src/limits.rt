// The limits of the format, beside those of networks and hoses, the kinds of entries, and why bytes
// are the entry of none.
ghost use Rattle.std.specs.Prelude.{◌≡◌};
ghost use Rattle.hose_codec.specs.declared.limits.CodecFault.TheVariants.{Memory};
ghost use Rattle.hose_codec.specs.Limits.{admit_kind, down_kind, most_spelling, release_kind, up_kind};
ghost use Rattle.hose_codec.specs.steps.Limits.{pair_bytes};

use hose_graph::MOST_TREE_LINKS;
use std::alloc::AllocError;
use thiserror::Error;

/// The greatest number of links with an amount.
pub const MOST_PAIRS: usize = MOST_TREE_LINKS as usize;

/// The greatest number of bytes of a spelling: that of an admission of 64 endpoints with 511
/// amounts, by a customer whose name has 16 bytes.
pub const MOST_SPELLING: usize = 3471;

/// The kind of an admission.
pub const ADMIT: u8 = 1;

/// The kind of a release.
pub const RELEASE: u8 = 2;

/// The kind of a link that was taken out of service.
pub const DOWN: u8 = 3;

/// The kind of a link that was put back into service.
pub const UP: u8 = 4;

/// The number of bytes of a pair: two of a node or link, and four of its rate or amount.
pub const PAIR_BYTES: usize = 6;

/// Each of these constants is the literal that definitions cite.
pub fn law_limits()
    ensures admit_kind { ADMIT ≡ admit_kind }
    ensures release_kind { RELEASE ≡ release_kind }
    ensures down_kind { DOWN ≡ down_kind }
    ensures up_kind { UP ≡ up_kind }
    ensures pair_bytes { PAIR_BYTES ≡ pair_bytes }
    ensures most_spelling { MOST_SPELLING ≡ most_spelling }
{}

/// Why bytes are not read as an entry.
#[derive(Clone, Copy, Debug, Error, PartialEq, Eq)]
pub enum CodecFault {
    /// The bytes are the spelling of no entry.
    #[error("the bytes are the spelling of no entry")]
    Bad,
    /// There was too little memory.
    #[error("there is too little memory")]
    Memory,
}

impl From<AllocError> for CodecFault {
    ghost from_gives = { λ _ fault. fault ≡ Memory };

    fn from(_error: AllocError) -> CodecFault {
        CodecFault::Memory
    }
}
