// Entries of a book, as they are accepted one after another, and what an admission leaves there.
ghost use Rattle.std.specs.Prelude.{◌≡◌, IfOk};

use crate::amounts::Amounts;
use crate::hose::Hose;
use crate::name::Name;
use std::alloc::{AllocError, Global};

/// What one accepted command did to the book.
#[derive(Debug, Drop)]
pub enum Entry {
    /// A customer's hose was admitted, with these amounts reserved for it.
    Admit {
        customer: Name,
        hose: Hose,
        amounts: Amounts,
    },
    /// A customer gave up the network of this number.
    Release {
        customer: Name,
        id: u64,
    },
    /// The operator took a link out of service.
    Down {
        link: u32,
    },
    /// The operator put a link back into service.
    Up {
        link: u32,
    },
}

impl Entry {
    /// A copy of the entry.
    pub fn copy(&self, alloc: Global) -> Result<Entry, AllocError>
        ensures { IfOk result (λ entry. entry ≡ self.now) }
    {
        match self {
            Entry::Admit {
                customer,
                hose,
                amounts,
            } => Ok(Entry::Admit {
                customer: *customer,
                hose: hose.copy(alloc)?,
                amounts: amounts.copy(alloc)?,
            }),
            Entry::Release { customer, id } => Ok(Entry::Release {
                customer: *customer,
                id: *id,
            }),
            Entry::Down { link } => Ok(Entry::Down { link: *link }),
            Entry::Up { link } => Ok(Entry::Up { link: *link }),
        }
    }
}

/// An admitted hose, with what is reserved for it.
#[derive(Debug, Drop)]
pub struct Vpn {
    /// The epoch after its admission.
    pub id: u64,
    pub customer: Name,
    pub hose: Hose,
    pub amounts: Amounts,
}
