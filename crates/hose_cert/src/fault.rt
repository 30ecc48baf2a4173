// Why a certificate was not judged, or not written.
ghost use Rattle.std.specs.Prelude.{◌≡◌};
ghost use Rattle.hose_cert.specs.steps.Fault.{fault_of_line};
ghost use Rattle.hose_cert.specs.declared.fault.CertFault.TheVariants.{Memory};
ghost use Rattle.hose_cert.specs.declared.fault.ProveFault.TheVariants as prove;

use hose_io::Failed;
use hose_words::LineFault;
use std::alloc::{AllocError, AllocFailed};

/// Why a certificate was not judged.
#[derive(Clone, Copy, Debug, PartialEq, Eq)]
pub enum CertFault {
    /// A call of the source failed.
    Read,
    /// The source gave more than 1 GiB.
    TooLong,
    /// There was too little memory.
    Memory,
}

impl<T: Drop> From<AllocFailed<T>> for CertFault {
    ghost from_gives = { λ _ fault. fault ≡ Memory };

    fn from(_failed: AllocFailed<T>) -> CertFault {
        CertFault::Memory
    }
}

impl From<AllocError> for CertFault {
    ghost from_gives = { λ _ fault. fault ≡ Memory };

    fn from(_error: AllocError) -> CertFault {
        CertFault::Memory
    }
}

impl From<LineFault> for CertFault {
    ghost from_gives = { λ line fault. fault ≡ fault_of_line line };

    fn from(fault: LineFault) -> CertFault {
        match fault {
            LineFault::Read => CertFault::Read,
            LineFault::TooLong => CertFault::TooLong,
        }
    }
}

/// Why a certificate was not written.
#[derive(Clone, Copy, Debug, PartialEq, Eq)]
pub enum ProveFault {
    /// A call of the sink failed.
    Write,
    /// There was too little memory.
    Memory,
}

impl From<AllocError> for ProveFault {
    ghost from_gives = { λ _ fault. fault ≡ prove.Memory };

    fn from(_error: AllocError) -> ProveFault {
        ProveFault::Memory
    }
}

impl From<Failed> for ProveFault {
    ghost from_gives = { λ _ fault. fault ≡ prove.Write };

    fn from(_failed: Failed) -> ProveFault {
        ProveFault::Write
    }
}
