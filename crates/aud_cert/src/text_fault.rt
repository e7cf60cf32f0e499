//! Why a certificate is not read.
ghost use Rattle.std.specs.Prelude.{◌≡◌};
ghost use Rattle.aud_cert.specs.declared.text_fault.CertFault.TheVariants.{Memory};

use std::alloc::{AllocError, AllocFailed};
use std::fmt;
use thiserror::Error;

/// Why a certificate is not read over the logs, in the order in which these are looked for; or running out of memory.
#[derive(Clone, Copy, Debug, PartialEq, Eq, Drop, Error)]
pub enum CertFault {
    /// K1: the text is no certificate's.
    Syntax,
    /// K2: the client is no client tap's name, or a node no node tap's.
    UnknownTap,
    /// K3: a number is not within the logs, or none that a turn or a span can have.
    Range,
    /// K4: memory for the certificate could not be had.
    Memory,
}

impl fmt::Display for CertFault {
    ghost use Rattle.std.specs.Prelude.{Some};
    ghost use Rattle.aud_cert.specs.TextFault.{cert_fault_text};

    ghost output = { λ f. Some (cert_fault_text f) };

    fn fmt<W: fmt::Write>(&self, f: &mut fmt::Formatter<W>) -> fmt::Result {
        match self {
            CertFault::Syntax => write!(f, "K1 Syntax"),
            CertFault::UnknownTap => write!(f, "K2 UnknownTap"),
            CertFault::Range => write!(f, "K3 Range"),
            CertFault::Memory => write!(f, "K4 Memory"),
        }
    }
}

impl From<AllocError> for CertFault {
    ghost from_gives = { λ _ e. e ≡ Memory };

    fn from(_: AllocError) -> CertFault {
        CertFault::Memory
    }
}

impl<T: Drop> From<AllocFailed<T>> for CertFault {
    ghost from_gives = { λ _ e. e ≡ Memory };

    fn from(_: AllocFailed<T>) -> CertFault {
        CertFault::Memory
    }
}
