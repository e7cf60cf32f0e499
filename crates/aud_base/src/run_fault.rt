//! Why a run has no report.
use std::alloc::AllocError;
use thiserror::Error;

/// Why a run has no report; the words are those of the program's line on standard error.
#[derive(Clone, Copy, Debug, PartialEq, Eq, Drop, Error)]
pub enum RunFault {
    /// Memory could not be had.
    #[error("memory")]
    Memory,
    /// A read failed, or the input took too many reads.
    #[error("read")]
    Read,
    /// A write failed or took nothing.
    #[error("write")]
    Write,
    /// A thread could not be started.
    #[error("thread")]
    Spawn,
}

impl From<AllocError> for RunFault {
    ghost use Rattle.std.specs.Prelude.{◌≡◌};
    ghost use Rattle.aud_base.specs.declared.run_fault.RunFault.TheVariants.{Memory};

    ghost from_gives = { λ _ e. e ≡ Memory };

    fn from(_: AllocError) -> RunFault {
        RunFault::Memory
    }
}
