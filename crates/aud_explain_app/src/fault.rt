//! Why nothing was explained.
ghost use Rattle.std.specs.Prelude.{◌≡◌};
ghost use Rattle.aud_explain_app.specs.declared.fault.ExplainFault.TheVariants as fault;
ghost use Rattle.aud_explain_app.specs.declared.fault.Unexplained.TheVariants.{Memory};

use std::alloc::AllocError;

/// Why there is no output, or after `Write` the front of one.
#[derive(Clone, Copy, Debug, PartialEq, Eq, Drop)]
pub enum ExplainFault {
    /// Nothing was explained, and nothing written.
    Unexplained(Unexplained),
    /// The bundle doesn't have this record of the words; they count from 0. Nothing was written.
    NoRecord { number: usize },
    /// The files have another size than the part whose lines are to be named; nothing was written.
    OtherPart,
    /// The output could not be written.
    Write,
}

/// Why nothing was explained.
#[derive(Clone, Copy, Debug, PartialEq, Eq, Drop)]
pub enum Unexplained {
    /// This file could not be read; files count from 0.
    Unread { file: usize },
    /// Memory could not be had.
    Memory,
    /// A worker's thread could not be started.
    Spawn,
    /// No record names this session of the words, and no client asked for it; they count from 0.
    NoSession { number: usize },
}

impl From<AllocError> for ExplainFault {
    ghost from_gives = { λ _ e. e ≡ fault.Unexplained Memory };

    fn from(_: AllocError) -> ExplainFault {
        ExplainFault::Unexplained(Unexplained::Memory)
    }
}

impl From<Unexplained> for ExplainFault {
    ghost from_gives = { λ why e. e ≡ fault.Unexplained why };

    fn from(why: Unexplained) -> ExplainFault {
        ExplainFault::Unexplained(why)
    }
}

impl From<AllocError> for Unexplained {
    ghost from_gives = { λ _ e. e ≡ Memory };

    fn from(_: AllocError) -> Unexplained {
        Unexplained::Memory
    }
}
