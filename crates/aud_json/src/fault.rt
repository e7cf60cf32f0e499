//! Why no fields were read.
ghost use Rattle.std.specs.Prelude.{◌≡◌};

use json::Invalid;
use std::alloc::{AllocError, AllocFailed};
use thiserror::Error;

/// Why no fields were read.
#[derive(Clone, Copy, Debug, PartialEq, Eq, Drop, Error)]
pub enum FieldsFault {
    /// The text is no JSON (RFC 8259) that `serde_json` reads: it nests deeper than 127, or has half a surrogate pair
    /// or a number that no 64-bit float holds, or is none at all.
    #[error("the text is no JSON")]
    NotJson,
    /// Memory could not be had.
    #[error("out of memory")]
    Memory,
}

impl From<Invalid> for FieldsFault {
    ghost use Rattle.aud_json.specs.declared.fault.FieldsFault.TheVariants.{NotJson};

    ghost from_gives = { λ _ e. e ≡ NotJson };

    fn from(_: Invalid) -> FieldsFault {
        FieldsFault::NotJson
    }
}

impl From<AllocError> for FieldsFault {
    ghost use Rattle.aud_json.specs.declared.fault.FieldsFault.TheVariants.{Memory};

    ghost from_gives = { λ _ e. e ≡ Memory };

    fn from(_: AllocError) -> FieldsFault {
        FieldsFault::Memory
    }
}

impl<T: Drop> From<AllocFailed<T>> for FieldsFault {
    ghost use Rattle.aud_json.specs.declared.fault.FieldsFault.TheVariants.{Memory};

    ghost from_gives = { λ _ e. e ≡ Memory };

    fn from(_: AllocFailed<T>) -> FieldsFault {
        FieldsFault::Memory
    }
}
