//! Why a message is refused.
ghost use Rattle.std.specs.Prelude.{◌≡◌};
ghost use Rattle.aud_sio.specs.declared.fault.SioFault.TheVariants.{Memory};

use std::alloc::{AllocError, AllocFailed};
use thiserror::Error;

/// Why a message is refused; the first of these that holds is the one given. `Memory` may come in place of each.
#[derive(Clone, Copy, Debug, PartialEq, Eq, Drop, Error)]
pub enum SioFault {
    /// A text message comes where attachments are awaited.
    #[error("a text comes where attachments are awaited")]
    TextWhileBinary,
    /// A binary message comes where no attachment is awaited.
    #[error("bytes come where no attachment is awaited")]
    StrayBinary,
    /// The text has no bytes.
    #[error("the text has no byte")]
    Empty,
    /// The first byte is no digit from 0 to 6.
    #[error("the first byte is no packet type")]
    UnknownType,
    /// The packet is binary, and no count from 0 to 64 of one or two digits, with a dash after it,
    /// follows the type.
    #[error("no count of attachments from 0 to 64 follows the type")]
    Attachments,
    /// The acknowledgement id has more than 18 digits.
    #[error("the acknowledgement id has more than 18 digits")]
    AckId,
    /// The payload is no JSON; or the kind wants an array, and it is none or is missing.
    #[error("the payload is not the JSON that the kind wants")]
    Payload,
    /// Memory could not be had.
    #[error("out of memory")]
    Memory,
}

impl From<AllocError> for SioFault {
    ghost from_gives = { λ _ e. e ≡ Memory };

    fn from(_: AllocError) -> SioFault {
        SioFault::Memory
    }
}

impl<T: Drop> From<AllocFailed<T>> for SioFault {
    ghost from_gives = { λ _ e. e ≡ Memory };

    fn from(_: AllocFailed<T>) -> SioFault {
        SioFault::Memory
    }
}
