//! Why a text is no listing.
ghost use Rattle.std.specs.Prelude.{◌≡◌};
ghost use Rattle.aud_parts.specs.declared.listing.fault.ListingFault.TheVariants.{Memory};

use std::alloc::AllocError;
use thiserror::Error;

/// Why a text is no listing of sessions, in words that follow its name; or running out of memory.
///
/// `NoListing`, `NoPart` and `NoPid` come at the first line at fault; `CutShort`, `PidTwice` and `EmptyPart`, in this
/// order, where no line is.
#[derive(Debug, Drop, Error)]
pub enum ListingFault {
    /// The first line isn't `parts=<number> sessions=<number>`, or a later one not `<number> <pid>`.
    #[error("is no list of the sessions of a split")]
    NoListing,
    /// There are fewer lines than the first one says, or more; or the last one isn't ended by a newline.
    #[error("has fewer or more lines than its first line says")]
    CutShort,
    /// The number of a part is not one of 1 to the count of the parts.
    #[error("has a session of a part that isn't there")]
    NoPart,
    /// A pid is not of 1 to 128 bytes of 0x21 to 0x7e.
    #[error("has a session whose pid can be none")]
    NoPid,
    /// Two lines have the same pid.
    #[error("has a session twice")]
    PidTwice,
    /// There are several parts, and one of them has no session.
    #[error("has a part without a session")]
    EmptyPart,
    /// Memory could not be had.
    #[error("out of memory")]
    Memory,
}

impl From<AllocError> for ListingFault {
    ghost from_gives = { λ _ e. e ≡ Memory };

    fn from(_: AllocError) -> ListingFault {
        ListingFault::Memory
    }
}
