//! Why a text doesn't say from which lines of a recording those of a part come.
ghost use Rattle.std.specs.Prelude.{◌≡◌};
ghost use Rattle.aud_parts.specs.declared.named_lines.fault.LinesFault.TheVariants.{Memory};

use std::alloc::AllocError;
use thiserror::Error;

/// Why a text doesn't say from which lines of a recording those of a part come, in words that follow its name; or
/// running out of memory.
#[derive(Debug, Drop, Error)]
pub enum LinesFault {
    /// The first line isn't `lines=<number> bytes=<number>`.
    #[error("line 1: is not lines=<number> bytes=<number>")]
    NoSize,
    /// The line of this number is neither a run's, `<count> <line>`, both from 1 on, nor a file's,
    /// `file=<lines> <name>`; or it is a run's after a file's.
    #[error("line {0}: is neither <count> <line>, both from 1 on, nor, after those, file=<lines> <name>")]
    BadLine(usize),
    /// The runs have fewer lines than the first line says, or more; or the last line isn't ended by a newline.
    #[error("names fewer or more lines than its line 1 says")]
    OtherCount,
    /// Memory could not be had.
    #[error("out of memory")]
    Memory,
}

impl From<AllocError> for LinesFault {
    ghost from_gives = { λ _ e. e ≡ Memory };

    fn from(_: AllocError) -> LinesFault {
        LinesFault::Memory
    }
}
