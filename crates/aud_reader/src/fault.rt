//! Why an input is refused.
ghost use Rattle.std.specs.Prelude.{◌≡◌, Some, Err};
ghost use Rattle.aud_reader.specs.declared.fault.ReadFault.TheVariants as read;
ghost use Rattle.aud_reader.specs.declared.fault.LineFault.TheVariants as line;

use std::alloc::{AllocError, AllocFailed};
use std::fmt;
use thiserror::Error;

/// Why a line is refused. docs/FORMAT.md has the order in which these are looked for.
#[derive(Clone, Copy, Debug, PartialEq, Eq, Drop, Error)]
pub enum InputCode {
    /// The line has more than 4,194,304 bytes.
    LineTooLong,
    /// The line does not begin with a tap's name and a blank.
    NoTapName,
    /// What follows the blank is no JSON text in UTF-8.
    NotJson,
    /// The first line of a tap is not its header.
    NoHeader,
    /// The tap, of its kind, has no such record.
    UnknownKind,
    /// A field is missing, or of another type or form.
    Field,
    /// A length, a number or a count is outside its limits.
    Limit,
    /// There is a stream tap already.
    SecondStream,
    /// An earlier entry of the stream has this offset.
    OffsetTwice,
    /// The tap has a header already.
    HeaderTwice,
    /// The header is of another version of the format.
    Version,
}

impl InputCode {
    ghost use Rattle.std.specs.Prelude.{◌≡◌};
    ghost use Rattle.aud_reader.specs.Codes.{code_text};

    /// The name of the refusal, as reports give it.
    pub fn name(self) -> &'static str
        ensures { result.now ≡ code_text self }
    {
        match self {
            InputCode::LineTooLong => "LineTooLong",
            InputCode::NoTapName => "NoTapName",
            InputCode::NotJson => "NotJson",
            InputCode::NoHeader => "NoHeader",
            InputCode::UnknownKind => "UnknownKind",
            InputCode::Field => "Field",
            InputCode::Limit => "Limit",
            InputCode::SecondStream => "SecondStream",
            InputCode::OffsetTwice => "OffsetTwice",
            InputCode::HeaderTwice => "HeaderTwice",
            InputCode::Version => "Version",
        }
    }

    /// What is wrong with the line, in words.
    fn words(self) -> &'static str {
        match self {
            InputCode::LineTooLong => "the line is too long",
            InputCode::NoTapName => "the line does not begin with a name and a blank",
            InputCode::NotJson => "the record is no JSON",
            InputCode::NoHeader => "the first line of the tap is no header",
            InputCode::UnknownKind => "the tap has no such record",
            InputCode::Field => "a field is missing or of another form",
            InputCode::Limit => "a length, a number or a count is outside its limits",
            InputCode::SecondStream => "there is a stream already",
            InputCode::OffsetTwice => "an earlier entry has this offset",
            InputCode::HeaderTwice => "the tap has a header already",
            InputCode::Version => "the header is of another version",
        }
    }
}

impl fmt::Display for InputCode {
    fn fmt<W: fmt::Write>(&self, f: &mut fmt::Formatter<W>) -> fmt::Result {
        f.write_str(self.words())
    }
}

/// The refusal of a line by its number, which counts from 1; or running out of memory.
#[derive(Clone, Copy, Debug, PartialEq, Eq, Drop, Error)]
pub enum ReadFault {
    /// The line with this number is refused, for this reason.
    #[error("line {0}: {1}")]
    Input(u64, InputCode),
    /// Memory could not be had.
    #[error("out of memory")]
    Memory,
}

impl From<AllocError> for ReadFault {
    ghost from_gives = { λ _ e. e ≡ read.Memory };

    fn from(_: AllocError) -> ReadFault {
        ReadFault::Memory
    }
}

impl<T: Drop> From<AllocFailed<T>> for ReadFault {
    ghost from_gives = { λ _ e. e ≡ read.Memory };

    fn from(_: AllocFailed<T>) -> ReadFault {
        ReadFault::Memory
    }
}

/// The refusal of a line whose number is known higher up; or running out of memory.
#[derive(Clone, Copy, Drop)]
pub enum LineFault {
    /// The line is refused for this reason.
    Code(InputCode),
    /// Memory could not be had.
    Memory,
}

impl From<AllocError> for LineFault {
    ghost from_gives = { λ _ e. e ≡ line.Memory };

    fn from(_: AllocError) -> LineFault {
        LineFault::Memory
    }
}

impl<T: Drop> From<AllocFailed<T>> for LineFault {
    ghost from_gives = { λ _ e. e ≡ line.Memory };

    fn from(_: AllocFailed<T>) -> LineFault {
        LineFault::Memory
    }
}

/// A field is missing, or of another type or form.
pub const FIELD: LineFault = LineFault::Code(InputCode::Field);

/// A length, a number or a count is outside its limits.
pub const LIMIT: LineFault = LineFault::Code(InputCode::Limit);

/// The tap has no record of this kind.
pub const UNKNOWN_KIND: LineFault = LineFault::Code(InputCode::UnknownKind);

/// The tap has a header already.
pub const HEADER_TWICE: LineFault = LineFault::Code(InputCode::HeaderTwice);

/// Keeps a refusal, which is given from then on.
pub fn refuse(kept: &mut Option<ReadFault>, fault: ReadFault) -> Result<(), ReadFault>
    ensures after { kept.new ≡ Some fault }
    ensures value { result ≡ Err fault }
{
    *kept = Some(fault);
    Err(fault)
}
