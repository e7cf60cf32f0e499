//! A refused line.
ghost use Rattle.std.specs.Prelude.{◌≡◌};
ghost use Rattle.aud_input.specs.Files.{header_stands, header_told};

use crate::place::{FileLine, file_line};
use crate::tap_lines::RecordLines;
use aud_reader::InputCode;
use aud_tap::Bytes;

/// The first line of the files that is refused.
#[derive(Drop)]
pub struct Refusal {
    /// Its number where the files are read as one input.
    pub number: u64,
    /// Why it is refused.
    pub code: InputCode,
    /// Where it stands.
    pub at: FileLine,
    /// Its bytes, without the line's end; none where the line is too long.
    pub line: Bytes,
    /// The first line with the name that it begins with, where the files are read as one input: that of the tap's
    /// header, or this one. None where it begins with no name, where it is too long, and for the header of a second
    /// stream.
    pub header: Option<u64>,
    /// Where that line stands; none where it isn't before this one.
    pub header_at: Option<FileLine>,
}

/// The line of the header that stands already where this line is refused.
pub fn header_of(lines: &RecordLines, code: InputCode, line: &[u8]) -> Option<u64>
    ensures { result ≡ header_told code lines.now line.now }
{
    match code {
        InputCode::SecondStream => None,
        InputCode::LineTooLong
        | InputCode::NoTapName
        | InputCode::NotJson
        | InputCode::NoHeader
        | InputCode::UnknownKind
        | InputCode::Field
        | InputCode::Limit
        | InputCode::OffsetTwice
        | InputCode::HeaderTwice
        | InputCode::Version => lines.first_like(line),
    }
}

/// Where the header stands in its file, where it stands before the line of this number. `counts` has for each file but
/// the last how many lines it has.
pub fn header_stands(counts: &[u64], number: u64, header: Option<u64>) -> Option<FileLine>
    ensures { result ≡ header_stands counts.now number header }
{
    match header {
        Some(line) if line < number => Some(file_line(counts, line)),
        _ => None,
    }
}
