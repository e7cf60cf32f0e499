//! What may be posted.
ghost use Rattle.std.specs.Prelude.{◌≡◌};
ghost use Rattle.aud_reader.specs.Lines.{has_newline};
ghost use Rattle.aud_book.specs.Refusals.{refusal};

use crate::fault::PostFault;
use aud_tap::limits::MAX_LINE;

/// The most lines of a tap: a header, and as many records as a tap may have.
const MAX_LINES: usize = 4_000_001;

fn has_newline(line: &[u8]) -> bool
    ensures { result ≡ has_newline line.now }
{
    line.iter().any(|b| *b == b'\n')
}

/// Why a tap of this name, which has so many lines, doesn't take the line: the first reason in the order of
/// [`PostFault`].
pub fn refusal(name: &str, held: usize, line: &[u8]) -> Option<PostFault>
    ensures { result ≡ refusal name.now held line.now }
{
    if name.len() + 1 + line.len() > MAX_LINE {
        return Some(PostFault::TooLong);
    }
    if has_newline(line) {
        return Some(PostFault::Newline);
    }
    if held >= MAX_LINES {
        return Some(PostFault::Full);
    }
    None
}
