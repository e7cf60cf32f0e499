//! Lines, words and numbers of a text.
ghost use Rattle.std.specs.Prelude.{◌≡◌, ◌<◌, IfOk, IfSome, length, option_map};
ghost use Rattle.std.specs.Str.{is_utf8};
ghost use Rattle.aud_tap.specs.Forms.{passing};
ghost use Rattle.aud_tap.specs.WellFormed.{is_session_id};
ghost use Rattle.aud_parts.specs.Cut.{cut_at, number_in, whole_lines, with_digit};

use aud_tap::is_session_id;
use memchr::memchr;
use std::alloc::{AllocError, Global};
use std::marker::Model;

/// Bytes that are borrowed, as a line of a text is, seen as their list.
#[derive(Drop)]
pub(crate) struct LentBytes<'a> {
    bytes: &'a [u8],
}

impl<'a> Model for LentBytes<'a> {
    ghost use Rattle.std.specs.Prelude.{List, ℕ};

    ghost Value = { List ℕ };

    ghost view = { λ l. l.bytes.now };
}

impl<'a> LentBytes<'a> {
    /// The bytes.
    pub(crate) fn as_slice(&self) -> &'a [u8]
        ensures { result.now ≡ self.now }
    {
        self.bytes
    }
}

/// What stands before the first such byte, and what follows it; both are borrowed. `None` if there is none.
pub(crate) fn cut_at(byte: u8, text: &[u8]) -> Option<(&[u8], &[u8])>
    ensures value { option_map (λ cut. (cut.0.now, cut.1.now)) result ≡ cut_at byte text.now }
    ensures shorter { IfSome result (λ cut. length cut.1.now < length text.now) }
{
    let i = memchr(byte, text)?;
    Some((&text[..i], &text[i + 1..]))
}

/// The lines, each without the newline that ends it. `None` where something follows the last newline.
pub(crate) fn whole_lines<'a>(
    alloc: Global,
    text: &'a [u8],
) -> Result<Option<Vec<LentBytes<'a>>>, AllocError>
    ensures { IfOk result (λ lines. option_map (λ all. all.items) lines ≡ whole_lines text.now) }
{
    let mut lines = Vec::new(alloc);
    let mut left = text;
    'lines: while let Some((line, rest)) = cut_at(b'\n', left) {
        lines.push(LentBytes { bytes: line })?;
        left = rest;
    }
    if left.is_empty() {
        Ok(Some(lines))
    } else {
        Ok(None)
    }
}

/// The number with this digit after it, below 2 to the 64th.
fn with_digit(number: usize, digit: u8) -> Option<usize>
    ensures { result ≡ with_digit number digit }
{
    match digit {
        b'0'..=b'9' => number
            .checked_mul(10)?
            .checked_add(usize::from(digit - b'0')),
        _ => None,
    }
}

/// The number that decimal digits write, below 2 to the 64th.
pub(crate) fn number_in(text: &[u8]) -> Option<usize>
    ensures { result ≡ number_in text.now }
{
    if text.is_empty() {
        return None;
    }
    let mut number = 0;
    for digit in text {
        number = with_digit(number, *digit)?;
    }
    Some(number)
}

/// The bytes as a text, if they are UTF-8.
pub(crate) fn text_in(bytes: &[u8]) -> Option<&str>
    ensures { option_map (λ text. text.now) result ≡ passing is_utf8 bytes.now }
{
    let Ok(text) = str::from_utf8(bytes) else {
        return None;
    };
    Some(text)
}

/// The bytes as a text, if they are of a pid's form.
pub(crate) fn pid_in(bytes: &[u8]) -> Option<&str>
    ensures { option_map (λ pid. pid.now) result ≡ passing is_session_id bytes.now }
{
    let Ok(text) = str::from_utf8(bytes) else {
        return None;
    };
    if is_session_id(text) {
        Some(text)
    } else {
        None
    }
}
