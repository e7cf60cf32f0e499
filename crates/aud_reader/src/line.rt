//! A line of the input.
ghost use Rattle.std.specs.Prelude.{◌≡◌, ◌++◌, ◌∷◌, take, length, false, IfOk, IfSome, IfNone};
ghost use Rattle.aud_reader.specs.Lines.{has_newline, line_at, without_return};

use crate::fault::{InputCode, ReadFault};
use aud_tap::Bytes;
use aud_tap::limits::MAX_LINE;
use memchr::memchr;
use std::alloc::{AllocError, Global};
use std::marker::Model;

/// A line. Its number counts from 1; its bytes are without the line's end.
#[derive(Drop)]
pub struct Line {
    pub number: u64,
    pub bytes: Bytes,
}

/// A line whose bytes are borrowed.
#[derive(Drop)]
pub struct LentLine<'a> {
    pub number: u64,
    pub bytes: &'a [u8],
}

impl<'a> Model for LentLine<'a> {
    ghost use Rattle.aud_reader.specs.declared.line.Line.{Line};

    ghost Value = { Line };

    ghost view = { λ s. record { number = s.number; bytes = s.bytes.now } };
}

impl Line {
    /// The same line, whose bytes are borrowed from this one.
    pub fn lent(&self) -> LentLine<'_>
        ensures { result ≡ self.now }
    {
        LentLine {
            number: self.number,
            bytes: self.bytes.as_slice(),
        }
    }
}

impl<'a> LentLine<'a> {
    /// The same line, whose bytes are copied.
    pub fn copied(&self, alloc: Global) -> Result<Line, AllocError>
        ensures { IfOk result (λ line. line ≡ self.now) }
    {
        let mut bytes = Vec::new(alloc);
        bytes.extend_from_slice(self.bytes)?;
        Ok(Line {
            number: self.number,
            bytes: Bytes::new(bytes),
        })
    }
}

/// The bytes before the first newline, and those after it; both are borrowed. `None` if there is no newline.
pub fn next_line(text: &[u8]) -> Option<(&[u8], &[u8])>
    ensures found { IfSome result (λ cut. (text.now ≡ cut.0.now ++ 10 ∷ cut.1.now)
        × (has_newline cut.0.now ≡ false)) }
    ensures none { IfNone result (has_newline text.now ≡ false) }
{
    let i = memchr(b'\n', text)?;
    Some((&text[..i], &text[i + 1..]))
}

/// The line without the carriage return at its end.
fn strip_return(line: &[u8]) -> &[u8]
    ensures value { result.now ≡ without_return line.now }
    ensures front { without_return line.now ≡ take (length result.now) line.now }
{
    if !line.is_empty() && line[line.len() - 1] == b'\r' {
        &line[..line.len() - 1]
    } else {
        line
    }
}

/// The line of this number, from its bytes before the newline, or its refusal.
pub fn line_at(number: u64, text: &[u8]) -> Result<LentLine<'_>, ReadFault>
    ensures value { result ≡ line_at number text.now }
    ensures front { IfOk result (λ line. line.bytes ≡ take (length line.bytes) text.now) }
{
    let bytes = strip_return(text);
    if bytes.len() > MAX_LINE {
        return Err(ReadFault::Input(number, InputCode::LineTooLong));
    }
    Ok(LentLine { number, bytes })
}
