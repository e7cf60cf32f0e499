//! Lines of text, laid out.
ghost use Rattle.std.specs.Prelude.{◌≡◌, ◌+◌, ◌++◌, ◌≤◌, true, IfOk, OnOk, drop, length, take, string_bytes};
ghost use Rattle.std.specs.List.{list_all};
ghost use Rattle.std.specs.Str.{IsUtf8, chars};
ghost use Rattle.aud_explanation.specs.Page.{columns, fits, word_fits, placed, next_column, laid, laid_line, blanks, to_left};
ghost use Rattle.aud_explanation.specs.Private.Front.{is_plain, stays_together};

use crate::escape::{is_hidden, push_shown};
use std::alloc::AllocError;

/// How many columns a line has at most.
const WIDTH: usize = 100;

/// In which column a line goes on in the next.
const INDENT: usize = 8;

/// How many columns the character takes: as many as its escape has characters.
fn columns(c: char) -> usize
    ensures { result ≡ columns c }
{
    if c == '\\' {
        2
    } else if c.is_control() {
        4
    } else if is_hidden(c) {
        if (c as u32) < 65536 { 8 } else { 10 }
    } else {
        1
    }
}

/// Whether the character stands within the line.
fn fits(column: usize, c: char) -> bool
    requires { column ≤ 101 }
    ensures { result ≡ fits column c }
{
    column + columns(c) <= WIDTH
}

/// Whether the word with which the text begins stands within the line.
fn word_fits(column: usize, text: &str) -> bool
    requires { column ≤ 101 }
    ensures { result ≡ word_fits column (chars text.now) }
{
    let mut column = column;
    for c in text.chars() {
        if c == ' ' {
            return true;
        }
        if !fits(column, c) {
            return false;
        }
        column += columns(c);
    }
    true
}

/// Puts the character at the end, in the next line where this one is full: the column after it. The line ends at a blank
/// before a word that does not stand within it.
fn push_char(out: &mut String, column: usize, c: char, rest: &str) -> Result<usize, AllocError>
    requires { column ≤ 100 }
    ensures text { OnOk result (string_bytes out.new
        ≡ string_bytes out.old ++ placed column c (chars rest.now)) }
    ensures next { IfOk result (λ next. next ≡ next_column column c (chars rest.now)) }
    ensures within { IfOk result (λ next. next ≤ 100) }
{
    if c == ' ' && !word_fits(column + 1, rest) {
        out.push_str("\n        ")?;
        return Ok(INDENT);
    }
    let width = columns(c);
    if column + width <= WIDTH {
        push_shown(out, c)?;
        return Ok(column + width);
    }
    out.push_str("\n        ")?;
    push_shown(out, c)?;
    Ok(INDENT + width)
}

/// Whether the byte is a character that is shown as itself in one column.
fn is_plain(byte: u8) -> bool
    ensures { result ≡ is_plain byte }
{
    matches!(byte, b' '..=b'[' | b']'..=b'~')
}

/// How many bytes at the front are such characters, and no line ends among them: at most so many.
fn front_len(bytes: &[u8], most: usize) -> usize
    ensures within { result ≤ most }
    ensures in_bytes { result ≤ length bytes.now }
    ensures plain { list_all is_plain (take result bytes.now) ≡ true }
    ensures whole { stays_together (take result bytes.now) (drop result bytes.now) ≡ true }
{
    let mut end = None;
    for (n, byte) in bytes.iter().enumerate() {
        if *byte == b' ' {
            end = Some(n);
        }
        if n == most || !is_plain(*byte) {
            return end.unwrap_or(n);
        }
    }
    bytes.len()
}

/// The front of the text that stands in the line as it is, and what is left.
fn laid_front(text: &str, column: usize) -> (&str, &str)
    requires { column ≤ 100 }
    ensures within { column + length result.0.now ≤ 100 }
    ensures shorter { length result.1.now ≤ length text.now }
    ensures utf8 { IsUtf8 result.1.now }
    ensures laid { laid column (chars text.now)
        ≡ result.0.now ++ laid (column + length result.0.now) (chars result.1.now) }
{
    text.split_at(front_len(text.as_bytes(), WIDTH - column))
}

/// Puts a line at the end, laid out in lines of at most 100 columns, each with its newline.
pub(crate) fn push_line(out: &mut String, line: &str) -> Result<(), AllocError>
    ensures { OnOk result (string_bytes out.new ≡ string_bytes out.old ++ laid_line line.now) }
{
    let mut column = 0;
    let mut left = line;
    loop {
        let (front, rest) = laid_front(left, column);
        out.push_str(front)?;
        let mut characters = rest.chars();
        let Some(c) = characters.next() else {
            return out.push('\n');
        };
        left = characters.as_str();
        column = push_char(out, column + front.len(), c, left)?;
    }
}

/// Puts so many blanks at the end.
pub(crate) fn push_blanks(out: &mut String, count: usize) -> Result<(), AllocError>
    ensures { OnOk result (string_bytes out.new ≡ string_bytes out.old ++ blanks count) }
{
    for _i in 0..count {
        out.push(' ')?;
    }
    Ok(())
}

/// Puts the text at the end, and blanks after it up to the width in bytes.
pub(crate) fn push_left(out: &mut String, text: &str, width: usize) -> Result<(), AllocError>
    ensures { OnOk result (string_bytes out.new ≡ string_bytes out.old ++ to_left width text.now) }
{
    out.push_str(text)?;
    push_blanks(out, width.saturating_sub(text.len()))
}
