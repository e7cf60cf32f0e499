//! Help on a line whose record is no JSON that is read.
ghost use Rattle.std.specs.Prelude.{◌≡◌, ◌++◌, ◌+◌, ◌^◌, ◌<◌, length, OnOk, string_bytes};
ghost use Rattle.aud_refusals.specs.JsonHelp.{bytes_help, first_byte, inside_text, json_help, last_byte, text_help};

use crate::no_json::{no_json, push_no_json};
use crate::token_place::is_white;
use aud_reader::cut_at_blank;
use std::alloc::{AllocError, Global};

/// The first byte that is no white space.
fn first_byte(text: &[u8]) -> Option<u8>
    ensures { result ≡ first_byte text.now }
{
    text.iter().copied().find(|b| !is_white(*b))
}

/// The last byte that is no white space.
fn last_byte(text: &[u8]) -> Option<u8>
    ensures { result ≡ last_byte text.now }
{
    text.iter().rev().copied().find(|b| !is_white(*b))
}

fn push_inside(alloc: Global, out: &mut String, text: &str) -> Result<(), AllocError>
    ensures { OnOk result (string_bytes out.new ≡ string_bytes out.old ++ inside_text text.now) }
{
    let why = no_json(alloc, text)?;
    out.push_str("What follows the first blank ")?;
    push_no_json(out, why)?;
    out.push_str(".\n")?;
    Ok(())
}

/// Puts help on a text that is UTF-8 at the end.
fn push_text_help(alloc: Global, out: &mut String, text: &str) -> Result<(), AllocError>
    ensures { OnOk result (string_bytes out.new ≡ string_bytes out.old ++ text_help text.now) }
{
    let bytes = text.as_bytes();
    match first_byte(bytes) {
        Some(b'{') => match last_byte(bytes) {
            Some(b'}') => push_inside(alloc, out, text),
            Some(_) => writeln!(
                out,
                "This line does not end with }}: its end may be missing."
            ),
            None => Ok(()),
        },
        Some(_) => writeln!(out, "What follows the first blank does not begin with {{."),
        None => writeln!(out, "Nothing follows the first blank of this line."),
    }
}

/// Puts help on bytes after so many others at the end.
fn push_bytes_help(
    alloc: Global,
    out: &mut String,
    before: usize,
    bytes: &[u8],
) -> Result<(), AllocError>
    requires { before + length bytes.now < 2 ^ 64 }
    ensures { OnOk result (string_bytes out.new
        ≡ string_bytes out.old ++ bytes_help before bytes.now) }
{
    match str::from_utf8(bytes) {
        Ok(text) => push_text_help(alloc, out, text),
        Err(error) => {
            let at = before + error.valid_up_to();
            writeln!(
                out,
                "What follows the first blank is UTF-8 up to byte {at} of this line, and not from there on."
            )
        }
    }
}

/// Puts help on a line whose record is no JSON that is read at the end.
pub fn push_json_help(alloc: Global, out: &mut String, line: &[u8]) -> Result<(), AllocError>
    ensures { OnOk result (string_bytes out.new ≡ string_bytes out.old ++ json_help line.now) }
{
    match cut_at_blank(line) {
        Some((name, text)) => push_bytes_help(alloc, out, name.len() + 1, text),
        None => Ok(()),
    }
}
