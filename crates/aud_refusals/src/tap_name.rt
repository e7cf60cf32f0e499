//! Help on a line that does not begin with a tap's name and a blank.
ghost use Rattle.std.specs.Prelude.{◌≡◌, ◌++◌, OnOk, option_map, string_bytes};
ghost use Rattle.aud_tap.specs.TapName.{is_name_byte};
ghost use Rattle.aud_refusals.specs.TapName.{begin_text, blank_text, first_blank, first_strange, known_text, name_help, strange_text};

use aud_reader::cut_at_blank;
use aud_tap::limits::MAX_NAME;
use std::alloc::AllocError;

fn is_name_byte(b: u8) -> bool
    ensures { result ≡ is_name_byte b }
{
    matches!(b, b'0'..=b'9' | b'A'..=b'Z' | b'a'..=b'z' | b'_' | b'.' | b'-')
}

fn first_strange(name: &[u8]) -> Option<usize>
    ensures { result ≡ first_strange name.now }
{
    name.iter().position(|b| !is_name_byte(*b))
}

fn push_strange(out: &mut String, name: &[u8]) -> Result<(), AllocError>
    ensures { OnOk result (string_bytes out.new
        ≡ string_bytes out.old ++ strange_text name.now (first_strange name.now)) }
{
    match first_strange(name) {
        Some(at) => {
            let number = at.saturating_add(1);
            writeln!(out, "Byte {number} of this line stands in no name.")
        }
        None if name.len() > MAX_NAME => {
            let count = name.len();
            writeln!(
                out,
                "Before the first blank of this line stand {count} bytes."
            )
        }
        None => Ok(()),
    }
}

fn push_blank(out: &mut String, line: &[u8]) -> Result<(), AllocError>
    ensures { OnOk result (string_bytes out.new
        ≡ string_bytes out.old ++ blank_text line.now (first_blank line.now)) }
{
    match cut_at_blank(line) {
        Some(([], _)) => writeln!(out, "This line begins with a blank."),
        Some((name, _)) => push_strange(out, name),
        None => writeln!(out, "In this line stands no blank."),
    }
}

/// What a line is that begins as no line of a bundle does, where that is known.
fn known(line: &[u8]) -> Option<&'static str>
    ensures { option_map (λ s. s.now) result ≡ known_text line.now }
{
    if line.starts_with(b"\x1f\x8b") {
        Some("This is compressed by gzip: gzip -dc gives the lines.\n")
    } else if line.starts_with(b"\xef\xbb\xbf") {
        Some("This line begins with a byte order mark, which no bundle has: remove it.\n")
    } else if line.starts_with(b"\xff\xfe") || line.starts_with(b"\xfe\xff") {
        Some("This is UTF-16: a bundle is UTF-8.\n")
    } else if line.starts_with(b"{") {
        Some("The name of the tap is missing before this record.\n")
    } else {
        None
    }
}

fn push_begin(out: &mut String, line: &[u8]) -> Result<(), AllocError>
    ensures { OnOk result (string_bytes out.new
        ≡ string_bytes out.old ++ begin_text line.now (known_text line.now)) }
{
    match known(line) {
        Some(text) => out.push_str(text),
        None => push_blank(out, line),
    }
}

/// Puts help on a line that does not begin with a tap's name at the end.
pub fn push_name_help(out: &mut String, line: &[u8]) -> Result<(), AllocError>
    ensures { OnOk result (string_bytes out.new ≡ string_bytes out.old ++ name_help line.now) }
{
    writeln!(
        out,
        "A line begins with the name of its tap, 1 to {MAX_NAME} bytes of A-Za-z0-9_.-, and a blank."
    )?;
    push_begin(out, line)
}
