//! Texts as they are printed.
ghost use Rattle.std.specs.Prelude.{◌≡◌, ◌++◌, ◌<◌, IfOk, OnOk, string_bytes};
ghost use Rattle.aud_explanation.specs.Printed.{PrintedApart, hex_16, hex_code, is_hidden, json_printed, json_shown, json_unit, printed, shown};

use std::alloc::{AllocError, Global};

/// Whether this is a hidden character: it isn't seen itself, and may turn, join or part others, or end a line.
pub(crate) fn is_hidden(c: char) -> bool
    ensures { result ≡ is_hidden c }
{
    matches!(
        c,
        '\u{ad}'
            | '\u{34f}'
            | '\u{61c}'
            | '\u{115f}'..='\u{1160}'
            | '\u{17b4}'..='\u{17b5}'
            | '\u{180b}'..='\u{180f}'
            | '\u{200b}'..='\u{200f}'
            | '\u{2028}'..='\u{202e}'
            | '\u{2060}'..='\u{206f}'
            | '\u{3164}'
            | '\u{fe00}'..='\u{fe0f}'
            | '\u{feff}'
            | '\u{ffa0}'
            | '\u{fff0}'..='\u{fffb}'
            | '\u{1bca0}'..='\u{1bca3}'
            | '\u{1d173}'..='\u{1d17a}'
            | '\u{e0000}'..='\u{e0fff}'
    )
}

/// Puts a number of 16 bits at the end in four hexadecimal digits.
fn push_hex_16(out: &mut String, number: u32) -> Result<(), AllocError>
    requires { number < 65536 }
    ensures { OnOk result (string_bytes out.new ≡ string_bytes out.old ++ hex_16 number) }
{
    write!(out, "{:02x}{:02x}", number / 256, number % 256)
}

/// Puts the code of a character at the end in four hexadecimal digits, or six from U+10000 on.
fn push_hex_code(out: &mut String, code: u32) -> Result<(), AllocError>
    requires { code < 1114112 }
    ensures { OnOk result (string_bytes out.new ≡ string_bytes out.old ++ hex_code code) }
{
    if code < 65536 {
        return push_hex_16(out, code);
    }
    write!(out, "{:02x}", code / 65536)?;
    push_hex_16(out, code % 65536)
}

/// Puts the character at the end as it is printed.
pub(crate) fn push_shown(out: &mut String, c: char) -> Result<(), AllocError>
    ensures { OnOk result (string_bytes out.new ≡ string_bytes out.old ++ shown c) }
{
    let code = c as u32;
    if c == '\\' {
        out.push_str("\\\\")
    } else if c.is_control() {
        write!(out, "\\x{code:02x}")
    } else if is_hidden(c) {
        out.push_str("\\u{")?;
        push_hex_code(out, code)?;
        out.push_str("}")
    } else {
        out.push(c)
    }
}

/// Puts the text at the end as it is printed: `\` as `\\`, a control character as `\x1b`, a character that isn't seen
/// itself or turns the direction of others as `\u{202e}`, and all others as they are. So a text stays in its line, and no
/// two are printed alike, which is the law [`printed_apart`].
pub fn push_printed(out: &mut String, text: &str) -> Result<(), AllocError>
    ensures { OnOk result (string_bytes out.new ≡ string_bytes out.old ++ printed text.now) }
{
    for c in text.chars() {
        push_shown(out, c)?;
    }
    Ok(())
}

/// The text as [`push_printed`] puts it.
pub fn printed(alloc: Global, text: &str) -> Result<String, AllocError>
    ensures { IfOk result (λ out. string_bytes out ≡ printed text.now) }
{
    let mut out = String::new(alloc);
    push_printed(&mut out, text)?;
    Ok(out)
}

/// Puts half of a character of a JSON string, or a whole one below U+10000, at the end by its code.
#[tactic(auto, unfolding(crate::specs::Printed::json_unit))]
fn push_json_unit(out: &mut String, unit: u32) -> Result<(), AllocError>
    requires { unit < 65536 }
    ensures { OnOk result (string_bytes out.new ≡ string_bytes out.old ++ json_unit unit) }
{
    out.push_str("\\u")?;
    push_hex_16(out, unit)
}

/// Puts a character of JSON at the end as it is printed: by its code, from U+10000 on both its halves, or as it is.
#[tactic(auto, unfolding(crate::specs::Printed::json_pair))]
fn push_json_shown(out: &mut String, c: char) -> Result<(), AllocError>
    ensures { OnOk result (string_bytes out.new ≡ string_bytes out.old ++ json_shown c) }
{
    if !c.is_control() && !is_hidden(c) {
        return out.push(c);
    }
    let code = c as u32;
    if code < 65536 {
        return push_json_unit(out, code);
    }
    let past = code - 65536;
    push_json_unit(out, 0xd800 + past / 1024)?;
    push_json_unit(out, 0xdc00 + past % 1024)
}

/// Puts JSON without blanks between its tokens at the end as it is printed: a control or a hidden character, which
/// stands in a string alone, as `\u202e`, from U+10000 on as a surrogate pair (RFC 8259, section 7), and all others as
/// they are. It stays in its line, and is JSON of the same value.
pub fn push_json_printed(out: &mut String, json: &str) -> Result<(), AllocError>
    ensures { OnOk result (string_bytes out.new ≡ string_bytes out.old ++ json_printed json.now) }
{
    for c in json.chars() {
        push_json_shown(out, c)?;
    }
    Ok(())
}

/// No two texts are printed alike: a law of [`push_printed`].
pub fn printed_apart()
    ensures { PrintedApart }
{}
