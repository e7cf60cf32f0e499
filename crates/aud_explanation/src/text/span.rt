//! Numbers, in words.
ghost use Rattle.std.specs.Prelude.{◌≡◌, ◌++◌, OnOk, string_bytes};
ghost use Rattle.aud_explanation.specs.Span.{known_words, lines_listed, span};

use std::alloc::AllocError;

/// Puts the numbers from one to another at the end: `1-4`, or `1` where both are the same.
pub(crate) fn push_span(out: &mut String, from: u64, to: u64) -> Result<(), AllocError>
    ensures { OnOk result (string_bytes out.new ≡ string_bytes out.old ++ span from to) }
{
    if from == to {
        write!(out, "{from}")
    } else {
        write!(out, "{from}-{to}")
    }
}

/// Puts the words and the number at the end, where it is known.
pub(crate) fn push_known(
    out: &mut String,
    words: &str,
    number: Option<u64>,
) -> Result<(), AllocError>
    ensures { OnOk result (string_bytes out.new
        ≡ string_bytes out.old ++ known_words words.now number) }
{
    match number {
        Some(number) => write!(out, "{words}{number}"),
        None => Ok(()),
    }
}

/// Puts the lines at the end: `line 28`, or `lines 28 36`.
pub(crate) fn push_lines(out: &mut String, lines: &[u64]) -> Result<(), AllocError>
    ensures { OnOk result (string_bytes out.new ≡ string_bytes out.old ++ lines_listed lines.now) }
{
    out.push_str(if lines.len() == 1 { "line" } else { "lines" })?;
    for number in lines {
        write!(out, " {number}")?;
    }
    Ok(())
}
