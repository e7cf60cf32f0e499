//! The lines of a tap, from the bytes of its runs.
ghost use Rattle.std.specs.Prelude.{◌≡◌, ◌+◌, ◌^◌, ◌<◌, ◌++◌, ◌∷◌, [], drop, length, map, IfOk, IsTrue, OnOk};
ghost use Rattle.std.specs.List.{flat_map};
ghost use Rattle.aud_tap.specs.declared.records.Rec.TheVariants.{Header};
ghost use Rattle.aud_tap.specs.declared.records.TapKind.TheVariants.{Client};
ghost use Rattle.aud_tap.specs.declared.records.Version.TheVariants.{Two};
ghost use Rattle.aud_tap.specs.TapName.{is_tap_name};
ghost use Rattle.aud_input.specs.LineRuns.{lines_of_runs};
ghost use Rattle.aud_reader.specs.declared.line.Line.{Line};
ghost use Rattle.aud_reader.specs.Lines.{line_pieces, without_return};
ghost use Rattle.aud_writer.specs.Written.{line_text};
ghost use Rattle.aud_parts.specs.TapRuns.{ended, line_with_bytes, lines_with_bytes};

use aud_input::LineRuns;
use aud_reader::{Line, next_line};
use aud_tap::{Bytes, Rec, TapKind, Version};
use aud_writer::write_line;
use std::alloc::{AllocError, Global};

/// The line without the carriage return at its end.
fn strip_return(line: &[u8]) -> &[u8]
    ensures { result.now ≡ without_return line.now }
{
    if !line.is_empty() && line[line.len() - 1] == b'\r' {
        &line[..line.len() - 1]
    } else {
        line
    }
}

/// Adds the line of this number and text, if it has bytes.
pub fn push_line(
    alloc: Global,
    number: u64,
    text: &[u8],
    lines: &mut Vec<Line>,
) -> Result<(), AllocError>
    ensures { OnOk result (lines.new.items
        ≡ lines.old.items ++ line_with_bytes number text.now) }
{
    let bytes = strip_return(text);
    if bytes.is_empty() {
        return Ok(());
    }
    let mut copy = Vec::new(alloc);
    copy.extend_from_slice(bytes)?;
    lines.push(Line {
        number,
        bytes: Bytes::new(copy),
    })?;
    Ok(())
}

/// Adds the lines of these bytes, of which the first has this number: those that have bytes, without the carriage
/// return at their ends. It gives the number of the line after them. The bytes are borrowed for the call alone.
pub fn push_lines(
    alloc: Global,
    number: u64,
    bytes: &[u8],
    lines: &mut Vec<Line>,
) -> Result<u64, AllocError>
    ensures lines { number + length bytes.now < 2 ^ 64 → OnOk result (lines.new.items
        ≡ lines.old.items ++ lines_with_bytes number (line_pieces bytes.now)) }
    ensures next { number + length bytes.now < 2 ^ 64 → IfOk result (λ next. next
        ≡ number + length (line_pieces bytes.now)) }
{
    let mut next = number;
    let mut left = bytes;
    'lines: while let Some((text, others)) = next_line(left) {
        push_line(alloc, next, text, lines)?;
        next = next.saturating_add(1);
        left = others;
    }
    if left.is_empty() {
        return Ok(next);
    }
    push_line(alloc, next, left, lines)?;
    Ok(next.saturating_add(1))
}

/// The lines after so many of them.
pub fn lines_past(lines: &[Line], count: usize) -> &[Line]
    ensures { result.now ≡ drop count lines.now }
{
    lines.get(count..).unwrap_or(&[])
}

/// The header of a client's tap of this name in version 2, ended by a newline.
pub fn client_header(alloc: Global, name: &str) -> Result<Vec<u8>, AllocError>
    requires { IsTrue (is_tap_name name.now) }
    ensures { IfOk result (λ line. line.items ≡ line_text name.now (Header Client Two) ++ 10 ∷ []) }
{
    let Ok(mut line) = write_line(
        alloc,
        name,
        &Rec::Header {
            of: TapKind::Client,
            v: Version::Two,
        },
    ) else {
        return Err(AllocError);
    };
    line.push(b'\n')?;
    Ok(line)
}

/// Adds the lines, each ended by a newline.
pub fn push_ended(bytes: &mut Vec<u8>, lines: &[Line]) -> Result<(), AllocError>
    ensures { OnOk result (bytes.new.items ≡ bytes.old.items ++ flat_map ended lines.now) }
{
    for line in lines {
        bytes.extend_from_slice(line.bytes.as_slice())?;
        bytes.push(b'\n')?;
    }
    Ok(())
}

/// Adds the numbers of the lines.
pub fn push_numbers(runs: &mut LineRuns, lines: &[Line]) -> Result<(), AllocError>
    ensures { OnOk result (lines_of_runs runs.new
        ≡ lines_of_runs runs.old ++ map (λ (line : Line). line.number) lines.now) }
{
    for line in lines {
        runs.push(line.number)?;
    }
    Ok(())
}
