//! The text that says from which lines of a recording the lines of a part come, and from which files it was read.
pub mod fault;

ghost use Rattle.std.specs.Prelude.{◌≡◌, true, IfOk, Ok, string_bytes, ◌+◌, drop, option_map};
ghost use Rattle.aud_parts.specs.NamedLines.{Gives, are_lines, file_in, files_in, lines_text, part_in, part_of, run_in, runs_in};

use crate::cut::{LentBytes, cut_at, number_in, text_in, whole_lines};
use crate::listing::reading::{number_under, numbers_under};
use crate::named_lines::fault::LinesFault;
use aud_input::{InputFiles, LineRun, LineRuns, PartLines, Size};
use aud_tap::Text;
use std::alloc::{AllocError, Global};

/// The text of a part's lines: a line `lines=<number> bytes=<number>` of its size; then a line `<count> <line>` for
/// each run: so many of the part's lines, after those before, come from the lines of the recording from this one on;
/// and then a line `file=<lines> <name>` for each file of the recording: so many of its lines, after those before, are
/// the file's. [`read_lines`](crate::read_lines) reads it, where no name has a newline.
pub fn lines_text(alloc: Global, part: &PartLines) -> Result<String, AllocError>
    ensures written { IfOk result (λ text. string_bytes text ≡ lines_text part.now) }
    ensures reads_back { IfOk result (λ text. are_lines part.now ≡ true
        → part_of (string_bytes text) ≡ Ok part.now) }
{
    let mut out = String::new(alloc);
    let lines = part.size.lines;
    let bytes = part.size.bytes;
    let runs = part.runs.as_slice();
    let files = part.files.as_slice();
    writeln!(&mut out, "lines={lines} bytes={bytes}")?;
    for run in runs {
        let LineRun { count, first } = *run;
        writeln!(&mut out, "{count} {first}")?;
    }
    for file in files {
        let lines = file.lines;
        let name = file.name.as_str();
        writeln!(&mut out, "file={lines} {name}")?;
    }
    Ok(out)
}

/// The run of a line.
fn run_in(line: &[u8]) -> Option<LineRun>
    ensures { result ≡ run_in line.now }
{
    let (count, first) = cut_at(b' ', line)?;
    let count = number_in(count)?;
    let first = number_in(first)?;
    if count < 1 || first < 1 {
        return None;
    }
    Some(LineRun {
        count: count as u64,
        first: first as u64,
    })
}

/// The file of a line: its name, borrowed, and how many lines it has.
fn file_in(line: &[u8]) -> Option<(&str, u64)>
    ensures { option_map (λ file. record { name = file.0.now; lines = file.1 }) result
        ≡ file_in line.now }
{
    let (left, right) = cut_at(b' ', line)?;
    let lines = number_under(b"file=", left)? as u64;
    Some((text_in(right)?, lines))
}

/// The runs of the lines after the first, up to a line that is none.
fn runs_in(alloc: Global, lines: &[LentBytes<'_>]) -> Result<Vec<LineRun>, AllocError>
    ensures { IfOk result (λ runs. runs.items ≡ runs_in (drop 1 lines.now)) }
{
    let mut runs = Vec::new(alloc);
    for number in 1..lines.len() {
        let Some(run) = run_in(lines[number].as_slice()) else {
            return Ok(runs);
        };
        runs.push(run)?;
    }
    Ok(runs)
}

/// The files of the lines after so many.
fn files_in(alloc: Global, before: usize, lines: &[LentBytes<'_>]) -> Result<InputFiles, LinesFault>
    ensures { Gives (λ files. files) result (files_in (before + 1) (drop before lines.now)) }
{
    let mut files = InputFiles::new(alloc);
    for number in before..lines.len() {
        let Some((name, count)) = file_in(lines[number].as_slice()) else {
            return Err(LinesFault::BadLine(number + 1));
        };
        files.push(Text::new(alloc, name)?, count)?;
    }
    Ok(files)
}

/// The part of the lines.
#[tactic(auto, unfolding(crate::specs::NamedLines::part_with))]
fn part_in(alloc: Global, lines: &[LentBytes<'_>]) -> Result<PartLines, LinesFault>
    ensures { Gives (λ part. part) result (part_in lines.now) }
{
    let Some(first) = lines.first() else {
        return Err(LinesFault::NoSize);
    };
    let first = first.as_slice();
    let Some((count, bytes)) = numbers_under(b"lines=", b"bytes=", first) else {
        return Err(LinesFault::NoSize);
    };
    let size = Size {
        lines: count as u64,
        bytes: bytes as u64,
    };
    let runs = runs_in(alloc, lines)?;
    let files = files_in(alloc, runs.len() + 1, lines)?;
    let runs = LineRuns::new(runs);
    if runs.count() != size.lines {
        return Err(LinesFault::OtherCount);
    }
    Ok(PartLines { size, runs, files })
}

/// What a text says of a part, as [`lines_text`](crate::lines_text) writes it. `Memory` may come in place of each other
/// refusal.
pub fn read_lines(alloc: Global, text: &[u8]) -> Result<PartLines, LinesFault>
    ensures { Gives (λ part. part) result (part_of text.now) }
{
    match whole_lines(alloc, text)? {
        Some(lines) => part_in(alloc, &lines),
        None => Err(LinesFault::OtherCount),
    }
}
