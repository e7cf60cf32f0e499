//! What was posted, and the taps that it tells of.
ghost use Rattle.std.specs.Prelude.{◌≡◌, ◌≢◌, ◌∷◌, ◌++◌, ◌+◌, List, IfOk, IfErr, OnOk, Ok, Err, length};
ghost use Rattle.aud_tap.specs.Names.{AreNamedOnce};
ghost use Rattle.aud_reader.specs.Bundle.{taps_of, taps_to_come};
ghost use Rattle.aud_reader.specs.declared.line.Line.{Line};
ghost use Rattle.aud_reader.specs.TapLaws.{HasOneStreamAtMost, HasEachOffsetOnce};
ghost use Rattle.aud_reader.specs.OwnLines.{HaveTheirOwnLines, EachLineIsOfOneTap};
ghost use Rattle.aud_book.specs.Taps.{seen_taps, seen};
ghost use Rattle.aud_book.specs.PostedLines.{lines_of_taps, named_line, named_lines, numbered};

use crate::book::TapLines;
use aud_reader::{BundleReader, Line, ReadFault};
use aud_tap::{Bytes, Taps};
use std::alloc::{AllocError, Global};
use std::hash::RandomState;

/// What was posted at a desk. All lines are borrowed.
#[derive(Drop)]
pub struct Posted<'a> {
    /// The taps in the order of the desk's names.
    pub taps: Vec<TapLines<'a>>,
    /// Each line with the place of its tap, from 0, in the order in which the lines came to the desk.
    pub history: Vec<(usize, &'a [u8])>,
}

/// A line of a bundle: the tap's name, a blank, and the line that was posted.
fn named_line(alloc: Global, number: u64, name: &str, line: &[u8]) -> Result<Line, AllocError>
    ensures { IfOk result (λ l. l
        ≡ record { number = number; bytes = named_line name.now line.now }) }
{
    let mut bytes = Vec::with_capacity(alloc, name.len() + 1 + line.len())?;
    bytes.extend_from_slice(name.as_bytes())?;
    bytes.push(b' ')?;
    bytes.extend_from_slice(line)?;
    Ok(Line {
        number,
        bytes: Bytes::new(bytes),
    })
}

/// Gives the reader the next line of a tap, under its name.
fn read_line(
    alloc: Global,
    reader: &mut BundleReader,
    number: u64,
    name: &str,
    line: &[u8],
) -> Result<(), ReadFault>
    ensures ok { OnOk result ((more : List Line)
        → taps_to_come reader.new more
        ≡ taps_to_come reader.old (record { number = number; bytes = named_line name.now line.now }
        ∷ more)) }
    ensures refused { IfErr result (λ e. e ≢ ReadFault.Memory → (more : List Line)
        → taps_to_come reader.old
        (record { number = number; bytes = named_line name.now line.now } ∷ more) ≡ Err e) }
{
    match named_line(alloc, number, name, line) {
        Ok(line) => reader.line(&line.lent()),
        Err(_) => Err(ReadFault::Memory),
    }
}

/// The number of the next line. There is no memory for more lines than can be counted.
fn next_number(number: u64) -> Result<u64, ReadFault>
    ensures ok { IfOk result (λ n. n ≡ number + 1) }
    ensures err { IfErr result (λ e. e ≡ ReadFault.Memory) }
{
    match number.checked_add(1) {
        Some(next) => Ok(next),
        None => Err(ReadFault::Memory),
    }
}

/// Gives the reader the lines of a tap, counted from the first number on, and answers the number of the line that comes
/// after them.
fn read_tap(
    alloc: Global,
    reader: &mut BundleReader,
    first: u64,
    tap: &TapLines<'_>,
) -> Result<u64, ReadFault>
    ensures number { IfOk result (λ n. n ≡ first + length tap.now.lines.items) }
    ensures ok { OnOk result ((more : List Line)
        → taps_to_come reader.new more
        ≡ taps_to_come reader.old (numbered first (named_lines (seen tap.now)) ++ more)) }
    ensures refused { IfErr result (λ e. e ≢ ReadFault.Memory → (more : List Line)
        → taps_to_come reader.old (numbered first (named_lines (seen tap.now)) ++ more) ≡ Err e) }
{
    let mut number = first;
    for i in 0..tap.lines.len() {
        read_line(alloc, reader, number, tap.name, tap.lines[i])?;
        number = next_number(number)?;
    }
    Ok(number)
}

/// The taps of what was posted, or the first refused line: what `aud_reader::read_bundle` gives of the same lines, tap
/// after tap, counted from 1. The order in which the lines were posted plays no part in it. A line is copied for the
/// time in which it is read. Texts are found again by their hashes under these keys.
pub fn read_posted(alloc: Global, keys: RandomState, posted: &Posted<'_>) -> Result<Taps, ReadFault>
    ensures read { IfOk result (λ taps. taps_of (lines_of_taps (seen_taps posted.now.taps.items))
        ≡ Ok taps) }
    ensures names { IfOk result (λ taps. AreNamedOnce taps) }
    ensures stream { IfOk result (λ taps. HasOneStreamAtMost taps) }
    ensures offsets { IfOk result (λ taps. HasEachOffsetOnce taps) }
    ensures own_lines { IfOk result (λ taps. HaveTheirOwnLines
        (lines_of_taps (seen_taps posted.now.taps.items)) taps) }
    ensures each_line { IfOk result (λ taps. EachLineIsOfOneTap
        (lines_of_taps (seen_taps posted.now.taps.items)) taps) }
    ensures refused { IfErr result (λ e. e ≢ ReadFault.Memory
        → taps_of (lines_of_taps (seen_taps posted.now.taps.items)) ≡ Err e) }
{
    let mut reader = BundleReader::new(alloc, keys);
    let mut number = 1u64;
    for i in 0..posted.taps.len() {
        number = read_tap(alloc, &mut reader, number, &posted.taps[i])?;
    }
    reader.finish()
}
