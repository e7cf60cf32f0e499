//! The lines of each tap.
ghost use Rattle.std.specs.Prelude.{◌≡◌, ◌++◌, ◌∷◌, [], OnOk, IfOk};
ghost use Rattle.std.specs.Str.{bytes_eq};
ghost use Rattle.aud_input.specs.LineRuns.{line_in, numbers_named, tap_named, taps_named};
ghost use Rattle.aud_input.specs.TapLines.{first_kept, first_like, kept_line};

use crate::line_runs::LineRuns;
use crate::name::name_of;
use aud_tap::Text;
use std::alloc::{AllocError, Global};
use std::marker::Model;

/// The numbers of a tap's lines.
#[derive(Drop)]
pub struct TapLines {
    name: Text,
    numbers: Vec<u32>,
}

impl Model for TapLines {
    ghost use Rattle.aud_input.specs.TapLines as spec;

    ghost Value = { spec.TapLines };

    ghost view = { λ s. record { name = s.name; numbers = s.numbers.items } };
}

impl TapLines {
    /// A tap of one line.
    pub fn new(alloc: Global, name: &str, number: u32) -> Result<TapLines, AllocError>
        ensures { IfOk result (λ tap. tap ≡ record { name = name.now; numbers = number ∷ [] }) }
    {
        let name = Text::new(alloc, name)?;
        let mut numbers = Vec::new(alloc);
        numbers.push(number)?;
        Ok(TapLines { name, numbers })
    }

    /// Whether the tap has this name.
    pub fn is_named(&self, name: &str) -> bool
        ensures { result ≡ bytes_eq self.now.name name.now }
    {
        self.name.as_str() == name
    }

    /// One more line.
    pub fn push(&mut self, number: u32) -> Result<(), AllocError>
        ensures { OnOk result (self.new
            ≡ record self.old { numbers = self.old.numbers ++ number ∷ [] }) }
    {
        self.numbers.push(number)?;
        Ok(())
    }

    /// The same tap, where its lines come from these lines of an input: named as those.
    fn named(&self, alloc: Global, lines: &[u64]) -> Result<TapLines, AllocError>
        ensures { IfOk result (λ tap. tap ≡ tap_named lines.now self.now) }
    {
        let name = self.name.share()?;
        let mut numbers = Vec::new(alloc);
        push_named(&mut numbers, lines, &self.numbers)?;
        Ok(TapLines { name, numbers })
    }
}

/// The line of the input that the part's line of this number comes from, where it is one of the first 4,294,967,294.
fn line_in(lines: &[u64], number: u32) -> Option<u32>
    ensures { result ≡ line_in lines.now number }
{
    let place = number.checked_sub(1)?;
    let line = *lines.get(place as usize)?;
    if line < u64::from(u32::MAX) {
        Some(line as u32)
    } else {
        None
    }
}

/// Adds the lines of the input that these lines of the part come from, up to the first that isn't known.
fn push_named(named: &mut Vec<u32>, lines: &[u64], numbers: &[u32]) -> Result<(), AllocError>
    ensures { OnOk result (named.new.items
        ≡ named.old.items ++ numbers_named lines.now numbers.now) }
{
    for number in numbers {
        let Some(line) = line_in(lines, *number) else {
            return Ok(());
        };
        named.push(line)?;
    }
    Ok(())
}

/// The line of each record.
#[derive(Drop)]
pub struct RecordLines {
    taps: Vec<TapLines>,
}

impl Model for RecordLines {
    ghost use Rattle.std.specs.Prelude.{List};
    ghost use Rattle.aud_input.specs.TapLines as spec;

    ghost Value = { List spec.TapLines };

    ghost view = { λ s. s.taps.items };
}

/// The first line of the tap of this name.
fn first_kept(taps: &[TapLines], name: &str) -> Option<u64>
    ensures { result ≡ first_kept taps.now name.now }
{
    for tap in taps {
        if tap.name.as_str() == name {
            let number = tap.numbers.first()?;
            return Some(u64::from(*number));
        }
    }
    None
}

impl RecordLines {
    /// The lines of these taps.
    pub fn new(taps: Vec<TapLines>) -> RecordLines
        ensures { result ≡ taps.items }
    {
        RecordLines { taps }
    }

    /// The line of the record of this number. Taps count from 0 in the order of their headers, records from 0 after the
    /// header, and lines from 1. None where there is no such record, and for a line after the 4,294,967,294th.
    pub fn line_of(&self, tap: usize, number: usize) -> Option<u64>
        ensures { result ≡ kept_line self.now tap number }
    {
        let lines = self.taps.get(tap)?;
        let number = lines.numbers.get(number.checked_add(1)?)?;
        Some(u64::from(*number))
    }

    /// The first line with the name that this line begins with; lines count from 1. None where the line begins with no
    /// tap's name, and where no line of the first 4,294,967,294 begins with it.
    pub fn first_like(&self, line: &[u8]) -> Option<u64>
        ensures { result ≡ first_like self.now line.now }
    {
        first_kept(&self.taps, name_of(line)?)
    }

    /// The lines of the same records, where all are lines of a part that come from these of an input: the lines of the
    /// input. Of a tap none is known from the first line on that comes from one after the 4,294,967,294th, or from none.
    pub fn named(&self, alloc: Global, runs: &LineRuns) -> Result<RecordLines, AllocError>
        ensures { IfOk result (λ named. named ≡ taps_named runs.now self.now) }
    {
        let lines = runs.lines(alloc)?;
        let mut taps = Vec::new(alloc);
        for tap in &self.taps {
            taps.push(tap.named(alloc, &lines)?)?;
        }
        Ok(RecordLines { taps })
    }
}
