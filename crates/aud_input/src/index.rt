//! The index of the lines of an input.
ghost use Rattle.std.specs.Prelude.{◌≡◌, List, OnOk, None};
ghost use Rattle.aud_input.specs.TapLines.{NamedLine, no_lines, noted, with_line, with_lines, named_at};
ghost use Rattle.std.specs.List.{cons_option};
ghost use Rattle.aud_input.specs.Private.Kept.{KeepsPlaces, place_in, so_far};

use crate::name::name_of;
use crate::tap_lines::{RecordLines, TapLines};
use aud_base::{Hints, mixed_name};
use aud_reader::LentLine;
use std::alloc::{AllocError, Global};
use std::collections::HashMap;
use std::hash::RandomState;

/// Keeps the number of the line of each record, of lines that come one after another: 4 bytes a record.
///
/// It goes by the names that lines begin with, and looks at nothing more of a line. So what it gives says something of
/// the records where the reader of the bundle refuses nothing. The taps stand in the order of their first lines, with
/// the place of each by its name.
#[derive(Drop)]
pub struct LineIndex {
    alloc: Global,
    taps: Vec<TapLines>,
    places: HashMap<String, usize, RandomState>,
    hints: Hints,
    lines: u64,
}

impl LineIndex {
    /// No lines. Names are hashed with these keys.
    pub fn new(alloc: Global, keys: RandomState) -> LineIndex
        ensures lines { so_far result ≡ no_lines }
        ensures keeps { KeepsPlaces result }
    {
        LineIndex {
            alloc,
            taps: Vec::new(alloc),
            places: HashMap::with_hasher(alloc, keys),
            hints: Hints::new(alloc),
            lines: 0,
        }
    }

    /// The number of the last line: how many there were.
    pub fn lines(&self) -> u64
        ensures { result ≡ self.now.lines }
    {
        self.lines
    }

    /// Puts a tap of one line at the end.
    fn open(&mut self, name: &str, number: u32) -> Result<(), AllocError>
        requires keeps { KeepsPlaces self.old }
        requires first { place_in self.old.taps.items name.now ≡ None }
        ensures taps { OnOk result (self.new.taps.items
            ≡ with_line self.old.taps.items (record { number = number; name = name.now })) }
        ensures keeps { OnOk result (KeepsPlaces self.new) }
    {
        let key = String::from_str(self.alloc, name)?;
        let place = self.taps.len();
        self.places.insert(key, place)?;
        self.hints.note(mixed_name(name.as_bytes()), place)?;
        let tap = TapLines::new(self.alloc, name, number)?;
        self.taps.push(tap)?;
        Ok(())
    }

    /// The place of the tap of this name: where a guess says, or else by its hash.
    fn place_of(&self, name: &str) -> Option<usize>
        requires { KeepsPlaces self.now }
        ensures { result ≡ place_in self.now.taps.items name.now }
    {
        let guess = self.hints.get(mixed_name(name.as_bytes())).unwrap_or(0);
        match self.taps.get(guess) {
            Some(tap) if tap.is_named(name) => Some(guess),
            _ => self.places.get(name).copied(),
        }
    }

    /// The next line that begins with a name has this number.
    fn note(&mut self, name: &str, number: u32) -> Result<(), AllocError>
        requires { KeepsPlaces self.old }
        ensures taps { OnOk result (self.new.taps.items
            ≡ with_line self.old.taps.items (record { number = number; name = name.now })) }
        ensures keeps { OnOk result (KeepsPlaces self.new) }
    {
        match self.place_of(name) {
            Some(place) => self.taps[place].push(number)?,
            None => self.open(name, number)?,
        }
        Ok(())
    }

    /// Notes the name of the next line.
    fn note_line(&mut self, line: &LentLine<'_>) -> Result<(), AllocError>
        requires { KeepsPlaces self.old }
        ensures taps { OnOk result ((more : List NamedLine)
            → with_lines self.new.taps.items more
            ≡ with_lines self.old.taps.items
            (cons_option (named_at line.now.number line.now.bytes) more)) }
        ensures keeps { OnOk result (KeepsPlaces self.new) }
    {
        if line.number >= u64::from(u32::MAX) {
            return Ok(());
        }
        match name_of(line.bytes) {
            Some(name) => self.note(name, line.number as u32),
            None => Ok(()),
        }
    }

    /// Notes the next lines.
    pub fn note_lines(&mut self, lines: &[LentLine<'_>]) -> Result<(), AllocError>
        requires { KeepsPlaces self.old }
        ensures noted { OnOk result (so_far self.new ≡ noted (so_far self.old) lines.now) }
        ensures keeps { OnOk result (KeepsPlaces self.new) }
    {
        for line in lines {
            self.note_line(line)?;
            self.lines = line.number;
        }
        Ok(())
    }

    /// The lines of the taps.
    pub fn close(self) -> RecordLines
        ensures { result ≡ self.taps.items }
    {
        RecordLines::new(self.taps)
    }
}
