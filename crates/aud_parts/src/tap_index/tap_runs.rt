//! The runs of bytes that have the lines of a tap, and the files that have these bytes.
ghost use Rattle.std.specs.Prelude.{◌≡◌, ◌++◌, ◌==◌, ◌∷◌, [], List, ℕ, length, slice_get, false, IsTrue, OnOk, Some};
ghost use Rattle.std.specs.Option.{option_map_or};
ghost use Rattle.std.specs.Str.{bytes_eq};
ghost use Rattle.aud_base.specs.Places.{noted as place_noted, places_of};
ghost use Rattle.aud_tap.specs.TapName.{is_tap_name};
ghost use Rattle.aud_parts.specs.TapRuns as spec;
ghost use Rattle.aud_parts.specs.PartLines.{is_server_at};
ghost use Rattle.aud_parts.specs.IndexSoFar.{KeepsPlaces, Notes, changed, none_noted, noted_in, with_run};

use aud_base::{Places, RunFault};
use aud_input::LineRuns;
use aud_tap::{TapKind, Text};
use std::alloc::{AllocError, Global};
use std::hash::RandomState;
use std::marker::Model;

/// A run of bytes of a file: lines of one tap, one after the other.
#[derive(Clone, Copy, Drop)]
pub struct Run {
    /// The file, counted from 0.
    pub file: usize,
    /// Where its first line begins in the file, counted in bytes from 0.
    pub from: u64,
    /// Where its last line ends: the place of that line's newline, if it has one.
    pub to: u64,
    /// The number of its first line, counted from 1 over all files.
    pub number: u64,
}

/// Files of which runs of bytes are read.
pub trait RunSource {
    ghost use Rattle.std.specs.Prelude.{◌≡◌, ◌-◌, ℕ, List, length, None, OnOk, Option, Some};
    ghost use Rattle.aud_parts.specs.TapRuns.{run_bytes};

    /// The bytes of each file, where they are known and stay the same.
    ghost files: { Self → Option (List (List ℕ)) } = { λ _. None };

    /// Puts the bytes of the run in the place of those in the buffer. The fault is `Read` or `Memory`.
    fn read_run(&mut self, run: &Run, bytes: &mut Vec<u8>) -> Result<(), RunFault>
        ensures run { (all : List (List ℕ)) → files self.old ≡ Some all
            → OnOk result (bytes.new.items ≡ run_bytes all run.now) }
        ensures size { OnOk result (length bytes.new.items ≡ run.now.to - run.now.from) }
        ensures source { files self.new ≡ files self.old };
}

/// A tap by its name, with the runs of its lines.
#[derive(Drop)]
pub struct TapRuns {
    name: Text,
    runs: Vec<Run>,
}

impl Model for TapRuns {
    ghost use Rattle.std.specs.Prelude.{IsTrue};
    ghost use Rattle.aud_tap.specs.TapName.{is_tap_name};
    ghost use Rattle.aud_parts.specs.TapRuns as spec;

    ghost Value = { spec.TapRuns };

    ghost view = { λ s. record { name = s.name; runs = s.runs.items } };

    ghost invariant = { λ s. IsTrue (is_tap_name s.name) };
}

impl TapRuns {
    pub fn name(&self) -> &str
        ensures value { result.now ≡ self.now.name }
        ensures form { IsTrue (is_tap_name result.now) }
    {
        self.name.as_str()
    }

    /// The runs in their order, borrowed. Lines of one file between which no line of another tap stands are in one run.
    pub fn runs(&self) -> &[Run]
        ensures { result.now ≡ self.now.runs }
    {
        &self.runs
    }

    /// How many bytes the runs have.
    pub fn bytes(&self) -> u64 {
        let mut bytes = 0u64;
        for run in &self.runs {
            bytes = bytes.saturating_add(run.to.saturating_sub(run.from));
        }
        bytes
    }

    /// Adds a line, which goes on the last run if no line of another tap stands between, and the file is the same.
    fn push(&mut self, line: Run, goes_on: bool) -> Result<(), AllocError>
        ensures { OnOk result (self.new ≡ with_run goes_on line self.old) }
    {
        let Some(last) = self.runs.pop() else {
            self.runs.push(line)?;
            return Ok(());
        };
        if goes_on && last.file == line.file {
            self.runs.push(Run {
                to: line.to,
                ..last
            })?;
            return Ok(());
        }
        self.runs.push(last)?;
        self.runs.push(line)?;
        Ok(())
    }
}

/// The taps of an index, borrowed, with what each was put on; none where a tap's first line is no header.
#[derive(Drop)]
pub struct IndexedTaps<'a> {
    pub taps: &'a [TapRuns],
    pub kinds: &'a [Option<TapKind>],
    /// The lines of each tap of the stream and of the nodes, in the order of the taps.
    pub lines: &'a [LineRuns],
}

impl IndexedTaps<'_> {
    /// Whether the tap at this place, which counts from 0, is the stream's or a node's.
    pub fn is_server(&self, place: usize) -> bool
        ensures { result ≡ is_server_at self.now.kinds.now place }
    {
        matches!(
            self.kinds.get(place),
            Some(Some(TapKind::Stream | TapKind::Node))
        )
    }
}

/// The taps in the order of their first lines, the place of each by its name, and the place of the tap whose line was
/// added last.
#[derive(Drop)]
pub struct RunsByTap {
    alloc: Global,
    pub taps: Vec<TapRuns>,
    places: Places,
    last: usize,
}

impl RunsByTap {
    /// No taps. Names are hashed with these keys.
    pub fn new(alloc: Global, keys: RandomState) -> RunsByTap
        ensures taps { noted_in result ≡ none_noted }
        ensures keeps { KeepsPlaces result }
    {
        RunsByTap {
            alloc,
            taps: Vec::new(alloc),
            places: Places::new(alloc, keys),
            last: 0,
        }
    }

    /// Whether the tap whose line was added last has this name.
    fn is_last(&self, name: &str) -> bool
        ensures { result ≡ option_map_or (λ (tap : spec.TapRuns). bytes_eq tap.name name.now)
            (slice_get self.now.taps.items self.now.last) false }
    {
        match self.taps.get(self.last) {
            Some(tap) => tap.name() == name,
            None => false,
        }
    }

    /// Puts a tap of one line at the end.
    fn open(&mut self, name: &str, line: Run) -> Result<(), AllocError>
        requires { IsTrue (is_tap_name name.now) }
        ensures taps { OnOk result (self.new.taps.items
            ≡ self.old.taps.items ++ record { name = name.now; runs = line ∷ [] } ∷ []) }
        ensures last { OnOk result (self.new.last ≡ length self.old.taps.items) }
        ensures places { OnOk result ((other : List ℕ) → places_of self.new.places other
            ≡ place_noted (length self.old.taps.items) (bytes_eq name.now other)
            (places_of self.old.places other)) }
    {
        let place = self.taps.len();
        self.places.note(place, name)?;
        let name = Text::new(self.alloc, name)?;
        let mut runs = Vec::new(self.alloc);
        runs.push(line)?;
        self.taps.push(TapRuns { name, runs })?;
        self.last = place;
        Ok(())
    }

    /// Adds a line to the tap at this place.
    fn push(&mut self, place: usize, line: Run) -> Result<(), AllocError>
        ensures taps { (tap : spec.TapRuns) → slice_get self.old.taps.items place ≡ Some tap
            → OnOk result (self.new.taps.items
            ≡ changed (with_run (place == self.old.last) line)
            self.old.taps.items place) }
        ensures last { self.new.last ≡ place }
        ensures places { (other : List ℕ) → places_of self.new.places other
            ≡ places_of self.old.places other }
    {
        let goes_on = place == self.last;
        self.last = place;
        match self.taps.get_mut(place) {
            Some(tap) => tap.push(line, goes_on),
            None => Ok(()),
        }
    }

    /// Adds a line of the tap of this name.
    pub fn note(&mut self, name: &str, line: Run) -> Result<(), AllocError>
        requires { IsTrue (is_tap_name name.now) }
        ensures { KeepsPlaces self.old → OnOk result (Notes self.old self.new name.now line) }
    {
        if self.is_last(name) {
            let place = self.last;
            return self.push(place, line);
        }
        match self.places.of(name).first().copied() {
            Some(place) => self.push(place, line),
            None => self.open(name, line),
        }
    }
}
