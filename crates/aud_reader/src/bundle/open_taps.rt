//! The taps of the lines so far.
ghost use Rattle.std.specs.Prelude.{◌≡◌, ◌<◌, ◌∷◌, ◌++◌, [], List, ℕ, length, IfOk, IfSome, IsTrue, OnOk, Ok, Some, None};
ghost use Rattle.std.specs.HashMap.{get_by_text};
ghost use Rattle.aud_json.specs.View.{view};
ghost use Rattle.aud_reader.specs.Private.Changes.{Becomes};
ghost use Rattle.aud_reader.specs.Private.KnownLine.{IsOfTapAt};
ghost use Rattle.aud_reader.specs.Private.Packed.{rec_of};
ghost use Rattle.aud_reader.specs.Record.{line_record};
ghost use Rattle.aud_reader.specs.Bundle.{no_records, with_header, with_line, with_named, with_value};

use super::counts::Counts;
use super::open_tap::OpenTap;
use super::packed::PackedRec;
use crate::fault::{HEADER_TWICE, InputCode, LineFault};
use crate::read::cut_at_blank;
use crate::read::header::tap_header;
use crate::read::line::{json, opened_line};
use crate::read::record::kind_of;
use aud_base::{Hints, TextPool, mixed_name};
use aud_json::{Fields, Scratch};
use aud_tap::limits::MAX_LINE;
use aud_tap::{TapKind, Taps, Text, Version};
use std::alloc::{AllocError, Global};
use std::collections::{HashMap, HashSet};
use std::hash::RandomState;

const NO_HEADER: LineFault = LineFault::Code(InputCode::NoHeader);

/// The taps in the order of their headers, the place of each by its name and hints at it, the pids of all node
/// records, and how many taps there are of each kind.
#[derive(Drop)]
pub struct OpenTaps {
    alloc: Global,
    keys: RandomState,
    taps: Vec<OpenTap>,
    places: HashMap<String, usize, RandomState>,
    hints: Hints,
    pids: HashSet<Text, RandomState>,
    counts: Counts,
}

impl OpenTaps {
    ghost use Rattle.aud_tap.specs.Names.{place_of};
    ghost use Rattle.aud_tap.specs.TapName.{is_tap_name};
    ghost use Rattle.aud_reader.specs.Private.Kept.{KeepsTaps};
    ghost use Rattle.aud_reader.specs.SoFar.{taps_so_far};

    /// No taps. Names, pids and offsets are hashed with these keys.
    pub fn new(alloc: Global, keys: RandomState) -> OpenTaps
        ensures taps { taps_so_far result ≡ [] }
        ensures keeps { KeepsTaps result }
    {
        OpenTaps {
            alloc,
            keys,
            taps: Vec::new(alloc),
            places: HashMap::with_hasher(alloc, keys),
            hints: Hints::new(alloc),
            pids: HashSet::with_hasher(alloc, keys),
            counts: Counts::new(),
        }
    }

    /// Puts a tap without records at the end.
    fn push(&mut self, name: &str, of: TapKind, version: Version) -> Result<(), AllocError>
        ensures taps { OnOk result (taps_so_far self.new
            ≡ taps_so_far self.old
            ++ record { name = name.now; version = version; records = no_records of } ∷ []) }
        ensures places { ((text : List ℕ)
            → get_by_text self.old.places text ≡ place_of (taps_so_far self.old) text)
            → place_of (taps_so_far self.old) name.now ≡ None → OnOk result ((text : List ℕ)
            → get_by_text self.new.places text ≡ place_of (taps_so_far self.new) text) }
        ensures others { self.new ≡ record self.old {
          taps = self.new.taps;
          places = self.new.places;
          hints = self.new.hints;
        } }
    {
        let place = self.taps.len();
        self.hints.note(mixed_name(name.as_bytes()), place)?;
        let key = String::from_str(self.alloc, name)?;
        self.places.insert(key, place)?;
        let name = Text::new(self.alloc, name)?;
        self.taps
            .push(OpenTap::new(self.alloc, self.keys, name, of, version))?;
        Ok(())
    }

    /// Reads the first line of a tap, which is its header.
    #[tactic(auto, unfolding(crate::specs::Bundle::with_header))]
    fn begin(&mut self, name: &str, kind: &str, d: &Fields<'_>) -> Result<(), LineFault>
        requires keeps { KeepsTaps self.old }
        requires first { place_of (taps_so_far self.old) name.now ≡ None }
        requires name { IsTrue (is_tap_name name.now) }
        ensures taps { Becomes result (taps_so_far self.new)
            (with_header (taps_so_far self.old) name.now kind.now (view d.now)) }
        ensures keeps { OnOk result (KeepsTaps self.new) }
    {
        if kind != "tap" {
            return Err(NO_HEADER);
        }
        let (of, version) = tap_header(d)?;
        self.counts.add(of)?;
        self.push(name, of, version)?;
        Ok(())
    }

    /// Reads a later line of the tap at a place. Its texts are shared with the pool.
    #[tactic(auto, unfolding(crate::specs::Bundle::with_later))]
    fn go_on(
        &mut self,
        pool: &mut TextPool,
        place: usize,
        kind: &str,
        d: &Fields<'_>,
    ) -> Result<(), LineFault>
        requires keeps { KeepsTaps self.old }
        requires place { place < length (taps_so_far self.old) }
        ensures taps { (name : List ℕ) → place_of (taps_so_far self.old) name ≡ Some place
            → Becomes result (taps_so_far self.new) (with_named (taps_so_far self.old) name kind.now
            (view d.now)) }
        ensures keeps { OnOk result (KeepsTaps self.new) }
    {
        if kind == "tap" {
            return Err(HEADER_TWICE);
        }
        let tap = &mut self.taps[place];
        tap.add(pool, &mut self.pids, kind, d)
    }

    /// The place of the tap of this name.
    pub fn place(&self, name: &str) -> Option<usize>
        requires { KeepsTaps self.now }
        ensures { result ≡ place_of (taps_so_far self.now) name.now }
    {
        self.places.get(name).copied()
    }

    /// Reads the fields of a line of the tap of this name.
    fn read_value(
        &mut self,
        pool: &mut TextPool,
        name: &str,
        d: &Fields<'_>,
    ) -> Result<(), LineFault>
        requires keeps { KeepsTaps self.old }
        requires name { IsTrue (is_tap_name name.now) }
        ensures taps { Becomes result (taps_so_far self.new)
            (with_value (taps_so_far self.old) name.now (view d.now)) }
        ensures keeps { OnOk result (KeepsTaps self.new) }
    {
        let kind = kind_of(d)?;
        match self.place(name) {
            Some(place) => self.go_on(pool, place, kind, d),
            None => self.begin(name, kind, d),
        }
    }

    /// The place of the tap that has this name, unless the hints don't know it.
    fn known(&self, name: &[u8]) -> Option<usize>
        requires { KeepsTaps self.now }
        ensures { IfSome result (λ place. place_of (taps_so_far self.now) name.now ≡ Some place) }
    {
        let place = self.hints.get(mixed_name(name))?;
        let tap = self.taps.get(place)?;
        if !tap.is_named(name) {
            return None;
        }
        Some(place)
    }

    /// The place of the tap that a line names, and the text after the name: of a line that isn't too long, and whose
    /// tap's name is known. The name is compared, and not looked at otherwise.
    pub fn known_line<'a>(&self, line: &'a [u8]) -> Option<(usize, &'a [u8])>
        requires { KeepsTaps self.now }
        ensures { IfSome result
            (λ p. IsOfTapAt (taps_so_far self.now) line.now p.0 p.1.now) }
    {
        if line.len() > MAX_LINE {
            return None;
        }
        let (name, text) = cut_at_blank(line)?;
        let place = self.known(name)?;
        Some((place, text))
    }

    /// Reads what stands after the name in a line of the tap at a place. Its texts are shared with the pool.
    fn read_known(
        &mut self,
        pool: &mut TextPool,
        scratch: &mut Scratch,
        place: usize,
        text: &[u8],
    ) -> Result<(), LineFault>
        requires keeps { KeepsTaps self.old }
        requires place { place < length (taps_so_far self.old) }
        ensures taps { (line : List ℕ) → IsOfTapAt (taps_so_far self.old) line place text.now
            → Becomes result (taps_so_far self.new) (with_line (taps_so_far self.old) line) }
        ensures keeps { OnOk result (KeepsTaps self.new) }
    {
        let d = json(self.alloc, scratch, text)?;
        let kind = kind_of(&d)?;
        self.go_on(pool, place, kind, &d)
    }

    /// Reads a line, of which nothing is kept in the scratch. Its texts are shared with the pool.
    #[tactic(auto, unfolding(crate::specs::Bundle::with_line))]
    pub fn read_line(
        &mut self,
        pool: &mut TextPool,
        scratch: &mut Scratch,
        line: &[u8],
    ) -> Result<(), LineFault>
        requires { KeepsTaps self.old }
        ensures taps { Becomes result (taps_so_far self.new)
            (with_line (taps_so_far self.old) line.now) }
        ensures keeps { OnOk result (KeepsTaps self.new) }
    {
        if let Some((place, text)) = self.known_line(line) {
            return self.read_known(pool, scratch, place, text);
        }
        let (name, d) = opened_line(self.alloc, scratch, line)?;
        self.read_value(pool, name, &d)
    }

    /// Adds the record that a line tells of the tap at a place: the tap that the line names.
    pub fn push_record(&mut self, place: usize, rec: PackedRec) -> Result<(), LineFault>
        requires keeps { KeepsTaps self.old }
        requires place { place < length (taps_so_far self.old) }
        ensures taps { (line name : List ℕ) → place_of (taps_so_far self.old) name ≡ Some place
            → line_record line ≡ Ok (name, rec_of rec)
            → Becomes result (taps_so_far self.new) (with_line (taps_so_far self.old) line) }
        ensures keeps { OnOk result (KeepsTaps self.new) }
    {
        let tap = &mut self.taps[place];
        tap.push(&mut self.pids, rec)
    }

    /// The taps, at the end.
    pub fn close(self) -> Result<Taps, AllocError>
        ensures { IfOk result (λ taps. taps ≡ taps_so_far self) }
    {
        let mut taps = Vec::new(self.alloc);
        for tap in self.taps {
            taps.push(tap.close()?)?;
        }
        Ok(Taps::new(taps))
    }
}
