//! The lines of a part's taps of the stream and of the nodes.
ghost use Rattle.std.specs.Prelude.{◌≡◌, ◌≢◌, ◌≤◌, ◌++◌, ℕ, List, false, length, map, position, Err, IfErr, IfOk, Ok, OnOk};
ghost use Rattle.std.specs.List.{AllByRecursion};
ghost use Rattle.std.specs.Str.{bytes_eq};
ghost use Rattle.aud_input.specs.LineRuns.{lines_of_runs};
ghost use Rattle.aud_reader.specs.Lines.{has_newline};
ghost use Rattle.aud_writer.specs.WrittenBundle.{ended, line_texts, recs_of_taps, written_bundle};
ghost use Rattle.aud_parts.specs.ServerTexts.{AreNamed, lines_from, number_named, tap_text, text_at};
ghost use Rattle.aud_parts.specs.Private.PlacedTexts.{placed_text};

use crate::part::lines::record_count;
use aud_input::LineRuns;
use aud_reader::{ReadFault, next_line};
use aud_tap::{Tap, Taps, Text};
use aud_writer::write_bundle;
use std::alloc::{AllocError, Global};
use std::marker::Model;

/// A tap, and where its lines stand in the text of all.
#[derive(Drop)]
struct PlacedTap {
    name: Text,
    from: usize,
    to: usize,
}

/// What stands after so many lines.
fn after_lines(bytes: &[u8], count: usize) -> &[u8]
    ensures rest { (lines : List (List ℕ)) (rest : List ℕ)
        → AllByRecursion (λ line. has_newline line ≡ false) lines → length lines ≡ count
        → bytes.now ≡ ended lines ++ rest → result.now ≡ rest }
    ensures within { length result.now ≤ length bytes.now }
{
    let mut left = bytes;
    for _line in 0..count {
        match next_line(left) {
            Some((_, others)) => left = others,
            None => return left,
        }
    }
    left
}

/// The number of the tap of this name.
fn place_named(taps: &[PlacedTap], name: &str) -> Option<usize>
    ensures { result ≡ position (λ tap. bytes_eq tap.name name.now) taps.now }
{
    taps.iter().position(|tap| tap.name.as_str() == name)
}

/// Where the lines of each of these taps stand in this text, which is that of all.
fn placed_taps(alloc: Global, text: &[u8], taps: &[Tap]) -> Result<Vec<PlacedTap>, AllocError>
    ensures { AreNamed taps.now → text.now ≡ ended (line_texts (recs_of_taps taps.now))
        → IfOk result (λ placed. map (placed_text text.now) placed.items ≡ map tap_text taps.now) }
{
    let mut placed = Vec::new(alloc);
    let mut from = 0usize;
    for tap in taps {
        let records = after_lines(&text[from..], 1);
        let rest = after_lines(records, record_count(&tap.records));
        let to = text.len() - rest.len();
        let name = tap.name.share()?;
        placed.push(PlacedTap { name, from, to })?;
        from = to;
    }
    Ok(placed)
}

/// The lines of taps of the stream and of the nodes as they are written, and which lines of the recording they come
/// from.
#[derive(Drop)]
pub struct ServerText {
    text: Vec<u8>,
    taps: Vec<PlacedTap>,
    lines: Vec<LineRuns>,
}

impl Model for ServerText {
    ghost use Rattle.std.specs.Prelude.{map};
    ghost use Rattle.aud_parts.specs.ServerTexts.{ServerTexts};
    ghost use Rattle.aud_parts.specs.Private.PlacedTexts.{placed_text};

    ghost Value = { ServerTexts };

    ghost view = { λ s. record { text = s.text.items; taps = map (placed_text s.text.items) s.taps.items; lines = s.lines.items } };
}

impl ServerText {
    /// The lines of these taps, those of each of which come from the ones that stand beside it. The fault is `Memory`, or
    /// `LineTooLong` with the number of the first line that would be too long, counted from 1 over these taps.
    pub fn of(alloc: Global, taps: &Taps, lines: Vec<LineRuns>) -> Result<ServerText, ReadFault>
        ensures text { IfOk result (λ made. written_bundle taps.now ≡ Ok made.text) }
        ensures taps { AreNamed taps.now
            → IfOk result (λ made. made.taps ≡ map tap_text taps.now) }
        ensures lines { IfOk result (λ made. made.lines ≡ lines.items) }
        ensures refused { IfErr result (λ e. e ≢ ReadFault.Memory
            → written_bundle taps.now ≡ Err e) }
    {
        let text = write_bundle(alloc, taps)?;
        let placed = placed_taps(alloc, &text, taps.as_slice())?;
        Ok(ServerText {
            text,
            taps: placed,
            lines,
        })
    }

    /// How many bytes there are.
    pub fn len(&self) -> u64
        ensures { result ≡ length self.now.text }
    {
        self.text.len() as u64
    }

    /// The number of the tap of this name, which counts from 0.
    pub fn number_named(&self, name: &str) -> Option<usize>
        ensures { result ≡ number_named name.now self.now }
    {
        place_named(&self.taps, name)
    }

    /// The lines of the tap with this number, borrowed; nothing where there is none.
    pub fn text(&self, number: usize) -> &[u8]
        ensures { result.now ≡ text_at self.now number }
    {
        match self.taps.get(number) {
            Some(tap) => {
                let to = tap.to.min(self.text.len());
                let from = tap.from.min(to);
                &self.text[from..to]
            }
            None => &[],
        }
    }

    /// Adds the lines that those of the tap with this number come from.
    pub fn push_lines(&self, number: usize, runs: &mut LineRuns) -> Result<(), AllocError>
        ensures { OnOk result (lines_of_runs runs.new
            ≡ lines_of_runs runs.old ++ lines_from self.now number) }
    {
        match self.lines.get(number) {
            Some(lines) => runs.append(lines),
            None => Ok(()),
        }
    }
}
