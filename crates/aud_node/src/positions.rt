//! An index from a text to the positions of entries.
ghost use Rattle.std.specs.Prelude.{◌≡◌, ◌-◌, ℕ, List, [], OnOk, length, slice_get};
ghost use Rattle.std.specs.Str.{bytes_eq};
ghost use Rattle.aud_base.specs.Places.{is_place, noted, with_place};
ghost use Rattle.aud_node.specs.Private.AddresseeIndex.{kept_of};

use smallvec::SmallVec;
use std::alloc::{AllocError, Global};
use std::collections::HashMap;
use std::hash::RandomState;

/// Of each text, which is borrowed, the positions that it was noted at, ascending, each once.
#[derive(Drop)]
pub struct Positions<'a> {
    alloc: Global,
    by_text: HashMap<&'a str, Few, RandomState>,
}

/// Positions of one text. Most texts have one or two, which need no block of their own.
type Few = SmallVec<u64, 2>;

impl<'a> Positions<'a> {
    /// No text has a position.
    pub fn new(alloc: Global, keys: RandomState) -> Positions<'a>
        ensures { (text : List ℕ) → kept_of result text ≡ [] }
    {
        Positions {
            alloc,
            by_text: HashMap::with_hasher(alloc, keys),
        }
    }

    /// The positions of the text.
    pub fn of(&self, text: &str) -> &[u64]
        ensures { result.now ≡ kept_of self.now text.now }
    {
        match self.by_text.get(text) {
            Some(positions) => positions.as_slice(),
            None => &[],
        }
    }

    /// The text has this position, after all those noted so far; noted again it changes nothing.
    pub fn note(&mut self, position: u64, text: &'a str) -> Result<(), AllocError>
        ensures { OnOk result ((other : List ℕ)
            → kept_of self.new other
            ≡ noted position (bytes_eq text.now other) (kept_of self.old other)) }
    {
        let none = SmallVec::new(self.alloc);
        let positions = self.by_text.entry(text)?.or_insert(none);
        push_last(positions, position)?;
        Ok(())
    }
}

/// Puts the position after the others, unless it is the last of them already.
fn push_last(positions: &mut Few, position: u64) -> Result<(), AllocError>
    ensures { OnOk result (positions.new.items ≡ with_place position positions.old.items) }
{
    if is_last(positions, position) {
        return Ok(());
    }
    positions.push(position)?;
    Ok(())
}

/// Whether the position is the last of these.
fn is_last(positions: &[u64], position: u64) -> bool
    ensures { result ≡ is_place position (slice_get positions.now (length positions.now - 1)) }
{
    match positions.last() {
        Some(last) => *last == position,
        None => false,
    }
}
