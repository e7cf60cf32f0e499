//! The offsets of the stream's entries, while these are read: each stands there once.
ghost use Rattle.std.specs.Prelude.{◌∷◌, ◌++◌, [], List, ℕ, map, not, IfOk, MatchResult};
ghost use Rattle.std.specs.List.{list_any};
ghost use Rattle.aud_base.specs.Steps.{guard};
ghost use Rattle.aud_tap.specs.Forms.{is_text};
ghost use Rattle.aud_tap.specs.RecordFields.{offset_of};
ghost use Rattle.aud_reader.specs.declared.fault.InputCode.TheVariants.{OffsetTwice};
ghost use Rattle.aud_reader.specs.Steps.{Gives};
ghost use Rattle.aud_reader.specs.Private.Offsets.{HoldsOffsets};
ghost use Rattle.aud_reader.specs.Private.Texts.{HasTexts};

use crate::fault::{InputCode, LineFault};
use aud_tap::{StreamRecs, Text, rank};
use std::alloc::{AllocError, Global};
use std::collections::HashSet;
use std::hash::RandomState;

const OFFSET_TWICE: LineFault = LineFault::Code(InputCode::OffsetTwice);

/// Adds an offset, unless it is there already.
fn add_offset(offsets: &mut HashSet<Text, RandomState>, off: &Text) -> Result<(), LineFault>
    ensures new { (all : List (List ℕ)) → HasTexts offsets.old all
        → Gives result (guard OffsetTwice (not (list_any (is_text off.now) all))) }
    ensures kept { (all : List (List ℕ)) → HasTexts offsets.old all
        → MatchResult result (λ _. HasTexts offsets.new (all ++ off.now ∷ []))
        (λ _. HasTexts offsets.new all) }
{
    let is_new = offsets.insert(off.share()?)?;
    if !is_new {
        return Err(OFFSET_TWICE);
    }
    Ok(())
}

/// The offsets of these entries. They are hashed with these keys.
fn offsets_of(
    alloc: Global,
    keys: RandomState,
    entries: &StreamRecs,
) -> Result<HashSet<Text, RandomState>, AllocError>
    ensures { IfOk result (λ set. HasTexts set (map offset_of entries.now)) }
{
    let mut set = HashSet::with_hasher(alloc, keys);
    for i in 0..entries.len() {
        set.insert(entries[i].offset().share()?)?;
    }
    Ok(set)
}

/// The offsets of the entries so far. While each has a greater rank than those before it, the last rank tells of a
/// greater one that its offset is new, and nothing else is kept; from the first offset of which that isn't so, all are
/// in a set.
#[derive(Drop)]
pub enum Offsets {
    /// None has a greater rank than this.
    Ascending(u128),
    Any(HashSet<Text, RandomState>),
}

impl Offsets {
    /// Adds the offset of the entry that follows these, unless one of them has it. Offsets are hashed with these keys.
    pub fn add(
        &mut self,
        alloc: Global,
        keys: RandomState,
        entries: &StreamRecs,
        off: &Text,
    ) -> Result<(), LineFault>
        requires { HoldsOffsets self.old (map offset_of entries.now) }
        ensures new { Gives result (guard OffsetTwice
            (not (list_any (is_text off.now) (map offset_of entries.now)))) }
        ensures kept { MatchResult result
            (λ _. HoldsOffsets self.new (map offset_of entries.now ++ off.now ∷ []))
            (λ _. HoldsOffsets self.new (map offset_of entries.now)) }
    {
        let last = match self {
            Offsets::Any(set) => return add_offset(set, off),
            Offsets::Ascending(last) => *last,
        };
        let rank = rank(off.as_str());
        if rank > last {
            *self = Offsets::Ascending(rank);
            return Ok(());
        }
        let mut set = offsets_of(alloc, keys, entries)?;
        let added = add_offset(&mut set, off);
        *self = Offsets::Any(set);
        added
    }
}
