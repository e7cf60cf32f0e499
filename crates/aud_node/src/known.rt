//! The events of the stream that are known by their text.
ghost use Rattle.std.specs.Prelude.{◌≡◌, ◌&&◌, IfOk, OnOk, Some, map, true, if◌then◌else◌};
ghost use Rattle.std.specs.Option.{option_copied};
ghost use Rattle.aud_node.specs.Known.{is_sent_alone, is_sent_as};
ghost use Rattle.aud_node.specs.Recoverable.{is_recoverable};
ghost use Rattle.aud_node.specs.Stream.{Text};
ghost use Rattle.aud_node.specs.Private.KnownIndex.{ending, spells_its_offset};

use crate::offsets::Offsets;
use crate::rest::Rest;
use aud_base::{Hints, mixed_ending};
use aud_tap::{Event, StreamRec};
use std::alloc::{AllocError, Global};
use std::collections::HashMap;
use std::hash::RandomState;

/// An event of the stream that a server sends again after a recovery, as its text alone. What that text spells is known
/// of each such event: where the text comes again, it needn't be decoded.
#[derive(Clone, Copy, Drop)]
pub struct KnownEvent<'a> {
    /// How many entries stand before it in the stream where it was found.
    pub before: usize,
    /// The event, borrowed from the stream's tap. It has no attachments.
    pub event: &'a Event,
    pub ghost sent_alone: { is_sent_alone event.now ≡ true },
}

/// Of a text, the first entry that is such an event and has this text; entries count from 0. A text is kept only where
/// the offset that its ending spells wouldn't find that entry: where it has escapes, or two entries have the same
/// offset. So of most streams none are kept.
#[derive(Drop)]
pub struct KnownTexts<'a> {
    entries: HashMap<&'a str, usize, RandomState>,
}

impl<'a> KnownTexts<'a> {
    ghost use Rattle.aud_node.specs.Private.KnownIndex.{HoldsKnown, kept_entry};
    ghost use Rattle.aud_node.specs.Private.OffsetIndex.{HoldsOffsets};

    /// The texts of these entries, of which the flags say whether they are recoverable, and hints at where each stands.
    /// They are read from the last on: of several with one text the first is kept. Where no two entries have the same
    /// offset, those are left out whose text spells theirs.
    pub fn build(
        alloc: Global,
        keys: RandomState,
        entries: &Rest<'a, StreamRec>,
        recoverable: &[bool],
        offsets: &Offsets<'a>,
    ) -> Result<(KnownTexts<'a>, Hints), AllocError>
        requires flags { recoverable.now ≡ map is_recoverable entries.now }
        requires offsets { HoldsOffsets entries.now offsets.now }
        ensures { IfOk result (λ built. HoldsKnown entries.now built.0) }
    {
        let mut known = KnownTexts {
            entries: HashMap::with_hasher(alloc, keys),
        };
        let mut hints = Hints::with_room(alloc, entries.len())?;
        for i in (0..entries.len()).rev() {
            let entry = entries.at(i);
            note_hint(&mut hints, entry, i)?;
            if offsets.distinct() && spells_its_offset(entry) {
                continue;
            }
            known.note(entry, recoverable[i], i)?;
        }
        Ok((known, hints))
    }

    /// The entry that is kept for the text. Where none are kept, the text isn't hashed.
    pub fn get(&self, text: &str) -> Option<usize>
        ensures { result ≡ kept_entry self.now text.now }
    {
        if self.entries.is_empty() {
            return None;
        }
        self.entries.get(text).copied()
    }

    /// The entry stands at this index, before all those noted so far; it is noted where it is recoverable and has no
    /// attachments.
    fn note(
        &mut self,
        entry: &'a StreamRec,
        recoverable: bool,
        index: usize,
    ) -> Result<(), AllocError>
        requires { recoverable ≡ is_recoverable entry.now }
        ensures { OnOk result ((text : Text)
            → kept_entry self.new text ≡ (if is_sent_as text entry.now then Some index
            else kept_entry self.old text)) }
    {
        let StreamRec::Ev(event) = entry else {
            return Ok(());
        };
        if recoverable && event.bin.as_slice().is_empty() {
            self.entries.insert(event.text.as_str(), index)?;
        }
        Ok(())
    }
}

/// By what the event of a text is guessed: the 16 bytes before its closing quote and bracket, its offset mostly.
pub fn hint_of(text: &str) -> u64 {
    mixed_ending(text, 2, 0)
}

/// The entry stands at this index, before all those noted so far.
fn note_hint(hints: &mut Hints, entry: &StreamRec, index: usize) -> Result<(), AllocError> {
    match entry {
        StreamRec::Ev(event) => hints.note(hint_of(event.text.as_str()), index),
        StreamRec::Other { .. } => Ok(()),
    }
}

/// Whether the entry is an event that is sent again as this text alone; the flag says whether it is recoverable.
pub fn is_sent_as(entry: &StreamRec, recoverable: bool, text: &str) -> bool
    requires { recoverable ≡ is_recoverable entry.now }
    ensures { result ≡ is_sent_as text.now entry.now }
{
    let StreamRec::Ev(event) = entry else {
        return false;
    };
    recoverable && event.bin.as_slice().is_empty() && event.text.as_str() == text
}

/// Whether the entry is an event whose text's ending is its offset.
fn spells_its_offset(entry: &StreamRec) -> bool
    ensures { result ≡ spells_its_offset entry.now }
{
    let StreamRec::Ev(event) = entry else {
        return false;
    };
    ending(event.text.as_str()) == Some(event.off.as_str())
}

/// What stands between the last two quotes of a text that ends in a quote and a bracket, escapes and all. Of an event
/// that is sent again this is its offset, where that needs no escapes.
pub fn ending(text: &str) -> Option<&str>
    ensures { option_copied result ≡ ending text.now }
{
    let front = text.strip_suffix("\"]")?;
    let (_, last) = front.rsplit_once('"')?;
    Some(last)
}
