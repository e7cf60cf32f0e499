//! The stream's entries.
ghost use Rattle.std.specs.Prelude.{◌≡◌, IfOk, IfSome, Some, map, option_map, slice_get};
ghost use Rattle.std.specs.Option.{option_copied};
ghost use Rattle.aud_node.specs.Stream.{position, entry};
ghost use Rattle.aud_node.specs.AtPosition.{is_recoverable_at};
ghost use Rattle.aud_node.specs.Recoverable.{is_recoverable};
ghost use Rattle.aud_node.specs.Private.NextPosition.{next_position};
ghost use Rattle.aud_node.specs.Addressees.{positions_excepting, positions_to_all, positions_to_room};
ghost use Rattle.aud_node.specs.Known.{known_entry};
ghost use Rattle.aud_node.specs.Private.KnownIndex.{found_by_offset};
ghost use Rattle.aud_node.specs.Private.AddresseeIndex.{HoldsAddressees};
ghost use Rattle.aud_node.specs.Private.StreamIndex.{HoldsTexts};
ghost use Rattle.aud_tap.specs.declared.records.StreamRec.TheVariants.{Ev};

use crate::addressees::Addressees;
use crate::both::both;
use crate::known::{KnownEvent, KnownTexts, ending, hint_of, is_sent_as};
use crate::offsets::Offsets;
use crate::rest::Rest;
use aud_base::Hints;
use aud_tap::StreamRec;
use std::alloc::{AllocError, Global};
use std::hash::RandomState;
use std::marker::Model;
use std::thread::Threads;

/// The stream's entries, borrowed; seen as their list. Positions count from 1.
#[derive(Drop)]
pub struct Stream<'a> {
    entries: Rest<'a, StreamRec>,
    offsets: Offsets<'a>,
    recoverable: Vec<bool>,
    addressees: Addressees<'a>,
    known: KnownTexts<'a>,
    hints: Hints,
}

impl<'a> Model for Stream<'a> {
    ghost use Rattle.std.specs.Prelude.{List};
    ghost use Rattle.aud_tap.specs.declared.records.StreamRec.{StreamRec};

    ghost Value = { List StreamRec };

    ghost use Rattle.aud_node.specs.Private.StreamIndex.{HoldsStream};

    ghost view = { λ s. s.entries };

    ghost invariant = { HoldsStream };
}

impl<'a> Stream<'a> {
    /// The stream of the entries, of which the flags say whether they are recoverable.
    pub(crate) fn build(
        alloc: Global,
        keys: RandomState,
        entries: Rest<'a, StreamRec>,
        recoverable: Vec<bool>,
    ) -> Result<Stream<'a>, AllocError>
        requires { recoverable.items ≡ map is_recoverable entries }
        ensures { IfOk result (λ stream. stream ≡ entries.entry) }
    {
        let all = Flagged {
            entries,
            recoverable,
        };
        let addressees = Addressees::build(alloc, keys, &all.entries, &all.recoverable)?;
        let texts = Texts::build(alloc, keys, &all)?;
        Ok(Stream::of(all, addressees, texts))
    }

    /// The same in two threads: one notes whom the entries are addressed to, and this one their offsets and texts.
    pub(crate) fn build_in_two<H: Threads>(
        rt: &H,
        alloc: Global,
        keys: RandomState,
        entries: Rest<'a, StreamRec>,
        recoverable: Vec<bool>,
    ) -> Result<Stream<'a>, AllocError>
        requires { recoverable.items ≡ map is_recoverable entries }
        ensures { IfOk result (λ stream. stream ≡ entries.entry) }
    {
        let all = Flagged {
            entries,
            recoverable,
        };
        let (addressees, texts) = both(
            rt,
            &all,
            |all: &Flagged<'_>| -> Result<Addressees<'_>, AllocError>
                ensures { IfOk result (HoldsAddressees all.now.entries) }
            { Addressees::build(alloc, keys, &all.entries, &all.recoverable) },
            |all: &Flagged<'_>| -> Result<Texts<'_>, AllocError>
                ensures { IfOk result (HoldsTexts all.now.entries) }
            { Texts::build(alloc, keys, all) },
        );
        Ok(Stream::of(all, addressees?, texts?))
    }

    /// The stream of these entries, of which these are the indices.
    fn of(all: Flagged<'a>, addressees: Addressees<'a>, texts: Texts<'a>) -> Stream<'a>
        requires addressees { HoldsAddressees all.entries addressees }
        requires texts { HoldsTexts all.entries texts }
        ensures { result ≡ all.entry.entries }
    {
        Stream {
            entries: all.entries,
            offsets: texts.offsets,
            recoverable: all.recoverable,
            addressees,
            known: texts.known,
            hints: texts.hints,
        }
    }

    /// The entries, borrowed for as long as the taps.
    pub fn entries(&self) -> Rest<'a, StreamRec>
        ensures { result ≡ self.now }
    {
        self.entries.after(0)
    }

    /// The position, from 1 on, of the entry that has the offset.
    pub fn position(&self, off: &str) -> Option<u64>
        ensures { result ≡ position self.now off.now }
    {
        self.offsets.get(&self.entries, off)
    }

    /// The entry at the position, which counts from 1.
    pub fn entry(&self, position: u64) -> Option<&'a StreamRec>
        ensures { option_copied result ≡ entry self.now position }
    {
        if position == 0 {
            return None;
        }
        self.entries.get(position as usize - 1)
    }

    /// Whether the entry at the position is sent again after a recovery; false where there is none.
    pub fn recoverable(&self, position: u64) -> bool
        ensures { result ≡ is_recoverable_at self.now position }
    {
        if position == 0 {
            return false;
        }
        self.recoverable
            .get(position as usize - 1)
            .copied()
            .unwrap_or(false)
    }

    /// A guess at how many entries stand before the first event of this text; it promises nothing, and is for
    /// [`known`](Stream::known). A guess reads a few bytes that stand far from others: who has many texts asks for
    /// the guesses of all before the first of them is used, so that their bytes are fetched side by side.
    pub fn guess(&self, text: &str) -> Option<usize> {
        self.hints.get(hint_of(text))
    }

    /// The first event of this text that a server sends again after a recovery, and that has no attachments; none where
    /// there is no such event. The text isn't decoded. So it is whatever the guess is; where that is right, nothing is
    /// looked up.
    pub fn known(&self, text: &str, guess: Option<usize>) -> Option<KnownEvent<'a>>
        ensures first { option_map (λ known. known.before) result ≡ known_entry self.now text.now }
        ensures entry { IfSome result (λ known. slice_get self.now known.before
            ≡ Some (Ev known.event.now)) }
        ensures text { IfSome result (λ known. known.event.now.text ≡ text.now) }
    {
        let before = self.known_before(text, guess)?;
        match self.entries.get(before)? {
            StreamRec::Ev(event) => Some(KnownEvent { before, event }),
            StreamRec::Other { .. } => None,
        }
    }

    /// How many entries stand before that event. Where the guess is wrong, it is found by the offset in which the text
    /// ends, or the whole text is looked up.
    fn known_before(&self, text: &str, guess: Option<usize>) -> Option<usize>
        ensures { result ≡ known_entry self.now text.now }
    {
        if let Some(guessed) = self.guessed(text, guess) {
            return Some(guessed);
        }
        match self.found_by_offset(text) {
            Some(before) => Some(before),
            None => self.known.get(text),
        }
    }

    /// The same where the guess is right; none where it isn't, or where two entries have the same offset.
    fn guessed(&self, text: &str, guess: Option<usize>) -> Option<usize>
        ensures { IfSome result (λ before. known_entry self.now text.now ≡ Some before) }
    {
        if !self.offsets.distinct() {
            return None;
        }
        let before = guess?;
        let entry = self.entries.get(before)?;
        if !is_sent_as(entry, self.recoverable(before as u64 + 1), text) {
            return None;
        }
        Some(before)
    }

    /// The same by the first entry that has the text's ending as its offset; none where that isn't such an event of
    /// this text.
    fn found_by_offset(&self, text: &str) -> Option<usize>
        ensures { result ≡ found_by_offset self.now text.now }
    {
        let position = self.position(ending(text)?)?;
        let entry = self.entry(position)?;
        if !is_sent_as(entry, self.recoverable(position), text) {
            return None;
        }
        Some(position as usize - 1)
    }

    /// The position, from 1 on, of the first entry that has the event's offset. It is looked up only where two entries
    /// have the same offset, or where the event is another stream's.
    pub fn position_of(&self, known: &KnownEvent<'_>) -> Option<u64>
        ensures { result ≡ position self.now known.now.event.now.off }
    {
        let off = known.event.off.as_str();
        match self.next(known.before as u64, off) {
            Some(position) => Some(position),
            None => self.position(off),
        }
    }

    /// The positions, ascending, of the recoverable entries of the namespace that name the room.
    pub fn positions(&self, nsp: &str, room: &str) -> &[u64]
        ensures { result.now ≡ positions_to_room self.now nsp.now room.now }
    {
        self.addressees.to_room(nsp, room)
    }

    /// The positions, ascending, of the recoverable entries for the whole namespace.
    pub fn to_all(&self, nsp: &str) -> &[u64]
        ensures { result.now ≡ positions_to_all self.now nsp.now }
    {
        self.addressees.to_all(nsp)
    }

    /// The positions, ascending, of the recoverable entries that except the room, whatever their namespace.
    pub fn excepting(&self, room: &str) -> &[u64]
        ensures { result.now ≡ positions_excepting self.now room.now }
    {
        self.addressees.excepting(room)
    }

    /// The position after the cursor, if the offset stands there. It is compared with that of the entry there, and
    /// looked up only where two entries have the same offset.
    pub(crate) fn next(&self, cursor: u64, off: &str) -> Option<u64>
        ensures { result ≡ next_position self.now off.now cursor }
    {
        let Some(entry) = self.entries.get(cursor as usize) else {
            return None;
        };
        if entry.offset().as_str() != off {
            return None;
        }
        if self.offsets.distinct() {
            return Some(cursor + 1);
        }
        self.find_next(cursor, off)
    }

    /// The same by looking the offset up.
    fn find_next(&self, cursor: u64, off: &str) -> Option<u64>
        ensures { result ≡ next_position self.now off.now cursor }
    {
        match self.position(off) {
            Some(position) if position > 0 && position - 1 == cursor => Some(position),
            _ => None,
        }
    }
}

/// The entries, and of each whether it is recoverable.
#[derive(Drop)]
struct Flagged<'a> {
    entries: Rest<'a, StreamRec>,
    recoverable: Vec<bool>,
    ghost flags_are: { recoverable.items ≡ map is_recoverable entries },
}

/// Where entries stand by their offsets, and by their texts.
#[derive(Drop)]
struct Texts<'a> {
    offsets: Offsets<'a>,
    known: KnownTexts<'a>,
    hints: Hints,
}

impl<'a> Texts<'a> {
    /// Where these entries stand.
    fn build(alloc: Global, keys: RandomState, all: &Flagged<'a>) -> Result<Texts<'a>, AllocError>
        ensures { IfOk result (HoldsTexts all.now.entries) }
    {
        let offsets = Offsets::build(alloc, keys, &all.entries)?;
        let (known, hints) = KnownTexts::build(
            alloc,
            keys,
            &all.entries,
            &all.recoverable,
            &offsets,
        )?;
        Ok(Texts {
            offsets,
            known,
            hints,
        })
    }
}
