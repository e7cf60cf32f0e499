//! An index from a text to the places where it stands.
ghost use Rattle.std.specs.Prelude.{◌≡◌, ◌-◌, List, ℕ, OnOk, None, Some, [], ◌<◌, length, slice_get};
ghost use Rattle.std.specs.HashMap.{get_by_text};
ghost use Rattle.std.specs.Str.{bytes_eq};
ghost use Rattle.aud_base.specs.FirstTexts.{with_text};
ghost use Rattle.aud_base.specs.Places.{is_place, noted, places_of, texts_of, with_place};

use indexmap::IndexMap;
use smallvec::SmallVec;
use std::alloc::{AllocError, Global};
use std::hash::RandomState;

/// Of each text, the places where it stands; the texts in the order in which they were first noted.
///
/// Places are noted one after another. A text of which the places before `n` are those that pass a test, and for
/// which `n` is noted where it passes, has the places before `n + 1` that pass, ascending and each once: the lemma
/// `noted-next` of proofs/NotedPlaces.antt.
#[derive(Drop)]
pub struct Places {
    alloc: Global,
    by_text: IndexMap<String, Few, RandomState>,
}

/// Places of one text. Most texts stand at one or two, which need no block of their own.
type Few = SmallVec<usize, 2>;

impl Places {
    /// No text stands anywhere. Texts are hashed with these keys.
    pub fn new(alloc: Global, keys: RandomState) -> Places
        ensures places { (text : List ℕ) → places_of result text ≡ [] }
        ensures texts { texts_of result ≡ [] }
    {
        Places {
            alloc,
            by_text: IndexMap::with_hasher(alloc, keys),
        }
    }

    /// How many texts were noted.
    pub fn len(&self) -> usize
        ensures { result ≡ length (texts_of self.now) }
    {
        self.by_text.len()
    }

    /// The text with this number, borrowed. Texts count from 0 in the order in which they were first noted.
    pub fn text(&self, number: usize) -> &str
        requires { number < length (texts_of self.now) }
        ensures { slice_get (texts_of self.now) number ≡ Some result.now }
    {
        match self.by_text.get_index(number) {
            Some((text, _)) => text.as_str(),
            None => unreachable!(),
        }
    }

    /// The places of the text, borrowed, in the order in which they were noted.
    pub fn of(&self, text: &str) -> &[usize]
        ensures { result.now ≡ places_of self.now text.now }
    {
        match self.by_text.get(text) {
            Some(places) => places.as_slice(),
            None => &[],
        }
    }

    /// The text stands at this place, the last so far; it is noted once, however often it stands there. The text is
    /// copied where it stood nowhere before.
    pub fn note(&mut self, place: usize, text: &str) -> Result<(), AllocError>
        ensures places { OnOk result ((other : List ℕ)
            → places_of self.new other
            ≡ noted place (bytes_eq text.now other) (places_of self.old other)) }
        ensures texts { OnOk result (texts_of self.new ≡ with_text (texts_of self.old) text.now) }
    {
        match self.by_text.get_mut(text) {
            Some(places) => push_last(places, place)?,
            None => self.keep(place, text)?,
        }
        Ok(())
    }

    /// Notes the place under a copy of the text, which stood nowhere before.
    fn keep(&mut self, place: usize, text: &str) -> Result<(), AllocError>
        requires { get_by_text self.old.by_text text.now ≡ None }
        ensures places { OnOk result ((other : List ℕ)
            → places_of self.new other
            ≡ noted place (bytes_eq text.now other) (places_of self.old other)) }
        ensures texts { OnOk result (texts_of self.new ≡ with_text (texts_of self.old) text.now) }
    {
        let own = String::from_str(self.alloc, text)?;
        let mut first = SmallVec::new(self.alloc);
        first.push(place)?;
        self.by_text.insert(own, first)?;
        Ok(())
    }
}

/// Puts the place after the others, unless it is the last of them already.
fn push_last(places: &mut Few, place: usize) -> Result<(), AllocError>
    ensures { OnOk result (places.new.items ≡ with_place place places.old.items) }
{
    if is_last(places, place) {
        return Ok(());
    }
    places.push(place)?;
    Ok(())
}

/// Whether the place is the last of these.
fn is_last(places: &[usize], place: usize) -> bool
    ensures { result ≡ is_place place (slice_get places.now (length places.now - 1)) }
{
    match places.last() {
        Some(last) => *last == place,
        None => false,
    }
}
