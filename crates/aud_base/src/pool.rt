//! Texts of which each is kept once.
ghost use Rattle.std.specs.Prelude.{◌≡◌, IfOk};

use crate::Text;
use crate::mixed::mixed_ending;
use std::alloc::{AllocError, Global};
use std::hash::{BuildHasher, Hasher, RandomState};
use std::mem::replace;

/// How many slots a pool begins with.
const LEAST: usize = 1_024;

/// The most slots of a pool; both are powers of two.
const MOST: usize = 1_048_576;

/// Texts that are to be shared, each in the slot that its last 16 bytes choose: what tells long texts apart mostly
/// stands there, since an event's text ends in its offset. Where two texts have one slot, the later is kept.
#[derive(Drop)]
pub struct TextPool {
    alloc: Global,
    /// What is mixed into the last bytes, so that nobody knows which texts have one slot.
    key: u64,
    /// A slot without a text has the empty one.
    slots: Vec<Text>,
    /// How many texts were kept.
    count: usize,
}

impl TextPool {
    /// A pool without texts, whose slots depend on these keys.
    pub fn new(alloc: Global, keys: RandomState) -> TextPool {
        TextPool {
            alloc,
            key: keys.build_hasher().finish(),
            slots: Vec::new(alloc),
            count: 0,
        }
    }

    /// The text. A short one is copied; any other is shared with the pool, which copies it where it has none that is the
    /// same.
    pub fn text(&mut self, text: &str) -> Result<Text, AllocError>
        ensures { IfOk result (λ same. same ≡ text.now) }
    {
        if let Some(short) = Text::short(text) {
            return Ok(short);
        }
        match self.slots.get(self.slot_of(text)) {
            Some(kept) if kept.as_str() == text => kept.share(),
            _ => self.keep(text),
        }
    }

    /// A copy of the text, which the pool shares from then on.
    fn keep(&mut self, text: &str) -> Result<Text, AllocError>
        ensures { IfOk result (λ kept. kept ≡ text.now) }
    {
        if self.slots.len() / 2 <= self.count && self.slots.len() < MOST {
            self.grow()?;
        }
        let own = Text::shared(self.alloc, text)?;
        self.put(own.share()?);
        self.count = self.count.saturating_add(1);
        Ok(own)
    }

    /// Puts the text into its slot.
    fn put(&mut self, text: Text) {
        let slot = self.slot_of(text.as_str());
        if let Some(kept) = self.slots.get_mut(slot) {
            *kept = text;
        }
    }

    /// Makes twice as many slots, and puts the texts into theirs.
    fn grow(&mut self) -> Result<(), AllocError> {
        let size = self.slots.len().saturating_mul(2).max(LEAST);
        let mut slots = Vec::with_capacity(self.alloc, size)?;
        for _ in 0..size {
            slots.push(Text::new(self.alloc, "")?)?;
        }
        for text in replace(&mut self.slots, slots) {
            if !text.as_str().is_empty() {
                self.put(text);
            }
        }
        Ok(())
    }

    /// The slot of the text.
    fn slot_of(&self, text: &str) -> usize {
        (mixed_ending(text, 0, self.key) >> 32) as usize & self.slots.len().wrapping_sub(1)
    }
}
