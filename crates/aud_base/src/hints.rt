//! Guesses at where things stand.

use std::alloc::{AllocError, Global};
use std::mem::replace;

/// How many slots there are at first, a power of two.
const LEAST: usize = 64;

/// How many slots a number is looked for in, from its own on.
const PROBES: usize = 8;

/// Where things may stand, by numbers that are mixed from their bytes, as [`mixed_ending`](crate::mixed_ending) and
/// [`mixed_name`](crate::mixed_name) give them. It promises nothing: whoever asks compares what stands there. So it takes
/// one look into a small table, where an index takes several into more memory.
#[derive(Drop)]
pub struct Hints {
    alloc: Global,
    /// Each slot is 0, or has the upper half of a number, and in its lower half the place, from 1 on. Their number is a
    /// power of two, and at least twice that of the places.
    slots: Vec<u64>,
    /// How many places were noted.
    count: usize,
}

impl Hints {
    /// Those of nothing. Room is made as places are noted.
    pub fn new(alloc: Global) -> Hints {
        Hints {
            alloc,
            slots: Vec::new(alloc),
            count: 0,
        }
    }

    /// Those of nothing, with room for so many places.
    pub fn with_room(alloc: Global, places: usize) -> Result<Hints, AllocError> {
        let least = places.saturating_mul(2).max(LEAST);
        let Some(size) = least.checked_next_power_of_two() else {
            return Err(AllocError);
        };
        Ok(Hints {
            alloc,
            slots: Vec::from_elem(alloc, 0, size)?,
            count: 0,
        })
    }

    /// What has this number stands at this place, which counts from 0. Of two places that have one number the later that
    /// is noted is kept; one may be left out.
    pub fn note(&mut self, mixed: u64, place: usize) -> Result<(), AllocError> {
        if self.slots.len() / 2 <= self.count {
            self.grow()?;
        }
        self.count = self.count.saturating_add(1);
        if let Ok(noted) = u32::try_from(place.saturating_add(1)) {
            self.put(mixed >> 32 << 32 | u64::from(noted));
        }
        Ok(())
    }

    /// A place at which what has this number may stand; any place, or none, where it was not noted.
    pub fn get(&self, mixed: u64) -> Option<usize> {
        let tag = mixed >> 32;
        for probe in 0..PROBES {
            let kept = *self.slots.get(slot_of(tag, probe, self.slots.len()))?;
            if kept == 0 {
                return None;
            }
            if kept >> 32 == tag {
                return ((kept & 0xffff_ffff) as usize).checked_sub(1);
            }
        }
        None
    }

    /// Puts the hint into the first slot that is free or has one of its number. It is left out where there is none.
    fn put(&mut self, hint: u64) {
        let tag = hint >> 32;
        for probe in 0..PROBES {
            let slot = slot_of(tag, probe, self.slots.len());
            if let Some(kept) = self.slots.get_mut(slot) {
                if *kept == 0 || *kept >> 32 == tag {
                    *kept = hint;
                    return;
                }
            }
        }
    }

    /// Makes twice as many slots, and puts the hints into theirs.
    fn grow(&mut self) -> Result<(), AllocError> {
        let size = self.slots.len().saturating_mul(2).max(LEAST);
        let slots = Vec::from_elem(self.alloc, 0, size)?;
        for hint in replace(&mut self.slots, slots) {
            if hint > 0 {
                self.put(hint);
            }
        }
        Ok(())
    }
}

/// The slot in which the upper half of a number is looked for at this try.
fn slot_of(tag: u64, probe: usize, slots: usize) -> usize {
    (tag as usize).wrapping_add(probe) & slots.wrapping_sub(1)
}
