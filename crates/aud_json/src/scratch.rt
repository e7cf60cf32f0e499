//! The memory that reading needs.

use std::alloc::{AllocError, Global};

/// How much room the fast way has for texts without their escapes. A longer text that has some is read by the other.
const MAX_ROOM: usize = 1 << 14;

/// Room for texts without their escapes and for places in a text, kept from one read to the next.
#[derive(Drop)]
pub struct Scratch {
    room: Vec<u8>,
    general: json::Scratch,
}

impl Scratch {
    /// With no room yet.
    pub fn new(alloc: Global) -> Scratch {
        Scratch {
            room: Vec::new(alloc),
            general: json::Scratch::new(alloc),
        }
    }

    /// The room for the fast way over a text of so many bytes, and what the general way needs.
    #[inline(always)]
    pub(crate) fn lend(
        &mut self,
        len: usize,
    ) -> Result<(&mut [u8], &mut json::Scratch), AllocError> {
        if self.room.len() < len && len <= MAX_ROOM {
            self.room.resize(len, 0)?;
        }
        Ok((self.room.as_mut_slice(), &mut self.general))
    }

    /// What the general way needs.
    #[inline(always)]
    pub(crate) fn general(&mut self) -> &mut json::Scratch {
        &mut self.general
    }
}
