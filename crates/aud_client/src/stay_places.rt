//! The records of a stay.
ghost use Rattle.std.specs.Prelude.{◌≡◌, IfOk, OnOk, Some, if◌then◌else◌, is_some};
ghost use Rattle.std.specs.Option.{option_or};
ghost use Rattle.aud_client.specs.Private.Kept.{no_places, with_part};

use crate::part::Part;
use std::alloc::{AllocError, Global};
use std::marker::Model;

/// The records of a client's tap at which the packets of one stay stand; records count from 0, the header not counted.
/// A packet stands at the record with which it is whole: one with attachments at that of the last of them. Each number
/// takes 4 bytes.
#[derive(Drop)]
pub struct StayPlaces {
    /// Of the first packet that belongs to the stay.
    pub first: u32,
    /// Of the last packet that belongs to the stay.
    pub last: u32,
    /// Of the CONNECT that asked for a recovery: of the last one before the reply, if several did.
    pub ask: Option<u32>,
    /// Of the server's answer to the CONNECT.
    pub reply: Option<u32>,
    /// Of each frame, in the order of the frames.
    pub frames: Vec<u32>,
}

impl Model for StayPlaces {
    ghost use Rattle.aud_client.specs.StayPlaces.{PlacesSeen};

    ghost Value = { PlacesSeen };

    ghost view = { λ p. record { first = p.first; last = p.last; ask = p.ask; reply = p.reply; frames = p.frames.items } };
}

impl StayPlaces {
    /// Those of a stay before its first packet, which is whole at the record with this number.
    pub(crate) fn new(alloc: Global, first: u32) -> StayPlaces
        ensures { result ≡ no_places first }
    {
        StayPlaces {
            first,
            last: first,
            ask: None,
            reply: None,
            frames: Vec::new(alloc),
        }
    }

    /// One packet more, whole at the record with this number, which is this to the stay.
    pub(crate) fn add(&mut self, number: u32, part: Part) -> Result<(), AllocError>
        ensures { OnOk result (self.new ≡ with_part self.old number part) }
    {
        self.last = number;
        match part {
            Part::Ask => self.note_ask(number),
            Part::Reply => self.note_reply(number),
            Part::Frame => self.frames.push(number)?,
            Part::Other => {}
        }
        Ok(())
    }

    /// An ask, which counts before the reply.
    fn note_ask(&mut self, number: u32)
        ensures { self.new ≡ record self.old {
          ask = if is_some self.old.reply then self.old.ask
              else Some number;
        } }
    {
        if self.reply.is_none() {
            self.ask = Some(number);
        }
    }

    /// A reply, of which the first counts.
    fn note_reply(&mut self, number: u32)
        ensures { self.new ≡ record self.old { reply = option_or self.old.reply (Some number) } }
    {
        if self.reply.is_none() {
            self.reply = Some(number);
        }
    }
}

/// The number in 4 bytes. The records before one that has no such number take more than 100 GB, so where there is one,
/// memory counts as run out.
pub(crate) fn in_four_bytes(number: usize) -> Result<u32, AllocError>
    ensures { IfOk result (λ short. short ≡ number) }
{
    if number > u32::MAX as usize {
        return Err(AllocError);
    }
    Ok(number as u32)
}
