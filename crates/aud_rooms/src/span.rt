//! Spans of positions.
use std::borrow::CowStr;
use std::marker::Model;

/// A room, and the first and the last of the positions of the stream at which a session holds it; positions count
/// from 1. The room is borrowed, or owned where it was read from a certificate's text.
#[derive(Drop)]
pub struct Span<'a> {
    pub room: CowStr<'a>,
    pub first: u64,
    pub last: u64,
}

impl<'a> Model for Span<'a> {
    ghost use Rattle.aud_rooms.specs.Spans.{RoomSpan};

    ghost Value = { RoomSpan };

    ghost use Rattle.std.specs.Cow.{cow_str_bytes};

    ghost view = { λ a. record { room = cow_str_bytes a.room; first = a.first; last = a.last } };
}
