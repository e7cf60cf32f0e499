//! The calls on the rooms of a session.
use crate::counted::{begin, end};
use crate::given::{Given, memory_if};
use aud_rooms::{RoomSet, SpanBuilder};
use std::alloc::{AllocError, Global};
use std::mem::ManuallyDrop;

/// A call on a session's rooms.
pub enum OnRooms {
    Join,
    SpansJoin,
    SpansUpto,
    SpansFinish,
}

static ROOMS: [&str; 16] = [
    "a", "b", "c", "d", "e", "f", "g", "h", "i", "j", "k", "l", "m", "n", "o", "p",
];

/// Makes the call.
pub fn given(alloc: Global, call: &OnRooms) -> Given {
    match call {
        OnRooms::Join => join(alloc),
        _ => spans(alloc, call),
    }
}

/// Joins the rooms in turn, up to the first for which there is no memory: how many are joined.
fn join_all(set: &mut RoomSet<'static>) -> usize {
    for (joined, room) in ROOMS.iter().enumerate() {
        if set.join(room).is_err() {
            return joined;
        }
    }
    ROOMS.len()
}

/// Whether these are the rooms held, up to so many.
fn holds_first(set: &RoomSet<'_>, count: usize) -> bool {
    for (place, room) in ROOMS.iter().enumerate() {
        if set.contains(room) != (place < count) {
            return false;
        }
    }
    true
}

/// Joins all rooms. Where one is refused, the rooms are as they were, and the same join then succeeds.
fn join(alloc: Global) -> Given {
    let mut set = ManuallyDrop::new(RoomSet::new(alloc));
    begin(alloc);
    let joined = join_all(&mut set);
    end(alloc);
    let Some(room) = ROOMS.get(joined) else {
        return Given::Answer("rooms", joined);
    };
    let is_well = holds_first(&set, joined)
        && set.join(room).is_ok()
        && holds_first(&set, joined + 1);
    memory_if(is_well, "the rooms are others")
}

/// Each second position a room more is held.
fn join_spans(builder: &mut SpanBuilder<'static>) -> Result<(), AllocError> {
    for (place, room) in ROOMS.iter().enumerate() {
        builder.upto(2 * place as u64)?;
        builder.join(room)?;
    }
    Ok(())
}

/// Builds spans, of which one call is counted. After a refusal the builder goes on to give its memory fault.
fn spans(alloc: Global, call: &OnRooms) -> Given {
    let Ok(mut builder) = SpanBuilder::new(alloc, "s", 0) else {
        return Given::Wrong("there is no builder");
    };
    if matches!(call, OnRooms::SpansJoin) {
        begin(alloc);
    }
    let joined = join_spans(&mut builder);
    end(alloc);
    let is_out = joined.is_err() && builder.join("r").is_err();
    if matches!(call, OnRooms::SpansUpto) {
        begin(alloc);
    }
    let covered = builder.upto(99);
    end(alloc);
    if matches!(call, OnRooms::SpansFinish) {
        begin(alloc);
    }
    let finished = ManuallyDrop::new(builder.finish());
    end(alloc);
    match (call, joined, covered, &*finished) {
        (OnRooms::SpansJoin, Ok(()), _, _) => Given::Answer("rooms", ROOMS.len()),
        (OnRooms::SpansJoin, Err(_), Err(_), Err(_)) => memory_if(is_out, "the builder goes on"),
        (OnRooms::SpansUpto, Ok(()), Ok(()), _) => Given::Answer("positions", 99),
        (OnRooms::SpansFinish, Ok(()), Ok(()), Ok(spans)) => Given::Answer("spans", spans.len()),
        (OnRooms::SpansFinish, Ok(()), Ok(()), Err(_)) => Given::Memory,
        _ => Given::Wrong("it goes on, or is refused what takes no memory"),
    }
}
