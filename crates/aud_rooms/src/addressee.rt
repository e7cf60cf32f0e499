//! Whom an entry of the stream is addressed to.
ghost use Rattle.std.specs.Prelude.{◌≡◌};
ghost use Rattle.std.specs.List.{list_any};
ghost use Rattle.std.specs.FinSet as set;
ghost use Rattle.aud_rooms.specs.Rooms.{is_addressed};

use crate::room_set::RoomSet;
use aud_tap::{Event, StreamRec, Text};

/// Whether an entry is addressed to a session of this namespace that holds these rooms: the namespace is the
/// entry's, its rooms are none or one of them is held, and none of its excepted rooms is held. An entry that is no
/// event is addressed to nobody. Whether it is recoverable is not asked.
pub fn addressed(entry: &StreamRec, nsp: &str, rooms: &RoomSet) -> bool
    ensures { result ≡ is_addressed entry.now nsp.now rooms.now }
{
    match entry {
        StreamRec::Ev(event) => is_event_for(event, nsp, rooms),
        StreamRec::Other { .. } => false,
    }
}

fn is_event_for(event: &Event, nsp: &str, held: &RoomSet) -> bool
    ensures { result ≡ is_addressed (StreamRec.Ev event.now) nsp.now held.now }
{
    if event.nsp.as_str() != nsp || holds_any(held, event.except.as_slice()) {
        return false;
    }
    let rooms = event.rooms.as_slice();
    rooms.is_empty() || holds_any(held, rooms)
}

fn holds_any(held: &RoomSet, rooms: &[Text]) -> bool
    ensures { result ≡ list_any (set.contains held.now) rooms.now }
{
    rooms.iter().any(|room| held.contains(room.as_str()))
}
