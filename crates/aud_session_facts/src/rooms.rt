//! The rooms that a session held where it first reached a position.
ghost use Rattle.std.specs.Prelude.{◌≡◌, ◌<◌, ◌≤◌, IfOk, Some, map};
ghost use Rattle.std.specs.FinSet as set;
ghost use Rattle.std.specs.List.{filter, list_any};
ghost use Rattle.aud_node.specs.Cluster.{Cluster};
ghost use Rattle.aud_rooms.specs.Spans.{RoomSpan, first_low, is_within, rooms_by_spans};
ghost use Rattle.aud_rooms.specs.Turns.{slice_of};
ghost use Rattle.aud_rooms.specs.TurnsDue.{greatest_high};
ghost use Rattle.aud_merge.specs.ByTurns.{rooms_of_turns};
ghost use Rattle.aud_maker.specs.Made.{IsMade};
ghost use Rattle.aud_session_facts.specs.Private.Holding.{holds_room};

use aud_cert::Certificate;
use aud_rooms::Span;
use std::alloc::{AllocError, Global};

/// The rooms that the session of the certificate held at the record by which it first reached the position, which
/// counts from 1, by the bytes of their names; borrowed from the certificate. None at a position that isn't after the
/// session's birth, or that it reached in no turn. It costs the certificate's spans.
pub fn rooms_held<'c>(
    alloc: Global,
    cert: &'c Certificate<'_>,
    position: u64,
) -> Result<Vec<&'c str>, AllocError>
    // One for each span that holds the position, in the order of the spans.
    ensures spans { IfOk result (λ rooms. map (λ room. room.now) rooms.items
        ≡ map (λ (s : RoomSpan). s.room) (filter (is_within position) cert.now.spans)) }

    // They are those that the turns give the position.
    ensures held { IfOk result (λ rooms. (c : Cluster) (made : IsMade c cert.now.pid cert.now)
        → first_low (map (slice_of c) made.turns) < position
        → position ≤ greatest_high (map (slice_of c) made.turns)
        → rooms_of_turns c made.who made.turns position
        ≡ Some (set.from_list (map (λ room. room.now) rooms.items))) }
{
    let mut rooms = Vec::new(alloc);
    for span in cert.spans.as_slice() {
        if holds(span, position) {
            rooms.push(span.room.as_str())?;
        }
    }
    Ok(rooms)
}

/// Whether the room is one of those whose spans hold the position.
#[tactic(auto, using(crate::proofs::RoomsHeld::room_there))]
pub(crate) fn is_held(spans: &[Span<'_>], position: u64, room: &str) -> bool
    ensures { result ≡ set.contains (rooms_by_spans spans.now position) room.now }
{
    any_holds(spans, position, room)
}

/// Whether one of the spans is of the room, and holds the position.
fn any_holds(spans: &[Span<'_>], position: u64, room: &str) -> bool
    ensures { result ≡ list_any (holds_room position room.now) spans.now }
{
    for span in spans {
        if holds_room(span, position, room) {
            return true;
        }
    }
    false
}

/// Whether the span is of the room, and holds the position.
fn holds_room(span: &Span<'_>, position: u64, room: &str) -> bool
    ensures { result ≡ holds_room position room.now span.now }
{
    holds(span, position) && room == span.room.as_str()
}

/// Whether the span holds the position.
fn holds(span: &Span<'_>, position: u64) -> bool
    ensures { result ≡ is_within position span.now }
{
    span.first <= position && position <= span.last
}
