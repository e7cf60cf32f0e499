//! Which records have the forms and limits of a bundle.
ghost use Rattle.std.specs.Prelude.{◌≡◌, nat_le};
ghost use Rattle.aud_tap.specs.Limits.{max_turn};
ghost use Rattle.aud_tap.specs.WellFormed.{is_offset, is_room, is_full_namespace, event_is_well_formed, stream_is_well_formed, node_is_well_formed, is_well_formed};

use aud_tap::limits::{MAX_ATTACHMENTS, MAX_NAMESPACE, MAX_OFFSET, MAX_ROOM, fit_rooms, fits};
use aud_tap::{Event, NodeRec, Rec, StreamRec, is_id, is_namespace, is_session_id};

/// The greatest number of a turn.
const MAX_TURN: u16 = 65_535;

fn is_offset(text: &str) -> bool
    ensures { result ≡ is_offset text.now }
{
    is_id(text) && fits(MAX_OFFSET, text)
}

fn is_full_namespace(text: &str) -> bool
    ensures { result ≡ is_full_namespace text.now }
{
    is_namespace(text) && fits(MAX_NAMESPACE, text)
}

fn is_room(text: &str) -> bool
    ensures { result ≡ is_room text.now }
{
    fits(MAX_ROOM, text)
}

fn is_turn(turn: u16) -> bool
    ensures { result ≡ nat_le turn max_turn }
{
    turn <= MAX_TURN
}

fn event_is_well_formed(event: &Event) -> bool
    ensures { result ≡ event_is_well_formed event.now }
{
    is_offset(event.off.as_str())
        && is_full_namespace(event.nsp.as_str())
        && fit_rooms(event.rooms.as_slice())
        && fit_rooms(event.except.as_slice())
        && event.bin.as_slice().len() <= MAX_ATTACHMENTS
}

fn stream_is_well_formed(rec: &StreamRec) -> bool
    ensures { result ≡ stream_is_well_formed rec.now }
{
    match rec {
        StreamRec::Ev(event) => event_is_well_formed(event),
        StreamRec::Other { off } => is_offset(off.as_str()),
    }
}

fn node_is_well_formed(rec: &NodeRec) -> bool
    ensures { result ≡ node_is_well_formed rec.now }
{
    match rec {
        NodeRec::Start { off: None } => true,
        NodeRec::Start { off: Some(off) } => is_offset(off.as_str()),
        NodeRec::Take { off } => is_offset(off.as_str()),
        NodeRec::Takes { off } => is_offset(off.as_str()),
        NodeRec::Opened { pid, sid, nsp } => {
            is_session_id(pid.as_str())
                && is_session_id(sid.as_str())
                && is_full_namespace(nsp.as_str())
        }
        NodeRec::Join { pid, room } => is_session_id(pid.as_str()) && is_room(room.as_str()),
        NodeRec::Leave { pid, room } => is_session_id(pid.as_str()) && is_room(room.as_str()),
        NodeRec::Broke { pid, turn } => is_session_id(pid.as_str()) && is_turn(*turn),
        NodeRec::Back { pid, turn } => is_session_id(pid.as_str()) && is_turn(*turn),
        NodeRec::Gone { pid } => is_session_id(pid.as_str()),
    }
}

/// Whether the record's fields have a bundle's forms and limits, as `write_line` asks for.
pub fn is_well_formed(rec: &Rec) -> bool
    ensures { result ≡ is_well_formed rec.now }
{
    match rec {
        Rec::Header { .. } => true,
        Rec::Stream(rec) => stream_is_well_formed(rec),
        Rec::Node(rec) => node_is_well_formed(rec),
        Rec::Client(_) => true,
    }
}
