//! The spans of a certificate against its turns.
ghost use Rattle.std.specs.Prelude.{◌≡◌, ◌↔◌, IfOk, IsTrue};
ghost use Rattle.std.specs.List.{All};
ghost use Rattle.aud_rooms.specs.Spans.{AreSpansOfTurns};
ghost use Rattle.aud_cert.specs.Certificate.{IsTurnOver};
ghost use Rattle.aud_check.specs.Shown.{slices_at};
ghost use Rattle.aud_check.specs.TurnRefusals.{AreTurnsAccepted};

use crate::place::places_of;
use crate::session::ShownSession;
use aud_cert::Turn;
use aud_node::Logs;
use aud_rooms::{Span, spans_are_unique, spans_of_turns};
use std::alloc::{AllocError, Global};

/// Whether the spans are those of the session's turns, which were accepted.
pub(crate) fn are_spans<'a>(
    alloc: Global,
    logs: &Logs<'a>,
    session: &ShownSession<'_, 'a>,
    turns: &[Turn<'_>],
    spans: &[Span<'_>],
) -> Result<bool, AllocError>
    requires over { All (IsTurnOver logs.now) turns.now }
    requires accepted { AreTurnsAccepted logs.now session.now.pid turns.now }
    ensures { IfOk result (λ answer. IsTrue answer ↔ AreSpansOfTurns logs.now.stream session.now
        (slices_at logs.now turns.now) spans.now) }
{
    spans_are_unique();
    let places = places_of(alloc, logs, turns)?;
    let built = spans_of_turns(alloc, logs, session.pid, session.sid, places.as_slice())?;
    Ok(are_same(built.as_slice(), spans))
}

/// Whether the spans are the same.
pub(crate) fn are_same(one: &[Span<'_>], other: &[Span<'_>]) -> bool
    ensures { IsTrue result ↔ (one.now ≡ other.now) }
{
    if one.len() != other.len() {
        return false;
    }
    for (i, span) in one.iter().enumerate() {
        if !is_same(span, &other[i]) {
            return false;
        }
    }
    true
}

/// Whether the spans are of the same room, and have the same positions.
fn is_same(one: &Span<'_>, other: &Span<'_>) -> bool
    ensures { IsTrue result ↔ (one.now ≡ other.now) }
{
    if one.first != other.first || one.last != other.last {
        return false;
    }
    one.room.as_str() == other.room.as_str()
}
