//! What is due by the turns of a certificate.
ghost use Rattle.std.specs.Prelude.{◌≡◌, IfOk};
ghost use Rattle.std.specs.Cow.{cow_slice_items};
ghost use Rattle.aud_rooms.specs.Spans.{AreSpansOfTurns};
ghost use Rattle.aud_rooms.specs.TurnsDue.{turns_due};
ghost use Rattle.aud_check.specs.Shown.{slices_at};
ghost use Rattle.aud_check.specs.Private.ShownBounds.{greatest_shown_high, first_shown_low};
ghost use Rattle.aud_check.specs.TurnRefusals.{AreTurnsAccepted};

use crate::session::ShownSession;
use aud_cert::Turn;
use aud_node::Logs;
use aud_rooms::{Span, due_by_spans_of_turns, due_of};
use std::alloc::{AllocError, Global};
use std::borrow::CowSlice;

/// What is due to the session by the turns, which were accepted, and whose spans these are.
pub(crate) fn shown_due<'l>(
    alloc: Global,
    logs: &'l Logs<'_>,
    session: &ShownSession<'_, '_>,
    turns: &[Turn<'_>],
    spans: &[Span<'_>],
) -> Result<CowSlice<'l, u64, Global>, AllocError>
    requires accepted { AreTurnsAccepted logs.now session.now.pid turns.now }
    requires spans { AreSpansOfTurns logs.now.stream session.now
        (slices_at logs.now turns.now) spans.now }
    ensures { IfOk result (λ due. cow_slice_items due
        ≡ turns_due logs.now.stream session.now (slices_at logs.now turns.now)) }
{
    due_by_spans_of_turns();
    let birth = first_shown_low(turns);
    let high = greatest_shown_high(turns);
    due_of(alloc, spans, logs.stream(), session.nsp, birth, high)
}

/// The position that the first turn starts from.
fn first_shown_low(turns: &[Turn<'_>]) -> u64
    ensures { result ≡ first_shown_low turns.now }
{
    match turns.first() {
        Some(turn) => turn.low,
        None => 0,
    }
}

/// The greatest position that the turns reach.
fn greatest_shown_high(turns: &[Turn<'_>]) -> u64
    ensures { result ≡ greatest_shown_high turns.now }
{
    let mut high = 0;
    for turn in turns {
        high = turn.high.max(high);
    }
    high
}
