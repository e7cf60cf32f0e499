//! What was due to a session by its turns.
ghost use Rattle.std.specs.Prelude.{◌≡◌, IfOk};
ghost use Rattle.aud_maker.specs.Made.{IsMade};
ghost use Rattle.aud_verdict.specs.Session.{due_to};
ghost use Rattle.aud_session_facts.specs.Private.Sessions.{session_made};

use crate::opened::{greatest_high, opened_in};
use aud_cert::Certificate;
use aud_client::Recording;
use aud_rooms::{due_by_spans_of_turns, due_of};
use std::alloc::{AllocError, Global};

/// The positions, ascending, that were due to the session for which the certificate was made.
pub(crate) fn due_by_turns(
    alloc: Global,
    recording: &Recording<'_>,
    cert: &Certificate<'_>,
) -> Result<Vec<u64>, AllocError>
    requires { IsMade recording.now cert.now.pid cert.now }
    ensures { IfOk result (λ due. (made : IsMade recording.now cert.now.pid cert.now)
        → due.items ≡ due_to recording.now (session_made recording.now cert.now made)) }
{
    due_by_spans_of_turns();
    let turns = cert.turns.as_slice();
    let Some(opened) = opened_in(turns) else {
        unreachable!()
    };
    let stream = recording.logs().stream();
    let high = greatest_high(turns);
    let due = due_of(
        alloc,
        cert.spans.as_slice(),
        stream,
        opened.nsp,
        opened.low,
        high,
    )?;
    due.into_owned(alloc)
}
