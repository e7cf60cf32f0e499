//! What a client missed where its recovery was refused.
ghost use Rattle.std.specs.Prelude.{IfOk, MatchOption, None};
ghost use Rattle.aud_maker.specs.Made.{IsMade};
ghost use Rattle.aud_session_facts.specs.Missed.{IsMissed, IsMissedFrom, IsUntold};

use crate::came::not_come;
use crate::held::spans_held;
use crate::last::last_received;
use crate::opened::opened_in;
use crate::opening::opening_cursor;
use aud_cert::Certificate;
use aud_client::Recording;
use aud_maker::{MakeFault, made_is_over, make};
use aud_rooms::due_of;
use std::alloc::{AllocError, Global};

/// The positions, ascending, of what the client at this place missed where it asked for one session and was given
/// another: the recoverable entries after the last event that it received of the first, up to the cursor of the node
/// on which the second opened, that are addressed to the rooms that the first held at its break, and came to it in no
/// session. Where it received none of the first, those after that session's birth.
///
/// None where the logs don't tell: where the first session has one of the faults `NoLog`, `Chain`, `Order` and
/// `Client`, or no node opened the second. It costs the first session's own records, what is addressed to its rooms, and
/// all that came to the client.
pub fn missed(
    alloc: Global,
    recording: &Recording<'_>,
    client: usize,
    asked: &str,
    got: &str,
) -> Result<Option<Vec<u64>>, AllocError>
    ensures { IfOk result (λ missed. MatchOption missed (IsUntold recording.now asked.now got.now)
        (λ missed. IsMissed recording.now client asked.now got.now missed.items)) }
{
    let Some(cursor) = opening_cursor(recording.logs(), got) else {
        return Ok(None);
    };
    let cert = match make(alloc, recording, asked) {
        Ok(cert) => cert,
        Err(MakeFault::Fault(_)) => return Ok(None),
        Err(MakeFault::Memory) => return Err(AllocError),
    };
    let last = last_received(alloc, recording, client, asked)?;
    let of_session = missed_from(alloc, recording, &cert, last, cursor)?;
    let missed = not_come(alloc, recording, client, &of_session)?;
    Ok(Some(missed))
}

/// What was missed of the session for which the certificate was made, after this position, or else after its birth, up
/// to the cursor.
fn missed_from(
    alloc: Global,
    recording: &Recording<'_>,
    cert: &Certificate<'_>,
    last: Option<u64>,
    cursor: u64,
) -> Result<Vec<u64>, AllocError>
    requires { IsMade recording.now cert.now.pid cert.now }
    ensures { IfOk result (λ missed.
        IsMissedFrom recording.now cert.now.pid last cursor missed.items) }
{
    made_is_over();
    recording.named_once();
    let logs = recording.logs();
    let turns = cert.turns.as_slice();
    let Some(opened) = opened_in(turns) else {
        unreachable!()
    };
    let pid = cert.pid.as_str();
    let after = last.unwrap_or(opened.low);
    let spans = spans_held(alloc, logs, pid, opened.sid, turns, after, cursor)?;
    let due = due_of(alloc, &spans, logs.stream(), opened.nsp, after, cursor)?;
    due.into_owned(alloc)
}
