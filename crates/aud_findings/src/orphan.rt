//! What shows that a client's tap has an event of which nobody knows the session.
ghost use Rattle.std.specs.Prelude.{◌≡◌, IfOk, IfSome, MatchOption, None, map, position};
ghost use Rattle.aud_node.specs.Lists.{first_index};
ghost use Rattle.aud_client.specs.Received.{is_orphan};
ghost use Rattle.aud_rows.specs.Seen.{row_seen};
ghost use Rattle.aud_rows.specs.ClientPlaces.{AreOf};
ghost use Rattle.aud_rows.specs.StayRows.{stays_at};
ghost use Rattle.aud_session_facts.specs.RowLists.{AreTrueRows};
ghost use Rattle.aud_findings.specs.Prepared.{IsPreparedOf};
ghost use Rattle.aud_findings.specs.ShowsOrphan.{ShowsOrphan};

use crate::prepared::{Prepared, PreparedTap};
use aud_client::{Recording, Stay};
use aud_rows::{ClientPlaces, Role, Row, Sheet};
use aud_session_facts::push_row;
use std::alloc::{AllocError, Global};

/// The rows of the tap's first stay that has events and whose reply, if there is one, names nobody: what it asked, its
/// reply, its first event, and the end of its connection; none where there is no such stay. The stays of a tap that
/// wasn't prepared are gone through.
pub fn orphan_shown<'r>(
    alloc: Global,
    sheet: &Sheet<'r, '_>,
    prepared: &Prepared,
    tap: &ClientPlaces,
) -> Result<Option<Vec<Row<'r>>>, AllocError>
    requires prepared { IsPreparedOf sheet.now.recording.now prepared.now }
    requires tap { AreOf sheet.now.recording.now tap.now }
    ensures shown { IfOk result (λ found. MatchOption found
        (first_index is_orphan (stays_at sheet.now.recording.now tap.now.place) ≡ None)
        (λ rows. ShowsOrphan sheet.now.recording.now sheet.now.lines.now tap.now.place
        (map row_seen rows.items))) }
    ensures truth { IfOk result (λ found. IfSome found
        (λ rows. AreTrueRows sheet.now.recording.now sheet.now.lines.now rows.items)) }
{
    match orphan_in(sheet.recording, prepared, tap.place) {
        Some(stay) => {
            let mut rows = Vec::new(alloc);
            push_row(&mut rows, sheet.ask_row(tap, stay, Role::Ask))?;
            push_row(&mut rows, sheet.reply_row(tap, stay, Role::Reply))?;
            push_row(&mut rows, sheet.frame_row(tap, stay, 0, Role::Fault))?;
            push_row(&mut rows, sheet.lost_row(tap, stay, Role::Later))?;
            Ok(Some(rows))
        }
        None => Ok(None),
    }
}

/// The number, in the client's tap at this place, of its first stay that has events and whose reply, if there is one,
/// names nobody; none where there is no such stay. Stays count from 0. The stays of a tap that wasn't prepared are gone
/// through.
pub fn orphan_in(recording: &Recording<'_>, prepared: &Prepared, place: usize) -> Option<usize>
    requires { IsPreparedOf recording.now prepared.now }
    ensures { result ≡ first_index is_orphan (stays_at recording.now place) }
{
    match prepared.taps.get(place) {
        Some(PreparedTap::Client { orphan, .. }) => *orphan,
        _ => orphan_at(recording, place),
    }
}

/// The same, found in its stays.
#[tactic(auto, using(crate::proofs::Told::told_some, crate::proofs::Told::told_none, crate::proofs::Numbers::first_position))]
pub(crate) fn orphan_at(recording: &Recording<'_>, place: usize) -> Option<usize>
    ensures { result ≡ first_index is_orphan (stays_at recording.now place) }
{
    match recording.client(place) {
        Some(client) => first_orphan(&client.transcript().stays),
        None => None,
    }
}

/// The number of the first stay that has frames, and a reply that names nobody or none; stays count from 0.
fn first_orphan(stays: &[Stay<'_>]) -> Option<usize>
    ensures { result ≡ position is_orphan stays.now }
{
    stays.iter().position(|stay| is_orphan(stay))
}

/// Whether the stay has frames, and its reply, if there is one, names nobody.
fn is_orphan(stay: &Stay<'_>) -> bool
    ensures { result ≡ is_orphan stay.now }
{
    if stay.frames.is_empty() {
        return false;
    }
    match stay.reply.as_ref() {
        Some(reply) => reply.pid.is_none(),
        None => true,
    }
}
