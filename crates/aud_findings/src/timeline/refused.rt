//! Recoveries of a session that were refused.
ghost use Rattle.std.specs.Prelude.{◌≡◌, IfOk, IfSome, MatchOption, None, map};
ghost use Rattle.std.specs.Option.{option_copied, option_map};
ghost use Rattle.aud_rows.specs.ClientPlaces.{AreOf};
ghost use Rattle.aud_rows.specs.StayRows.{ask_row};
ghost use Rattle.aud_rows.specs.TrueRow.{IsTrueRow};
ghost use Rattle.aud_rows.specs.declared.row.Role.TheVariants as role;
ghost use Rattle.aud_findings.specs.Refused.{IsMissedOf, ShowsRefused, asked_in, got_in, missed_entries, missed_seen, refused_seen};

use crate::record_at::stay_at;
use aud_client::Stay;
use aud_explanation::Missed;
use aud_node::Stream;
use aud_rows::{ClientPlaces, Role, Row, Sheet};
use aud_session_facts::{Recovery, missed};
use std::alloc::{AllocError, Global};

/// A recovery that was refused: what the client asked, what it was answered, and what it missed.
#[derive(Drop)]
pub struct RefusedShown<'r> {
    /// The record in which it asks.
    pub ask: Row<'r>,
    /// The record in which it is answered; none where the connection ended before, or the record's line isn't known.
    pub reply: Option<Row<'r>>,
    /// The session that it got instead; none where it got none.
    pub instead: Option<&'r str>,
    /// What it missed of the session that it asked for, in the order of the stream; none where that is not known.
    pub missed: Option<Vec<Missed<'r>>>,
}

/// The refused recovery of the stay that `recovery` names, in the client's tap that `tap` is of; none where the record
/// in which the client asks has no row.
pub fn refused_shown<'r>(
    alloc: Global,
    sheet: &Sheet<'r, '_>,
    tap: &ClientPlaces,
    recovery: &Recovery,
) -> Result<Option<RefusedShown<'r>>, AllocError>
    requires { AreOf sheet.now.recording.now tap.now }
    ensures shown { IfOk result (λ found. MatchOption found
        (ask_row sheet.now.recording.now sheet.now.lines.now tap.now.place recovery.now.stay
        role.Ask ≡ None)
        (λ shown. ShowsRefused sheet.now.recording.now sheet.now.lines.now tap.now.place
        recovery.now.stay (refused_seen shown))) }
    ensures ask { IfOk result (λ found. IfSome found
        (λ shown. IsTrueRow sheet.now.recording.now sheet.now.lines.now shown.ask)) }
    ensures reply { IfOk result (λ found. IfSome found (λ shown. IfSome shown.reply
        (IsTrueRow sheet.now.recording.now sheet.now.lines.now))) }
{
    let Some(ask) = sheet.ask_row(tap, recovery.stay, Role::Ask) else {
        return Ok(None);
    };
    let reply = sheet.reply_row(tap, recovery.stay, Role::Reply);
    let stay = stay_at(sheet.recording, tap.place, recovery.stay);
    let instead = got_in(stay);
    let missed = missed_of(alloc, sheet, tap.place, asked_in(stay), instead)?;
    Ok(Some(RefusedShown {
        ask,
        reply,
        instead,
        missed,
    }))
}

/// The session that the stay's client asked for.
fn asked_in<'r>(stay: Option<&'r Stay<'_>>) -> Option<&'r str>
    ensures { option_map (λ pid. pid.now) result ≡ asked_in (option_copied stay.entry) }
{
    let asked = stay?.asked.as_ref()?;
    Some(asked.pid.as_str())
}

/// The session that the stay's reply names.
fn got_in<'r>(stay: Option<&'r Stay<'_>>) -> Option<&'r str>
    ensures { option_map (λ pid. pid.now) result ≡ got_in (option_copied stay.entry) }
{
    let reply = stay?.reply.as_ref()?;
    let pid = reply.pid.as_ref()?;
    Some(pid.as_str())
}

/// What the client at this place missed of the session that it asked for, where it got another one.
fn missed_of<'r>(
    alloc: Global,
    sheet: &Sheet<'r, '_>,
    client: usize,
    asked: Option<&str>,
    got: Option<&str>,
) -> Result<Option<Vec<Missed<'r>>>, AllocError>
    ensures { IfOk result (λ missed. IsMissedOf sheet.now.recording.now client
        (option_map (λ pid. pid.now) asked.entry) (option_map (λ pid. pid.now) got.entry)
        (option_map (λ missed. map missed_seen missed.items) missed)) }
{
    let (Some(asked), Some(got)) = (asked, got) else {
        return Ok(None);
    };
    match missed(alloc, sheet.recording, client, asked, got)? {
        Some(positions) => {
            let stream = sheet.recording.logs().stream();
            let entries = missed_entries(alloc, stream, positions.as_slice())?;
            Ok(Some(entries))
        }
        None => Ok(None),
    }
}

/// The entries at the positions.
fn missed_entries<'r>(
    alloc: Global,
    stream: &Stream<'r>,
    positions: &[u64],
) -> Result<Vec<Missed<'r>>, AllocError>
    ensures { IfOk result (λ entries. map missed_seen entries.items
        ≡ missed_entries stream.now positions.now) }
{
    let mut entries = Vec::new(alloc);
    for position in positions {
        if let Some(entry) = stream.entry(*position) {
            entries.push(Missed {
                position: *position,
                off: entry.offset().as_str(),
            })?;
        }
    }
    Ok(entries)
}
