//! All that is told of a session.
ghost use Rattle.std.specs.Prelude.{◌≡◌, IfOk, IfSome};
ghost use Rattle.std.specs.Option.{option_copied};
ghost use Rattle.aud_client.specs.Replies.{naming_places};
ghost use Rattle.aud_findings.specs.ClientShown.{only_of};
ghost use Rattle.aud_rows.specs.ClientPlaces.{AreOf};
ghost use Rattle.aud_findings.specs.Prepared.{IsPreparedOf};
ghost use Rattle.aud_explain_app.specs.Events.{place_of};
ghost use Rattle.aud_explain_app.specs.Explained.{IsExplained};

use crate::events::{events_of, only_client};
use crate::noted::noted_of;
use crate::refused_told::{RefusedTold, all_refused};
use crate::turns::turns_of;
use aud_causes::{CauseFound, causes_of};
use aud_explanation::{ClientEvent, TurnShown};
use aud_findings::{Outcome, Prepared, outcome_of};
use aud_rows::{ClientPlaces, Sheet};
use aud_session_facts::{Recovery, account_of};
use aud_verdict::Verdict;
use std::alloc::{AllocError, Global};

/// All that is told of a session beside its verdict. Rows and names are borrowed from the sheet alone.
#[derive(Drop)]
pub struct Explained<'r> {
    /// The rows that show the fault, the client, what was received of what was due, and other entries with the same
    /// fault.
    pub outcome: Outcome<'r>,
    /// The turns, from turn 0 on.
    pub turns: Vec<TurnShown<'r>>,
    /// The recoveries of the session that were refused.
    pub refused: Vec<RefusedTold<'r>>,
    /// What happened to its client, in the order of the tap; nothing where it has not just one.
    pub events: Vec<ClientEvent>,
    /// What the fault may come from.
    pub causes: Vec<CauseFound>,
}

/// All that is told of the session with this pid, on which this is the verdict, and for which these recoveries were
/// asked. What was prepared is of the same recording; a tap that wasn't asked for there is read here.
///
/// Beside such taps it costs the session's own records and stays, and what was due to it.
pub fn explained_of<'r, 'a>(
    alloc: Global,
    sheet: Sheet<'r, 'a>,
    prepared: &Prepared,
    pid: &str,
    verdict: &Verdict,
    asked: &[Recovery],
) -> Result<Explained<'r>, AllocError>
    requires { IsPreparedOf sheet.recording.now prepared.now }
    ensures { IfOk result (IsExplained sheet.entry.recording.now sheet.entry.lines.now pid.now
        verdict.now asked.now) }
{
    let Some(place) = only_client(sheet.recording, pid) else {
        return explained_by(alloc, sheet, prepared, None, pid, verdict, asked);
    };
    match prepared.tap(place) {
        Some(tap) => explained_by(alloc, sheet, prepared, Some(tap), pid, verdict, asked),
        None => {
            let tap = ClientPlaces::read(alloc, sheet.recording.logs(), place)?;
            explained_by(alloc, sheet, prepared, Some(&tap), pid, verdict, asked)
        }
    }
}

/// The same by the tap of its client, if it has just one.
fn explained_by<'r, 'a>(
    alloc: Global,
    sheet: Sheet<'r, 'a>,
    prepared: &Prepared,
    tap: Option<&ClientPlaces>,
    pid: &str,
    verdict: &Verdict,
    asked: &[Recovery],
) -> Result<Explained<'r>, AllocError>
    requires prepared { IsPreparedOf sheet.recording.now prepared.now }
    requires tap { IfSome (option_copied tap) (AreOf sheet.recording.now) }
    requires client { place_of (option_copied tap)
        ≡ only_of (naming_places sheet.recording.now.taps pid.now) }
    ensures { IfOk result (IsExplained sheet.entry.recording.now sheet.entry.lines.now pid.now
        verdict.now asked.now) }
{
    let events = events_of(alloc, &sheet, tap, pid, asked)?;
    let account = account_of(alloc, sheet.recording, pid)?;
    let account = account.as_ref();
    let turns = turns_of(alloc, &sheet, pid, account)?;
    let causes = {
        let noted = noted_of(alloc, sheet.recording, prepared, pid, verdict, account)?;
        causes_of(alloc, sheet, tap, pid, verdict, account, &noted)?
    };
    let refused = all_refused(alloc, &sheet, prepared, asked)?;
    let outcome = outcome_of(alloc, sheet, prepared, pid, verdict, account)?;
    Ok(Explained {
        outcome,
        turns,
        refused,
        events,
        causes,
    })
}
