//! The rows that show a session's fault.
ghost use Rattle.std.specs.Prelude.{◌≡◌, IfOk, IfSome, MatchOption, None, is_some, map};
ghost use Rattle.aud_node.specs.Stream.{Text};
ghost use Rattle.aud_maker.specs.Made.{IsMade};
ghost use Rattle.aud_rows.specs.Seen.{row_seen};
ghost use Rattle.aud_rows.specs.ClientPlaces.{AreOf};
ghost use Rattle.aud_session_facts.specs.Account.{IsAccountOf, stays_of};
ghost use Rattle.aud_session_facts.specs.RowLists.{AreTrueRows};
ghost use Rattle.aud_session_facts.specs.SessionRows.{session_of};
ghost use Rattle.aud_findings.specs.Prepared.{IsPreparedOf};
ghost use Rattle.aud_findings.specs.Evidence.{IsEvidence, IsFaultShown, IsOfClient, ShowsTold, TellsNone};
ghost use Rattle.aud_findings.specs.ShowsFound.{IsFoundOtherwise, ShowsFound};
ghost use Rattle.aud_findings.specs.ShowsFrame.{ShowsFrame, bad_number};
ghost use Rattle.aud_findings.specs.Private.Known.{IsShownBy, finding_rows, found_rows};

use crate::beside::beside;
use crate::chain::chain_shown;
use crate::names::names_shown;
use crate::order::order_shown;
use crate::orphan::orphan_shown;
use crate::prepared::{Prepared, tap_at};
use crate::record_at::numbers_naming;
use crate::tail::tail_shown;
use crate::unplaced::{client_rows, no_log_rows};
use aud_cert::Fault;
use aud_check::Finding;
use aud_rows::{ClientPlaces, Role, Row, Sheet};
use aud_session_facts::{
    Account, ShownSession, altered_rows, difference_rows, push_row, push_rows, window_rows,
};
use aud_verdict::Verdict;
use std::alloc::{AllocError, Global};

/// The rows that show the fault, none where the verdict is yes, or nothing shows it.
pub(crate) fn evidence_of<'r, 'a>(
    alloc: Global,
    sheet: &Sheet<'r, 'a>,
    prepared: &Prepared,
    pid: &str,
    verdict: &Verdict,
    account: Option<&Account<'r, 'a>>,
) -> Result<Vec<Row<'r>>, AllocError>
    requires prepared { IsPreparedOf sheet.now.recording.now prepared.now }
    requires account { IfSome account (λ a. IsAccountOf sheet.now.recording.now pid.now a.now) }
    ensures shown { IfOk result (λ rows.
        IsEvidence sheet.now.recording.now sheet.now.lines.now pid.now
        (is_some account.entry) verdict.now (map row_seen rows.items)) }
    ensures truth { IfOk result (λ rows.
        AreTrueRows sheet.now.recording.now sheet.now.lines.now rows.items) }
{
    match verdict {
        Verdict::Yes { .. } => Ok(Vec::new(alloc)),
        Verdict::No(fault) => match fault_shown(alloc, sheet, prepared, pid, fault, account)? {
            Some(rows) => Ok(rows),
            None => Ok(Vec::new(alloc)),
        },
    }
}

/// Those of a fault.
fn fault_shown<'r, 'a>(
    alloc: Global,
    sheet: &Sheet<'r, 'a>,
    prepared: &Prepared,
    pid: &str,
    fault: &Fault,
    account: Option<&Account<'r, 'a>>,
) -> Result<Option<Vec<Row<'r>>>, AllocError>
    requires prepared { IsPreparedOf sheet.now.recording.now prepared.now }
    requires account { IfSome account (λ a. IsAccountOf sheet.now.recording.now pid.now a.now) }
    ensures shown { IfOk result (λ found.
        IsFaultShown sheet.now.recording.now sheet.now.lines.now pid.now
        (is_some account.entry) fault.now (found_rows found)) }
    ensures truth { IfOk result (λ found. IfSome found
        (λ rows. AreTrueRows sheet.now.recording.now sheet.now.lines.now rows.items)) }
{
    match fault {
        Fault::NoLog => Ok(Some(no_log_rows(alloc, sheet, prepared, pid)?)),
        Fault::Chain => chain_shown(alloc, sheet, pid),
        Fault::Order => order_shown(alloc, sheet, prepared, pid),
        Fault::Client => Ok(Some(client_rows(alloc, sheet, prepared, pid)?)),
        _ => known_shown(alloc, sheet, prepared, pid, fault, account),
    }
}

/// Those of a fault for which the account is needed, none without it. The tap of its client is read where it wasn't
/// prepared.
fn known_shown<'r, 'a>(
    alloc: Global,
    sheet: &Sheet<'r, 'a>,
    prepared: &Prepared,
    pid: &str,
    fault: &Fault,
    account: Option<&Account<'r, 'a>>,
) -> Result<Option<Vec<Row<'r>>>, AllocError>
    requires prepared { IsPreparedOf sheet.now.recording.now prepared.now }
    requires account { IfSome account (λ a. IsAccountOf sheet.now.recording.now pid.now a.now) }
    ensures shown { IfOk result (λ found.
        IsOfClient sheet.now.recording.now sheet.now.lines.now pid.now
        (is_some account.entry) fault.now (found_rows found)) }
    ensures truth { IfOk result (λ found. IfSome found
        (λ rows. AreTrueRows sheet.now.recording.now sheet.now.lines.now rows.items)) }
{
    let Some(account) = account else {
        return Ok(None);
    };
    let tap = tap_at(alloc, sheet.recording, prepared, account.client)?;
    told_shown(alloc, sheet, prepared, tap.places(), pid, fault, account)
}

/// Those of a fault of what the client's tap tells of the session, none where it tells of no such fault.
fn told_shown<'r, 'a>(
    alloc: Global,
    sheet: &Sheet<'r, 'a>,
    prepared: &Prepared,
    tap: &ClientPlaces,
    pid: &str,
    fault: &Fault,
    account: &Account<'r, 'a>,
) -> Result<Option<Vec<Row<'r>>>, AllocError>
    requires prepared { IsPreparedOf sheet.now.recording.now prepared.now }
    requires tap { AreOf sheet.now.recording.now tap.now }
    requires place { tap.now.place ≡ account.now.client }
    requires account { IsAccountOf sheet.now.recording.now pid.now account.now }
    ensures shown { IfOk result (λ found. MatchOption found
        (TellsNone sheet.now.recording.now pid.now tap.now.place (stays_of account.now)
        account.now.due.items fault.now)
        (λ rows. ShowsTold sheet.now.recording.now sheet.now.lines.now pid.now tap.now.place
        fault.now (map row_seen rows.items))) }
    ensures truth { IfOk result (λ found. IfSome found
        (λ rows. AreTrueRows sheet.now.recording.now sheet.now.lines.now rows.items)) }
{
    sheet.recording.named_once();
    let session = ShownSession {
        sheet: *sheet,
        turns: account.cert.turns.as_slice(),
        tap,
        numbers: numbers_naming(sheet.recording, account.client, pid),
    };
    match fault {
        Fault::Names => names_shown(alloc, sheet, tap, pid),
        Fault::Frame => frame_shown(alloc, sheet, tap),
        Fault::Orphan => orphan_shown(alloc, sheet, prepared, tap),
        Fault::Tail(_) => Ok(Some(tail_shown(alloc, &session, account)?)),
        _ => found_shown(alloc, &session, account, fault),
    }
}

/// The row of the tap's first record that is no packet, after that of the packet whose attachments it comes before; none
/// where each is one.
#[tactic(auto, using(crate::proofs::Told::bad_some, crate::proofs::Told::bad_none))]
fn frame_shown<'r>(
    alloc: Global,
    sheet: &Sheet<'r, '_>,
    tap: &ClientPlaces,
) -> Result<Option<Vec<Row<'r>>>, AllocError>
    requires { AreOf sheet.now.recording.now tap.now }
    ensures shown { IfOk result (λ found. MatchOption found
        (bad_number sheet.now.recording.now tap.now.place ≡ None)
        (λ rows. ShowsFrame sheet.now.recording.now sheet.now.lines.now tap.now.place
        (map row_seen rows.items))) }
    ensures truth { IfOk result (λ found. IfSome found
        (λ rows. AreTrueRows sheet.now.recording.now sheet.now.lines.now rows.items)) }
{
    let Some(client) = sheet.recording.client(tap.place) else {
        return Ok(None);
    };
    let Some(_) = client.transcript().bad else {
        return Ok(None);
    };
    let mut rows = Vec::new(alloc);
    push_row(&mut rows, sheet.lacking_row(alloc, tap, Role::Earlier)?)?;
    push_row(&mut rows, sheet.bad_row(tap, Role::Fault))?;
    Ok(Some(rows))
}

/// The rows that show what was found wrong first with what was received of the session, where the fault is such a one;
/// else none.
fn found_shown<'r>(
    alloc: Global,
    session: &ShownSession<'_, 'r, '_>,
    account: &Account<'_, '_>,
    fault: &Fault,
) -> Result<Option<Vec<Row<'r>>>, AllocError>
    requires tap { AreOf session.now.sheet.recording.now session.now.tap.now }
    requires made { IsMade session.now.sheet.recording.now account.now.cert.pid account.now.cert }
    ensures shown { (pid : Text)
        → IsShownBy session.now.sheet.recording.now pid account.now session.now
        → IfOk result (λ found. MatchOption found
        (IsFoundOtherwise session.now.sheet.recording.now account.now.client (stays_of account.now)
        account.now.due.items fault.now)
        (λ rows. ShowsFound session.now.sheet.recording.now session.now.sheet.lines.now pid
        fault.now (map row_seen rows.items))) }
    ensures truth { IfOk result (λ found. IfSome found
        (λ rows. AreTrueRows session.now.sheet.recording.now session.now.sheet.lines.now
        rows.items)) }
{
    match account.found_for(fault) {
        Some(found) => Ok(Some(finding_rows(alloc, session, account, found)?)),
        None => Ok(None),
    }
}

/// The rows of what was found, in front of those of a difference those that tell how it comes to be one; none of a record
/// that is no packet, and of an event of which nobody knows the session.
fn finding_rows<'r>(
    alloc: Global,
    session: &ShownSession<'_, 'r, '_>,
    account: &Account<'_, '_>,
    found: Finding,
) -> Result<Vec<Row<'r>>, AllocError>
    requires tap { AreOf session.now.sheet.recording.now session.now.tap.now }
    requires made { IsMade session.now.sheet.recording.now account.now.cert.pid account.now.cert }
    ensures rows { (made : IsMade session.now.sheet.recording.now account.now.cert.pid
        account.now.cert) → IfOk result (λ rows. map row_seen rows.items
        ≡ finding_rows (session_of session.now) account.now.cert made (stays_of account.now)
        found) }
    ensures truth { IfOk result (λ rows.
        AreTrueRows session.now.sheet.recording.now session.now.sheet.lines.now rows.items) }
{
    match found {
        Finding::Content(altered) => altered_rows(alloc, session, altered),
        Finding::Delivery(difference) => {
            let stays = account.stays.as_slice();
            let (first, second) = beside(&session.sheet, &account.cert, stays, difference);
            let shown = difference_rows(alloc, session, difference)?;
            let mut rows = Vec::new(alloc);
            push_row(&mut rows, first)?;
            push_row(&mut rows, second)?;
            push_rows(&mut rows, &shown)?;
            Ok(rows)
        }
        Finding::Window(window) => window_rows(alloc, session, window),
        Finding::Frame | Finding::Orphan => Ok(Vec::new(alloc)),
    }
}
