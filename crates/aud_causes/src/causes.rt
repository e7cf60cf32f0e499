//! The causes that a session's fault may have.
ghost use Rattle.std.specs.Prelude.{◌≡◌, All, IfOk, IfSome};
ghost use Rattle.std.specs.Option.{option_copied};
ghost use Rattle.aud_maker.specs.Made.{IsMade};
ghost use Rattle.aud_rows.specs.ClientPlaces.{AreOf};
ghost use Rattle.aud_explanation.specs.CauseState.{is_certain};
ghost use Rattle.aud_causes.specs.Causes.{AreCauses, AreNumbersAt, has_others, is_sure};
ghost use Rattle.aud_causes.specs.Records.{place_of};
ghost use Rattle.aud_causes.specs.Differences.{case_of};
ghost use Rattle.aud_causes.specs.Judged.{judged_causes};

use crate::cause::Cause;
use crate::contents::content_causes;
use crate::delivery::{difference_causes, window_causes};
use crate::found::{CauseFound, shown_causes};
use crate::list::held;
use crate::names::names_causes;
use crate::orphans::orphan_at;
use crate::recorded::recorded_causes;
use crate::why::no_packet_in;
use aud_cert::Fault;
use aud_check::Finding;
use aud_client::Recording;
use aud_rows::{ClientPlaces, Sheet};
use aud_session_facts::{Account, RecordPlace};
use aud_verdict::Verdict;
use std::alloc::{AllocError, Global};

/// What was noted of the taps, once for all sessions.
#[derive(Drop)]
pub struct Noted {
    /// Of a session whose verdict is `ORDER`: of each node that it was on and that is out of order the first record that
    /// is, in the order of the taps.
    pub unordered: Vec<RecordPlace>,
    /// Of one whose verdict is `ORPHAN`: the number, in its client's tap, of the first stay with events whose reply
    /// names nobody.
    pub orphan: Option<usize>,
}

/// What the fault of the session with this pid may come from: of the causes that such a fault can have those that hold,
/// in a fixed order. One is certain exactly where it is the only one, and the fault can have others. `tap` is that of the
/// session's client, if one alone names it; the account is the session's, if it has one.
///
/// It costs the session's own records and stays, and what was due to it.
pub fn causes_of<'r, 'a>(
    alloc: Global,
    sheet: Sheet<'r, 'a>,
    tap: Option<&ClientPlaces>,
    pid: &str,
    verdict: &Verdict,
    account: Option<&Account<'r, 'a>>,
    noted: &Noted,
) -> Result<Vec<CauseFound>, AllocError>
    requires tap { IfSome (option_copied tap) (AreOf sheet.recording.now) }
    requires account { IfSome (option_copied account)
        (λ a. IsMade sheet.recording.now pid.now a.cert) }
    ensures causes { IfOk result (λ causes.
        AreCauses sheet.entry.recording.now sheet.entry.lines.now
        (place_of (option_copied tap.entry)) pid.now noted.now
        (option_copied account.entry) verdict.now causes.items) }
    ensures sure { IfOk result (λ causes. All
        (λ cause. is_certain cause.state ≡ is_sure verdict.now causes.items) causes.items) }
{
    let Verdict::No(fault) = verdict else {
        return Ok(Vec::new(alloc));
    };
    let recording = sheet.recording;
    let client = place_of(tap);
    let numbers = numbers_at(recording, client, pid);
    let found = match account {
        Some(account) => { judged_causes(alloc, recording, account, numbers, fault, noted.orphan)? }
        None => recorded_causes(alloc, recording, client, pid, fault, &noted.unordered)?,
    };
    shown_causes(
        alloc,
        &sheet,
        tap,
        numbers,
        has_others(fault),
        found.as_slice(),
    )
}

/// Whether several causes of such a fault are known.
fn has_others(fault: &Fault) -> bool
    ensures { result ≡ has_others fault.now }
{
    !matches!(fault, Fault::NoLog | Fault::Frame)
}

/// The place of the tap, if there is one.
pub(crate) fn place_of(tap: Option<&ClientPlaces>) -> Option<usize>
    ensures { result ≡ place_of (option_copied tap.entry) }
{
    Some(tap?.place)
}

/// The numbers of the stays whose reply names the session, of the client's tap at this place.
fn numbers_at<'r>(recording: &'r Recording<'_>, client: Option<usize>, pid: &str) -> &'r [usize]
    ensures { AreNumbersAt recording.now client pid.now result.now }
{
    let Some(client) = client else {
        return &[];
    };
    match recording.client(client) {
        Some(transcript) => transcript.numbers_naming(pid),
        None => &[],
    }
}

/// The causes of such a fault. These are the numbers of the session's stays in its client's tap; where that has events
/// of which nobody knows the session, they stand in the stay with this number.
pub(crate) fn judged_causes(
    alloc: Global,
    recording: &Recording<'_>,
    account: &Account<'_, '_>,
    numbers: &[usize],
    fault: &Fault,
    orphan: Option<usize>,
) -> Result<Vec<Cause>, AllocError>
    requires { IsMade recording.now account.now.cert.pid account.now.cert }
    ensures { IfOk result (λ found.
        (made : IsMade recording.now account.now.cert.pid account.now.cert)
        → found.items ≡ judged_causes (case_of recording.now account.now numbers.now made)
        account.now.client orphan fault.now account.now.found) }
{
    match fault {
        Fault::Names => names_causes(alloc, &account.cert.turns, &account.stays),
        Fault::Frame => {
            let why = no_packet_in(alloc, recording, account.client)?;
            held(alloc, &[Some(Cause::NotAPacket(why))])
        }
        Fault::Orphan => orphan_at(alloc, recording, account.client, orphan),
        _ => match account.found_for(fault) {
            Some(Finding::Content(altered)) => {
                content_causes(alloc, recording, account.client, numbers, altered)
            }
            Some(Finding::Delivery(difference)) => {
                difference_causes(alloc, recording, account, numbers, difference)
            }
            Some(Finding::Window(window)) => {
                let logs = recording.logs();
                window_causes(alloc, logs, &account.stays, &account.due, window)
            }
            _ => Ok(Vec::new(alloc)),
        },
    }
}
