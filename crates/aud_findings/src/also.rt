//! The other entries that have the same fault, with the lines that show it.
ghost use Rattle.std.specs.Prelude.{◌≡◌, IfOk, IfSome, MatchOption, filter, is_some, map, nat_eq, not};
ghost use Rattle.aud_session_facts.specs.Account.{IsAccountOf, IsFound, stays_of};
ghost use Rattle.aud_rows.specs.ClientPlaces.{AreOf};
ghost use Rattle.aud_findings.specs.Prepared.{IsPreparedOf};
ghost use Rattle.aud_findings.specs.Also.{AreAllOf, AreAlso, AreOthers, AreParted, HasNoOthers, IsAlsoShown, IsNotParted, altered_positions, is_another, lines_for, no_others, others_seen};

use crate::lines::told;
use crate::others::{ascending, others};
use crate::outcome::OthersShown;
use crate::prepared::{Prepared, tap_at};
use crate::record_at::numbers_naming;
use crate::tail::tail_in;
use aud_cert::Fault;
use aud_check::{Difference, frames_in};
use aud_client::{Frame, Recording, is_entry};
use aud_node::Stream;
use aud_rows::{ClientPlaces, Sheet};
use aud_session_facts::{Account, positions_received};
use aud_verdict::Verdict;
use std::alloc::{AllocError, Global};

/// By which lines it is shown that an entry has a fault.
#[derive(Clone, Copy, Drop)]
pub(crate) enum LinesOf {
    /// By that of the entry, which never came.
    Entry,
    /// By those of all its frames.
    Frames,
    /// By that of the entry, and those of its frames that aren't it.
    Altered,
}

/// Other entries with a fault: their positions, ascending, and by which lines they are shown.
#[derive(Drop)]
struct Others {
    by: LinesOf,
    positions: Vec<u64>,
}

/// The other entries that have the fault, where the verdict is that what was received parts from what was due, or ends
/// before it, or that a frame isn't its entry, and there is an account; else none. They are at most a hundred ranges of
/// positions, ascending, and a count of the entries past these. The tap of the client is read where it wasn't prepared.
/// Each of the ranges costs what was received.
pub(crate) fn also_found<'r, 'a>(
    alloc: Global,
    sheet: &Sheet<'r, 'a>,
    prepared: &Prepared,
    pid: &str,
    verdict: &Verdict,
    account: Option<&Account<'r, 'a>>,
) -> Result<OthersShown, AllocError>
    requires prepared { IsPreparedOf sheet.now.recording.now prepared.now }
    requires account { IfSome account (λ a. IsAccountOf sheet.now.recording.now pid.now a.now) }
    ensures { IfOk result (λ also. IsAlsoShown sheet.now.recording.now sheet.now.lines.now pid.now
        (is_some account.entry) verdict.now (others_seen also)) }
{
    let Some(account) = account else {
        return Ok(no_others(alloc));
    };
    let Verdict::No(fault) = verdict else {
        return Ok(no_others(alloc));
    };
    let tap = tap_at(alloc, sheet.recording, prepared, account.client)?;
    also_by(alloc, sheet, tap.places(), pid, fault, account)
}

/// None.
fn no_others(alloc: Global) -> OthersShown
    ensures { others_seen result ≡ no_others }
{
    OthersShown {
        ranges: Vec::new(alloc),
        left: 0,
    }
}

/// Those that have this fault, by the account and the client's tap.
fn also_by<'r, 'a>(
    alloc: Global,
    sheet: &Sheet<'r, 'a>,
    tap: &ClientPlaces,
    pid: &str,
    fault: &Fault,
    account: &Account<'r, 'a>,
) -> Result<OthersShown, AllocError>
    requires tap { AreOf sheet.now.recording.now tap.now }
    requires place { tap.now.place ≡ account.now.client }
    requires account { IsAccountOf sheet.now.recording.now pid.now account.now }
    ensures { IfOk result (λ also. AreAlso sheet.now.recording.now sheet.now.lines.now pid.now
        fault.now (others_seen also)) }
{
    let found = others_with(alloc, sheet.recording, fault, account)?;
    let Some(others) = found else {
        return Ok(no_others(alloc));
    };
    let numbers = numbers_naming(sheet.recording, account.client, pid);
    let came = frames_in(alloc, account.stays.as_slice())?;
    let frames = came.as_slice();
    let positions = others.positions.as_slice();
    told(alloc, sheet, tap, numbers, frames, others.by, positions)
}

/// The others that have this fault, by the account of the session; none where none are told of.
fn others_with(
    alloc: Global,
    recording: &Recording<'_>,
    fault: &Fault,
    account: &Account<'_, '_>,
) -> Result<Option<Others>, AllocError>
    requires { IsFound recording.now account.now.client (stays_of account.now)
        account.now.due.items account.now.found }
    ensures { IfOk result (λ found. MatchOption found
        (HasNoOthers recording.now account.now.client (stays_of account.now)
        account.now.due.items fault.now)
        (λ others. AreOthers recording.now.stream (stays_of account.now) account.now.due.items
        fault.now others.by others.positions.items)) }
{
    let stays = account.stays.as_slice();
    match fault {
        Fault::Extra(_) | Fault::Doubled(_) | Fault::Swapped(_) | Fault::Lost(_) => {
            parted_others(alloc, recording, account)
        }
        Fault::Content(_) => {
            let frames = frames_in(alloc, stays)?;
            let stream = recording.logs().stream();
            let altered = altered_positions(alloc, stream, frames.as_slice())?;
            let by = LinesOf::Altered;
            let positions = past_first(alloc, altered.as_slice())?;
            Ok(Some(Others { by, positions }))
        }
        Fault::Tail(_) => {
            let received = positions_received(alloc, stays)?;
            let tail = tail_in(alloc, received.as_slice(), account.due.as_slice())?;
            let by = LinesOf::Entry;
            let positions = past_first(alloc, tail.as_slice())?;
            Ok(Some(Others { by, positions }))
        }
        _ => Ok(None),
    }
}

/// Those with the fault of the difference between what was received and what was due; none where that isn't what is wrong
/// first.
fn parted_others(
    alloc: Global,
    recording: &Recording<'_>,
    account: &Account<'_, '_>,
) -> Result<Option<Others>, AllocError>
    requires { IsFound recording.now account.now.client (stays_of account.now)
        account.now.due.items account.now.found }
    ensures { IfOk result (λ found. MatchOption found
        (IsNotParted recording.now account.now.client (stays_of account.now)
        account.now.due.items)
        (λ others. AreParted (stays_of account.now) account.now.due.items others.by
        others.positions.items)) }
{
    let Some(difference) = account.difference() else {
        return Ok(None);
    };
    let received = positions_received(alloc, account.stays.as_slice())?;
    let keys = recording.logs().keys();
    let due = account.due.as_slice();
    let by = lines_for(difference);
    let positions = others(alloc, keys, received.as_slice(), due, difference)?;
    Ok(Some(Others { by, positions }))
}

/// By which lines others with the fault of the difference are shown: as they never came, or as they came.
fn lines_for(difference: Difference) -> LinesOf
    ensures { result ≡ lines_for difference }
{
    match difference {
        Difference::Lost { .. } => LinesOf::Entry,
        _ => LinesOf::Frames,
    }
}

/// The positions of the frames that aren't the entry there, in the order in which they came.
fn altered_positions(
    alloc: Global,
    stream: &Stream<'_>,
    frames: &[&Frame<'_>],
) -> Result<Vec<u64>, AllocError>
    ensures { IfOk result (λ found. found.items
        ≡ altered_positions stream.now (map (λ frame. frame.now) frames.now)) }
{
    let mut found = Vec::new(alloc);
    for frame in frames {
        if !is_entry(stream, *frame) {
            found.push(frame.position)?;
        }
    }
    Ok(found)
}

/// Those of the positions that are others than the first one in this list: ascending, each once.
fn past_first(alloc: Global, positions: &[u64]) -> Result<Vec<u64>, AllocError>
    ensures { IfOk result (λ found. AreAllOf (is_another positions.now) found.items) }
{
    let Some((first, later)) = positions.split_first() else {
        return Ok(Vec::new(alloc));
    };
    let found = others_than(alloc, *first, later)?;
    Ok(ascending(found))
}

/// Those of the positions that aren't this one.
fn others_than(alloc: Global, first: u64, positions: &[u64]) -> Result<Vec<u64>, AllocError>
    ensures { IfOk result (λ found. found.items
        ≡ filter (λ p. not (nat_eq p first)) positions.now) }
{
    positions
        .iter()
        .copied()
        .filter(|position| *position != first)
        .collect(alloc)
}
