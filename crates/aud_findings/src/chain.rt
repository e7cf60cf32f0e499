//! What shows that a session's records are no chain of turns.
ghost use Rattle.std.specs.Prelude.{◌≡◌, IfOk, IfSome, MatchOption, map};
ghost use Rattle.std.specs.List.{list_any};
ghost use Rattle.aud_session_facts.specs.Misfit.{HasChain};
ghost use Rattle.aud_rows.specs.Seen.{row_seen};
ghost use Rattle.aud_session_facts.specs.RowLists.{AreTrueRows};
ghost use Rattle.aud_findings.specs.ChainRecords.{chain_records, earlier_at, fault_at, is_at, is_fault_at, mark_role, other_at, role_in};
ghost use Rattle.aud_findings.specs.ShowsChain.{ShowsChain};

use aud_rows::{Role, Row, Sheet};
use aud_session_facts::{
    Mark, Misfit, NodeRecord, RecordPlace, TurnMark, first_misfit, node_rows, turn_marks,
};
use std::alloc::{AllocError, Global};

/// The rows of all records of the session that begin or end a turn, and among them, or else after them, the record that
/// does not fit; none where they are a chain of turns.
pub fn chain_shown<'r>(
    alloc: Global,
    sheet: &Sheet<'r, '_>,
    pid: &str,
) -> Result<Option<Vec<Row<'r>>>, AllocError>
    ensures shown { IfOk result (λ found. MatchOption found
        (HasChain sheet.now.recording.now pid.now)
        (λ rows. ShowsChain sheet.now.recording.now sheet.now.lines.now pid.now
        (map row_seen rows.items))) }
    ensures truth { IfOk result (λ found. IfSome found
        (λ rows. AreTrueRows sheet.now.recording.now sheet.now.lines.now rows.items)) }
{
    let logs = sheet.recording.logs();
    let Some(misfit) = first_misfit(alloc, logs, pid)? else {
        return Ok(None);
    };
    let marks = turn_marks(alloc, logs, pid)?;
    let records = chain_records(alloc, misfit, &marks)?;
    Ok(Some(node_rows(alloc, sheet, &records)?))
}

/// The records of these marks, and the one that does not fit, where it is none of them.
pub(crate) fn chain_records(
    alloc: Global,
    misfit: Misfit,
    marks: &[TurnMark],
) -> Result<Vec<NodeRecord>, AllocError>
    ensures { IfOk result (λ records. records.items ≡ chain_records misfit marks.now) }
{
    let mut records = Vec::new(alloc);
    for mark in marks {
        records.push(NodeRecord {
            place: mark.place,
            role: role_in(misfit, *mark),
        })?;
    }
    if let Some(place) = other_at(misfit, marks) {
        records.push(NodeRecord {
            place,
            role: Role::Fault,
        })?;
    }
    Ok(records)
}

/// The record that does not fit, where it is none of these.
fn other_at(misfit: Misfit, marks: &[TurnMark]) -> Option<RecordPlace>
    ensures { result ≡ other_at misfit marks.now }
{
    if has_fault(misfit, marks) {
        return None;
    }
    places_of(misfit).0
}

/// Whether one of these is the record that does not fit.
fn has_fault(misfit: Misfit, marks: &[TurnMark]) -> bool
    ensures { result ≡ list_any (is_fault_at misfit) marks.now }
{
    marks
        .iter()
        .any(|mark| is_at(places_of(misfit).0, mark.place))
}

/// What the record is shown for.
fn role_in(misfit: Misfit, mark: TurnMark) -> Role
    ensures { result ≡ role_in misfit mark }
{
    let (fault, earlier) = places_of(misfit);
    if is_at(fault, mark.place) {
        return Role::Fault;
    }
    if is_at(earlier, mark.place) {
        return Role::Earlier;
    }
    mark_role(mark.mark)
}

/// Whether there is a record, and it stands there.
fn is_at(found: Option<RecordPlace>, place: RecordPlace) -> bool
    ensures { result ≡ is_at found place }
{
    match found {
        Some(found) => found.node == place.node && found.number == place.number,
        None => false,
    }
}

/// What a record that begins or ends a turn is shown for, where it fits.
fn mark_role(mark: Mark) -> Role
    ensures { result ≡ mark_role mark }
{
    match mark {
        Mark::Open | Mark::Back { .. } => Role::Back,
        Mark::Break { .. } | Mark::Gone => Role::Break,
    }
}

/// The record that is at fault, and the one that it contradicts.
fn places_of(misfit: Misfit) -> (Option<RecordPlace>, Option<RecordPlace>)
    ensures fault { result.0 ≡ fault_at misfit }
    ensures earlier { result.1 ≡ earlier_at misfit }
{
    match misfit {
        Misfit::NeverOpened => (None, None),
        Misfit::BegunTwice { first, again, .. } => (Some(again), Some(first)),
        Misfit::MissingTurn { back, .. } => (Some(back), None),
        Misfit::BeforeTurns { place } => (Some(place), None),
        Misfit::AfterTurn { end, place } => (Some(place), Some(end)),
        Misfit::InsideTurn { begin, place } => (Some(place), Some(begin)),
        Misfit::MissingBreak { begin, back, .. } => (Some(back), Some(begin)),
        Misfit::StrayBreak { begin, back, .. } => (Some(back), Some(begin)),
        Misfit::OtherBreak { begin, broke, .. } => (Some(broke), Some(begin)),
        Misfit::BackAfterGone { gone, back } => (Some(back), Some(gone)),
    }
}
