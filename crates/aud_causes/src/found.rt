//! Causes that were found, as they are told, and how each stands among those that hold.
ghost use Rattle.std.specs.Prelude.{◌≡◌, IfOk, IfSome, map};
ghost use Rattle.std.specs.Option.{option_copied};
ghost use Rattle.aud_rows.specs.ClientPlaces.{AreOf};
ghost use Rattle.aud_causes.specs.Found.{cause_seen, shown_cause, shown_causes};
ghost use Rattle.aud_causes.specs.Records.{place_of};
ghost use Rattle.aud_causes.specs.State.{has_one_other, is_apart, state_among};

use crate::cause::Cause;
use crate::causes::place_of;
use crate::lines::lines_at;
use crate::shown::shown_of;
use crate::texts::push_texts;
use crate::why::filled;
use crate::words::words_of;
use aud_explanation::CauseState;
use aud_rows::{ClientPlaces, Sheet};
use std::alloc::{AllocError, Global};

/// What a fault may come from, as it is told.
#[derive(Drop)]
pub struct CauseFound {
    /// The name of the cause, for scripts: lower-case words joined by `-`.
    pub id: &'static str,
    /// How it stands beside the others that hold, and those that were ruled out.
    pub state: CauseState,
    /// The lines of the records that show it.
    pub lines: Vec<u64>,
    /// What happened, in a sentence.
    pub why: String,
    /// What to do.
    pub todo: &'static str,
}

/// The causes, as they are told: all that hold, where there are others that were ruled out if there is one, or not.
pub(crate) fn shown_causes(
    alloc: Global,
    sheet: &Sheet<'_, '_>,
    tap: Option<&ClientPlaces>,
    numbers: &[usize],
    others: bool,
    found: &[Cause],
) -> Result<Vec<CauseFound>, AllocError>
    requires { IfSome (option_copied tap) (AreOf sheet.now.recording.now) }
    ensures { IfOk result (λ causes. map cause_seen causes.items
        ≡ shown_causes sheet.now.recording.now sheet.now.lines.now
        (place_of (option_copied tap.entry)) numbers.now others found.now) }
{
    let mut causes = Vec::new(alloc);
    let one = has_one_other(found);
    for cause in found {
        let state = state_among(others, found.len(), one, *cause);
        causes.push(shown_cause(alloc, sheet, tap, numbers, state, *cause)?)?;
    }
    Ok(causes)
}

/// The cause, as it is told: what happened, and both texts where they part.
fn shown_cause(
    alloc: Global,
    sheet: &Sheet<'_, '_>,
    tap: Option<&ClientPlaces>,
    numbers: &[usize],
    state: CauseState,
    cause: Cause,
) -> Result<CauseFound, AllocError>
    requires { IfSome (option_copied tap) (AreOf sheet.now.recording.now) }
    ensures { IfOk result (λ shown. cause_seen shown
        ≡ shown_cause sheet.now.recording.now sheet.now.lines.now
        (place_of (option_copied tap.entry)) numbers.now state cause) }
{
    let words = words_of(cause);
    let shown = shown_of(cause);
    let lines = lines_at(alloc, sheet, tap, numbers, &shown.records)?;
    let recording = sheet.recording;
    let mut why = filled(alloc, recording.logs(), words.why, &shown.figures)?;
    push_texts(&mut why, recording, place_of(tap), numbers, cause)?;
    Ok(CauseFound {
        id: words.id,
        state,
        lines,
        why,
        todo: words.todo,
    })
}

/// Whether no other cause of its fault speaks of what it speaks of: of a name, of its own node's log, of the break of its
/// own turn, of what a log has after a break.
fn is_apart(cause: Cause) -> bool
    ensures { result ≡ is_apart cause }
{
    matches!(
        cause,
        Cause::SidDiffers(_)
            | Cause::NamespaceDiffers(_)
            | Cause::NoStart(_)
            | Cause::RestartedInOldLog(_)
            | Cause::EntriesSkippedByNode { .. }
            | Cause::EntryTakenAgain { .. }
            | Cause::NotInStream(_)
            | Cause::MissingBreak { .. }
            | Cause::ClearedAfterBreak { .. }
    )
}

/// Whether only one of these causes is not so.
pub(crate) fn has_one_other(found: &[Cause]) -> bool
    ensures { result ≡ has_one_other found.now }
{
    found.iter().filter(|cause| !is_apart(**cause)).count() == 1
}

/// How the cause stands among those that hold, of which there are so many, and of which only one is not apart, or not,
/// where there are others that were ruled out, or not.
pub(crate) fn state_among(others: bool, count: usize, one: bool, cause: Cause) -> CauseState
    ensures { result ≡ state_among others count one cause }
{
    if count == 1 {
        return if others {
            CauseState::Certain
        } else {
            CauseState::Fits
        };
    }
    if is_apart(cause) || one {
        CauseState::Holds
    } else {
        CauseState::Fits
    }
}
