//! What shows that what was received parts from what was due.
ghost use Rattle.std.specs.Prelude.{◌≡◌, IfOk, map};
ghost use Rattle.aud_rows.specs.Seen.{row_seen};
ghost use Rattle.aud_rows.specs.ClientPlaces.{AreOf};
ghost use Rattle.aud_session_facts.specs.DifferenceRows.{difference_rows, doubled_rows, due_rows};
ghost use Rattle.aud_session_facts.specs.RowLists.{AreTrueRows};
ghost use Rattle.aud_session_facts.specs.SessionRows.{session_of};

use crate::shown::pushed::push_row;
use crate::shown::session::ShownSession;
use aud_check::Difference;
use aud_rows::{Role, Row};
use std::alloc::{AllocError, Global};

/// The rows that show the difference: the entry in question, where the session first reached it, and the frames. A
/// record whose line isn't known has no row.
pub fn difference_rows<'r>(
    alloc: Global,
    session: &ShownSession<'_, 'r, '_>,
    difference: Difference,
) -> Result<Vec<Row<'r>>, AllocError>
    requires { AreOf session.now.sheet.recording.now session.now.tap.now }
    ensures rows { IfOk result (λ rows. map row_seen rows.items
        ≡ difference_rows (session_of session.now) difference) }
    ensures truth { IfOk result (λ rows.
        AreTrueRows session.now.sheet.recording.now session.now.sheet.lines.now rows.items) }
{
    match difference {
        Difference::Extra { frame, position } => due_rows(alloc, session, position, frame, None),
        Difference::Doubled {
            first,
            again,
            position,
        } => doubled_rows(alloc, session, position, first, again),
        Difference::Swapped { frame, due, later } => {
            due_rows(alloc, session, due, frame, Some(later))
        }
        Difference::Lost { frame, due } => due_rows(alloc, session, due, frame, None),
    }
}

/// The entry at the position, where it was first reached, the frame, and a later one, if there is any.
fn due_rows<'r>(
    alloc: Global,
    session: &ShownSession<'_, 'r, '_>,
    position: u64,
    frame: usize,
    later: Option<usize>,
) -> Result<Vec<Row<'r>>, AllocError>
    requires { AreOf session.now.sheet.recording.now session.now.tap.now }
    ensures rows { IfOk result (λ rows. map row_seen rows.items
        ≡ due_rows (session_of session.now) position frame later) }
    ensures truth { IfOk result (λ rows.
        AreTrueRows session.now.sheet.recording.now session.now.sheet.lines.now rows.items) }
{
    let mut rows = Vec::new(alloc);
    push_row(&mut rows, session.entry_row(position))?;
    push_row(&mut rows, session.reached_row(position))?;
    push_row(&mut rows, session.got_row(frame, Role::Fault))?;
    if let Some(later) = later {
        push_row(&mut rows, session.got_row(later, Role::Later))?;
    }
    Ok(rows)
}

/// The entry at the position, its first frame, what was asked before the second, and that.
fn doubled_rows<'r>(
    alloc: Global,
    session: &ShownSession<'_, 'r, '_>,
    position: u64,
    first: usize,
    again: usize,
) -> Result<Vec<Row<'r>>, AllocError>
    requires { AreOf session.now.sheet.recording.now session.now.tap.now }
    ensures rows { IfOk result (λ rows. map row_seen rows.items
        ≡ doubled_rows (session_of session.now) position first again) }
    ensures truth { IfOk result (λ rows.
        AreTrueRows session.now.sheet.recording.now session.now.sheet.lines.now rows.items) }
{
    let mut rows = Vec::new(alloc);
    push_row(&mut rows, session.entry_row(position))?;
    push_row(&mut rows, session.got_row(first, Role::Earlier))?;
    push_row(&mut rows, session.asked_row(again))?;
    push_row(&mut rows, session.got_row(again, Role::Fault))?;
    Ok(rows)
}
