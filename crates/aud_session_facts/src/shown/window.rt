//! What shows that a recovery was asked for where it does not fit what had come.
ghost use Rattle.std.specs.Prelude.{◌≡◌, IfOk, IfSome, map, option_map};
ghost use Rattle.aud_rows.specs.Seen.{row_seen};
ghost use Rattle.aud_rows.specs.ClientPlaces.{AreOf};
ghost use Rattle.aud_rows.specs.TrueRow.{IsTrueRow};
ghost use Rattle.aud_session_facts.specs.RowLists.{AreTrueRows};
ghost use Rattle.aud_session_facts.specs.SessionRows.{session_of};
ghost use Rattle.aud_session_facts.specs.WindowRows.{before_row, later_row, window_rows};

use crate::shown::pushed::push_row;
use crate::shown::session::ShownSession;
use aud_check::{BadWindow, Misfit};
use aud_rows::{Role, Row};
use std::alloc::{AllocError, Global};

/// The rows of the last frame before, where what was asked is behind it; of what was asked, and its reply; and of the
/// next frame, where what was asked isn't behind that. A record whose line isn't known has no row.
pub fn window_rows<'r>(
    alloc: Global,
    session: &ShownSession<'_, 'r, '_>,
    window: BadWindow,
) -> Result<Vec<Row<'r>>, AllocError>
    requires { AreOf session.now.sheet.recording.now session.now.tap.now }
    ensures rows { IfOk result (λ rows. map row_seen rows.items
        ≡ window_rows (session_of session.now) window) }
    ensures truth { IfOk result (λ rows.
        AreTrueRows session.now.sheet.recording.now session.now.sheet.lines.now rows.items) }
{
    let mut rows = Vec::new(alloc);
    push_row(&mut rows, before_row(session, window.why))?;
    push_row(&mut rows, session.ask_of_stay(window.stay, Role::Fault))?;
    push_row(&mut rows, session.reply_of_stay(window.stay, Role::Reply))?;
    push_row(&mut rows, later_row(session, window.why))?;
    Ok(rows)
}

/// The row of the frame that what was asked is behind.
fn before_row<'r>(session: &ShownSession<'_, 'r, '_>, why: Misfit) -> Option<Row<'r>>
    requires { AreOf session.now.sheet.recording.now session.now.tap.now }
    ensures row { option_map row_seen result ≡ before_row (session_of session.now) why }
    ensures truth { IfSome result
        (IsTrueRow session.now.sheet.recording.now session.now.sheet.lines.now) }
{
    match why {
        Misfit::Behind { frame } => session.got_row(frame, Role::Earlier),
        _ => None,
    }
}

/// The row of the frame that what was asked is not behind.
fn later_row<'r>(session: &ShownSession<'_, 'r, '_>, why: Misfit) -> Option<Row<'r>>
    requires { AreOf session.now.sheet.recording.now session.now.tap.now }
    ensures row { option_map row_seen result ≡ later_row (session_of session.now) why }
    ensures truth { IfSome result
        (IsTrueRow session.now.sheet.recording.now session.now.sheet.lines.now) }
{
    match why {
        Misfit::NotBehind { frame } => session.got_row(frame, Role::Later),
        _ => None,
    }
}
