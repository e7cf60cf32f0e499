//! What shows that an event came with another content than its entry's.
ghost use Rattle.std.specs.Prelude.{◌≡◌, IfOk, map};
ghost use Rattle.aud_rows.specs.Seen.{row_seen};
ghost use Rattle.aud_rows.specs.ClientPlaces.{AreOf};
ghost use Rattle.aud_session_facts.specs.ContentRows.{altered_rows};
ghost use Rattle.aud_session_facts.specs.RowLists.{AreTrueRows};
ghost use Rattle.aud_session_facts.specs.SessionRows.{session_of};

use crate::shown::pushed::push_row;
use crate::shown::session::ShownSession;
use aud_check::Altered;
use aud_rows::{Role, Row};
use std::alloc::{AllocError, Global};

/// The rows of the entry and of the frame that isn't it. A record whose line isn't known has no row.
pub fn altered_rows<'r>(
    alloc: Global,
    session: &ShownSession<'_, 'r, '_>,
    altered: Altered,
) -> Result<Vec<Row<'r>>, AllocError>
    requires { AreOf session.now.sheet.recording.now session.now.tap.now }
    ensures rows { IfOk result (λ rows. map row_seen rows.items
        ≡ altered_rows (session_of session.now) altered) }
    ensures truth { IfOk result (λ rows.
        AreTrueRows session.now.sheet.recording.now session.now.sheet.lines.now rows.items) }
{
    let mut rows = Vec::new(alloc);
    push_row(&mut rows, session.entry_row(altered.position))?;
    push_row(&mut rows, session.got_row(altered.frame, Role::Fault))?;
    Ok(rows)
}
