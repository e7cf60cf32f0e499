//! The turns of a session.
ghost use Rattle.std.specs.Prelude.{◌≡◌, IfOk, map};
ghost use Rattle.std.specs.Option.{option_copied};
ghost use Rattle.aud_findings.specs.ShownTurn.{turn_seen};
ghost use Rattle.aud_explain_app.specs.Turns.{turns_told};

use aud_explanation::TurnShown;
use aud_findings::{turns_of_chain, turns_of_marks};
use aud_rows::Sheet;
use aud_session_facts::{Account, turn_marks};
use std::alloc::{AllocError, Global};

/// The turns of the session: those of its certificate where it has an account, else those that its records on the nodes
/// begin.
pub(crate) fn turns_of<'r>(
    alloc: Global,
    sheet: &Sheet<'r, '_>,
    pid: &str,
    account: Option<&Account<'_, '_>>,
) -> Result<Vec<TurnShown<'r>>, AllocError>
    ensures { IfOk result (λ turns. map turn_seen turns.items
        ≡ turns_told sheet.now.recording.now sheet.now.lines.now pid.now
        (option_copied account.entry)) }
{
    match account {
        Some(account) => turns_of_chain(alloc, sheet, account.cert.turns.as_slice()),
        None => {
            let marks = turn_marks(alloc, sheet.recording.logs(), pid)?;
            turns_of_marks(alloc, sheet, marks.as_slice())
        }
    }
}
