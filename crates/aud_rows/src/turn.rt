//! The rows of a session's turns.
ghost use Rattle.std.specs.Prelude.{◌≡◌, ◌<◌, true, IfSome};
ghost use Rattle.std.specs.Option.{option_map};
ghost use Rattle.aud_rows.specs.Seen.{row_seen};
ghost use Rattle.aud_rows.specs.TrueRow.{IsTrueRow};
ghost use Rattle.aud_rows.specs.TurnRows.{begin_row, break_row, is_broken};

use crate::row::{Role, Row};
use crate::sheet::Sheet;
use aud_node::Logs;
use aud_rooms::TurnPlace;
use aud_tap::NodeRec;

impl<'r, 'a> Sheet<'r, 'a> {
    /// The row of a turn's first record, which is its `open` or its `back`.
    pub fn begin_row(&self, turn: TurnPlace) -> Option<Row<'r>>
        ensures row { option_map row_seen result
            ≡ begin_row self.now.recording.now self.now.lines.now turn }
        ensures truth { IfSome result (IsTrueRow self.now.recording.now self.now.lines.now) }
    {
        self.node_row(turn.node, turn.from, Role::Back)
    }

    /// The row of a turn's last record, where that is a `break`.
    pub fn break_row(&self, turn: TurnPlace) -> Option<Row<'r>>
        ensures row { option_map row_seen result
            ≡ break_row self.now.recording.now self.now.lines.now turn }
        ensures truth { IfSome result (IsTrueRow self.now.recording.now self.now.lines.now) }
    {
        if is_broken(self.recording.logs(), turn) {
            self.node_row(turn.node, turn.to - 1, Role::Break)
        } else {
            None
        }
    }
}

/// Whether the turn has records, and the last of them is a `break`.
fn is_broken(logs: &Logs<'_>, turn: TurnPlace) -> bool
    ensures broken { result ≡ is_broken logs.now turn }
    ensures last { result ≡ true → 0 < turn.to }
{
    if turn.to <= turn.from {
        return false;
    }
    let Some(log) = logs.node(turn.node) else {
        return false;
    };
    matches!(log.recs().get(turn.to - 1), Some(NodeRec::Broke { .. }))
}
