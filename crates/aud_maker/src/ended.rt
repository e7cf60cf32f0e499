//! How turns end.
ghost use Rattle.std.specs.Prelude.{◌≡◌};
ghost use Rattle.aud_maker.specs.Ended.{is_ended, are_ended};

use aud_node::Logs;
use aud_rooms::TurnPlace;
use aud_tap::NodeRec;

/// Whether each turn ends as it may: each but the last by its break, the last also with the session or with the log.
pub(crate) fn are_turns_ended(logs: &Logs<'_>, pid: &str, turns: &[TurnPlace]) -> bool
    ensures { result ≡ are_ended logs.now pid.now 0 turns.now }
{
    for (number, turn) in turns.iter().enumerate() {
        if !is_turn_ended(logs, pid, number, turn, number + 1 == turns.len()) {
            return false;
        }
    }
    true
}

/// Whether turn `number` ends as it may.
fn is_turn_ended(logs: &Logs<'_>, pid: &str, number: usize, turn: &TurnPlace, is_last: bool) -> bool
    ensures { result ≡ is_ended logs.now pid.now number turn.now is_last }
{
    let Some(log) = logs.node(turn.node) else {
        return is_last && turn.to == 0;
    };
    let recs = log.recs();
    match recs.get(turn.to.saturating_sub(1)) {
        Some(NodeRec::Broke { pid: other, turn }) if other.as_str() == pid => {
            usize::from(*turn) == number
        }
        Some(NodeRec::Gone { pid: other }) if other.as_str() == pid => is_last,
        _ => is_last && turn.to == recs.len(),
    }
}
